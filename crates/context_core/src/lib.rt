//! The state of the calls of the one thread that makes and destroys things, sets views, begins encoders and ends frames: what
//! stands below a context, a renderer's own loop, or a library for other languages. It waits for nobody.
#![tactic(auto)]

mod begin;
mod context;
mod creates;
mod crossing;
mod ending;
mod freeing;
mod gathering;
mod last;
mod marks;
mod updates;
mod views;

ghost use Rattle.context_core.specs.Laws.{ItemsLaw, TargetsLaw, AttachedLaw, StaysLaw};

pub use begin::Lent;
pub use context::ContextCore;
pub use draw_encoder::{Recorder, Recording, Room};
pub use ending::{FrameEnd, NotReady, Prepared};
pub use resource_book::Start;
pub use texture_store::TexSource;

/// What encoders recorded in a frame names things that live or die in it, where its handles are ones that the context gave.
pub fn items_law()
    ensures { ItemsLaw }
{}

/// The targets of a frame's views are frame buffers that live or die in it, where their handles are ones that the context gave.
pub fn targets_law()
    ensures { TargetsLaw }
{}

/// In each frame in which a frame buffer can be named, the textures that it holds can be named too. What a context keeps of the
/// targets of frames that are out, it so keeps of their textures.
pub fn attached_law()
    ensures { AttachedLaw }
{}

/// Where what could be named in a frame can be named still, what recordings of that frame name, and the targets of its views, can be
/// named in it still. So whoever keeps frames that are out knows by the clause `stays` of each call that what they name stays.
pub fn stays_law()
    ensures { StaysLaw }
{}

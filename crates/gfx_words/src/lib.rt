//! The words of the drawing interface: kinds and handles of things, state, stencil and place words, flags, refusals, rooms and journal entries.
#![tactic(auto)]

mod flags;
mod handles;
mod journal;
mod kinds;
mod names;
mod places;
mod refusals;
mod rooms;
mod sources;
mod states;
mod stencils;

pub use flags::{ClearFlags, DiscardFlags};
pub use handles::Handle;
pub use journal::JournalEntry;
pub use kinds::{
    FEWEST_VIEWS, Format, Info, Kind, MOST_VIEWS, ProgramKind, UniformKind, UniformValue, ViewMode,
    view_counts,
};
pub use names::{HandleName, one_word_one_name};
pub use places::PlaceWord;
pub use refusals::Refusal;
pub use rooms::{MOST_ROOM_BYTES, MOST_ROOM_ITEMS, MOST_ROOM_UNIFORMS, Room, room_limits};
pub use sources::TexSource;
pub use states::StateWord;
pub use stencils::StencilWord;

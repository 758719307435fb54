// The context that C holds.
ghost use Rattle.std.specs.Prelude.{◌≡◌, ◌≤◌, ◌+◌, ◌*◌, ◌&&◌, not, true, [], IfOk};
ghost use Rattle.hold_table.specs.Seats.{table_of};
ghost use Rattle.context_core.specs.States.{opened_core};
ghost use Rattle.c_calls.specs.Calls.{IsOpened, OpensHere, first_rendering, is_side};
ghost use Rattle.c_calls.specs.Rendered.{rendering_of};
ghost use Rattle.c_calls.specs.Standings.{is_open};
ghost use Rattle.c_words.specs.Things.{named, named_or_none};

use crate::picture::PictureSink;
use crate::standing::Standing;
use c_words::{Fault, Things};
use context_core::{ContextCore, Start};
use gfx_words::{Handle, Refusal};
use hold_table::HoldTable;
use letter_boxes::{Shared, Unclaimed};
use render_core::Renderer;
use std::alloc::{AllocError, Global};
use std::marker::Model;
use std::sync::Arc;

/// How a context starts: with frame 0, serial 1 and 512 views, and with no frame out after a call.
pub(crate) const START: Start = Start {
    frame: 0,
    serial: 1,
    views: 512,
    latency: 1,
};

/// How many bytes the text of a picture has before its pixels, at most.
const MOST_HEADER: usize = 17;

/// The state of the calls of one thread, and a renderer in place. Contracts see a `ContextView`.
#[derive(Drop)]
pub struct Context {
    pub(crate) alloc: Global,
    pub(crate) shared: Arc<Shared<Unclaimed>>,
    pub(crate) core: ContextCore,
    pub(crate) things: Things,
    pub(crate) lent: Option<Arc<Things>>,
    pub(crate) renderer: Renderer<PictureSink>,
    pub(crate) standing: Standing,
}

impl Model for Context {
    ghost use Rattle.std.specs.Prelude.{◌≡◌, IfSome};
    ghost use Rattle.hold_table.specs.Seats.{table_of};
    ghost use Rattle.c_calls.specs.Views.{ContextView, IsOn};
    ghost use Rattle.c_calls.specs.Rendered.{rendering_of};

    ghost Value = { ContextView };

    ghost view = { λ c. record { core = c.core; rows = c.things.rows.items; renderer = rendering_of c.renderer; standing = c.standing; most = c.renderer.sink.capacity } };

    ghost invariant = { λ c. IsOn (table_of c.shared.value.table) c.core × IfSome c.lent (λ a. a.value.rows.items ≡ c.things.rows.items) };
}

// Whether a picture or a texture can have a side of so many pixels.
pub(crate) fn is_length(side: u16) -> bool
    ensures same { result ≡ is_side side }
    ensures bounds { result ≡ true → (1 ≤ side) × (side ≤ 2048) }
{
    side >= 1 && side <= 2048
}

// A table with its letter boxes, and a core on it.
fn new_core(alloc: Global) -> Result<(Shared<Unclaimed>, ContextCore), AllocError>
    ensures { IfOk result (λ p. p.1 ≡ record { table = table_of p.0.table; state = opened_core (record { frame = 0; serial = 1; views = 512; latency = 1 }) }) }
{
    let (table, api) = HoldTable::new(alloc, START.frame)?;
    let shared = Shared::new(alloc, table)?;
    match ContextCore::new(alloc, api, START) {
        Ok(core) => Ok((shared, core)),
        Err(_) => Err(AllocError),
    }
}

// A sink for the text of a picture of these sides.
fn new_sink(alloc: Global, width: u16, height: u16) -> Result<PictureSink, AllocError>
    requires width { width ≤ 2048 }
    requires height { height ≤ 2048 }
    ensures { IfOk result (λ s. (s.text.items ≡ []) × (s.capacity ≡ 3 * (width * height) + 17) × (s.faults ≡ 0)) }
{
    let pixels = usize::from(width) * usize::from(height);
    PictureSink::new(alloc, 3 * pixels + MOST_HEADER)
}

// A renderer that has drawn nothing, with such a sink.
fn new_renderer(alloc: Global, width: u16, height: u16) -> Result<Renderer<PictureSink>, AllocError>
    requires width { (1 ≤ width) × (width ≤ 2048) }
    requires height { (1 ≤ height) × (height ≤ 2048) }
    ensures { IfOk result (λ r. rendering_of r ≡ first_rendering width height) }
{
    let sink = new_sink(alloc, width, height)?;
    match Renderer::new(alloc, width, height, sink) {
        Ok(renderer) => Ok(renderer),
        Err(_) => Err(AllocError),
    }
}

impl Context {
    /// A context with nothing made, whose pictures have these sides. `BadSize` where a side is not 1 to 2,048; `OutOfMemory`.
    pub(crate) fn new(alloc: Global, width: u16, height: u16) -> Result<Context, Fault>
        ensures { OpensHere result width height }
    {
        if !is_length(width) || !is_length(height) {
            return Err(Fault::Refused(Refusal::BadSize));
        }
        match Context::open(alloc, width, height) {
            Ok(context) => Ok(context),
            Err(_) => Err(Fault::Refused(Refusal::OutOfMemory)),
        }
    }

    fn open(alloc: Global, width: u16, height: u16) -> Result<Context, AllocError>
        requires width { (1 ≤ width) × (width ≤ 2048) }
        requires height { (1 ≤ height) × (height ≤ 2048) }
        requires sides { is_side width && is_side height ≡ true }
        ensures { IfOk result (IsOpened width height) }
    {
        let (boxes, core) = new_core(alloc)?;
        let shared = Arc::new(alloc, boxes)?;
        let things = Things::new(alloc)?;
        let renderer = new_renderer(alloc, width, height)?;
        Ok(Context {
            alloc,
            shared,
            core,
            things,
            lent: None,
            renderer,
            standing: Standing::Open,
        })
    }

    /// The handle that was given for a word.
    pub(crate) fn find(&self, word: u64) -> Option<Handle>
        ensures { result ≡ named self.now.rows word }
    {
        self.things.find(word)
    }

    /// `Some(None)` for 0, and else the handle that was given for a word, where there is one.
    pub(crate) fn find_maybe(&self, word: u64) -> Option<Option<Handle>>
        ensures { result ≡ named_or_none self.now.rows word }
    {
        self.things.find_maybe(word)
    }

    /// How many bytes a picture has at most.
    pub(crate) fn most(&self) -> usize
        ensures { result ≡ self.now.most }
    {
        self.renderer.sink().capacity()
    }

    /// The number of the frame that is recorded.
    pub(crate) fn frame_number(&self) -> u32
        ensures { result ≡ self.now.core.state.book.resources.frame }
    {
        self.core.frame_number()
    }

    /// Whether no encoder begins and no frame ends any more.
    pub(crate) fn is_ended(&self) -> bool
        ensures { result ≡ not (is_open self.now.standing) }
    {
        !self.standing.is_open()
    }
}

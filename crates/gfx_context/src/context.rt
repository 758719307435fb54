// The context, how it begins, and what it tells.
ghost use Rattle.std.specs.Prelude.{◌≡◌, ◌≤◌, [], false, option_map, IfOk, IfErr};
ghost use Rattle.std.specs.List.{find};
ghost use Rattle.gfx_model.specs.Resources.{is_at};
ghost use Rattle.gfx_words.specs.Kinds.{kind_seen};
ghost use Rattle.hold_table.specs.Seats.{api_table, api_view};
ghost use Rattle.hold_table.specs.Views.{first_view};
ghost use Rattle.resource_laws.specs.Lawful.{IsLawful};
ghost use Rattle.resource_book.specs.Opened.{opened};
ghost use Rattle.frame_record.specs.Kept.{numbers_in};
ghost use Rattle.frame_record.specs.Links.{frames_of};
ghost use Rattle.gfx_context.specs.Kept.{IsContext};

use context_core::ContextCore;
use draw_encoder::{Naming, Shared};
use frame_record::FrameLink;
use gfx_words::{Handle, Kind};
use hold_table::ApiSeat;
use resource_book::Start;
use std::alloc::Global;
use std::marker::Model;

/// The state of the calls of one thread: a core on the named table, the queue of the bundles, and the link to which its frames go.
///
/// It is ended exactly after a frame that was not given; then no encoder begins and no frame ends, and `shutdown` is all that is of
/// use. Want of memory ends no context.
///
/// What a frame that is out names stays in its place: the things that its recordings name, and the targets of its views.
/// Contracts see a `ContextView`.
#[derive(Drop)]
pub struct Context<'t, C: Naming, L: FrameLink + Drop> {
    pub(crate) alloc: Global,
    pub(crate) shared: &'t Shared<C>,
    pub(crate) core: ContextCore,
    pub(crate) link: L,
}

impl<'t, C: Naming, L: FrameLink + Drop> Model for Context<'t, C, L> {
    ghost use Rattle.gfx_context.specs.States.{ContextView, context_of};
    ghost use Rattle.gfx_context.specs.Kept.{IsLinked};

    ghost Value = { ContextView L };

    ghost view = { λ c. context_of c.core.state (L.given c.link) (L.back c.link) c.link };

    ghost invariant = { λ c. IsLinked C.table C.admits C.views (L.latency c.link) c.core (L.given c.link) (L.back c.link) };
}

impl<'t, C: Naming, L: FrameLink + Drop> Context<'t, C, L> {
    /// Begins: nothing is made, begun or out. The seat is the one that came with the named table, the views are as many as named,
    /// and the link has come by its latency. `Err` only for want of memory; the seat and the link come back.
    pub fn init(
        alloc: Global,
        shared: &'t Shared<C>,
        seat: ApiSeat,
        link: L,
        start: Start,
    ) -> Result<Context<'t, C, L>, (ApiSeat, L)>
        requires table { api_table seat ≡ C.table }
        requires seat { api_view seat ≡ first_view start.frame }
        requires frame { start.frame ≤ 1073741823 }
        requires serial { 1 ≤ start.serial }
        requires views { start.views ≡ C.views }
        requires latency { (1 ≤ start.latency) × (start.latency ≤ 3) × (L.latency link ≡ start.latency) }
        requires none_out { L.given link ≡ frames_of (L.back link) }
        ensures begins { IfOk result (λ c. c ≡ record {
          book = opened start;
          seat = first_view start.frame;
          begun = 0;
          gathered = [];
          last = record { seat = first_view start.frame; recordings = [] };
          out = 0;
          is_ended = false;
          first = start.serial;
          given = L.given link;
          back = L.back link;
          link = link;
        }) }
        ensures comes_back { IfErr result (λ e. (e.0 ≡ seat) × (e.1 ≡ link)) }
    {
        match ContextCore::new(alloc, seat, start) {
            Ok(core) => Ok(Context {
                alloc,
                shared,
                core,
                link,
            }),
            Err(seat) => Err((seat, link)),
        }
    }

    /// The number of the frame that is recorded.
    pub fn frame_number(&self) -> u32
        ensures same { result ≡ self.now.book.resources.frame }
        ensures most { result ≤ 1073741823 }
    {
        self.core.frame_number()
    }

    /// The handle of the thing at a kind's index, live or waiting.
    pub fn handle_at(&self, kind: Kind, index: u16) -> Option<Handle>
        ensures { result ≡ option_map (λ t. t.handle) (find (is_at (kind_seen kind) index) self.now.book.resources.things) }
    {
        self.core.handle_at(kind, index)
    }

    /// How many frames may be out.
    pub fn latency(&self) -> u8
        ensures { result ≡ self.now.book.resources.latency }
    {
        self.core.latency()
    }

    /// How many encoders were begun in this frame.
    pub fn begun(&self) -> u32
        ensures { result ≡ self.now.begun }
    {
        self.core.begun()
    }

    /// How many frames are out.
    pub fn out(&self) -> u32
        ensures same { result ≡ self.now.out }
        ensures most { result ≤ self.now.book.resources.latency }
    {
        self.core.out()
    }

    /// Whether only `shutdown` is of use.
    pub fn is_ended(&self) -> bool
        ensures { result ≡ self.now.is_ended }
    {
        self.core.is_ended()
    }

    /// What every context keeps.
    pub fn tell_facts(&self)
        ensures lawful { IsLawful self.now.book.resources }
        ensures keeps { IsContext C.admits C.views self.now }
        ensures drawn { self.now.last.seat.numbers ≡ numbers_in self.now.last.recordings }
        ensures link { (L.given self.now.link ≡ self.now.given) × (L.back self.now.link ≡ self.now.back) × (L.latency self.now.link ≡ self.now.book.resources.latency) }
    {
        self.core.tell_facts();
    }
}

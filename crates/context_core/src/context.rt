// The core, how it begins, and what it tells.
ghost use Rattle.std.specs.Prelude.{◌≡◌, ◌<◌, ◌≤◌, ◌+◌, ◌-◌, [], option_map, vec_capacity, ⊤, IfOk, IfErr};
ghost use Rattle.std.specs.List.{find};
ghost use Rattle.gfx_model.specs.Resources.{is_at};
ghost use Rattle.gfx_model.specs.Views.{IsViewCount, view_count};
ghost use Rattle.gfx_words.specs.Kinds.{kind_seen};
ghost use Rattle.hold_table.specs.Seats.{api_table, api_view};
ghost use Rattle.hold_table.specs.Views.{first_view};
ghost use Rattle.resource_laws.specs.Lawful.{IsLawful};
ghost use Rattle.resource_book.specs.Opened.{opened};
ghost use Rattle.frame_record.specs.Kept.{numbers_in};
ghost use Rattle.context_core.specs.Gathered.{anything};
ghost use Rattle.context_core.specs.Kept.{IsCore};
ghost use Rattle.context_core.specs.States.{opened_core, frames_end};

use crate::last::Last;
use draw_encoder::Recording;
use frame_record::Frame;
use gfx_words::{Handle, Kind};
use hold_table::ApiSeat;
use resource_book::{Book, Start};
use std::alloc::{AllocError, Global};
use std::marker::Model;

/// How many encoders a frame can have.
pub(crate) const MOST_ENCODERS: usize = 8;

/// The state of the calls of one thread, with its seat of a hold table. Each call that changes a place, lends or joins a seat or
/// starts a frame takes the hold table of its seat. No call waits.
///
/// A frame ends in three steps: `prepare`, `make`, which makes the frame that is to be given, and `start_next`. Between the last
/// two the frame is given: there no encoder begins, nothing is made or destroyed, and no other frame is made.
///
/// It is ended exactly after `make` where the frame that came back was not shown, and after want of memory in `prepare`; then no
/// encoder begins and no frame ends.
///
/// A frame is out from the `make` that made it to the `came_back` that tells that it is not; the oldest comes back first. That
/// nobody reads a frame that came back is its caller's to see to. What could be named in a frame that is out can be named in it
/// still, as the clause `stays` tells of each call that changes a place.
/// Contracts see a `CoreView`.
#[derive(Drop)]
pub struct ContextCore {
    pub(crate) alloc: Global,
    pub(crate) api: ApiSeat,
    pub(crate) book: Book,
    pub(crate) views: u16,
    pub(crate) begun: u8,
    pub(crate) gathered: Vec<Recording>,
    pub(crate) last: Last,
    pub(crate) is_given: bool,
    pub(crate) out: u8,
    pub(crate) is_ended: bool,
    /// The serial at which it started.
    pub(crate) first: u32,
}

impl Model for ContextCore {
    ghost use Rattle.std.specs.Prelude.{◌≤◌, ⊤, vec_capacity};
    ghost use Rattle.gfx_model.specs.Views.{IsViewCount};
    ghost use Rattle.hold_table.specs.Seats.{api_table, api_view};
    ghost use Rattle.context_core.specs.Gathered.{anything};
    ghost use Rattle.context_core.specs.Kept.{IsCore};
    ghost use Rattle.context_core.specs.States.{CoreView};

    ghost Value = { CoreView };

    ghost view = { λ c. record {
      table = api_table c.api;
      state = record {
        book = c.book;
        seat = api_view c.api;
        begun = c.begun;
        gathered = c.gathered.items;
        last = record { seat = api_view c.last.seat.value; recordings = c.last.recordings.value.items };
        is_given = c.is_given;
        out = c.out;
        is_ended = c.is_ended;
        first = c.first;
      };
    } };

    ghost invariant = { λ c. (8 ≤ vec_capacity c.gathered) × IsViewCount c.views × IsCore anything c.views ⊤ (record {
      book = c.book;
      seat = api_view c.api;
      begun = c.begun;
      gathered = c.gathered.items;
      last = record { seat = api_view c.last.seat.value; recordings = c.last.recordings.value.items };
      is_given = c.is_given;
      out = c.out;
      is_ended = c.is_ended;
      first = c.first;
    }) };
}

fn parts(alloc: Global, start: Start) -> Result<(Book, Vec<Recording>), AllocError>
    requires views { IsViewCount start.views }
    requires frame { start.frame ≤ 1073741823 }
    requires serial { 1 ≤ start.serial }
    requires latency { (1 ≤ start.latency) × (start.latency ≤ 3) }
    ensures { IfOk result (λ p. (p.0 ≡ opened start) × (p.1.items ≡ []) × (8 ≤ vec_capacity p.1)) }
{
    let book = Book::new(alloc, start)?;
    let gathered = Vec::with_capacity(alloc, MOST_ENCODERS)?;
    Ok((book, gathered))
}

impl ContextCore {
    /// Begins: nothing is made, begun or out. The seat is as it came with its table. `Err` only for want of memory; the seat comes
    /// back.
    pub fn new(alloc: Global, seat: ApiSeat, start: Start) -> Result<ContextCore, ApiSeat>
        requires seat { api_view seat ≡ first_view start.frame }
        requires frame { start.frame ≤ 1073741823 }
        requires serial { 1 ≤ start.serial }
        requires views { IsViewCount start.views }
        requires latency { (1 ≤ start.latency) × (start.latency ≤ 3) }
        ensures begins { IfOk result (λ c. c ≡ record { table = api_table seat; state = opened_core start }) }
        ensures comes_back { IfErr result (λ s. s ≡ seat) }
    {
        match parts(alloc, start) {
            Ok((book, gathered)) => {
                let last = Last::of(&seat, &gathered);
                Ok(ContextCore {
                    alloc,
                    api: seat,
                    book,
                    views: start.views,
                    begun: 0,
                    gathered,
                    last,
                    is_given: false,
                    out: 0,
                    is_ended: false,
                    first: start.serial,
                })
            }
            Err(_) => Err(seat),
        }
    }

    /// The number of the frame that is recorded.
    pub fn frame_number(&self) -> u32
        ensures same { result ≡ self.now.state.book.resources.frame }
        ensures most { result ≤ 1073741823 }
    {
        self.book.frame()
    }

    /// The handle of the thing at a kind's index, live or waiting.
    pub fn handle_at(&self, kind: Kind, index: u16) -> Option<Handle>
        ensures { result ≡ option_map (λ t. t.handle) (find (is_at (kind_seen kind) index) self.now.state.book.resources.things) }
    {
        self.book.handle_at(kind, index)
    }

    /// How many frames may be out.
    pub fn latency(&self) -> u8
        ensures { result ≡ self.now.state.book.resources.latency }
    {
        self.book.latency()
    }

    /// How many encoders were begun in this frame.
    pub fn begun(&self) -> u32
        ensures { result ≡ self.now.state.begun }
    {
        self.begun as u32
    }

    /// Whether the frame was given, and the next one has not started.
    pub fn is_given(&self) -> bool
        ensures { result ≡ self.now.state.is_given }
    {
        self.is_given
    }

    /// How many frames are out.
    pub fn out(&self) -> u32
        ensures same { result ≡ self.now.state.out }
        ensures most { result ≤ self.now.state.book.resources.latency }
    {
        self.out as u32
    }

    /// Whether no encoder begins and no frame ends.
    pub fn is_ended(&self) -> bool
        ensures { result ≡ self.now.state.is_ended }
    {
        self.is_ended
    }

    /// The oldest frame that is out is out no longer, and what it names may go. Nobody reads it any more.
    pub fn came_back(&mut self, frame: &Frame)
        requires some { 0 < self.old.state.out }
        requires oldest { frame.now.number + self.old.state.out ≡ frames_end self.old.state }
        ensures { self.new ≡ record self.old { state = record self.old.state { out = self.old.state.out - 1 } } }
    {
        let _ = frame;
        self.out -= 1;
    }

    /// What every core keeps.
    pub fn tell_facts(&self)
        ensures lawful { IsLawful self.now.state.book.resources }
        ensures views { IsViewCount (view_count self.now.state.book.resources.views) }
        ensures keeps { IsCore anything (view_count self.now.state.book.resources.views) ⊤ self.now.state }
        ensures drawn { self.now.state.last.seat.numbers ≡ numbers_in self.now.state.last.recordings }
    {
        self.book.tell_facts();
    }

    /// The seat, at the end. What was gathered and not given is given up.
    pub fn into_seat(self) -> ApiSeat
        ensures table { api_table result ≡ self.table }
        ensures seat { api_view result ≡ self.state.seat }
    {
        let ContextCore { api, .. } = self;
        api
    }
}

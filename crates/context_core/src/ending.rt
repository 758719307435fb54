// The end of a frame.
ghost use Rattle.std.specs.Prelude.{◌≡◌, ◌<◌, ◌≤◌, ◌+◌, [], ℕ, map, length, true, false, None, vec_capacity, MatchResult};
ghost use Rattle.gfx_model.specs.Frames.{collected};
ghost use Rattle.gfx_model.specs.Resources as model;
ghost use Rattle.gfx_model.specs.FrameCalls.{end_frame, frame_refusal};
ghost use Rattle.schedule_model.specs.Held.{count_of};
ghost use Rattle.hold_table.specs.Seats.{table_of, api_table, api_view};
ghost use Rattle.hold_table.specs.Views.{advanced, once_between};
ghost use Rattle.resource_book.specs.Works.{with_nothing_written};
ghost use Rattle.frame_record.specs.Kept.{IsCollectable};
ghost use Rattle.frame_record.specs.Seen.{entry_seen, recordings_seen};
ghost use Rattle.context_core.specs.Kept.{IsTied, KeepsOut};
ghost use Rattle.context_core.specs.Places.{Stays};
ghost use Rattle.context_core.specs.States.{state_of};
ghost use Rattle.context_core.specs.Ended.{IsPrepared};

use crate::context::{ContextCore, MOST_ENCODERS};
use crate::freeing::free_words;
use crate::last::Last;
use draw_encoder::Recording;
use frame_record::{Frame, JournalEntry, collect};
use hold_table::{ApiSeat, HoldTable};
use resource_book::{Book, Work};
use std::alloc::{AllocError, Global};
use std::mem;

const GREATEST_FRAME: u32 = 1_073_741_823;

/// What the end of a frame needs memory for, and the work of the frame. What was written in the frame is in it alone: whoever
/// drops it gives that up, and one that is prepared after it has none of it.
#[derive(Drop)]
pub struct Prepared {
    pub work: Work,
    /// The frame's journal, and one for whoever ends the frame.
    pub journal: Vec<JournalEntry>,
    pub told: Vec<JournalEntry>,
    /// Room for the recordings of the next frame.
    pub room: Vec<Recording>,
}

/// Why the end of a frame is not prepared.
#[derive(Clone, Copy, Drop, PartialEq, Eq, Debug)]
pub enum NotReady {
    /// An encoder of the frame is off. Nothing changed: it can be tried again when all are gathered.
    EncodersOff,
    /// All frame numbers are used. Nothing changed.
    FramesSpent,
    /// There was no memory. Nothing changed.
    OutOfMemory,
}

/// The end of a frame: the frame that is to be given, if there is one, and its journal.
#[derive(Drop)]
pub struct FrameEnd {
    pub frame: Option<Frame>,
    pub journal: Vec<JournalEntry>,
}

fn prepare(alloc: Global, book: &mut Book, gathered: &[Recording]) -> Result<Prepared, AllocError>
    requires { IsCollectable gathered.now }
    ensures { MatchResult result
        (λ p. IsPrepared book.old gathered.now p × (book.new ≡ with_nothing_written book.old))
        (λ _. book.new ≡ book.old) }
{
    let journal = collect(alloc, gathered)?;
    let told = journal.clone()?;
    let room = Vec::with_capacity(alloc, MOST_ENCODERS)?;
    let work = book.take_work()?;
    Ok(Prepared {
        work,
        journal,
        told,
        room,
    })
}

/// Starts the next frame: numbers go on behind those that were gathered, and what no frame that is out can name is free again.
fn next_frame(table: &HoldTable, api: &mut ApiSeat, book: &mut Book)
    requires table { api_table api.old ≡ table_of table.now }
    requires tied { IsTied book.old.resources (api_view api.old) }
    requires none_off { (api_view api.old).off ≡ [] }
    requires last { book.old.resources.frame < 1073741823 }
    requires taken { book.old.post ≡ [] }
    ensures table { api_table api.new ≡ api_table api.old }
    ensures book { book.new ≡ record book.old { resources = model.start_frame (book.old.resources.frame + 1) book.old.resources } }
    ensures tied { IsTied book.new.resources (api_view api.new) }
    ensures seat { api_view api.new ≡ record (advanced (api_view api.new).base (api_view api.old)) { places = (api_view api.new).places } }
    ensures stays { (n : ℕ) → book.old.resources.frame + 1 ≤ n + book.old.resources.latency → Stays n (api_view api.old).places (api_view api.new).places }
    ensures once { (n : ℕ) → count_of n (api_view api.old).numbers ≡ once_between (api_view api.old).base (api_view api.new).base n }
    ensures counted { (api_view api.old).base + length (api_view api.old).numbers ≡ (api_view api.new).base }
{
    book.tell_facts();
    let next = book.frame() + 1;
    let latency = book.latency();
    table.advance(api);
    free_words(table, api, book.rows(), latency, next);
    book.start_frame(next);
}

impl ContextCore {
    ghost use Rattle.context_core.specs.Ended.{Prepares, MakesFrame, Finishes, StartsNext};

    /// Prepares the end of the frame: takes what was written, and all memory that is needed. The core is not ended.
    ///
    /// `EncodersOff` exactly where an encoder of the frame was begun and not gathered; then `FramesSpent` exactly where the
    /// number is 1,073,741,823. Whatever cause is answered, nothing changed; after want of memory it can be tried again.
    pub fn prepare(&mut self) -> Result<Prepared, NotReady>
        requires running { self.old.state.is_ended ≡ false }
        ensures { Prepares result self.old self.new }
    {
        if self.off() > 0 {
            return Err(NotReady::EncodersOff);
        }
        if self.book.frame() >= GREATEST_FRAME {
            return Err(NotReady::FramesSpent);
        }
        let Ok(prepared) = prepare(self.alloc, &mut self.book, self.gathered.as_slice()) else {
            return Err(NotReady::OutOfMemory);
        };
        Ok(prepared)
    }

    // The frame of the work and of what was gathered, which is given from then on.
    fn give(&mut self, work: Work, journal: Vec<JournalEntry>, room: Vec<Recording>) -> Frame
        requires not_given { self.old.state.is_given ≡ false }
        requires none_off { self.old.state.seat.off ≡ [] }
        requires out { self.old.state.out < self.old.state.book.resources.latency }
        requires accepted { frame_refusal (state_of self.old.state) end_frame ≡ None }
        requires views { work.views ≡ self.old.state.book.resources.views }
        requires room { (room.items ≡ []) × (8 ≤ vec_capacity room) }
        requires journal { map entry_seen journal.items ≡ collected (recordings_seen self.old.state.gathered) }
        ensures { MakesFrame work result self.old self.new }
    {
        let Work {
            views,
            pre,
            post,
            payloads,
        } = work;
        let last = Last::of(&self.api, &self.gathered);
        let recordings = mem::replace(&mut self.gathered, room);
        let number = self.book.frame();
        let frame = Frame::new(number, views, pre, post, payloads, recordings, journal);
        self.last = last;
        self.is_given = true;
        self.out += 1;
        frame
    }

    /// Makes the frame of what was prepared, which is given and out from then on; or ends the core, where the frame that came back
    /// before was not shown. `is_shown` is true where none came back. `start_next` follows, when the frame is handed over.
    ///
    /// The conditions are what `prepare` told: the core is not ended, no encoder was begun since, and no view was set. The frame was
    /// not given before, and fewer frames are out than may be where one is to be given.
    pub fn make(&mut self, prepared: Prepared, is_shown: bool) -> FrameEnd
        requires running { self.old.state.is_ended ≡ false }
        requires not_given { self.old.state.is_given ≡ false }
        requires none_off { self.old.state.seat.off ≡ [] }
        requires out { is_shown ≡ true → self.old.state.out < self.old.state.book.resources.latency }
        requires accepted { frame_refusal (state_of self.old.state) end_frame ≡ None }
        requires views { prepared.work.views ≡ self.old.state.book.resources.views }
        requires room { (prepared.room.items ≡ []) × (8 ≤ vec_capacity prepared.room) }
        requires journal { map entry_seen prepared.journal.items ≡ collected (recordings_seen self.old.state.gathered) }
        ensures answer { Finishes is_shown prepared.work result.frame self.old self.new }
        ensures told { result.journal ≡ prepared.told }
    {
        let Prepared {
            work,
            journal,
            told,
            room,
        } = prepared;
        if !is_shown {
            self.is_ended = true;
            return FrameEnd {
                frame: None,
                journal: told,
            };
        }
        let frame = self.give(work, journal, room);
        FrameEnd {
            frame: Some(frame),
            journal: told,
        }
    }

    /// Starts the frame after the one that was given: numbers go on behind those that were gathered, and what no frame that is out can
    /// name is free again. Nothing was destroyed since the work of the frame was taken.
    pub fn start_next(&mut self, table: &HoldTable)
        requires table { self.old.table ≡ table_of table.now }
        requires given { self.old.state.is_given ≡ true }
        requires taken { self.old.state.book.post ≡ [] }
        ensures starts { StartsNext self.old self.new }
        ensures stays { KeepsOut self.old.state self.new.state }
    {
        self.book.tell_facts();
        next_frame(table, &mut self.api, &mut self.book);
        self.begun = 0;
        self.is_given = false;
    }
}

// The end of a frame.
ghost use Rattle.std.specs.Prelude.{◌≡◌, ◌<◌, ◌≤◌, ◌+◌, [], map, true, false, None, vec_capacity, MatchOption};
ghost use Rattle.gfx_model.specs.Frames.{collected};
ghost use Rattle.gfx_model.specs.FrameCalls.{end_frame, frame_refusal};
ghost use Rattle.frame_record.specs.Seen.{entry_seen, recordings_seen};
ghost use Rattle.gfx_context.specs.States.{state_of};
ghost use Rattle.hold_table.specs.Seats.{table_of};
ghost use Rattle.context_core.specs.Ended.{StartsNext};
ghost use Rattle.context_core.specs.Kept.{KeepsOut};
ghost use Rattle.gfx_context.specs.Ended.{is_shown, IsLast};

use crate::context::Context;
use crate::report::{BackNote, FrameReport};
use context_core::{ContextCore, FrameEnd, NotReady, Prepared};
use draw_encoder::Naming;
use frame_record::{FrameLink, JournalEntry, Outcome};
use gfx_words::Refusal;
use hold_table::HoldTable;
use std::sync::Wait;

impl<'t, C: Naming, L: FrameLink + Drop> Context<'t, C, L> {
    ghost use Rattle.gfx_context.specs.Ended.{IsBack, MakesWay, FinishesWhere, IsEnd, TellsOrderDrawn, CollectsAndEnds};

    /// Takes the oldest frame that is out back.
    pub(crate) fn take_one(&mut self) -> BackNote
        requires { 0 < self.old.out }
        ensures back { IsBack result self.old.given self.old.back self.new.back }
        ensures out { self.new.out + 1 ≡ self.old.out }
        ensures origin { L.origin self.new.link ≡ L.origin self.old.link }
        ensures same { self.new ≡ record self.old { out = self.new.out; back = self.new.back; link = self.new.link } }
    {
        self.core.tell_facts();
        let back = self.link.take_back();
        self.core.came_back(&back.frame);
        BackNote {
            number: back.frame.number,
            outcome: back.outcome,
        }
    }

    fn make_way(&mut self) -> Option<BackNote>
        ensures back { MakesWay result self.old self.new.back }
        ensures out { MatchOption result (self.new.out ≡ self.old.out) (λ n. self.new.out + 1 ≡ self.old.out) }
        ensures origin { L.origin self.new.link ≡ L.origin self.old.link }
        ensures same { self.new ≡ record self.old { out = self.new.out; back = self.new.back; link = self.new.link } }
    {
        self.core.tell_facts();
        if self.core.out() < self.core.latency() as u32 {
            return None;
        }
        Some(self.take_one())
    }

    /// Makes the frame, gives it to the link and starts the next one, or ends the context.
    fn finish(&mut self, prepared: Prepared, given: bool) -> Vec<JournalEntry>
        requires running { self.old.is_ended ≡ false }
        requires none_off { self.old.seat.off ≡ [] }
        requires out { given ≡ true → self.old.out < self.old.book.resources.latency }
        requires accepted { frame_refusal (state_of self.old) end_frame ≡ None }
        requires taken { (self.old.book.pre ≡ []) × (self.old.book.post ≡ []) × (self.old.book.payloads ≡ []) }
        requires views { prepared.work.views ≡ self.old.book.resources.views }
        requires room { (prepared.room.items ≡ []) × (8 ≤ vec_capacity prepared.room) }
        requires journal { map entry_seen prepared.journal.items ≡ collected (recordings_seen self.old.gathered) }
        ensures told { result ≡ prepared.told }
        ensures finishes { FinishesWhere given prepared.work self.old self.new }
        ensures origin { L.origin self.new.link ≡ L.origin self.old.link }
    {
        self.core.tell_facts();
        let FrameEnd { frame, journal } = self.core.make(prepared, given);
        match frame {
            None => journal,
            Some(frame) => {
                self.link.give(frame);
                start_next(&mut self.core, self.shared.table(), &self.link);
                journal
            }
        }
    }

    /// Ends the frame whose bundles are all gathered: takes the oldest frame that is out back where as many are out as may be,
    /// gives this frame, and starts the next one. Where the frame that came back was not shown, this one is not given, and the
    /// context is ended. It is called where the context is not ended.
    ///
    /// `FramesSpent` exactly where the number is 1,073,741,823. A refused end changes nothing; after want of memory it can be tried
    /// again.
    pub fn end(&mut self) -> Result<FrameReport, Refusal>
        requires running { self.old.is_ended ≡ false }
        requires none_off { self.old.seat.off ≡ [] }
        ensures answer { IsEnd result self.old self.new }
        ensures drawn { TellsOrderDrawn result self.new }
        ensures origin { L.origin self.new.link ≡ L.origin self.old.link }
    {
        let number = self.core.frame_number();
        let dropped = self.core.dropped();
        let prepared = match self.core.prepare() {
            Ok(prepared) => prepared,
            Err(NotReady::EncodersOff) => unreachable!(),
            Err(NotReady::FramesSpent) => return Err(Refusal::FramesSpent),
            Err(NotReady::OutOfMemory) => return Err(Refusal::OutOfMemory),
        };
        let back = self.make_way();
        let given = was_shown(&back);
        let told = self.finish(prepared, given);
        Ok(FrameReport {
            number,
            journal: told,
            dropped,
            back,
            given,
        })
    }

    /// Ends the frame: collects the bundle of each encoder that was begun in it, and waits for those that have not ended; then
    /// takes the oldest frame that is out back where as many are out as may be, gives this frame, and starts the next one. Where
    /// the frame that came back was not shown, this one is not given, and the context is ended. It is called where the context is
    /// not ended.
    ///
    /// The bundles are collected whatever is answered. `FramesSpent` exactly where the number is 1,073,741,823. A refused frame
    /// changes nothing else; after want of memory it can be tried again.
    pub fn frame<R: Wait>(&mut self, rt: &R) -> Result<FrameReport, Refusal>
        requires running { self.old.is_ended ≡ false }
        ensures answer { CollectsAndEnds C.admits C.views result self.old self.new }
        ensures drawn { TellsOrderDrawn result self.new }
        ensures origin { L.origin self.new.link ≡ L.origin self.old.link }
    {
        self.collect(rt);
        self.end()
    }
}

/// Starts the next frame, when the link has the one before it.
fn start_next<L: FrameLink>(core: &mut ContextCore, table: &HoldTable, link: &L)
    requires table { core.old.table ≡ table_of table.now }
    requires made { core.old.state.is_given ≡ true }
    requires given { IsLast core.old.state.book.resources.frame (L.given link.now) }
    requires taken { core.old.state.book.post ≡ [] }
    ensures starts { StartsNext core.old core.new }
    ensures stays { KeepsOut core.old.state core.new.state }
{
    let _ = link;
    core.start_next(table);
}

fn was_shown(back: &Option<BackNote>) -> bool
    ensures { result ≡ is_shown back.now }
{
    match back {
        None => true,
        Some(note) => matches!(note.outcome, Outcome::Shown),
    }
}

// A context behind a lock.
ghost use Rattle.std.specs.Prelude.{◌≡◌, ◌+◌, ◌<◌, ◌≤◌, ℕ, [], IfOk, IfErr, MatchResult};
ghost use Rattle.gfx_words.specs.declared.refusals.Refusal.TheVariants as refusals;
ghost use Rattle.draw_encoder.specs.Seen.{room_seen};
ghost use Rattle.gfx_context.specs.States.{state_of};
ghost use Rattle.res_lock.specs.declared.entry.LockRefusal.TheVariants as lock_refusals;
ghost use Rattle.res_lock.specs.Histories.{part_of, IsLegal};
ghost use Rattle.res_lock.specs.Seen.{call_seen, entries_seen};
ghost use Rattle.res_lock.specs.Seats.{log_table, table_of, pass_table, pass_view, caller_of, made_by, IsFirst, HasAll};
ghost use Rattle.res_lock.specs.Views.{split_from, split_off, joined_with, GoesOn};
ghost use Rattle.res_lock.specs.Called.{IsCreate, IsChange, IsSamePass, IsCreated, IsChanged, IsFramed, IsBegun};
ghost use Rattle.res_lock.specs.Locked.{IsOpening, IsKept, IsReport};
ghost use Rattle.res_lock.specs.Given.{HasGiven};

use crate::entry::{Entry, LockRefusal, ResCall};
use crate::log::Log;
use crate::naming::HistoryNaming;
use crate::state::LockState;
use crate::table::{HistoryTable, LogTable, ResPass};
use draw_encoder::{Bundle, Encoder, Naming};
use frame_record::FrameLink;
use gfx_context::{Context, FrameReport};
use gfx_words::{Handle, Refusal, Room};
use std::alloc::Global;
use std::sync::{Mutex, Wait};

/// A context behind a lock, with the history of its calls. Any thread calls it, by its own pass.
///
/// The history is legal from the named start: each reply is the definition's after the calls before it. A call makes room for its
/// entry first, and touches the context only then. After the call the pass has seen the history up to it: it begins with what the
/// pass had seen before, has no call of the pass between, and ends with the call.
///
/// A call makes an entry, except where it answers want of memory. Want of memory is free: a call that the context would refuse, or that
/// comes behind its end, may be answered so too, and then has no entry.
#[derive(Drop)]
pub struct ResLock<'t, C: Naming, L: FrameLink + Drop, H: HistoryNaming> {
    pub(crate) alloc: Global,
    table: LogTable,
    state: Mutex<LockState<'t, C, L, H>>,
    ghost named: { log_table table ≡ H.table },
}

impl<'t, C: Naming, L: FrameLink + Drop, H: HistoryNaming> ResLock<'t, C, L, H> {
    /// Puts a context behind the lock. The table is the named one; the named start is the state of the context's calls: nothing
    /// was made in it, no encoder begun, and it is not ended; the named book is what they wrote in this frame,
    /// and the named frames are those that were given. `Err` only for want of memory; the table and the context come back.
    pub fn new(
        alloc: Global,
        table: HistoryTable,
        context: Context<'t, C, L>,
    ) -> Result<ResLock<'t, C, L, H>, (HistoryTable, Context<'t, C, L>)>
        requires table { table_of table ≡ H.table }
        requires start { (state_of context ≡ H.start) × IsOpening H.start }
        requires book { context.book ≡ H.book }
        requires given { context.given ≡ H.given }
        ensures { IfErr result (λ e. (table_of e.0 ≡ table_of table) × (e.1 ≡ context.entry)) }
    {
        let HistoryTable { log, pen } = table;
        match LockState::new(alloc, context, pen) {
            Ok(state) => Ok(ResLock {
                alloc,
                table: log,
                state: Mutex::new(state),
            }),
            Err((context, pen)) => Err((HistoryTable { log, pen }, context)),
        }
    }

    /// Splits the pass of the next caller off the first pass. It has seen what the first has, and made nothing. It takes no memory.
    pub fn split(&self, pass: &mut ResPass) -> ResPass
        requires table { pass_table pass.old ≡ H.table }
        requires first { IsFirst pass.old }
        requires room { (pass_view pass.old).next ≤ 4294967295 }
        ensures first { (pass_view pass.new ≡ split_from (pass_view pass.old)) × (pass_table pass.new ≡ H.table) }
        ensures same { (caller_of pass.new ≡ caller_of pass.old) × (made_by pass.new ≡ made_by pass.old) }
        ensures other { (pass_view result ≡ split_off (pass_view pass.old)) × (pass_table result ≡ H.table) }
        ensures caller { (caller_of result ≡ (pass_view pass.old).next) × (made_by result ≡ 0) }
    {
        self.table.split(pass)
    }

    /// Joins a pass into the first. What both have seen are beginnings of what the first has seen then, which has no further
    /// entry of their callers.
    pub fn join(&self, pass: &mut ResPass, other: ResPass)
        requires table { (pass_table pass.old ≡ H.table) × (pass_table other ≡ H.table) }
        requires first { IsFirst pass.old }
        ensures first { (pass_view pass.new ≡ joined_with (pass_view pass.old) (pass_view other)) × (pass_table pass.new ≡ H.table) }
        ensures same { (caller_of pass.new ≡ caller_of pass.old) × (made_by pass.new ≡ made_by pass.old) }
        ensures own { GoesOn (pass_view pass.old).callers (pass_view pass.old).seen (pass_view pass.new).seen }
        ensures others { GoesOn (pass_view other).callers (pass_view other).seen (pass_view pass.new).seen }
    {
        self.table.join(pass, other);
    }

    /// Ends the lock. All other passes were joined into this one, the first, which so has seen the whole history. The context comes
    /// back, in the state after the history. It has written just what the calls of the frame that is recorded write, with the bytes,
    /// texels and names of the history. Of an ended context the frame that came back last has the outcome that the history tells.
    ///
    /// What was given behind the named frames is a frame for each entry that tells one, in their order: of its number, with what the calls
    /// before the entry wrote, and with one recording of each encoder that was begun in it.
    pub fn close(self, pass: ResPass) -> (Context<'t, C, L>, Vec<Entry>)
        requires table { pass_table pass ≡ H.table }
        requires all { IsFirst pass × HasAll pass }
        ensures whole { entries_seen result.1.items ≡ (pass_view pass).seen }
        ensures beyond { (c : ℕ) → (pass_view pass).next ≤ c → part_of c (entries_seen result.1.items) ≡ [] }
        ensures legal { IsLegal H.start (entries_seen result.1.items) }
        ensures state { IsKept H.start H.book (record { context = result.0; history = entries_seen result.1.items }) }
        ensures given { HasGiven C.admits C.views H.start H.book H.given (record { context = result.0; history = entries_seen result.1.items }) }
    {
        let ResLock {
            alloc: _,
            table,
            state,
        } = self;
        let (context, log) = state.into_inner().into_parts();
        let Log { history, pen } = log;
        table.close(pass, pen);
        (context, history)
    }

    /// Ends the frame, and waits for the encoders that were begun in it and have not ended; the lock is taken all the while.
    ///
    /// The report is one that a context with the state and the writings of the history can give: the number of the frame, the items of
    /// all encoders that were begun in it, the sum of the numbers that they ended with, the frame that came back, and whether this one was
    /// given. No clause says that the items of different encoders stand in the order of the frame that was given.
    ///
    /// `Ended` exactly where an earlier frame was not given; then `FramesSpent` exactly where the number is 1,073,741,823. A frame that
    /// is not given makes an entry that ends the context, with the outcome of `FrameReport.back`, which is that of the frame that came
    /// back. After want of memory the history is as before, and the frame can be ended again.
    pub fn frame<R: Wait>(&self, rt: &R, pass: &mut ResPass) -> Result<FrameReport, LockRefusal>
        requires table { pass_table pass.old ≡ H.table }
        requires few { made_by pass.old < 4294967295 }
        ensures pass { IsSamePass pass.old pass.new }
        ensures answer { IsFramed H.start result pass.old pass.new }
        ensures report { IfOk result (λ report. IsReport L C.admits C.views H.start H.book report (pass_view pass.new).seen) }
    {
        self.state.lock(rt).frame(rt, &self.table, pass)
    }

    /// Begins an encoder of the frame, which has drawn and asked nothing yet, and knows the places of the things that live or wait.
    /// It ends by `end`, or by `finish` and `gather`. `Ended` exactly where an earlier frame was not given; then `BadSize` exactly where the room is
    /// outside its limits; then `NoEncoder` exactly where eight were begun in the frame.
    pub fn begin<R: Wait>(
        &self,
        rt: &R,
        pass: &mut ResPass,
        room: Room,
    ) -> Result<Encoder<'t, C>, LockRefusal>
        requires table { pass_table pass.old ≡ H.table }
        requires few { made_by pass.old < 4294967295 }
        ensures pass { IsSamePass pass.old pass.new }
        ensures answer { IsBegun H.start (room_seen room) result pass.old pass.new }
    {
        self.state.lock(rt).begin(&self.table, pass, room)
    }

    /// Gathers the bundle of an encoder of the frame that is recorded, as `Encoder::finish` gave it. It makes no entry. What it changes
    /// only the next `frame` tells, which waits for each encoder that was begun and neither ended nor gathered.
    pub fn gather<R: Wait>(&self, rt: &R, bundle: Bundle<C>) {
        self.state.lock(rt).gather(bundle);
    }

    // A call that makes a thing.
    pub(crate) fn create<R: Wait>(
        &self,
        rt: &R,
        pass: &mut ResPass,
        call: ResCall,
    ) -> Result<Handle, LockRefusal>
        requires create { IsCreate (call_seen call) }
        requires table { pass_table pass.old ≡ H.table }
        requires few { made_by pass.old < 4294967295 }
        ensures pass { IsSamePass pass.old pass.new }
        ensures answer { IsCreated H.start (call_seen call) result pass.old pass.new }
    {
        self.state.lock(rt).create(&self.table, pass, call)
    }

    // A call that gives nothing.
    pub(crate) fn change<R: Wait>(
        &self,
        rt: &R,
        pass: &mut ResPass,
        call: ResCall,
    ) -> Result<(), LockRefusal>
        requires change { IsChange (call_seen call) }
        requires table { pass_table pass.old ≡ H.table }
        requires few { made_by pass.old < 4294967295 }
        ensures pass { IsSamePass pass.old pass.new }
        ensures answer { IsChanged H.start (call_seen call) result pass.old pass.new }
    {
        self.state.lock(rt).change(&self.table, pass, call)
    }

    // The bytes of a call, for its entry.
    pub(crate) fn kept_bytes(&self, bytes: &[u8]) -> Result<Vec<u8>, LockRefusal>
        ensures { MatchResult result (λ v. v.items ≡ bytes.now) (λ r. r ≡ lock_refusals.Refused refusals.OutOfMemory) }
    {
        match bytes.to_vec(self.alloc) {
            Ok(own) => Ok(own),
            Err(_) => Err(LockRefusal::Refused(Refusal::OutOfMemory)),
        }
    }

    // The ids of a call, for its entry.
    pub(crate) fn kept_ids(&self, ids: &[u16]) -> Result<Vec<u16>, LockRefusal>
        ensures { MatchResult result (λ v. v.items ≡ ids.now) (λ r. r ≡ lock_refusals.Refused refusals.OutOfMemory) }
    {
        match ids.to_vec(self.alloc) {
            Ok(own) => Ok(own),
            Err(_) => Err(LockRefusal::Refused(Refusal::OutOfMemory)),
        }
    }
}

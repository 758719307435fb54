// A context and the history of its calls, as they lie behind the lock.
ghost use Rattle.std.specs.Prelude.{◌≡◌, ◌<◌, false, [], Ok, Err, IfOk, IfErr};
ghost use Rattle.gfx_model.specs.FrameCalls.{frame_refusal, end_frame};
ghost use Rattle.draw_encoder.specs.Seen.{room_seen};
ghost use Rattle.hold_table.specs.Seats.{enc_view};
ghost use Rattle.gfx_context.specs.Ended.{Gathers};
ghost use Rattle.gfx_context.specs.States.{state_of};
ghost use Rattle.res_lock.specs.Seen.{call_seen, reply_seen};
ghost use Rattle.res_lock.specs.Seats.{log_table, pass_table, pass_view, pen_table, pen_log, made_by};
ghost use Rattle.res_lock.specs.Locked.{IsOpening, IsKept, IsReport, table_of_log, log_entries};
ghost use Rattle.res_lock.specs.Given.{HasGiven};
ghost use Rattle.res_lock.specs.Called.{IsCreate, IsChange, IsSamePass, IsCreated, IsChanged, IsFramed, IsBegun, reply_of};

use crate::entry::{LockRefusal, ResCall, ResReply};
use crate::log::Log;
use crate::naming::HistoryNaming;
use crate::table::{LogTable, Pen, ResPass};
use crate::things::{change, create};
use draw_encoder::{Bundle, Encoder, Naming};
use frame_record::FrameLink;
use gfx_context::{BackNote, Context, FrameReport};
use gfx_words::{Handle, Refusal, Room};
use std::alloc::Global;
use std::marker::{Model, PhantomData};
use std::sync::Wait;

/// A context, and the history of its calls. The history is legal from its start, and the context is in the state after it.
/// Contracts see a `LockView`.
#[derive(Drop)]
pub(crate) struct LockState<'t, C: Naming, L: FrameLink + Drop, H: HistoryNaming> {
    context: Context<'t, C, L>,
    log: Log,
    of: PhantomData<H>,
}

impl<'t, C: Naming, L: FrameLink + Drop, H: HistoryNaming> Model for LockState<'t, C, L, H> {
    ghost use Rattle.std.specs.Prelude.{◌≡◌};
    ghost use Rattle.res_lock.specs.Locked.{LockView, IsKept, log_entries, table_of_log};
    ghost use Rattle.res_lock.specs.Given.{HasGiven};

    ghost Value = { LockView L };

    ghost view = { λ s. record { context = s.context; history = log_entries s.log } };

    ghost invariant = { λ s. (table_of_log s.log ≡ H.table) × IsKept H.start H.book (record { context = s.context; history = log_entries s.log }) × HasGiven C.admits C.views H.start H.book H.given (record { context = s.context; history = log_entries s.log }) };
}

impl<'t, C: Naming, L: FrameLink + Drop, H: HistoryNaming> LockState<'t, C, L, H> {
    /// A context of which nothing was called yet. `Err` only for want of memory; the context and the pen come back.
    pub fn new(
        alloc: Global,
        context: Context<'t, C, L>,
        pen: Pen,
    ) -> Result<LockState<'t, C, L, H>, (Context<'t, C, L>, Pen)>
        requires pen { (pen_table pen ≡ H.table) × (pen_log pen ≡ []) }
        requires start { (state_of context ≡ H.start) × IsOpening H.start }
        requires book { context.book ≡ H.book }
        requires given { context.given ≡ H.given }
        ensures { IfErr result (λ e. (e.0 ≡ context.entry) × (e.1 ≡ pen)) }
    {
        match Log::new(alloc, pen) {
            Ok(log) => Ok(LockState {
                context,
                log,
                of: PhantomData,
            }),
            Err(pen) => Err((context, pen)),
        }
    }

    /// The context, and the history with the right to append.
    pub fn into_parts(self) -> (Context<'t, C, L>, Log)
        ensures table { table_of_log result.1 ≡ H.table }
        ensures kept { IsKept H.start H.book (record { context = result.0; history = log_entries result.1 }) }
        ensures given { HasGiven C.admits C.views H.start H.book H.given (record { context = result.0; history = log_entries result.1 }) }
    {
        let LockState {
            context,
            log,
            of: _,
        } = self;
        (context, log)
    }

    /// Makes a thing.
    pub fn create(
        &mut self,
        table: &LogTable,
        pass: &mut ResPass,
        call: ResCall,
    ) -> Result<Handle, LockRefusal>
        requires create { IsCreate (call_seen call) }
        requires tables { (log_table table.now ≡ H.table) × (pass_table pass.old ≡ H.table) }
        requires few { made_by pass.old < 4294967295 }
        ensures pass { IsSamePass pass.old pass.new }
        ensures answer { IsCreated H.start (call_seen call) result pass.old pass.new }
    {
        if self.log.reserve().is_err() {
            return Err(LockRefusal::Refused(Refusal::OutOfMemory));
        }
        if self.context.is_ended() {
            let frame = self.context.frame_number();
            self.log
                .append(table, pass, call, ResReply::Ended { frame });
            return Err(LockRefusal::Ended { frame });
        }
        match create(&mut self.context, &call) {
            Ok(handle) => {
                self.log
                    .append(table, pass, call, ResReply::Made { handle });
                Ok(handle)
            }
            Err(refusal) => Err(self.log.refuse(table, pass, call, refusal)),
        }
    }

    /// Changes a thing or a view, or lets a thing die.
    pub fn change(
        &mut self,
        table: &LogTable,
        pass: &mut ResPass,
        call: ResCall,
    ) -> Result<(), LockRefusal>
        requires change { IsChange (call_seen call) }
        requires tables { (log_table table.now ≡ H.table) × (pass_table pass.old ≡ H.table) }
        requires few { made_by pass.old < 4294967295 }
        ensures pass { IsSamePass pass.old pass.new }
        ensures answer { IsChanged H.start (call_seen call) result pass.old pass.new }
    {
        if self.log.reserve().is_err() {
            return Err(LockRefusal::Refused(Refusal::OutOfMemory));
        }
        if self.context.is_ended() {
            let frame = self.context.frame_number();
            self.log
                .append(table, pass, call, ResReply::Ended { frame });
            return Err(LockRefusal::Ended { frame });
        }
        match change(&mut self.context, &call) {
            Ok(()) => {
                self.log.append(table, pass, call, ResReply::Unit);
                Ok(())
            }
            Err(refusal) => Err(self.log.refuse(table, pass, call, refusal)),
        }
    }

    /// Ends the frame.
    pub fn frame<R: Wait>(
        &mut self,
        rt: &R,
        table: &LogTable,
        pass: &mut ResPass,
    ) -> Result<FrameReport, LockRefusal>
        requires tables { (log_table table.now ≡ H.table) × (pass_table pass.old ≡ H.table) }
        requires few { made_by pass.old < 4294967295 }
        ensures pass { IsSamePass pass.old pass.new }
        ensures answer { IsFramed H.start result pass.old pass.new }
        ensures report { IfOk result (λ report. IsReport L C.admits C.views H.start H.book report (pass_view pass.new).seen) }
    {
        if self.log.reserve().is_err() {
            return Err(LockRefusal::Refused(Refusal::OutOfMemory));
        }
        if self.context.is_ended() {
            let frame = self.context.frame_number();
            self.log
                .append(table, pass, ResCall::Frame, ResReply::Ended { frame });
            return Err(LockRefusal::Ended { frame });
        }
        self.context.tell_facts();
        match self.context.frame(rt) {
            Ok(report) => {
                let reply = told(report.given, report.number, &report.back);
                self.log.append(table, pass, ResCall::Frame, reply);
                Ok(report)
            }
            Err(refusal) => Err(self.log.refuse(table, pass, ResCall::Frame, refusal)),
        }
    }

    /// Gathers the bundle of an encoder.
    pub fn gather(&mut self, bundle: Bundle<C>)
        ensures gathers { Gathers bundle.0 (enc_view bundle.1) self.old.context self.new.context }
        ensures history { self.new.history ≡ self.old.history }
    {
        self.context.gather(bundle);
    }

    /// Begins an encoder.
    pub fn begin(
        &mut self,
        table: &LogTable,
        pass: &mut ResPass,
        room: Room,
    ) -> Result<Encoder<'t, C>, LockRefusal>
        requires tables { (log_table table.now ≡ H.table) × (pass_table pass.old ≡ H.table) }
        requires few { made_by pass.old < 4294967295 }
        ensures pass { IsSamePass pass.old pass.new }
        ensures answer { IsBegun H.start (room_seen room) result pass.old pass.new }
    {
        if self.log.reserve().is_err() {
            return Err(LockRefusal::Refused(Refusal::OutOfMemory));
        }
        let call = ResCall::Begin { room };
        if self.context.is_ended() {
            let frame = self.context.frame_number();
            self.log
                .append(table, pass, call, ResReply::Ended { frame });
            return Err(LockRefusal::Ended { frame });
        }
        self.context.tell_facts();
        match self.context.begin(room) {
            Ok(encoder) => {
                let number = encoder.number();
                self.log
                    .append(table, pass, call, ResReply::Begun { number });
                Ok(encoder)
            }
            Err(refusal) => Err(self.log.refuse(table, pass, call, refusal)),
        }
    }
}

// How the end of a frame is told.
fn told(given: bool, number: u32, back: &Option<BackNote>) -> ResReply
    ensures { reply_seen result ≡ reply_of given number back.now }
{
    match back {
        Some(note) if !given => ResReply::Ending {
            frame: number,
            outcome: note.outcome,
        },
        _ => ResReply::Frame { number },
    }
}

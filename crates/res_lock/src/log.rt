// The history, and the right to append to it.
ghost use Rattle.std.specs.Prelude.{◌≡◌, ◌<◌, ◌+◌, [], ◌∷◌, ◌++◌, IfErr, IfOk, OnOk, OnErr, MatchResult, MatchOption};
ghost use Rattle.gfx_words.specs.Seen.{refusal_seen};
ghost use Rattle.res_lock.specs.Histories.{refused};
ghost use Rattle.res_lock.specs.declared.entry.LockRefusal.TheVariants as lock_refusals;
ghost use Rattle.res_lock.specs.Seen.{call_seen, reply_seen, entries_seen};
ghost use Rattle.res_lock.specs.Seats.{log_table, pass_table, pass_view, pen_table, pen_log, caller_of, made_by};
ghost use Rattle.res_lock.specs.Views.{GoesOn};

use crate::entry::{Entry, LockRefusal, ResCall, ResReply};
use crate::table::{LogTable, Pen, ResPass};
use gfx_words::Refusal;
use std::alloc::{AllocError, Global};

/// The entries of a history, and the right to append to it.
#[derive(Drop)]
pub(crate) struct Log {
    pub(crate) history: Vec<Entry>,
    pub(crate) pen: Pen,
    ghost written: { pen_log pen ≡ entries_seen history.items },
}

impl Log {
    ghost use Rattle.res_lock.specs.Locked.{log_entries, table_of_log, HasRoom, Adds};

    /// An empty log with room for an entry. `Err` only for want of memory; the pen comes back.
    pub fn new(alloc: Global, pen: Pen) -> Result<Log, Pen>
        requires { pen_log pen ≡ [] }
        ensures ok { IfOk result (λ l. (log_entries l ≡ []) × (table_of_log l ≡ pen_table pen)) }
        ensures err { IfErr result (λ p. p ≡ pen) }
    {
        match Vec::with_capacity(alloc, 1) {
            Ok(history) => Ok(Log { history, pen }),
            Err(_) => Err(pen),
        }
    }

    /// Makes room for an entry.
    pub fn reserve(&mut self) -> Result<(), AllocError>
        ensures same { (log_entries self.new ≡ log_entries self.old) × (self.new.pen ≡ self.old.pen) }
        ensures room { OnOk result (HasRoom self.new) }
    {
        self.history.reserve(1)?;
        Ok(())
    }

    /// Appends a call of a pass, for which there is room.
    pub fn append(&mut self, table: &LogTable, pass: &mut ResPass, call: ResCall, reply: ResReply)
        requires table { (log_table table.now ≡ table_of_log self.old) × (pass_table pass.old ≡ table_of_log self.old) }
        requires room { HasRoom self.old }
        requires few { made_by pass.old < 4294967295 }
        ensures { Adds (call_seen call) (reply_seen reply) self.old self.new pass.old pass.new }
    {
        let entry = Entry {
            caller: pass.caller(),
            ordinal: pass.made(),
            call,
            reply,
        };
        table.append(pass, &mut self.pen, &entry);
        self.history.push_reserved(entry);
    }

    /// Appends a call that is refused, except where there was no memory.
    pub fn refuse(
        &mut self,
        table: &LogTable,
        pass: &mut ResPass,
        call: ResCall,
        refusal: Refusal,
    ) -> LockRefusal
        requires table { (log_table table.now ≡ table_of_log self.old) × (pass_table pass.old ≡ table_of_log self.old) }
        requires room { HasRoom self.old }
        requires few { made_by pass.old < 4294967295 }
        ensures same { result ≡ lock_refusals.Refused refusal }
        ensures adds { MatchOption (refusal_seen refusal)
            ((self.new ≡ self.old) × (pass.new ≡ pass.old))
            (λ x. Adds (call_seen call) (refused refusal) self.old self.new pass.old pass.new) }
    {
        if !matches!(refusal, Refusal::OutOfMemory) {
            self.append(table, pass, call, ResReply::Refused { refusal });
        }
        LockRefusal::Refused(refusal)
    }
}

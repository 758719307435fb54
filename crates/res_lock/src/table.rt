// The table of the history, and passes.
ghost use Rattle.std.specs.Prelude.{◌≡◌, ◌==◌, false, ◌+◌, ◌<◌, ◌≤◌, ℕ, [], ◌∷◌, ◌++◌, length, Some, None, IfOk};
ghost use Rattle.schedule_model.specs.Held.{count_of};
ghost use Rattle.res_lock.specs.Histories.{part_of};
ghost use Rattle.res_lock.specs.Seen.{entry_seen};
ghost use Rattle.res_lock.specs.Views.{first_view, split_from, split_off, joined_with, pen_view, written_in, GoesOn};

use crate::entry::Entry;
use crate::view::{Append, GivePen, Hear, Law, Learn, Look, SplitOff, TakePen, View, Written};
use atomic_table::{Seat, Table};
use std::alloc::{AllocError, Global};
use std::marker::Brand;

/// One word, which counts the entries of a history. Passes step on it, and know by it what they have seen of the history.
#[derive(Drop)]
pub(crate) struct LogTable {
    table: Table<(), View, (), Law, Global>,
    ghost wide: { table.shared.table_id.words ≡ 1 },
    ghost no_slots: { table.shared.table_id.slots ≡ 0 },
}

/// The right to append to a history, of which there is one. Contracts see the history as its `pen_log`.
#[derive(Drop)]
pub(crate) struct Pen {
    seat: Seat<(), View>,
    ghost is_pen: { seat.me.0 ≡ pen_view (written_in seat.me.0.pen) },
    ghost no_slot: { seat.me.1 ≡ [] },
}

/// What one caller knows of a history: its calls, and what it has seen. Contracts see it as its `pass_view`.
#[derive(Drop)]
pub struct ResPass {
    seat: Seat<(), View>,
    caller: u32,
    made: u32,
    next: u64,
    ghost is_caller: { 0 < count_of caller seat.me.0.callers },
    ghost made_is: { made ≡ length (part_of caller seat.me.0.seen) },
    ghost next_is: { next ≡ seat.me.0.next },
    ghost no_pen: { seat.me.0.pen ≡ None },
    ghost all_learnt: { seat.me.0.heard ≡ None },
    ghost no_slot: { seat.me.1 ≡ [] },
}

impl ResPass {
    ghost use Rattle.res_lock.specs.Seats.{caller_of, made_by, pass_view};

    /// The number of the caller: 0 for the first pass, and 1, 2 and so on for those that are split from it.
    pub fn caller(&self) -> u32
        ensures { result ≡ caller_of self.now }
    {
        self.caller
    }

    /// Whether the pass has made as many calls as it can: then no call takes it any more.
    pub fn is_full(&self) -> bool
        ensures full { result ≡ (made_by self.now == 4294967295) }
        ensures room { result ≡ false → made_by self.now < 4294967295 }
    {
        self.made == u32::MAX
    }

    /// How many calls of this pass stand in the history.
    pub fn made(&self) -> u32
        ensures same { result ≡ made_by self.now }
        ensures counted { result ≡ length (part_of (caller_of self.now) (pass_view self.now).seen) }
    {
        self.made
    }
}

impl LogTable {
    ghost use Rattle.res_lock.specs.Seats.{log_table, pass_table, pen_table, pass_view, pen_log, caller_of, made_by, IsFirst, HasAll};

    /// The table of an empty history, with the right to append and the pass of caller 0. `Err` only for want of memory.
    pub fn new(alloc: Global) -> Result<(LogTable, Pen, ResPass), AllocError>
        ensures tables { IfOk result (λ r. (pen_table r.1 ≡ log_table r.0) × (pass_table r.2 ≡ log_table r.0)) }
        ensures pen { IfOk result (λ r. pen_log r.1 ≡ []) }
        ensures pass { IfOk result (λ r. (pass_view r.2 ≡ first_view) × (caller_of r.2 ≡ 0) × (made_by r.2 ≡ 0)) }
    {
        let (table, mut seat) = Table::of_words(alloc, &[0], &())?;
        let pen = table.shared.split_seat::<GivePen>(&mut seat);
        let pass = ResPass {
            seat,
            caller: 0,
            made: 0,
            next: 1,
        };
        Ok((LogTable { table }, Pen { seat: pen }, pass))
    }

    /// Splits the pass of the next caller off the first pass. It has seen what the first has, and made nothing.
    pub fn split(&self, first: &mut ResPass) -> ResPass
        requires table { pass_table first.old ≡ log_table self.now }
        requires first { IsFirst first.old }
        requires room { (pass_view first.old).next < 4294967296 }
        ensures tables { (pass_table first.new ≡ log_table self.now) × (pass_table result ≡ log_table self.now) }
        ensures first { pass_view first.new ≡ split_from (pass_view first.old) }
        ensures same { (caller_of first.new ≡ caller_of first.old) × (made_by first.new ≡ made_by first.old) }
        ensures other { (pass_view result ≡ split_off (pass_view first.old)) × (caller_of result ≡ (pass_view first.old).next) × (made_by result ≡ 0) }
    {
        self.table.shared.load::<Look>(&mut first.seat, 0);
        let seat = self.table.shared.split_seat::<SplitOff>(&mut first.seat);
        let caller = first.next as u32;
        first.next += 1;
        ResPass {
            seat,
            caller,
            made: 0,
            next: 0,
        }
    }

    /// Joins another pass into the first.
    pub fn join(&self, first: &mut ResPass, other: ResPass)
        requires table { (pass_table first.old ≡ log_table self.now) × (pass_table other ≡ log_table self.now) }
        requires first { IsFirst first.old }
        ensures table { pass_table first.new ≡ log_table self.now }
        ensures first { pass_view first.new ≡ joined_with (pass_view first.old) (pass_view other) }
        ensures same { (caller_of first.new ≡ caller_of first.old) × (made_by first.new ≡ made_by first.old) }
        ensures own { GoesOn (pass_view first.old).callers (pass_view first.old).seen (pass_view first.new).seen }
        ensures others { GoesOn (pass_view other).callers (pass_view other).seen (pass_view first.new).seen }
    {
        let ResPass {
            seat,
            caller: _,
            made: _,
            next: _,
        } = other;
        self.table.shared.join_seat::<Hear>(&mut first.seat, seat);
        self.table.shared.load::<Learn>(&mut first.seat, 0);
    }

    /// Appends an entry, which is the next one of the pass's caller.
    pub fn append(&self, pass: &mut ResPass, pen: &mut Pen, entry: &Entry)
        requires table { (pass_table pass.old ≡ log_table self.now) × (pen_table pen.old ≡ log_table self.now) }
        requires entry { entry.now.caller ≡ caller_of pass.old }
        requires few { (made_by pass.old < 4294967295) × (length (pen_log pen.old) < 18446744073709551615) }
        ensures table { (pass_table pass.new ≡ log_table self.now) × (pen_table pen.new ≡ log_table self.now) }
        ensures pen { pen_log pen.new ≡ pen_log pen.old ++ entry_seen entry.now ∷ [] }
        ensures pass { pass_view pass.new ≡ record (pass_view pass.old) { seen = pen_log pen.new } }
        ensures same { (caller_of pass.new ≡ caller_of pass.old) × (made_by pass.new ≡ made_by pass.old + 1) }
        ensures on { GoesOn (pass_view pass.old).callers (pass_view pass.old).seen (pen_log pen.old) }
    {
        let seat = self.table.shared.split_seat::<GivePen>(&mut pen.seat);
        let Pen { seat } = self.append_as::<Brand>(pass, Pen { seat }, entry);
        self.table.shared.join_seat::<TakePen>(&mut pen.seat, seat);
    }

    /// The same with the right to append handed over and back.
    fn append_as<W: Written>(&self, pass: &mut ResPass, pen: Pen, entry: &Entry) -> Pen
        requires named { entry_seen entry.now ≡ W.entry }
        requires table { (pass_table pass.old ≡ log_table self.now) × (pen_table pen ≡ log_table self.now) }
        requires entry { entry.now.caller ≡ caller_of pass.old }
        requires few { (made_by pass.old < 4294967295) × (length (pen_log pen) < 18446744073709551615) }
        ensures table { (pass_table pass.new ≡ log_table self.now) × (pen_table result ≡ log_table self.now) }
        ensures pen { pen_log result ≡ pen_log pen ++ entry_seen entry.now ∷ [] }
        ensures pass { pass_view pass.new ≡ record (pass_view pass.old) { seen = pen_log result } }
        ensures same { (caller_of pass.new ≡ caller_of pass.old) × (made_by pass.new ≡ made_by pass.old + 1) }
        ensures on { GoesOn (pass_view pass.old).callers (pass_view pass.old).seen (pen_log pen) }
    {
        let Pen { seat } = pen;
        self.table.shared.join_seat::<TakePen>(&mut pass.seat, seat);
        self.table
            .shared
            .fetch_add::<Append<W>>(&mut pass.seat, 0, 1);
        let seat = self.table.shared.split_seat::<GivePen>(&mut pass.seat);
        pass.made += 1;
        Pen { seat }
    }

    /// Ends the table. All other passes were joined into the first, which so has seen the whole history. No caller without a pass has
    /// an entry.
    pub fn close(self, pass: ResPass, pen: Pen)
        requires table { (pass_table pass ≡ log_table self) × (pen_table pen ≡ log_table self) }
        requires all { IsFirst pass × HasAll pass }
        ensures whole { pen_log pen ≡ (pass_view pass).seen }
        ensures beyond { (c : ℕ) → (pass_view pass).next ≤ c → part_of c (pass_view pass).seen ≡ [] }
    {
        let LogTable { table } = self;
        let ResPass {
            mut seat,
            caller: _,
            made: _,
            next: _,
        } = pass;
        let Pen { seat: pen } = pen;
        table.shared.join_seat::<TakePen>(&mut seat, pen);
        table.close_with(seat).free();
    }
}

/// The table of a history that is empty, before it lies behind a lock. Contracts see the table's name as its `table_of`.
#[derive(Drop)]
pub struct HistoryTable {
    pub(crate) log: LogTable,
    pub(crate) pen: Pen,
    ghost same: { pen.seat.table_id ≡ log.table.shared.table_id },
    ghost is_empty: { pen.seat.me.0 ≡ pen_view [] },
}

impl HistoryTable {
    ghost use Rattle.res_lock.specs.Seats.{table_of, pass_table, pass_view, caller_of, made_by};

    /// The table of an empty history, and the pass of caller 0. `Err` only for want of memory.
    pub fn new(alloc: Global) -> Result<(HistoryTable, ResPass), AllocError>
        ensures { IfOk result (λ r. (pass_table r.1 ≡ table_of r.0) × (pass_view r.1 ≡ first_view) × (caller_of r.1 ≡ 0) × (made_by r.1 ≡ 0)) }
    {
        let (log, pen, pass) = LogTable::new(alloc)?;
        Ok((HistoryTable { log, pen }, pass))
    }
}

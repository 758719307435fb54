// A lock as threads that run blocks see it.
ghost use Rattle.std.specs.Prelude.{◌≡◌, ◌≤◌, ◌<◌, [], length, map};
ghost use Rattle.std.specs.Thread.{IsSync};
ghost use Rattle.load_text.specs.Seen.{line_seen};
ghost use Rattle.res_lock.specs.Views.{split_from, split_off, joined_with, GoesOn};
ghost use Rattle.res_lock.specs.Seats.{pass_table, pass_view, caller_of, made_by, IsFirst};
ghost use Rattle.load_running.specs.Lines.{HasRun};

use crate::blocks::{Ran, run_block};
use draw_encoder::Naming;
use frame_record::FrameLink;
use io_edge::Gate;
use load_text::BlockLine;
use res_lock::{HistoryNaming, ResLock, ResPass};
use std::alloc::Global;
use std::sync::Wait;
use std::thread::Threads;

/// What passes are split from and joined into, and on what blocks are run by them: a lock, without the lifetime in its type. (What a
/// closure promises is lost where it holds a reference to a type with a lifetime.)
pub(crate) trait BlockLock {
    ghost use Rattle.atomic_table.specs.Seated.{TableId};

    /// The table of the passes.
    ghost table: { TableId };

    /// Splits the pass of the next caller off the first.
    fn split(&self, pass: &mut ResPass) -> ResPass
        requires table { pass_table pass.old ≡ table }
        requires first { IsFirst pass.old }
        requires room { (pass_view pass.old).next ≤ 4294967295 }
        ensures first { (pass_view pass.new ≡ split_from (pass_view pass.old)) × (pass_table pass.new ≡ table) }
        ensures same { (caller_of pass.new ≡ caller_of pass.old) × (made_by pass.new ≡ made_by pass.old) }
        ensures other { (pass_view result ≡ split_off (pass_view pass.old)) × (pass_table result ≡ table) }
        ensures caller { (caller_of result ≡ (pass_view pass.old).next) × (made_by result ≡ 0) };

    /// Joins a pass into the first.
    fn join(&self, pass: &mut ResPass, other: ResPass)
        requires table { (pass_table pass.old ≡ table) × (pass_table other ≡ table) }
        requires first { IsFirst pass.old }
        ensures first { (pass_view pass.new ≡ joined_with (pass_view pass.old) (pass_view other)) × (pass_table pass.new ≡ table) }
        ensures same { (caller_of pass.new ≡ caller_of pass.old) × (made_by pass.new ≡ made_by pass.old) }
        ensures own { GoesOn (pass_view pass.old).callers (pass_view pass.old).seen (pass_view pass.new).seen }
        ensures others { GoesOn (pass_view other).callers (pass_view other).seen (pass_view pass.new).seen };

    /// Runs lines by a pass that made nothing.
    fn run<R: Threads + Wait + Sync, G: Gate>(
        &self,
        rt: &R,
        gate: &G,
        alloc: Global,
        pass: ResPass,
        caller: u8,
        lines: &[BlockLine],
    ) -> Ran
        requires sync { IsSync R.row }
        requires table { pass_table pass ≡ table }
        requires new { ((pass_view pass).seen ≡ []) × (made_by pass ≡ 0) }
        requires few { length lines.now ≤ 16777216 }
        ensures { HasRun (map line_seen lines.now) result.is_whole pass result.pass };
}

impl<'t, C: Naming, L: FrameLink + Drop, H: HistoryNaming> BlockLock for ResLock<'t, C, L, H> {
    ghost table = { H.table };

    fn split(&self, pass: &mut ResPass) -> ResPass {
        ResLock::split(self, pass)
    }

    fn join(&self, pass: &mut ResPass, other: ResPass) {
        ResLock::join(self, pass, other);
    }

    fn run<R: Threads + Wait + Sync, G: Gate>(
        &self,
        rt: &R,
        gate: &G,
        alloc: Global,
        pass: ResPass,
        caller: u8,
        lines: &[BlockLine],
    ) -> Ran {
        run_block(rt, gate, alloc, self, pass, caller, lines)
    }
}

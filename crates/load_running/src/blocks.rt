// The lines of a block, one after the other.
ghost use Rattle.std.specs.Prelude.{◌≡◌, ◌≤◌, ◌<◌, [], length, map, OnOk, true};
ghost use Rattle.load_text.specs.Loads.{lines_of};
ghost use Rattle.load_text.specs.Seen.{line_seen, block_seen};
ghost use Rattle.res_lock.specs.Histories.{part_of};
ghost use Rattle.res_lock.specs.Called.{IsSamePass};
ghost use Rattle.res_lock.specs.Seats.{pass_table, pass_view, caller_of, made_by};
ghost use Rattle.load_running.specs.BlockCalls.{AreCallsOf};
ghost use Rattle.load_running.specs.Lines.{IsSameBut, HasRun};

use crate::calls::run_line;
use draw_encoder::Naming;
use frame_record::FrameLink;
use io_edge::Gate;
use load_text::{Block, BlockLine};
use res_lock::{HistoryNaming, ResLock, ResPass};
use std::alloc::{AllocError, Global};
use std::sync::Wait;
use std::thread::Threads;

/// A pass of a caller whose block was run, and whether all of its lines were.
#[derive(Drop)]
pub(crate) struct Ran {
    pub pass: ResPass,
    pub is_whole: bool,
}

/// The lines of a caller, and none where it has no block.
pub(crate) fn lines_of(blocks: &[Block], caller: u8) -> &[BlockLine]
    ensures lines { map line_seen result.now ≡ lines_of caller (map block_seen blocks.now) }
    ensures few { length result.now ≤ 16777216 }
{
    for block in blocks {
        if block.caller == caller {
            return block.lines.as_slice();
        }
    }
    &[]
}

/// Runs lines in their order. Before each it calls the gate with the caller's number and how many lines came before. `Err` for want of
/// memory alone; then some lines were not run.
fn run_lines<C: Naming, L: FrameLink + Drop, H: HistoryNaming, R: Threads + Wait + Sync, G: Gate>(
    rt: &R,
    gate: &G,
    alloc: Global,
    lock: &ResLock<'_, C, L, H>,
    pass: &mut ResPass,
    caller: u8,
    lines: &[BlockLine],
) -> Result<(), AllocError>
    requires table { pass_table pass.old ≡ H.table }
    requires new { ((pass_view pass.old).seen ≡ []) × (made_by pass.old ≡ 0) }
    requires few { length lines.now ≤ 16777216 }
    ensures pass { IsSamePass pass.old pass.new }
    ensures view { IsSameBut (pass_view pass.old) (pass_view pass.new) }
    ensures calls { OnOk result (AreCallsOf (map line_seen lines.now) (part_of (caller_of pass.old) (pass_view pass.new).seen)) }
{
    let mut things = Vec::new(alloc);
    let mut item: u32 = 0;
    for line in lines {
        gate.at(caller, item);
        run_line(rt, lock, pass, &mut things, line)?;
        item += 1;
    }
    Ok(())
}

/// Runs the block of a pass that made nothing.
pub(crate) fn run_block<
    C: Naming,
    L: FrameLink + Drop,
    H: HistoryNaming,
    R: Threads + Wait + Sync,
    G: Gate,
>(
    rt: &R,
    gate: &G,
    alloc: Global,
    lock: &ResLock<'_, C, L, H>,
    pass: ResPass,
    caller: u8,
    lines: &[BlockLine],
) -> Ran
    requires table { pass_table pass ≡ H.table }
    requires new { ((pass_view pass).seen ≡ []) × (made_by pass ≡ 0) }
    requires few { length lines.now ≤ 16777216 }
    ensures { HasRun (map line_seen lines.now) result.is_whole pass result.pass }
{
    let mut pass = pass;
    match run_lines(rt, gate, alloc, lock, &mut pass, caller, lines) {
        Ok(()) => Ran {
            pass,
            is_whole: true,
        },
        Err(_) => Ran {
            pass,
            is_whole: false,
        },
    }
}

// Each caller's block in a thread of its own.
ghost use Rattle.std.specs.Prelude.{◌≡◌, ◌≤◌, ◌<◌, ◌+◌, ◌&&◌, [], length, map};
ghost use Rattle.std.specs.Thread.{IsSync};
ghost use Rattle.load_text.specs.Seen.{line_seen, block_seen};
ghost use Rattle.res_lock.specs.Seats.{pass_table, pass_view, made_by};
ghost use Rattle.load_running.specs.Lines.{HasRun};
ghost use Rattle.load_running.specs.Runs.{IsFirstOf, HasRunAs, HasJoined};
ghost use Rattle.load_running.specs.Started.{IsStarted, Finishes};

use crate::block_lock::BlockLock;
use crate::blocks::{Ran, lines_of};
use io_edge::Gate;
use load_text::{Block, BlockLine};
use res_lock::ResPass;
use std::alloc::Global;
use std::snapshot::Snapshot;
use std::sync::Wait;
use std::thread;
use std::thread::{Promise, PromisedHandle, Scope, Threads};

/// What a thread promises: it runs the lines by the pass.
#[derive(Drop)]
struct Runs<'a>(Snapshot<ResPass>, &'a [BlockLine]);

impl<'a> Promise<Ran> for Runs<'a> {
    ghost use Rattle.std.specs.Prelude.{map};
    ghost use Rattle.load_text.specs.Seen.{line_seen};
    ghost use Rattle.load_running.specs.Lines.{HasRun};

    ghost kept_by = { λ p r. HasRun (map line_seen p.1.now) r.is_whole p.0.value r.pass };
}

/// A block that a thread runs, or that was run here, because no thread could be started.
#[derive(Drop)]
enum Started<'a> {
    Thread(PromisedHandle<Ran, Runs<'a>>),
    Here(Ran),
}

impl<'a> Started<'a> {
    /// Waits until the block was run.
    fn finish<R: Threads>(self, rt: &R) -> Ran
        ensures { Finishes self.entry result }
    {
        match self {
            Started::Thread(handle) => handle.join(rt),
            Started::Here(ran) => ran,
        }
    }
}

/// Starts a thread that runs lines by a pass that made nothing. Where none can be started, it runs them itself.
fn start<'s, E, K, R, G>(
    scope: &Scope<'s, E>,
    rt: &'s R,
    gate: &'s G,
    alloc: Global,
    lock: &'s K,
    pass: ResPass,
    caller: u8,
    lines: &'s [BlockLine],
) -> Started<'s>
where
    K: BlockLock + Sync + 's,
    R: Threads + Wait + Sync,
    G: Gate + Sync,
    requires table { pass_table pass ≡ K.table }
    requires new { ((pass_view pass).seen ≡ []) × (made_by pass ≡ 0) }
    requires few { length lines.now ≤ 16777216 }
    ensures { IsStarted (map line_seen lines.now) pass result }
{
    let promise = Runs(Snapshot::of(&pass), lines);
    let job = move || -> Ran
        requires sync { IsSync R.row }
        requires table { pass_table pass ≡ K.table }
        requires new { ((pass_view pass).seen ≡ []) × (made_by pass ≡ 0) }
        requires few { length lines.now ≤ 16777216 }
        ensures { HasRun (map line_seen lines.entry.now) result.is_whole pass result.pass }
    { lock.run(rt, gate, alloc, pass, caller, lines) };
    match scope.spawn_with(promise, job) {
        Ok(handle) => Started::Thread(handle),
        Err(refused) => Started::Here((refused.value)()),
    }
}

fn both(first: bool, other: bool) -> bool
    ensures { result ≡ (first && other) }
{
    first && other
}

/// Joins the pass of a caller, whose block was run, into the first, into which the later callers were joined.
fn joined<K: BlockLock>(
    lock: &K,
    first: Ran,
    other: Ran,
    blocks: &[Block],
    caller: u8,
    count: u8,
) -> Ran
    requires tables { (pass_table first.pass ≡ K.table) × (pass_table other.pass ≡ K.table) }
    requires below { caller < count }
    requires first { HasJoined (caller + 1) count (map block_seen blocks.now) first.is_whole (pass_view first.pass) }
    requires other { HasRunAs caller (map block_seen blocks.now) other.is_whole (pass_view other.pass) }
    ensures table { pass_table result.pass ≡ K.table }
    ensures joined { HasJoined caller count (map block_seen blocks.now) result.is_whole (pass_view result.pass) }
{
    let _ = (blocks.len(), caller, count);
    let Ran { pass, is_whole } = first;
    let mut pass = pass;
    lock.join(&mut pass, other.pass);
    Ran {
        pass,
        is_whole: both(is_whole, other.is_whole),
    }
}

/// Runs the block of caller 0 by the first pass, where all other callers have passes.
fn run_first<'s, E, K, R, G>(
    scope: &Scope<'s, E>,
    rt: &'s R,
    gate: &'s G,
    alloc: Global,
    lock: &'s K,
    first: ResPass,
    blocks: &'s [Block],
    count: u8,
) -> Ran
where
    K: BlockLock + Sync + 's,
    R: Threads + Wait + Sync,
    G: Gate + Sync,
    requires table { pass_table first ≡ K.table }
    requires first { IsFirstOf count first }
    ensures table { pass_table result.pass ≡ K.table }
    ensures joined { HasJoined count count (map block_seen blocks.now) result.is_whole (pass_view result.pass) }
{
    let _ = count;
    let lines = lines_of(blocks, 0);
    let started = start(scope, rt, gate, alloc, lock, first, 0, lines);
    started.finish(rt)
}

/// Runs the blocks of caller 0 and of those from a number on, each by a thread of its own, where one can be started, and joins their
/// passes into the first.
fn run_from<'s, E, K, R, G>(
    scope: &Scope<'s, E>,
    rt: &'s R,
    gate: &'s G,
    alloc: Global,
    lock: &'s K,
    first: ResPass,
    blocks: &'s [Block],
    caller: u8,
    count: u8,
) -> Ran
where
    K: BlockLock + Sync + 's,
    R: Threads + Wait + Sync,
    G: Gate + Sync,
    requires table { pass_table first ≡ K.table }
    requires first { IsFirstOf caller first }
    requires among { (1 ≤ caller) × (caller ≤ count) × (count ≤ 8) }
    ensures table { pass_table result.pass ≡ K.table }
    ensures joined { HasJoined caller count (map block_seen blocks.now) result.is_whole (pass_view result.pass) }
{
    if caller >= count {
        return run_first(scope, rt, gate, alloc, lock, first, blocks, count);
    }
    let mut first = first;
    let pass = lock.split(&mut first);
    let lines = lines_of(blocks, caller);
    let started = start(scope, rt, gate, alloc, lock, pass, caller, lines);
    let later = run_from(
        scope,
        rt,
        gate,
        alloc,
        lock,
        first,
        blocks,
        caller + 1,
        count,
    );
    let other = started.finish(rt);
    joined(lock, later, other, blocks, caller, count)
}

/// Runs the blocks of callers below a number, each by a thread of its own, or here where none can be started, and joins their passes
/// into the first.
pub(crate) fn run_blocks<K, R, G>(
    rt: &R,
    gate: &G,
    alloc: Global,
    lock: &K,
    first: ResPass,
    blocks: &[Block],
    count: u8,
) -> Ran
where
    K: BlockLock + Sync,
    R: Threads + Wait + Sync,
    G: Gate + Sync,
    requires table { pass_table first ≡ K.table }
    requires first { IsFirstOf 1 first }
    requires count { (1 ≤ count) × (count ≤ 8) }
    ensures table { pass_table result.pass ≡ K.table }
    ensures joined { HasJoined 1 count (map block_seen blocks.now) result.is_whole (pass_view result.pass) }
{
    thread::scope(
        thread::scope_env(),
        rt,
        |scope| -> Ran
            requires table { pass_table first ≡ K.table }
            requires first { IsFirstOf 1 first }
            requires count { (1 ≤ count) × (count ≤ 8) }
            ensures table { pass_table result.pass ≡ K.table }
            ensures joined { HasJoined 1 count (map block_seen blocks.entry.now) result.is_whole (pass_view result.pass) }
        { run_from(scope, rt, gate, alloc, lock, first, blocks, 1, count) },
    )
}

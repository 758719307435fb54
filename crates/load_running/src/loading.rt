// The top call.
ghost use Rattle.std.specs.Prelude.{◌≡◌, ◌≤◌, ◌<◌, ℕ, List, Some, Ok, Err, length, map, IfOk, IfSome};
ghost use Rattle.io_edge.specs.Edge.{Rose};
ghost use Rattle.load_text.specs.Loads.{Block as TheBlock};
ghost use Rattle.load_text.specs.Text.{load_of};
ghost use Rattle.load_text.specs.Seen.{block_seen};
ghost use Rattle.io_whole.specs.Whole.{longest};
ghost use Rattle.load_running.specs.Ended.{Ended, EndsAs};
ghost use Rattle.load_running.specs.LoadHistories.{AreNotesOf};
ghost use Rattle.load_running.specs.Putting.{IsNoted};

use crate::notes::history_notes;
use crate::running::run_load;
use crate::status::LoadStatus;
use io_edge::{Gate, Sink, Source};
use io_whole::{InputError, LONGEST_INPUT, put_all, read_all};
use load_text::{Block, LoadFault, load_law, read_load};
use std::alloc::{AllocError, Global};
use std::sync::Wait;
use std::thread::Threads;

/// The notes of a run of blocks: none where a frame was not given, which is so for want of memory alone.
fn notes_of<R: Threads + Wait + Sync, G: Gate + Sync>(
    rt: &R,
    gate: &G,
    alloc: Global,
    blocks: &[Block],
) -> Result<Option<Vec<u8>>, AllocError>
    ensures { IfOk result (λ o. IfSome o (λ text. AreNotesOf (map block_seen blocks.now) text.items)) }
{
    let entries = run_load(rt, gate, alloc, blocks)?;
    let notes = history_notes(alloc, &entries)?;
    Ok(notes)
}

/// Runs blocks and puts their notes.
fn note_blocks<N: Sink, R: Threads + Wait + Sync, G: Gate + Sync>(
    rt: &R,
    gate: &G,
    alloc: Global,
    blocks: &[Block],
    notes: &mut N,
) -> LoadStatus
    ensures noted { IsNoted result (map block_seen blocks.now) (N.held notes.old) (N.held notes.new) (Rose (N.faults notes.old) (N.faults notes.new)) }
    ensures sure { N.sure notes.new ≡ N.sure notes.old }
    ensures no_fewer { N.faults notes.old ≤ N.faults notes.new }
{
    match notes_of(rt, gate, alloc, blocks) {
        Ok(Some(text)) => match put_all(notes, &text) {
            Ok(()) => LoadStatus::Done,
            Err(_) => LoadStatus::NoteFault,
        },
        Ok(None) => LoadStatus::OutOfMemory,
        Err(_) => LoadStatus::OutOfMemory,
    }
}

/// Reads the source, runs the load and puts its notes.
fn run<R: Threads + Wait + Sync, S: Source, N: Sink, G: Gate + Sync>(
    rt: &R,
    alloc: Global,
    source: &mut S,
    notes: &mut N,
    gate: &G,
) -> LoadStatus
    ensures ended { Ended result (S.left source.old) (S.left source.new) (N.held notes.old) (N.held notes.new) (Rose (S.faults source.old) (S.faults source.new)) (Rose (N.faults notes.old) (N.faults notes.new)) }
    ensures sure { N.sure notes.new ≡ N.sure notes.old }
    ensures no_fewer { (S.faults source.old ≤ S.faults source.new) × (N.faults notes.old ≤ N.faults notes.new) }
{
    load_law();
    let bytes = match read_all(alloc, source, LONGEST_INPUT) {
        Ok(bytes) => bytes,
        Err(InputError::Fault) => return LoadStatus::ReadFault,
        Err(InputError::TooLong) => return LoadStatus::TooLong,
        Err(InputError::OutOfMemory) => return LoadStatus::OutOfMemory,
    };
    match read_load(alloc, &bytes) {
        Ok(blocks) => note_blocks(rt, gate, alloc, &blocks, notes),
        Err(LoadFault::Line(line)) => LoadStatus::Text { line },
        Err(LoadFault::OutOfMemory) => LoadStatus::OutOfMemory,
    }
}

/// Runs the load that the source gives, and puts its notes: the history of the calls, one line for each.
///
/// The source is read to its end, at most 16,777,216 bytes, and the whole text is read before a call is made. Each block is run by a
/// thread of its own, or by this thread where none can be started, all on one context behind a lock. Whoever runs a block calls the gate
/// with the caller's number before each line, with how many lines of the block came before. The notes are put when all blocks were run.
///
/// Each caller has one block at most. The history is legal: each reply is the one of the definition after the calls before it. It has the calls of each block once, in
/// their order, and no others. To destroy what a refused create line did not make is no call.
///
/// The status says how it ended. `Text` and `TooLong` come exactly by the bytes; `ReadFault` and `NoteFault` only where that object's count
/// of faults rose; `OutOfMemory` is free, and comes too where memory was wanting in a frame. After `NoteFault` a front of the notes was
/// put, and after the others but `Done` nothing.
pub fn load<R: Threads + Wait + Sync, S: Source, N: Sink, G: Gate + Sync>(
    rt: &R,
    alloc: Global,
    source: &mut S,
    notes: &mut N,
    gate: &G,
) -> LoadStatus
    // What was read and what the notes are after each status, and its cause.
    ensures ended { Ended result (S.left source.old) (S.left source.new) (N.held notes.old) (N.held notes.new) (Rose (S.faults source.old) (S.faults source.new)) (Rose (N.faults notes.old) (N.faults notes.new)) }
    // The sink keeps its sure length, and no count of faults falls.
    ensures sure { N.sure notes.new ≡ N.sure notes.old }
    ensures no_fewer { (S.faults source.old ≤ S.faults source.new) × (N.faults notes.old ≤ N.faults notes.new) }
    // Where the source told too many bytes and did not fail.
    ensures too_long { (bytes : List ℕ) → S.left source.old ≡ Some bytes → longest < length bytes → (Rose (S.faults source.old) (S.faults source.new) → ⊥) → EndsAs LoadStatus.TooLong result }
    // Where it told bytes that are no load.
    ensures refused { (bytes : List ℕ) (line : ℕ) → S.left source.old ≡ Some bytes → length bytes ≤ longest → load_of bytes ≡ Err line → (Rose (S.faults source.old) (S.faults source.new) → ⊥) → EndsAs (LoadStatus.Text line) result }
    // Where it told a load, and nothing failed.
    ensures complete { (bytes : List ℕ) (blocks : List TheBlock) → S.left source.old ≡ Some bytes → length bytes ≤ longest → load_of bytes ≡ Ok blocks → (Rose (S.faults source.old) (S.faults source.new) → ⊥) → (Rose (N.faults notes.old) (N.faults notes.new) → ⊥) → EndsAs LoadStatus.Done result }
{
    run(rt, alloc, source, notes, gate)
}

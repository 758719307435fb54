// The top call.
ghost use Rattle.std.specs.Prelude.{◌≡◌, ◌≤◌, ◌<◌, ℕ, List, Some, Ok, Err, length};
ghost use Rattle.io_edge.specs.Edge.{Rose};
ghost use Rattle.gfx_query.specs.Queries.{Script as TheScript, notes_of as notes_of_script};
ghost use Rattle.gfx_query.specs.Text.{script_of};
ghost use Rattle.gfx_query.specs.Seen.{script_seen};
ghost use Rattle.io_whole.specs.Whole.{longest, HasFront};
ghost use Rattle.gfx_query.specs.Ended.{Ended, EndsAs};
ghost use Rattle.gfx_query.specs.Putting.{IsNoted};

use crate::notes::notes_of;
use crate::script::Script;
use crate::status::QueryStatus;
use crate::text::{TextFault, read_script};
use io_edge::{Sink, Source};
use io_whole::{InputError, LONGEST_INPUT, put_all, read_all};
use std::alloc::Global;

/// Puts the notes of a script.
fn note_script<N: Sink>(alloc: Global, script: &Script, notes: &mut N) -> QueryStatus
    ensures noted { IsNoted result (notes_of_script (script_seen script.now)) (N.held notes.old) (N.held notes.new) (Rose (N.faults notes.old) (N.faults notes.new)) }
    ensures sure { N.sure notes.new ≡ N.sure notes.old }
    ensures no_fewer { N.faults notes.old ≤ N.faults notes.new }
{
    match notes_of(alloc, script) {
        Ok(text) => match put_all(notes, &text) {
            Ok(()) => QueryStatus::Done,
            Err(_) => QueryStatus::NoteFault,
        },
        Err(_) => QueryStatus::OutOfMemory,
    }
}

/// Reads the source, runs the script and puts its notes.
fn run<S: Source, N: Sink>(alloc: Global, source: &mut S, notes: &mut N) -> QueryStatus
    ensures ended { Ended result (S.left source.old) (S.left source.new) (N.held notes.old) (N.held notes.new) (Rose (S.faults source.old) (S.faults source.new)) (Rose (N.faults notes.old) (N.faults notes.new)) }
    ensures sure { N.sure notes.new ≡ N.sure notes.old }
    ensures no_fewer { (S.faults source.old ≤ S.faults source.new) × (N.faults notes.old ≤ N.faults notes.new) }
{
    let bytes = match read_all(alloc, source, LONGEST_INPUT) {
        Ok(bytes) => bytes,
        Err(InputError::Fault) => return QueryStatus::ReadFault,
        Err(InputError::TooLong) => return QueryStatus::TooLong,
        Err(InputError::OutOfMemory) => return QueryStatus::OutOfMemory,
    };
    match read_script(alloc, &bytes) {
        Ok(script) => note_script(alloc, &script, notes),
        Err(TextFault::Line(line)) => QueryStatus::Text { line },
        Err(TextFault::OutOfMemory) => QueryStatus::OutOfMemory,
    }
}

/// Runs the query script that the source gives and puts its notes: one line for each frame, with the result of each query of which a draw
/// was drawn in it.
///
/// The source is read to its end, at most 16,777,216 bytes. The whole text is read before a frame is drawn, and all frames are drawn before
/// a note is put. A query's result in a frame is the sum of the counts of its draws that were drawn, and the count of a draw is how many of
/// its fragments pass the stencil test and the depth test.
///
/// The status says how it ended. `Text` and `TooLong` come exactly by the bytes; `ReadFault` and `NoteFault` only where that object's count
/// of faults rose; `OutOfMemory` is free. After `NoteFault` a front of the notes was put, and after the others but `Done` nothing.
pub fn run_queries<S: Source, N: Sink>(alloc: Global, source: &mut S, notes: &mut N) -> QueryStatus
    // What was read and what the notes are after each status, and its cause.
    ensures ended { Ended result (S.left source.old) (S.left source.new) (N.held notes.old) (N.held notes.new) (Rose (S.faults source.old) (S.faults source.new)) (Rose (N.faults notes.old) (N.faults notes.new)) }
    // The sink keeps its sure length, and no count of faults falls.
    ensures sure { N.sure notes.new ≡ N.sure notes.old }
    ensures no_fewer { (S.faults source.old ≤ S.faults source.new) × (N.faults notes.old ≤ N.faults notes.new) }
    // Where the source told too many bytes and did not fail.
    ensures too_long { (bytes : List ℕ) → S.left source.old ≡ Some bytes → longest < length bytes → (Rose (S.faults source.old) (S.faults source.new) → ⊥) → EndsAs QueryStatus.TooLong result }
    // Where it told bytes that are no script.
    ensures refused { (bytes : List ℕ) (line : ℕ) → S.left source.old ≡ Some bytes → length bytes ≤ longest → script_of bytes ≡ Err line → (Rose (S.faults source.old) (S.faults source.new) → ⊥) → EndsAs (QueryStatus.Text line) result }
    // Where it told a script, and nothing failed.
    ensures complete { (bytes : List ℕ) (s : TheScript) → S.left source.old ≡ Some bytes → length bytes ≤ longest → script_of bytes ≡ Ok s → (Rose (S.faults source.old) (S.faults source.new) → ⊥) → (Rose (N.faults notes.old) (N.faults notes.new) → ⊥) → EndsAs QueryStatus.Done result }
{
    run(alloc, source, notes)
}

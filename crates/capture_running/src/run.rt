// The top call.
ghost use Rattle.std.specs.Prelude.{◌≡◌, ◌≢◌, ◌≤◌, ℕ, List, map, string_bytes};
ghost use Rattle.scene_text.specs.Seen.{journal_seen};
ghost use Rattle.io_whole.specs.Runs.{putting, reading};
ghost use Rattle.capture_running.specs.Words.{mode_of};
ghost use Rattle.capture_running.specs.Ended.{AreTaken, Ends, EndsAs, IsGiven, status_of};

use crate::captured::{Captured, blank};
use crate::recording::record;
use crate::showing::show;
use crate::status::CaptureStatus;
use crate::words::{Mode, mode_of};
use io_edge::{Gate, Sink, Source};
use std::alloc::Global;
use std::sync::Wait;
use std::thread::Threads;

/// Does what the words say.
fn run<R: Threads + Wait + Sync, S: Source, P: Sink, N: Sink, G: Gate + Sync>(
    rt: &R,
    alloc: Global,
    words: &[String],
    source: &mut S,
    sink: &mut P,
    notes: &mut N,
    gate: &G,
) -> Captured
    ensures ends { Ends result.status (mode_of (map string_bytes words.now))
        (reading (S.left source.old) (S.left source.new) (S.faults source.old) (S.faults source.new))
        (journal_seen result.journal)
        (putting (P.held sink.old) (P.held sink.new) (P.faults sink.old) (P.faults sink.new))
        (putting (N.held notes.old) (N.held notes.new) (N.faults notes.old) (N.faults notes.new)) }
    ensures sure { (P.sure sink.new ≡ P.sure sink.old) × (N.sure notes.new ≡ N.sure notes.old) }
    ensures no_fewer { (S.faults source.old ≤ S.faults source.new) × (P.faults sink.old ≤ P.faults sink.new) × (N.faults notes.old ≤ N.faults notes.new) }
{
    let Some(mode) = mode_of(words) else {
        return blank(alloc, CaptureStatus::Usage);
    };
    match mode {
        Mode::Record => record(rt, alloc, source, sink, notes, gate),
        Mode::Show => {
            let status = show(alloc, source, sink);
            blank(alloc, status)
        }
    }
}

/// Does what the words say: `record` plays the scene that the source gives, and writes the capture of its pictures to the sink; `show`
/// writes the picture texts that the capture stands for which the source gives.
///
/// The order is: the words; the source, which is read to its end, at most 16,777,216 bytes of a scene or 201,326,592 of a capture; the
/// scene or the capture; the size of the pictures; the notes, by `record` alone, which are those of the player's `play`; the sink. The
/// gate is a hook for tests, as in the player's `play`; no clause says so.
///
/// The status says how it ended. `Usage`, `Scene`, `TooLong`, `TooLarge` and `Capture` come exactly by the words and the bytes;
/// `ReadFault`, `PictureFault` (of the sink) and `NoteFault` only where that object's count of faults rose in this call; `OutOfMemory` is
/// free. What stands after each is the clause `ends`. It may wait for its own threads.
pub fn capture<R: Threads + Wait + Sync, S: Source, P: Sink, N: Sink, G: Gate + Sync>(
    rt: &R,
    alloc: Global,
    words: &[String],
    source: &mut S,
    sink: &mut P,
    notes: &mut N,
    gate: &G,
) -> Captured
    // What was read and put after each status, the journal, and the cause.
    ensures ends { Ends result.status (mode_of (map string_bytes words.now))
        (reading (S.left source.old) (S.left source.new) (S.faults source.old) (S.faults source.new))
        (journal_seen result.journal)
        (putting (P.held sink.old) (P.held sink.new) (P.faults sink.old) (P.faults sink.new))
        (putting (N.held notes.old) (N.held notes.new) (N.faults notes.old) (N.faults notes.new)) }
    // The sinks keep their sure lengths, and no count of faults falls.
    ensures sure { (P.sure sink.new ≡ P.sure sink.old) × (N.sure notes.new ≡ N.sure notes.old) }
    ensures no_fewer { (S.faults source.old ≤ S.faults source.new) × (P.faults sink.old ≤ P.faults sink.new) × (N.faults notes.old ≤ N.faults notes.new) }
    // Where the words or the bytes are refused and the source does not fail, the run ends so, or for want of memory.
    ensures refused { (bytes : List ℕ)
        → IsGiven (mode_of (map string_bytes words.now)) (reading (S.left source.old) (S.left source.new) (S.faults source.old) (S.faults source.new)) bytes
        → status_of (mode_of (map string_bytes words.now)) bytes ≢ CaptureStatus.Done
        → EndsAs (status_of (mode_of (map string_bytes words.now)) bytes) result.status }
    // Where nothing fails, the status is that of the words and the bytes, unless memory runs out.
    ensures complete { (bytes : List ℕ)
        → IsGiven (mode_of (map string_bytes words.now)) (reading (S.left source.old) (S.left source.new) (S.faults source.old) (S.faults source.new)) bytes
        → AreTaken (mode_of (map string_bytes words.now))
        (putting (P.held sink.old) (P.held sink.new) (P.faults sink.old) (P.faults sink.new))
        (putting (N.held notes.old) (N.held notes.new) (N.faults notes.old) (N.faults notes.new))
        → EndsAs (status_of (mode_of (map string_bytes words.now)) bytes) result.status }
{
    run(rt, alloc, words, source, sink, notes, gate)
}

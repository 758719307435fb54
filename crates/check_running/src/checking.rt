// The call.
ghost use Rattle.std.specs.Prelude.{◌≡◌, ◌↔◌, ◌≤◌, ◌<◌, ℕ, List, Some, Ok, Err, length};
ghost use Rattle.std.specs.List.{AllByRecursion};
ghost use Rattle.io_edge.specs.Edge.{Rose};
ghost use Rattle.scene_model.specs.Scene as model;
ghost use Rattle.scene_model.specs.Grammar.{Fault, whole_language, scene_of};
ghost use Rattle.scene_model.specs.Fold.{plans};
ghost use Rattle.scene_model.specs.Output.{frame_dropped, length_line};
ghost use Rattle.spelling_model.specs.Readable.{IsReadable};
ghost use Rattle.scene_text.specs.Bounds.{IsBounded};
ghost use Rattle.scene_text.specs.Seen.{scene_seen};
ghost use Rattle.dropped_lines.specs.Dropped.{dropped_text};
ghost use Rattle.io_whole.specs.Whole.{longest};
ghost use Rattle.check_running.specs.Ended.{Ended, EndsAs, HasCounted};
ghost use Rattle.check_running.specs.Refusals.{refusal_line};
ghost use Rattle.check_running.specs.Putting.{IsPut, IsTold};

use crate::lines::refusal_of;
use crate::putting::{PutError, put_frames};
use crate::status::CheckStatus;
use dropped_lines::{count_law, silent_law};
use fault_fields::fault_field;
use io_edge::{Sink, Source};
use io_whole::{InputError, LONGEST_INPUT, put_all, read_all};
use scene_text::{Scene, SceneFault, read};
use std::alloc::Global;

/// Puts the lines of a scene.
fn put_scene<N: Sink>(alloc: Global, bytes: &[u8], scene: &Scene, lines: &mut N) -> CheckStatus
    requires few { length bytes.now ≤ 16777216 }
    requires readable { IsReadable (scene_seen scene.now) }
    requires bounded { IsBounded (scene_seen scene.now) }
    ensures put { IsPut result (dropped_text bytes.now (scene_seen scene.now)) (N.held lines.old) (N.held lines.new) (Rose (N.faults lines.old) (N.faults lines.new)) }
    ensures sure { N.sure lines.new ≡ N.sure lines.old }
    ensures no_fewer { N.faults lines.old ≤ N.faults lines.new }
{
    match put_frames(alloc, bytes, scene, lines) {
        Ok(()) => CheckStatus::Done,
        Err(PutError::Fault) => CheckStatus::LineFault,
        Err(PutError::OutOfMemory) => CheckStatus::OutOfMemory,
    }
}

/// Tells of a text that is no scene.
fn tell_scene<E: Sink>(
    alloc: Global,
    line: u32,
    cause: u8,
    field: Option<u32>,
    notes: &mut E,
) -> CheckStatus
    ensures told { IsTold result (CheckStatus.Scene line cause) (refusal_line line cause field) (E.held notes.old) (E.held notes.new) (Rose (E.faults notes.old) (E.faults notes.new)) }
    ensures sure { E.sure notes.new ≡ E.sure notes.old }
    ensures no_fewer { E.faults notes.old ≤ E.faults notes.new }
{
    match refusal_of(alloc, line, cause, field) {
        Ok(text) => match put_all(notes, text.as_slice()) {
            Ok(()) => CheckStatus::Scene { line, cause },
            Err(_) => CheckStatus::NoteFault,
        },
        Err(_) => CheckStatus::OutOfMemory,
    }
}

/// Tells of a text that is too long.
fn tell_length<E: Sink>(notes: &mut E) -> CheckStatus
    ensures told { IsTold result CheckStatus.TooLong length_line (E.held notes.old) (E.held notes.new) (Rose (E.faults notes.old) (E.faults notes.new)) }
    ensures sure { E.sure notes.new ≡ E.sure notes.old }
    ensures no_fewer { E.faults notes.old ≤ E.faults notes.new }
{
    match put_all(notes, b"input is longer than 16777216 bytes\n") {
        Ok(()) => CheckStatus::TooLong,
        Err(_) => CheckStatus::NoteFault,
    }
}

/// Reads the source, and puts the lines of the scene that it gives.
fn run<S: Source, N: Sink, E: Sink>(
    alloc: Global,
    source: &mut S,
    lines: &mut N,
    notes: &mut E,
) -> CheckStatus
    ensures ended { Ended result (S.left source.old) (S.left source.new) (N.held lines.old) (N.held lines.new) (E.held notes.old) (E.held notes.new) (Rose (S.faults source.old) (S.faults source.new)) (Rose (N.faults lines.old) (N.faults lines.new)) (Rose (E.faults notes.old) (E.faults notes.new)) }
    ensures sure { (N.sure lines.new ≡ N.sure lines.old) × (E.sure notes.new ≡ E.sure notes.old) }
    ensures no_fewer { (S.faults source.old ≤ S.faults source.new) × (N.faults lines.old ≤ N.faults lines.new) × (E.faults notes.old ≤ E.faults notes.new) }
{
    let bytes = match read_all(alloc, source, LONGEST_INPUT) {
        Ok(bytes) => bytes,
        Err(InputError::Fault) => return CheckStatus::ReadFault,
        Err(InputError::TooLong) => return tell_length(notes),
        Err(InputError::OutOfMemory) => return CheckStatus::OutOfMemory,
    };
    match read(alloc, &bytes) {
        Ok(scene) => put_scene(alloc, &bytes, &scene, lines),
        Err(SceneFault::At { line, cause }) => {
            let field = fault_field(&bytes, line, cause);
            tell_scene(alloc, line, cause, field, notes)
        }
        Err(SceneFault::OutOfMemory) => CheckStatus::OutOfMemory,
    }
}

/// Reads a scene to its end, at most 16,777,216 bytes, and puts one line for each of its lines that a play drops, in the order of the
/// text: `line N frame K encoder E refused WORD`, for a line of the API thread without `encoder E`. WORD is the refusal of the line's
/// call, `Unnamed` where a name of the line stands for nothing, or `NoLayout` where its parts are no layout. Nothing is played, and no
/// thread is started: which lines are dropped depends on no schedule.
///
/// Of a text that is no scene, or too long, one line is put to the notes: of one that is no scene the line, the cause and the field at which
/// it fails, `scene refused at line L for cause C in field F`, without the field where the text ends early.
///
/// The status says how it ended. `Scene` and `TooLong` come exactly by the bytes; `ReadFault`, `LineFault` and `NoteFault` only where
/// that object's count of faults rose in this call; `OutOfMemory` is free. The lines of a frame are put when it is judged: after `LineFault` a
/// front of the lines was put, after `OutOfMemory` perhaps one, and after the others but `Done` none.
pub fn check<S: Source, N: Sink, E: Sink>(
    alloc: Global,
    source: &mut S,
    lines: &mut N,
    notes: &mut E,
) -> CheckStatus
    // What was read and what was put after each status, and its cause.
    ensures ended { Ended result (S.left source.old) (S.left source.new) (N.held lines.old) (N.held lines.new) (E.held notes.old) (E.held notes.new) (Rose (S.faults source.old) (S.faults source.new)) (Rose (N.faults lines.old) (N.faults lines.new)) (Rose (E.faults notes.old) (E.faults notes.new)) }
    // The sinks keep their sure lengths, and no count of faults falls.
    ensures sure { (N.sure lines.new ≡ N.sure lines.old) × (E.sure notes.new ≡ E.sure notes.old) }
    ensures no_fewer { (S.faults source.old ≤ S.faults source.new) × (N.faults lines.old ≤ N.faults lines.new) × (E.faults notes.old ≤ E.faults notes.new) }
    // Where it was done, nothing was put exactly where the note of each frame says that no line was dropped.
    ensures silent { (bytes text : List ℕ) (s : model.Scene) → S.left source.old ≡ Some bytes → scene_of whole_language bytes ≡ Ok s → N.held lines.old ≡ Some text
        → result ≡ CheckStatus.Done → (N.held lines.new ≡ Some text) ↔ AllByRecursion (λ p. frame_dropped p ≡ 0) (plans s) }
    // Where it was done, as many lines were put of each frame as the note of the frame says that it dropped.
    ensures counted { (bytes text : List ℕ) (s : model.Scene) → S.left source.old ≡ Some bytes → scene_of whole_language bytes ≡ Ok s → N.held lines.old ≡ Some text
        → result ≡ CheckStatus.Done → HasCounted s text (N.held lines.new) }
    // Where the source told too many bytes, and nothing failed.
    ensures too_long { (bytes : List ℕ) → S.left source.old ≡ Some bytes → longest < length bytes → (Rose (S.faults source.old) (S.faults source.new) → ⊥)
        → (Rose (E.faults notes.old) (E.faults notes.new) → ⊥) → EndsAs CheckStatus.TooLong result }
    // Where it told bytes that are no scene.
    ensures refused { (bytes : List ℕ) (fault : Fault) → S.left source.old ≡ Some bytes → length bytes ≤ longest → scene_of whole_language bytes ≡ Err fault
        → (Rose (S.faults source.old) (S.faults source.new) → ⊥) → (Rose (E.faults notes.old) (E.faults notes.new) → ⊥) → EndsAs (CheckStatus.Scene fault.line fault.cause) result }
    // Where it told a scene.
    ensures complete { (bytes : List ℕ) (s : model.Scene) → S.left source.old ≡ Some bytes → length bytes ≤ longest → scene_of whole_language bytes ≡ Ok s
        → (Rose (S.faults source.old) (S.faults source.new) → ⊥) → (Rose (N.faults lines.old) (N.faults lines.new) → ⊥) → EndsAs CheckStatus.Done result }
{
    silent_law();
    count_law();
    run(alloc, source, lines, notes)
}

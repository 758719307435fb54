// The call.
ghost use Rattle.std.specs.Prelude.{◌≡◌, ◌≤◌, List, Some, None, ℕ, length, map, string_bytes};
ghost use Rattle.io_edge.specs.Edge.{Rose};
ghost use Rattle.picture_diff.specs.Frames.{are_all_same};
ghost use Rattle.diff_running.specs.Notes.{picture_note, count_note, sides_note, usage_note, length_note};
ghost use Rattle.diff_running.specs.Putting.{IsPut, IsTold, IsToldOf};
ghost use Rattle.diff_running.specs.Words.{asked_by};
ghost use Rattle.diff_running.specs.Ended.{Ended, EndedTaken, EndsAs, IsCalledFor, IsUsage};
ghost use Rattle.diff_running.specs.declared.status.DiffStatus.{DiffStatus};
ghost use Rattle.diff_running.specs.declared.words.Asked.{Asked};

use crate::notes::{LENGTH, USAGE, count_note, picture_note, sides_note};
use crate::status::DiffStatus;
use crate::words::{Asked, asked_by};
use io_edge::{Sink, Source};
use io_whole::{InputError, put_all, read_all};
use picture_diff::{Difference, PictureFault, differences, lines_of};
use std::alloc::Global;

const LONGEST: usize = 4_294_967_296;

/// Puts a note, and answers the status that it tells of.
fn put_note<E: Sink>(note: &[u8], status: DiffStatus, notes: &mut E) -> DiffStatus
    ensures told { IsTold result status note.now (E.held notes.old) (E.held notes.new) (Rose (E.faults notes.old) (E.faults notes.new)) }
    ensures sure { E.sure notes.new ≡ E.sure notes.old }
    ensures no_fewer { E.faults notes.old ≤ E.faults notes.new }
{
    match put_all(notes, note) {
        Ok(()) => status,
        Err(_) => DiffStatus::NoteFault,
    }
}

/// Tells of bytes that are no pictures.
fn tell_picture<E: Sink>(alloc: Global, pictures: usize, at: usize, notes: &mut E) -> DiffStatus
    ensures told { IsTold result (DiffStatus.NoPicture pictures at) (picture_note pictures at) (E.held notes.old) (E.held notes.new) (Rose (E.faults notes.old) (E.faults notes.new)) }
    ensures sure { E.sure notes.new ≡ E.sure notes.old }
    ensures no_fewer { E.faults notes.old ≤ E.faults notes.new }
{
    match picture_note(alloc, pictures, at) {
        Ok(text) => {
            let status = DiffStatus::NoPicture { pictures, at };
            put_note(text.as_slice(), status, notes)
        }
        Err(_) => DiffStatus::OutOfMemory,
    }
}

/// Tells of pictures that are no two streams.
fn tell_count<E: Sink>(alloc: Global, pictures: usize, notes: &mut E) -> DiffStatus
    ensures told { IsTold result (DiffStatus.Count pictures) (count_note pictures) (E.held notes.old) (E.held notes.new) (Rose (E.faults notes.old) (E.faults notes.new)) }
    ensures sure { E.sure notes.new ≡ E.sure notes.old }
    ensures no_fewer { E.faults notes.old ≤ E.faults notes.new }
{
    match count_note(alloc, pictures) {
        Ok(text) => {
            let status = DiffStatus::Count { pictures };
            put_note(text.as_slice(), status, notes)
        }
        Err(_) => DiffStatus::OutOfMemory,
    }
}

/// Tells of a frame whose pictures have other sides.
fn tell_sides<E: Sink>(alloc: Global, frame: usize, notes: &mut E) -> DiffStatus
    ensures told { IsTold result (DiffStatus.Sides frame) (sides_note frame) (E.held notes.old) (E.held notes.new) (Rose (E.faults notes.old) (E.faults notes.new)) }
    ensures sure { E.sure notes.new ≡ E.sure notes.old }
    ensures no_fewer { E.faults notes.old ≤ E.faults notes.new }
{
    match sides_note(alloc, frame) {
        Ok(text) => {
            let status = DiffStatus::Sides { frame };
            put_note(text.as_slice(), status, notes)
        }
        Err(_) => DiffStatus::OutOfMemory,
    }
}

/// Tells why nothing is compared.
fn tell_fault<E: Sink>(alloc: Global, fault: PictureFault, notes: &mut E) -> DiffStatus
    ensures told { IsToldOf fault result (E.held notes.old) (E.held notes.new) (Rose (E.faults notes.old) (E.faults notes.new)) }
    ensures sure { E.sure notes.new ≡ E.sure notes.old }
    ensures no_fewer { E.faults notes.old ≤ E.faults notes.new }
{
    match fault {
        PictureFault::NoPicture { pictures, at } => tell_picture(alloc, pictures, at, notes),
        PictureFault::Count { pictures } => tell_count(alloc, pictures, notes),
        PictureFault::Sides { frame } => tell_sides(alloc, frame, notes),
        PictureFault::OutOfMemory => DiffStatus::OutOfMemory,
    }
}

/// Whether no pixel differs in any frame.
fn are_all_same(found: &[Difference]) -> bool
    ensures { result ≡ are_all_same found.now }
{
    found.iter().all(|d| d.differ == 0)
}

/// Tells how the words are to be.
fn tell_usage<E: Sink>(notes: &mut E) -> DiffStatus
    ensures told { IsUsage result (E.held notes.old) (E.held notes.new) (Rose (E.faults notes.old) (E.faults notes.new)) }
    ensures sure { E.sure notes.new ≡ E.sure notes.old }
    ensures no_fewer { E.faults notes.old ≤ E.faults notes.new }
{
    match put_all(notes, USAGE) {
        Ok(()) => DiffStatus::Usage,
        Err(_) => DiffStatus::NoteFault,
    }
}

/// Puts the lines of the frames.
fn put_lines<N: Sink>(alloc: Global, found: &[Difference], lines: &mut N) -> DiffStatus
    ensures put { IsPut result found.now (N.held lines.old) (N.held lines.new) (Rose (N.faults lines.old) (N.faults lines.new)) }
    ensures sure { N.sure lines.new ≡ N.sure lines.old }
    ensures no_fewer { N.faults lines.old ≤ N.faults lines.new }
{
    let Ok(text) = lines_of(alloc, found) else {
        return DiffStatus::OutOfMemory;
    };
    match put_all(lines, text.as_slice()) {
        Ok(()) => {
            if are_all_same(found) {
                DiffStatus::Same
            } else {
                DiffStatus::Different
            }
        }
        Err(_) => DiffStatus::LineFault,
    }
}

/// Compares what the source gives.
fn run<S: Source, N: Sink, E: Sink>(
    alloc: Global,
    asked: Asked,
    source: &mut S,
    lines: &mut N,
    notes: &mut E,
) -> DiffStatus
    ensures ended { EndedTaken result asked (S.left source.old) (S.left source.new) (N.held lines.old) (N.held lines.new) (E.held notes.old) (E.held notes.new) (Rose (S.faults source.old) (S.faults source.new)) (Rose (N.faults lines.old) (N.faults lines.new)) (Rose (E.faults notes.old) (E.faults notes.new)) }
    ensures sure { (N.sure lines.new ≡ N.sure lines.old) × (E.sure notes.new ≡ E.sure notes.old) }
    ensures no_fewer { (S.faults source.old ≤ S.faults source.new) × (N.faults lines.old ≤ N.faults lines.new) × (E.faults notes.old ≤ E.faults notes.new) }
{
    let bytes = match read_all(alloc, source, LONGEST) {
        Ok(bytes) => bytes,
        Err(InputError::Fault) => return DiffStatus::ReadFault,
        Err(InputError::TooLong) => return put_note(LENGTH, DiffStatus::TooLong, notes),
        Err(InputError::OutOfMemory) => return DiffStatus::OutOfMemory,
    };
    match differences(alloc, &bytes, asked.near, asked.frames) {
        Ok(found) => put_lines(alloc, &found, lines),
        Err(fault) => tell_fault(alloc, fault, notes),
    }
}

/// The same, by the words.
fn run_asked<S: Source, N: Sink, E: Sink>(
    alloc: Global,
    asked: Option<Asked>,
    source: &mut S,
    lines: &mut N,
    notes: &mut E,
) -> DiffStatus
    ensures ended { Ended asked result (S.left source.old) (S.left source.new) (N.held lines.old) (N.held lines.new) (E.held notes.old) (E.held notes.new) (Rose (S.faults source.old) (S.faults source.new)) (Rose (N.faults lines.old) (N.faults lines.new)) (Rose (E.faults notes.old) (E.faults notes.new)) }
    ensures sure { (N.sure lines.new ≡ N.sure lines.old) × (E.sure notes.new ≡ E.sure notes.old) }
    ensures no_fewer { (S.faults source.old ≤ S.faults source.new) × (N.faults lines.old ≤ N.faults lines.new) × (E.faults notes.old ≤ E.faults notes.new) }
{
    match asked {
        Some(asked) => run(alloc, asked, source, lines, notes),
        None => tell_usage(notes),
    }
}

/// Compares two streams of pictures that stand behind each other in the source: the first half of its pictures with the second half,
/// frame by frame, and puts one line for each frame. The words are `--near N`, 0 to 255, by how much channels may differ, 0 where it is
/// left out; and `--frames K`, how many pictures each stream has to have.
///
/// The status says how it ended. `Usage` comes exactly by the words, and nothing is read then; `NoPicture`, `Count`, `Sides` and `TooLong`
/// exactly by the bytes, each with one note; `Same` exactly where each channel of each frame is within N, `Different` exactly where some
/// is not. `ReadFault`, `LineFault` and `NoteFault` come only where that object's count of faults rose in this call; `OutOfMemory` is
/// free. The source is read to its end and judged before the first line is put: after `LineFault` a front of the lines was put, and none
/// after the others but `Same` and `Different`.
pub fn diff<S: Source, N: Sink, E: Sink>(
    alloc: Global,
    words: &[String],
    source: &mut S,
    lines: &mut N,
    notes: &mut E,
) -> DiffStatus
    // What was read and what was put after each status, and its cause.
    ensures ended { Ended (asked_by (map string_bytes words.now)) result (S.left source.old) (S.left source.new) (N.held lines.old) (N.held lines.new) (E.held notes.old) (E.held notes.new) (Rose (S.faults source.old) (S.faults source.new)) (Rose (N.faults lines.old) (N.faults lines.new)) (Rose (E.faults notes.old) (E.faults notes.new)) }
    // The sinks keep their sure lengths, and no count of faults falls.
    ensures sure { (N.sure lines.new ≡ N.sure lines.old) × (E.sure notes.new ≡ E.sure notes.old) }
    ensures no_fewer { (S.faults source.old ≤ S.faults source.new) × (N.faults lines.old ≤ N.faults lines.new) × (E.faults notes.old ≤ E.faults notes.new) }
    // Where the words are refused and the notes do not fail.
    ensures refused { asked_by (map string_bytes words.now) ≡ None → (Rose (E.faults notes.old) (E.faults notes.new) → ⊥) → result ≡ DiffStatus.Usage }
    // Where the words are taken, the source tells its bytes, and nothing fails: the status that the bytes call for, unless memory runs out.
    ensures complete { (a : Asked) (bytes : List ℕ) (wanted : DiffStatus) → asked_by (map string_bytes words.now) ≡ Some a → S.left source.old ≡ Some bytes → IsCalledFor a bytes wanted
        → (Rose (S.faults source.old) (S.faults source.new) → ⊥) → (Rose (N.faults lines.old) (N.faults lines.new) → ⊥) → (Rose (E.faults notes.old) (E.faults notes.new) → ⊥)
        → EndsAs wanted result }
{
    let asked = asked_by(words);
    run_asked(alloc, asked, source, lines, notes)
}

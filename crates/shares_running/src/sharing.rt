// The call.
ghost use Rattle.std.specs.Prelude.{◌≡◌, ◌≢◌, ◌↔◌, ◌≤◌, ◌<◌, false, ℕ, List, Some, Ok, Err, length, map, string_bytes, IfOk};
ghost use Rattle.io_edge.specs.Edge.{Rose};
ghost use Rattle.scene_model.specs.Scene as model;
ghost use Rattle.scene_model.specs.Grammar.{Fault, whole_language, scene_of};
ghost use Rattle.scene_model.specs.Journal.{Journal, IsLawful, shares_key, pictures};
ghost use Rattle.spelling_model.specs.Readable.{IsReadable};
ghost use Rattle.scene_text.specs.Bounds.{IsBounded};
ghost use Rattle.scene_text.specs.Seen.{scene_seen};
ghost use Rattle.shared_keys.specs.Lines.{shared_lines};
ghost use Rattle.io_whole.specs.Whole.{longest};
ghost use Rattle.shares_running.specs.Ended.{Ended, Ends, EndsAs};
ghost use Rattle.shares_running.specs.Lines.{IsText, pair_lines};
ghost use Rattle.shares_running.specs.Putting.{IsNoted, IsPut};
ghost use Rattle.shares_running.specs.Words.{job_of};

use crate::harmless::left_lines;
use crate::lines::lines_of;
use crate::pairs::{pair_lines_of, scene_pairs};
use crate::status::SharesStatus;
use crate::views::scene_views;
use crate::words::{Job, job_of};
use bare_worlds::laws::harmless_law;
use io_edge::{Sink, Source};
use io_whole::{InputError, LONGEST_INPUT, put_all, read_all};
use scene_text::{Scene, SceneFault, read};
use shared_items::laws::pairs_law;
use shared_keys::laws::{free_law, no_line_law};
use std::alloc::{AllocError, Global};
use std::sync::Wait;
use std::thread::Threads;

/// The lines of the views of a scene in which two encoders share a key.
fn view_lines<R: Threads + Wait + Sync>(
    rt: &R,
    alloc: Global,
    scene: &Scene,
) -> Result<Vec<u8>, AllocError>
    requires readable { IsReadable (scene_seen scene.now) }
    requires bounded { IsBounded (scene_seen scene.now) }
    ensures { IfOk result (λ lines. lines.items ≡ shared_lines (scene_seen scene.now)) }
{
    let lists = scene_views(rt, alloc, scene)?;
    let lines = lines_of(alloc, lists.as_slice())?;
    Ok(lines)
}

/// The same with those of the pairs of items.
fn pair_lines<R: Threads + Wait + Sync>(
    rt: &R,
    alloc: Global,
    bytes: &[u8],
    scene: &Scene,
) -> Result<Vec<u8>, AllocError>
    requires few { length bytes.now ≤ 16777216 }
    requires readable { IsReadable (scene_seen scene.now) }
    requires bounded { IsBounded (scene_seen scene.now) }
    ensures { IfOk result (λ lines. lines.items ≡ pair_lines bytes.now (scene_seen scene.now)) }
{
    let lists = scene_pairs(rt, alloc, scene)?;
    let lines = pair_lines_of(alloc, bytes, scene, lists.as_slice())?;
    Ok(lines)
}

/// The lines of a scene that a job asks for.
fn job_lines<R: Threads + Wait + Sync>(
    rt: &R,
    alloc: Global,
    job: Job,
    bytes: &[u8],
    scene: &Scene,
) -> Result<Vec<u8>, AllocError>
    requires few { length bytes.now ≤ 16777216 }
    requires readable { IsReadable (scene_seen scene.now) }
    requires bounded { IsBounded (scene_seen scene.now) }
    ensures { IfOk result (λ lines. IsText job bytes.now (scene_seen scene.now) lines.items) }
{
    match job {
        Job::Views => view_lines(rt, alloc, scene),
        Job::Pairs => pair_lines(rt, alloc, bytes, scene),
        Job::Harmless => left_lines(rt, alloc, scene),
    }
}

/// Puts lines.
fn put_lines<N: Sink>(lines: &[u8], notes: &mut N) -> SharesStatus
    ensures put { IsPut result lines.now (N.held notes.old) (N.held notes.new) (Rose (N.faults notes.old) (N.faults notes.new)) }
    ensures sure { N.sure notes.new ≡ N.sure notes.old }
    ensures no_fewer { N.faults notes.old ≤ N.faults notes.new }
{
    match put_all(notes, lines) {
        Ok(()) => SharesStatus::Done,
        Err(_) => SharesStatus::NoteFault,
    }
}

/// Puts the lines of a scene.
fn note_scene<R: Threads + Wait + Sync, N: Sink>(
    rt: &R,
    alloc: Global,
    job: Job,
    bytes: &[u8],
    scene: &Scene,
    notes: &mut N,
) -> SharesStatus
    requires few { length bytes.now ≤ 16777216 }
    requires readable { IsReadable (scene_seen scene.now) }
    requires bounded { IsBounded (scene_seen scene.now) }
    ensures noted { IsNoted result (IsText job bytes.now (scene_seen scene.now)) (N.held notes.old) (N.held notes.new) (Rose (N.faults notes.old) (N.faults notes.new)) }
    ensures sure { N.sure notes.new ≡ N.sure notes.old }
    ensures no_fewer { N.faults notes.old ≤ N.faults notes.new }
{
    match job_lines(rt, alloc, job, bytes, scene) {
        Ok(lines) => put_lines(lines.as_slice(), notes),
        Err(_) => SharesStatus::OutOfMemory,
    }
}

/// Reads the source, and puts the lines of the scene that it gives.
fn run_job<R: Threads + Wait + Sync, S: Source, N: Sink>(
    rt: &R,
    alloc: Global,
    job: Job,
    source: &mut S,
    notes: &mut N,
) -> SharesStatus
    ensures ended { Ended job result (S.left source.old) (S.left source.new) (N.held notes.old) (N.held notes.new) (Rose (S.faults source.old) (S.faults source.new)) (Rose (N.faults notes.old) (N.faults notes.new)) }
    ensures sure { N.sure notes.new ≡ N.sure notes.old }
    ensures no_fewer { (S.faults source.old ≤ S.faults source.new) × (N.faults notes.old ≤ N.faults notes.new) }
{
    let bytes = match read_all(alloc, source, LONGEST_INPUT) {
        Ok(bytes) => bytes,
        Err(InputError::Fault) => return SharesStatus::ReadFault,
        Err(InputError::TooLong) => return SharesStatus::TooLong,
        Err(InputError::OutOfMemory) => return SharesStatus::OutOfMemory,
    };
    match read(alloc, &bytes) {
        Ok(scene) => note_scene(rt, alloc, job, &bytes, &scene, notes),
        Err(SceneFault::At { line, cause }) => SharesStatus::Scene { line, cause },
        Err(SceneFault::OutOfMemory) => SharesStatus::OutOfMemory,
    }
}

/// Does what the words say.
fn run<R: Threads + Wait + Sync, S: Source, N: Sink>(
    rt: &R,
    alloc: Global,
    words: &[String],
    source: &mut S,
    notes: &mut N,
) -> SharesStatus
    ensures ends { Ends (job_of (map string_bytes words.now)) result (S.left source.old) (S.left source.new) (N.held notes.old) (N.held notes.new) (Rose (S.faults source.old) (S.faults source.new)) (Rose (N.faults notes.old) (N.faults notes.new)) }
    ensures sure { N.sure notes.new ≡ N.sure notes.old }
    ensures no_fewer { (S.faults source.old ≤ S.faults source.new) × (N.faults notes.old ≤ N.faults notes.new) }
{
    match job_of(words) {
        Some(job) => run_job(rt, alloc, job, source, notes),
        None => SharesStatus::Usage,
    }
}

/// Reads a scene to its end, at most 16,777,216 bytes, and puts lines for each frame and each of its views in which two encoders share a
/// key, the frames and in each frame the views ascending. Without a word that is the line `frame K view V encoders A B`, A and B the least
/// pair of such encoders. With the word `pairs` there is a second line behind it,
/// `pair frame K view V encoder A item I line L encoder B item J line M`: item I of encoder A and item J of encoder B share a key, I is the
/// first item of A that shares one with an item of B in the view, and J the first item of B that shares one with it; L and M are the
/// numbers of the lines of the text that record them, from 1. With the word `harmless` the first line stands alone, and it is left out
/// exactly where no pixel of the back buffer cares: where the view draws onto it, each of its items that shares a key with one of another
/// encoder is a draw without values, and no pixel is covered by both. Other words are refused, and nothing is read. Where it is done and
/// no line was put, the pictures do not depend on the threads' schedule.
///
/// All frames are recorded, by recorder threads where they can be started, before a line is put; none is rendered. Resource calls of
/// the scene's lines that are refused are dropped, as in a play.
///
/// The status says how it ended. `Usage`, `Scene` and `TooLong` come exactly by the words and the bytes; `ReadFault` and `NoteFault` only where
/// that object's count of faults rose in this call; `OutOfMemory` is free. After `NoteFault` a front of the lines was put, and after the
/// others but `Done` nothing. On `Done`, `Scene` and `NoteFault` the source was read to its end. It may wait for its own threads.
pub fn shares<R: Threads + Wait + Sync, S: Source, N: Sink>(
    rt: &R,
    alloc: Global,
    words: &[String],
    source: &mut S,
    notes: &mut N,
) -> SharesStatus
    // What was read and what the notes are after each status, and its cause.
    ensures ends { Ends (job_of (map string_bytes words.now)) result (S.left source.old) (S.left source.new) (N.held notes.old) (N.held notes.new) (Rose (S.faults source.old) (S.faults source.new)) (Rose (N.faults notes.old) (N.faults notes.new)) }
    // The sink keeps its sure length, and no count of faults falls.
    ensures sure { N.sure notes.new ≡ N.sure notes.old }
    ensures no_fewer { (S.faults source.old ≤ S.faults source.new) × (N.faults notes.old ≤ N.faults notes.new) }
    // Where it was done, nothing was put exactly where no two encoders of a frame share a key, but where harmless views are left out.
    ensures silent { (job : Job) (bytes text : List ℕ) (s : model.Scene) → job_of (map string_bytes words.now) ≡ Some job → job ≢ Job.Harmless
        → S.left source.old ≡ Some bytes → scene_of whole_language bytes ≡ Ok s → N.held notes.old ≡ Some text
        → result ≡ SharesStatus.Done → (N.held notes.new ≡ Some text) ↔ (shares_key s ≡ false) }
    // Where it was done and nothing was put, by whatever words, every two lawful journals give the same pictures.
    ensures free { (bytes text : List ℕ) (s : model.Scene) → S.left source.old ≡ Some bytes → scene_of whole_language bytes ≡ Ok s → N.held notes.old ≡ Some text
        → result ≡ SharesStatus.Done → N.held notes.new ≡ Some text → (j k : Journal) → IsLawful s j → IsLawful s k → pictures s j ≡ pictures s k }
    // Where the words ask for something, and the source told too many bytes and did not fail.
    ensures too_long { (job : Job) (bytes : List ℕ) → job_of (map string_bytes words.now) ≡ Some job → S.left source.old ≡ Some bytes → longest < length bytes
        → (Rose (S.faults source.old) (S.faults source.new) → ⊥) → EndsAs SharesStatus.TooLong result }
    // Where it told bytes that are no scene.
    ensures refused { (job : Job) (bytes : List ℕ) (fault : Fault) → job_of (map string_bytes words.now) ≡ Some job → S.left source.old ≡ Some bytes → length bytes ≤ longest
        → scene_of whole_language bytes ≡ Err fault → (Rose (S.faults source.old) (S.faults source.new) → ⊥) → EndsAs (SharesStatus.Scene fault.line fault.cause) result }
    // Where it told a scene, and nothing failed.
    ensures complete { (job : Job) (bytes : List ℕ) (s : model.Scene) → job_of (map string_bytes words.now) ≡ Some job → S.left source.old ≡ Some bytes → length bytes ≤ longest
        → scene_of whole_language bytes ≡ Ok s → (Rose (S.faults source.old) (S.faults source.new) → ⊥) → (Rose (N.faults notes.old) (N.faults notes.new) → ⊥) → EndsAs SharesStatus.Done result }
{
    no_line_law();
    free_law();
    pairs_law();
    harmless_law();
    run(rt, alloc, words, source, notes)
}

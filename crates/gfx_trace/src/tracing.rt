// The call.
ghost use Rattle.std.specs.Prelude.{◌≡◌, ◌≢◌, ◌<◌, ◌≤◌, ◌&&◌, ℕ, nat_lt, List, Some, map, string_bytes, length, option_map};
ghost use Rattle.scene_model.specs.Scene as model;
ghost use Rattle.scene_model.specs.Journal.{Journal};
ghost use Rattle.spelling_model.specs.Readable.{IsReadable};
ghost use Rattle.scene_text.specs.Bounds.{IsBounded};
ghost use Rattle.scene_text.specs.Seen.{journal_seen, scene_seen};
ghost use Rattle.scene_tracing.specs.Asked.{IsLawfulOrder, journal_asked};
ghost use Rattle.gfx_trace.specs.Asked.{asked_of, scene_by};
ghost use Rattle.gfx_trace.specs.Ended.{AreTaken, Ends, EndsAs, EndsJob, IsAnswered, IsGiven, IsPut, status_of};
ghost use Rattle.gfx_trace.specs.Found.{asked_seen};
ghost use Rattle.gfx_trace.specs.Jobs as jobs;
ghost use Rattle.gfx_trace.specs.Jobs.{job_seen};
ghost use Rattle.io_whole.specs.Runs.{putting, reading};
ghost use Rattle.gfx_trace.specs.Lines.{AreSeen, IsBlamed, IsTold, IsToldOf, history_text};
ghost use Rattle.gfx_trace.specs.Words.{job_of};

use crate::asked::{Asked, AskedFault, read_asked};
use crate::blame::do_blame;
use crate::frame_buffer::do_target;
use crate::refusing::{
    TOO_LONG, USAGE, refuse, refuse_frame, refuse_journal, refuse_pixel, refuse_scene,
};
use crate::status::{TraceStatus, Traced};
use crate::steps::{do_steps, has_frame};
use crate::words::{Job, Place, job_of};
use io_edge::{Sink, Source};
use io_whole::{InputError, LONGEST_INPUT, put_all, read_all};
use scene_laws::colors_law;
use scene_progress::{frames_law, plan_law};
use scene_text::Scene;
use scene_tracing::{Spot, pixel_lines};
use std::alloc::Global;
use std::sync::Wait;
use std::thread::Threads;
use target_laws::laws::{scene_target_law, target_history_law, target_last_law};
use trace_laws::laws::{moment_law, scene_pixel_law, step_law};

/// Puts the lines of a pixel of a frame.
fn put_pixel<P: Sink>(
    alloc: Global,
    bytes: &[u8],
    asked: &Asked,
    spot: Spot,
    sink: &mut P,
) -> TraceStatus
    requires few { length bytes.now ≤ 16777216 }
    requires readable { IsReadable (scene_seen asked.now.scene) }
    requires bounded { IsBounded (scene_seen asked.now.scene) }
    requires lawful { IsLawfulOrder (scene_seen asked.now.scene) (option_map journal_seen asked.now.journal) }
    requires frame { spot.frame < length asked.now.scene.frames }
    requires column { spot.x < asked.now.scene.width }
    requires row { spot.y < asked.now.scene.height }
    ensures put { let s = scene_seen asked.now.scene in IsPut result (history_text bytes.now s (journal_asked s (option_map journal_seen asked.now.journal)) spot.frame spot.x spot.y)
        (putting (P.held sink.old) (P.held sink.new) (P.faults sink.old) (P.faults sink.new)) }
    ensures sure { P.sure sink.new ≡ P.sure sink.old }
    ensures no_fewer { P.faults sink.old ≤ P.faults sink.new }
{
    match pixel_lines(alloc, bytes, &asked.scene, asked.journal.as_ref(), spot) {
        Ok(text) => match put_all(sink, &text) {
            Ok(()) => TraceStatus::Done,
            Err(_) => TraceStatus::PictureFault,
        },
        Err(_) => TraceStatus::OutOfMemory,
    }
}

/// Whether a scene's pictures have a pixel.
fn has_pixel(scene: &Scene, place: Place) -> bool
    ensures { result ≡ (nat_lt place.x (scene_seen scene.now).width && nat_lt place.y (scene_seen scene.now).height) }
{
    place.x < u32::from(scene.width) && place.y < u32::from(scene.height)
}

/// Puts the lines of a pixel, where the scene has it.
fn do_pixel<P: Sink, N: Sink>(
    alloc: Global,
    bytes: &[u8],
    asked: &Asked,
    place: Place,
    sink: &mut P,
    notes: &mut N,
) -> TraceStatus
    requires few { length bytes.now ≤ 16777216 }
    requires readable { IsReadable (scene_seen asked.now.scene) }
    requires bounded { IsBounded (scene_seen asked.now.scene) }
    requires lawful { IsLawfulOrder (scene_seen asked.now.scene) (option_map journal_seen asked.now.journal) }
    requires found { asked_of bytes.now ≡ asked_seen asked.now }
    ensures answered { IsAnswered result (jobs.pixel_job place) bytes.now
        (putting (P.held sink.old) (P.held sink.new) (P.faults sink.old) (P.faults sink.new))
        (putting (N.held notes.old) (N.held notes.new) (N.faults notes.old) (N.faults notes.new)) }
    ensures sure { (P.sure sink.new ≡ P.sure sink.old) × (N.sure notes.new ≡ N.sure notes.old) }
    ensures no_fewer { (P.faults sink.old ≤ P.faults sink.new) × (N.faults notes.old ≤ N.faults notes.new) }
{
    if !has_frame(&asked.scene, place.frame) {
        return refuse_frame(alloc, place.frame, notes);
    }
    if !has_pixel(&asked.scene, place) {
        return refuse_pixel(alloc, place.x, place.y, notes);
    }
    let spot = Spot {
        frame: place.frame,
        x: place.x as u16,
        y: place.y as u16,
    };
    put_pixel(alloc, bytes, asked, spot, sink)
}

/// Does a job over what the bytes ask for.
fn do_job<P: Sink + Drop, N: Sink>(
    alloc: Global,
    bytes: &[u8],
    asked: &Asked,
    job: Job<'_>,
    sink: P,
    notes: &mut N,
) -> Traced<P>
    requires few { length bytes.now ≤ 16777216 }
    requires readable { IsReadable (scene_seen asked.now.scene) }
    requires bounded { IsBounded (scene_seen asked.now.scene) }
    requires lawful { IsLawfulOrder (scene_seen asked.now.scene) (option_map journal_seen asked.now.journal) }
    requires found { asked_of bytes.now ≡ asked_seen asked.now }
    ensures answered { IsAnswered result.status (job_seen job.entry) bytes.now
        (putting (P.held sink) (P.held result.sink) (P.faults sink) (P.faults result.sink))
        (putting (N.held notes.old) (N.held notes.new) (N.faults notes.old) (N.faults notes.new)) }
    ensures sure { (P.sure result.sink ≡ P.sure sink) × (N.sure notes.new ≡ N.sure notes.old) }
    ensures no_fewer { (P.faults sink ≤ P.faults result.sink) × (N.faults notes.old ≤ N.faults notes.new) }
{
    match job {
        Job::Pixel(place) => {
            let mut sink = sink;
            let status = do_pixel(alloc, bytes, asked, place, &mut sink, notes);
            Traced { status, sink }
        }
        Job::Target(named) => {
            let mut sink = sink;
            let status = do_target(alloc, bytes, asked, named, &mut sink, notes);
            Traced { status, sink }
        }
        Job::Steps { frame } => do_steps(alloc, bytes, asked, frame, sink, notes),
        Job::Blame { frame } => {
            let mut sink = sink;
            let status = do_blame(alloc, asked, frame, &mut sink, notes);
            Traced { status, sink }
        }
    }
}

/// Does a job over the bytes that were read.
fn answer<R: Threads + Wait + Sync, P: Sink + Drop, N: Sink>(
    rt: &R,
    alloc: Global,
    bytes: &[u8],
    job: Job<'_>,
    sink: P,
    notes: &mut N,
) -> Traced<P>
    requires { length bytes.now ≤ 16777216 }
    ensures answered { IsAnswered result.status (job_seen job.entry) bytes.now
        (putting (P.held sink) (P.held result.sink) (P.faults sink) (P.faults result.sink))
        (putting (N.held notes.old) (N.held notes.new) (N.faults notes.old) (N.faults notes.new)) }
    ensures sure { (P.sure result.sink ≡ P.sure sink) × (N.sure notes.new ≡ N.sure notes.old) }
    ensures no_fewer { (P.faults sink ≤ P.faults result.sink) × (N.faults notes.old ≤ N.faults notes.new) }
{
    match read_asked(rt, alloc, bytes) {
        Ok(asked) => do_job(alloc, bytes, &asked, job, sink, notes),
        Err(AskedFault::Scene { line, cause }) => Traced {
            status: refuse_scene(alloc, line, cause, notes),
            sink,
        },
        Err(AskedFault::Journal { place }) => Traced {
            status: refuse_journal(alloc, place, notes),
            sink,
        },
        Err(AskedFault::OutOfMemory) => Traced {
            status: TraceStatus::OutOfMemory,
            sink,
        },
    }
}

/// Reads the source, and does a job over it.
fn run_job<R: Threads + Wait + Sync, S: Source, P: Sink + Drop, N: Sink>(
    rt: &R,
    alloc: Global,
    job: Job<'_>,
    source: &mut S,
    sink: P,
    notes: &mut N,
) -> Traced<P>
    ensures ends { EndsJob result.status (job_seen job.entry)
        (reading (S.left source.old) (S.left source.new) (S.faults source.old) (S.faults source.new))
        (putting (P.held sink) (P.held result.sink) (P.faults sink) (P.faults result.sink))
        (putting (N.held notes.old) (N.held notes.new) (N.faults notes.old) (N.faults notes.new)) }
    ensures sure { (P.sure result.sink ≡ P.sure sink) × (N.sure notes.new ≡ N.sure notes.old) }
    ensures no_fewer { (S.faults source.old ≤ S.faults source.new) × (P.faults sink ≤ P.faults result.sink) × (N.faults notes.old ≤ N.faults notes.new) }
{
    match read_all(alloc, source, LONGEST_INPUT) {
        Ok(bytes) => answer(rt, alloc, &bytes, job, sink, notes),
        Err(InputError::Fault) => Traced {
            status: TraceStatus::ReadFault,
            sink,
        },
        Err(InputError::TooLong) => Traced {
            status: refuse(TraceStatus::TooLong, TOO_LONG, notes),
            sink,
        },
        Err(InputError::OutOfMemory) => Traced {
            status: TraceStatus::OutOfMemory,
            sink,
        },
    }
}

/// Does what the words say.
fn run<R: Threads + Wait + Sync, S: Source, P: Sink + Drop, N: Sink>(
    rt: &R,
    alloc: Global,
    words: &[String],
    source: &mut S,
    sink: P,
    notes: &mut N,
) -> Traced<P>
    ensures ends { Ends result.status (job_of (map string_bytes words.now))
        (reading (S.left source.old) (S.left source.new) (S.faults source.old) (S.faults source.new))
        (putting (P.held sink) (P.held result.sink) (P.faults sink) (P.faults result.sink))
        (putting (N.held notes.old) (N.held notes.new) (N.faults notes.old) (N.faults notes.new)) }
    ensures sure { (P.sure result.sink ≡ P.sure sink) × (N.sure notes.new ≡ N.sure notes.old) }
    ensures no_fewer { (S.faults source.old ≤ S.faults source.new) × (P.faults sink ≤ P.faults result.sink) × (N.faults notes.old ≤ N.faults notes.new) }
{
    match job_of(words) {
        Some(job) => run_job(rt, alloc, job, source, sink, notes),
        None => Traced {
            status: refuse(TraceStatus::Usage, USAGE, notes),
            sink,
        },
    }
}

/// Does what the words say. `pixel F X Y` puts a line for each clear and each fragment that the pixel in column X and row Y of frame F of
/// the scene that the source gives goes through, in order. `pixel F X Y --target NAME` puts the same of the frame buffer that the name stands
/// for in the frame, on which one of its views draws, from the frame's creates and updates on, and a line for each other deed that changes the
/// pixel. `steps F` puts the picture before the first deed of frame F and that after each,
/// and a line for each deed into the notes. `blame F` puts a picture whose pixels are numbers in three bytes: that of the deed of frame F that
/// gave the pixel its colour last, counted from 1; 0 where none did. Columns are counted from the left, rows from the top, and all three from 0.
///
/// The order is: the words, whose numbers are decimal, without a leading zero and up to 4,294,967,295; the source, which is read to its end, at
/// most 16,777,216 bytes; the scene; the journal that may stand behind it, else its items come as on one thread; the frame; the pixel; the lines,
/// or the pictures, each when its deed is done, and then the lines of the deeds, or the picture of the deeds.
/// The frames before are rendered, and so is the frame, by this thread alone; only where a journal stands behind the scene are its frames
/// recorded once before, by recorder threads where they can be started.
///
/// What is refused is told to the notes, as far as they take it, and nothing is put. The status says how it ended. `Usage`, `TooLong`,
/// `Scene`, `Journal`, `NoFrame` and `NoPixel` come exactly by the words and the bytes; `ReadFault`, `PictureFault` and `NoteFault` only where
/// that object's count of faults rose in this call; `OutOfMemory` is free. After `PictureFault` a front of what was to be put was put, after
/// `NoteFault` all pictures and a front of their lines, after `OutOfMemory` of `steps` a front of the pictures, and after the others but
/// `Done` nothing. It may wait for its own threads.
pub fn trace<R: Threads + Wait + Sync, S: Source, P: Sink + Drop, N: Sink>(
    rt: &R,
    alloc: Global,
    words: &[String],
    source: &mut S,
    sink: P,
    notes: &mut N,
) -> Traced<P>
    // What was read and put after each status, and its cause.
    ensures ends { Ends result.status (job_of (map string_bytes words.now))
        (reading (S.left source.old) (S.left source.new) (S.faults source.old) (S.faults source.new))
        (putting (P.held sink) (P.held result.sink) (P.faults sink) (P.faults result.sink))
        (putting (N.held notes.old) (N.held notes.new) (N.faults notes.old) (N.faults notes.new)) }
    // The sinks keep their sure lengths, and no count of faults falls.
    ensures sure { (P.sure result.sink ≡ P.sure sink) × (N.sure notes.new ≡ N.sure notes.old) }
    ensures no_fewer { (S.faults source.old ≤ S.faults source.new) × (P.faults sink ≤ P.faults result.sink) × (N.faults notes.old ≤ N.faults notes.new) }
    // Where the words or the bytes are refused and the source does not fail, the run ends so, or for want of memory.
    ensures refused { (bytes : List ℕ)
        → IsGiven (job_of (map string_bytes words.now)) (reading (S.left source.old) (S.left source.new) (S.faults source.old) (S.faults source.new)) bytes
        → status_of (job_of (map string_bytes words.now)) bytes ≢ TraceStatus.Done
        → EndsAs (status_of (job_of (map string_bytes words.now)) bytes) result.status }
    // Where nothing fails, the status is that of the words and the bytes, unless memory runs out.
    ensures complete { (bytes : List ℕ)
        → IsGiven (job_of (map string_bytes words.now)) (reading (S.left source.old) (S.left source.new) (S.faults source.old) (S.faults source.new)) bytes
        → AreTaken (job_of (map string_bytes words.now))
        (putting (P.held sink) (P.held result.sink) (P.faults sink) (P.faults result.sink))
        (putting (N.held notes.old) (N.held notes.new) (N.faults notes.old) (N.faults notes.new))
        → EndsAs (status_of (job_of (map string_bytes words.now)) bytes) result.status }
    // Where a pixel was done, the lines are those from the frame's moment on, and the colour with which they end is that of the scene's picture.
    ensures color { (bytes : List ℕ) (s : model.Scene) (j : Journal) (p : Place)
        → result.status ≡ TraceStatus.Done → job_of (map string_bytes words.now) ≡ Some (jobs.pixel_job p) → S.left source.old ≡ Some bytes → asked_of bytes ≡ scene_by s j
        → IsTold bytes s j p.frame p.x p.y }
    // Where a pixel of a frame buffer was done, the lines are those from the frame's creates and updates on, and the colour with which they end is
    // the texel of its colour texture after the frame.
    ensures texel { (bytes : List ℕ) (s : model.Scene) (j : Journal) (p : Place) (name : List ℕ)
        → result.status ≡ TraceStatus.Done → job_of (map string_bytes words.now) ≡ Some (jobs.target_job p name) → S.left source.old ≡ Some bytes → asked_of bytes ≡ scene_by s j
        → IsToldOf bytes s j p.frame name p.x p.y }
    // Where steps were done, the pictures are those of the frame's deeds from its moment on, and the last of them is the scene's.
    ensures seen { (bytes : List ℕ) (s : model.Scene) (j : Journal) (frame : ℕ)
        → result.status ≡ TraceStatus.Done → job_of (map string_bytes words.now) ≡ Some (jobs.steps_job frame) → S.left source.old ≡ Some bytes → asked_of bytes ≡ scene_by s j
        → AreSeen bytes s j frame }
    // Where pixels were blamed, the numbers are those of the deeds from the frame's moment on.
    ensures blamed { (bytes : List ℕ) (s : model.Scene) (j : Journal) (frame : ℕ)
        → result.status ≡ TraceStatus.Done → job_of (map string_bytes words.now) ≡ Some (jobs.blame_job frame) → S.left source.old ≡ Some bytes → asked_of bytes ≡ scene_by s j
        → IsBlamed s j frame }
{
    moment_law();
    scene_pixel_law();
    step_law();
    plan_law();
    frames_law();
    colors_law();
    target_history_law();
    target_last_law();
    scene_target_law();
    run(rt, alloc, words, source, sink, notes)
}

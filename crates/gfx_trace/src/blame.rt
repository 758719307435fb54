// The deeds to which the pixels of a frame are due.
ghost use Rattle.std.specs.Prelude.{◌≡◌, ◌<◌, ◌≤◌, ℕ, List, length, option_map};
ghost use Rattle.spelling_model.specs.Readable.{IsReadable};
ghost use Rattle.scene_text.specs.Bounds.{IsBounded};
ghost use Rattle.scene_text.specs.Seen.{journal_seen, scene_seen};
ghost use Rattle.scene_tracing.specs.Asked.{journal_asked};
ghost use Rattle.scene_tracing.specs.Blame.{scene_blame_text};
ghost use Rattle.gfx_trace.specs.Asked.{asked_of};
ghost use Rattle.gfx_trace.specs.Ended.{IsAnswered, IsPut};
ghost use Rattle.gfx_trace.specs.Found.{asked_seen};
ghost use Rattle.gfx_trace.specs.Jobs as jobs;
ghost use Rattle.io_whole.specs.Runs.{putting};

use crate::asked::Asked;
use crate::refusing::refuse_frame;
use crate::status::TraceStatus;
use crate::steps::has_frame;
use io_edge::Sink;
use io_whole::put_all;
use scene_tracing::scene_blame;
use std::alloc::Global;

/// Puts the picture of the deeds to which the pixels of a frame are due.
fn put_blame<P: Sink>(alloc: Global, asked: &Asked, frame: u32, sink: &mut P) -> TraceStatus
    requires readable { IsReadable (scene_seen asked.now.scene) }
    requires bounded { IsBounded (scene_seen asked.now.scene) }
    requires frame { frame < length asked.now.scene.frames }
    ensures put { let s = scene_seen asked.now.scene in IsPut result (scene_blame_text s (journal_asked s (option_map journal_seen asked.now.journal)) frame)
        (putting (P.held sink.old) (P.held sink.new) (P.faults sink.old) (P.faults sink.new)) }
    ensures sure { P.sure sink.new ≡ P.sure sink.old }
    ensures no_fewer { P.faults sink.old ≤ P.faults sink.new }
{
    match scene_blame(alloc, &asked.scene, asked.journal.as_ref(), frame) {
        Ok(text) => match put_all(sink, &text) {
            Ok(()) => TraceStatus::Done,
            Err(_) => TraceStatus::PictureFault,
        },
        Err(_) => TraceStatus::OutOfMemory,
    }
}

/// Puts the picture of the deeds to which the pixels of a frame are due, where the scene has the frame.
pub(crate) fn do_blame<P: Sink, N: Sink>(
    alloc: Global,
    asked: &Asked,
    frame: u32,
    sink: &mut P,
    notes: &mut N,
) -> TraceStatus
    requires readable { IsReadable (scene_seen asked.now.scene) }
    requires bounded { IsBounded (scene_seen asked.now.scene) }
    // Of each input that asks for this.
    ensures answered { (bytes : List ℕ) → asked_of bytes ≡ asked_seen asked.now → IsAnswered result (jobs.blame_job frame) bytes
        (putting (P.held sink.old) (P.held sink.new) (P.faults sink.old) (P.faults sink.new))
        (putting (N.held notes.old) (N.held notes.new) (N.faults notes.old) (N.faults notes.new)) }
    ensures sure { (P.sure sink.new ≡ P.sure sink.old) × (N.sure notes.new ≡ N.sure notes.old) }
    ensures no_fewer { (P.faults sink.old ≤ P.faults sink.new) × (N.faults notes.old ≤ N.faults notes.new) }
{
    if !has_frame(&asked.scene, frame) {
        return refuse_frame(alloc, frame, notes);
    }
    put_blame(alloc, asked, frame, sink)
}

// The pictures of a frame's steps.
ghost use Rattle.std.specs.Prelude.{◌≡◌, ◌≤◌, nat_lt, length, map, option_map};
ghost use Rattle.spelling_model.specs.Readable.{IsReadable};
ghost use Rattle.scene_text.specs.Bounds.{IsBounded};
ghost use Rattle.scene_text.specs.Seen.{journal_seen, scene_seen};
ghost use Rattle.trace_lines.specs.Seen.{doer_seen};
ghost use Rattle.trace_lines.specs.Steps.{step_lines};
ghost use Rattle.item_lines.specs.Items.{item_lines};
ghost use Rattle.scene_playing.specs.Order.{order_seen};
ghost use Rattle.gfx_trace.specs.Asked.{asked_of};
ghost use Rattle.gfx_trace.specs.Ended.{AreEnded, IsAnswered, IsNoted};
ghost use Rattle.gfx_trace.specs.Found.{asked_seen};
ghost use Rattle.gfx_trace.specs.Jobs as jobs;
ghost use Rattle.io_whole.specs.Runs.{putting};

use crate::asked::Asked;
use crate::refusing::refuse_frame;
use crate::status::{TraceStatus, Traced};
use io_edge::Sink;
use io_whole::put_all;
use scene_text::{Journal, Scene};
use scene_tracing::{StepFault, StepsEnd, put_scene_steps, scene_step_lines};
use std::alloc::Global;
use trace_lines::Doer;

/// Whether a scene has a frame.
pub(crate) fn has_frame(scene: &Scene, frame: u32) -> bool
    ensures { result ≡ nat_lt frame (length (scene_seen scene.now).frames) }
{
    (frame as usize) < scene.frames.as_slice().len()
}

/// Puts the lines of a frame's steps, whose deeds' doers these are.
fn note_steps<N: Sink>(
    alloc: Global,
    bytes: &[u8],
    scene: &Scene,
    frame: u32,
    doers: &[Doer],
    notes: &mut N,
) -> TraceStatus
    requires few { length bytes.now ≤ 16777216 }
    requires readable { IsReadable (scene_seen scene.now) }
    requires bounded { IsBounded (scene_seen scene.now) }
    ensures noted { IsNoted result (step_lines (item_lines bytes.now (scene_seen scene.now) frame) 1 (map doer_seen doers.now))
        (putting (N.held notes.old) (N.held notes.new) (N.faults notes.old) (N.faults notes.new)) }
    ensures sure { N.sure notes.new ≡ N.sure notes.old }
    ensures no_fewer { N.faults notes.old ≤ N.faults notes.new }
{
    match scene_step_lines(alloc, bytes, scene, frame, doers) {
        Ok(text) => match put_all(notes, &text) {
            Ok(()) => TraceStatus::Done,
            Err(_) => TraceStatus::NoteFault,
        },
        Err(_) => TraceStatus::OutOfMemory,
    }
}

/// How the run ends when the steps did; where all pictures were put, it puts their lines.
fn end_steps<N: Sink>(
    alloc: Global,
    bytes: &[u8],
    scene: &Scene,
    frame: u32,
    end: &StepsEnd,
    notes: &mut N,
) -> TraceStatus
    requires few { length bytes.now ≤ 16777216 }
    requires readable { IsReadable (scene_seen scene.now) }
    requires bounded { IsBounded (scene_seen scene.now) }
    ensures ended { AreEnded result end.now (step_lines (item_lines bytes.now (scene_seen scene.now) frame) 1 (map doer_seen end.now.doers.items))
        (putting (N.held notes.old) (N.held notes.new) (N.faults notes.old) (N.faults notes.new)) }
    ensures sure { N.sure notes.new ≡ N.sure notes.old }
    ensures no_fewer { N.faults notes.old ≤ N.faults notes.new }
{
    match end.fault {
        None => note_steps(alloc, bytes, scene, frame, &end.doers, notes),
        Some(StepFault::Fault) => TraceStatus::PictureFault,
        Some(StepFault::OutOfMemory) => TraceStatus::OutOfMemory,
    }
}

/// The journal that was asked for, where one was.
pub(crate) fn order_of(asked: &Asked) -> Option<&Journal>
    ensures { order_seen result ≡ option_map journal_seen asked.now.journal }
{
    asked.journal.as_ref()
}

/// Puts the pictures of a frame's steps, and then their lines, where the scene has the frame.
pub(crate) fn do_steps<P: Sink + Drop, N: Sink>(
    alloc: Global,
    bytes: &[u8],
    asked: &Asked,
    frame: u32,
    sink: P,
    notes: &mut N,
) -> Traced<P>
    requires few { length bytes.now ≤ 16777216 }
    requires readable { IsReadable (scene_seen asked.now.scene) }
    requires bounded { IsBounded (scene_seen asked.now.scene) }
    requires found { asked_of bytes.now ≡ asked_seen asked.now }
    ensures answered { IsAnswered result.status (jobs.steps_job frame) bytes.now
        (putting (P.held sink) (P.held result.sink) (P.faults sink) (P.faults result.sink))
        (putting (N.held notes.old) (N.held notes.new) (N.faults notes.old) (N.faults notes.new)) }
    ensures sure { (P.sure result.sink ≡ P.sure sink) × (N.sure notes.new ≡ N.sure notes.old) }
    ensures no_fewer { (P.faults sink ≤ P.faults result.sink) × (N.faults notes.old ≤ N.faults notes.new) }
{
    if !has_frame(&asked.scene, frame) {
        return Traced {
            status: refuse_frame(alloc, frame, notes),
            sink,
        };
    }
    let stepped = put_scene_steps(alloc, &asked.scene, order_of(asked), frame, sink);
    let status = end_steps(alloc, bytes, &asked.scene, frame, &stepped.end, notes);
    Traced {
        status,
        sink: stepped.sink,
    }
}

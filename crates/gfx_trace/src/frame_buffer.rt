// The history of a pixel of a frame buffer.
ghost use Rattle.std.specs.Prelude.{◌≡◌, ◌<◌, ◌≤◌, length};
ghost use Rattle.spelling_model.specs.Readable.{IsReadable};
ghost use Rattle.scene_text.specs.Bounds.{IsBounded};
ghost use Rattle.scene_text.specs.Seen.{scene_seen};
ghost use Rattle.gfx_trace.specs.Asked.{asked_of};
ghost use Rattle.gfx_trace.specs.Ended.{IsAnswered, IsPut};
ghost use Rattle.gfx_trace.specs.Found.{asked_seen};
ghost use Rattle.gfx_trace.specs.Jobs as jobs;
ghost use Rattle.io_whole.specs.Runs.{putting};

use crate::asked::Asked;
use crate::refusing::{refuse_frame, refuse_pixel, refuse_target};
use crate::status::TraceStatus;
use crate::steps::{has_frame, order_of};
use crate::words::NamedPlace;
use io_edge::Sink;
use io_whole::put_all;
use std::alloc::Global;
use target_scenes::{TargetPlace, TargetText, target_lines};

/// Puts a text.
fn put_text<P: Sink>(text: &[u8], sink: &mut P) -> TraceStatus
    ensures put { IsPut result text.now
        (putting (P.held sink.old) (P.held sink.new) (P.faults sink.old) (P.faults sink.new)) }
    ensures sure { P.sure sink.new ≡ P.sure sink.old }
    ensures no_fewer { P.faults sink.old ≤ P.faults sink.new }
{
    match put_all(sink, text) {
        Ok(()) => TraceStatus::Done,
        Err(_) => TraceStatus::PictureFault,
    }
}

/// Puts the lines of a pixel of the frame buffer of a name, where the frame has it.
fn put_target<P: Sink, N: Sink>(
    alloc: Global,
    bytes: &[u8],
    asked: &Asked,
    named: NamedPlace<'_>,
    sink: &mut P,
    notes: &mut N,
) -> TraceStatus
    requires few { length bytes.now ≤ 16777216 }
    requires readable { IsReadable (scene_seen asked.now.scene) }
    requires bounded { IsBounded (scene_seen asked.now.scene) }
    requires found { asked_of bytes.now ≡ asked_seen asked.now }
    requires frame { named.place.frame < length asked.now.scene.frames }
    ensures answered { IsAnswered result (jobs.target_job named.entry.place named.entry.name.now) bytes.now
        (putting (P.held sink.old) (P.held sink.new) (P.faults sink.old) (P.faults sink.new))
        (putting (N.held notes.old) (N.held notes.new) (N.faults notes.old) (N.faults notes.new)) }
    ensures sure { (P.sure sink.new ≡ P.sure sink.old) × (N.sure notes.new ≡ N.sure notes.old) }
    ensures no_fewer { (P.faults sink.old ≤ P.faults sink.new) × (N.faults notes.old ≤ N.faults notes.new) }
{
    let NamedPlace { place, name } = named;
    let spot = TargetPlace {
        frame: place.frame,
        x: place.x,
        y: place.y,
    };
    match target_lines(alloc, bytes, &asked.scene, order_of(asked), name, spot) {
        Ok(TargetText::Lines(text)) => put_text(&text, sink),
        Ok(TargetText::NoTarget) => refuse_target(alloc, place.frame, name, notes),
        Ok(TargetText::NoPixel) => refuse_pixel(alloc, place.x, place.y, notes),
        Err(_) => TraceStatus::OutOfMemory,
    }
}

/// Puts the lines of a pixel of the frame buffer of a name, where the scene has the frame and that has the pixel.
pub(crate) fn do_target<P: Sink, N: Sink>(
    alloc: Global,
    bytes: &[u8],
    asked: &Asked,
    named: NamedPlace<'_>,
    sink: &mut P,
    notes: &mut N,
) -> TraceStatus
    requires few { length bytes.now ≤ 16777216 }
    requires readable { IsReadable (scene_seen asked.now.scene) }
    requires bounded { IsBounded (scene_seen asked.now.scene) }
    requires found { asked_of bytes.now ≡ asked_seen asked.now }
    ensures answered { IsAnswered result (jobs.target_job named.entry.place named.entry.name.now) bytes.now
        (putting (P.held sink.old) (P.held sink.new) (P.faults sink.old) (P.faults sink.new))
        (putting (N.held notes.old) (N.held notes.new) (N.faults notes.old) (N.faults notes.new)) }
    ensures sure { (P.sure sink.new ≡ P.sure sink.old) × (N.sure notes.new ≡ N.sure notes.old) }
    ensures no_fewer { (P.faults sink.old ≤ P.faults sink.new) × (N.faults notes.old ≤ N.faults notes.new) }
{
    if !has_frame(&asked.scene, named.place.frame) {
        return refuse_frame(alloc, named.place.frame, notes);
    }
    put_target(alloc, bytes, asked, named, sink, notes)
}

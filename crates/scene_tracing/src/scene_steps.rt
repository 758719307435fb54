// The pictures of the steps of a frame of a scene.
ghost use Rattle.std.specs.Prelude.{◌≡◌, ◌<◌, ◌≤◌, None, length, map, IfOk};
ghost use Rattle.spelling_model.specs.Readable.{IsReadable};
ghost use Rattle.scene_text.specs.Bounds.{IsBounded};
ghost use Rattle.scene_text.specs.Seen.{scene_seen};
ghost use Rattle.scene_playing.specs.Order.{order_seen};
ghost use Rattle.trace_lines.specs.Seen.{doer_seen};
ghost use Rattle.trace_lines.specs.Steps.{step_lines};
ghost use Rattle.item_lines.specs.Items.{item_lines};
ghost use Rattle.scene_tracing.specs.Asked.{journal_asked};
ghost use Rattle.scene_tracing.specs.Steps.{scene_doers, scene_steps_text};
ghost use Rattle.scene_tracing.specs.Stepping.{HasPutText, told_by};

use crate::asked::AskedFrame;
use crate::stepped::{Stepped, StepsEnd};
use crate::stepping_link::SteppingLink;
use crate::steps::step_lines;
use frame_steps::StepFault;
use io_edge::Sink;
use item_lines::item_lines;
use scene_laws::colors_law;
use scene_playing::play_here;
use scene_text::{Journal, Scene};
use scene_traces::laws::{gathered_doers_law, scene_traced_law};
use std::alloc::{AllocError, Global};
use trace_lines::Doer;

/// Puts the picture before the first deed of a frame of a scene and that after each, the text of one behind the text of the other. The frames
/// before it are rendered; the items of each frame are recorded in the order of the journal, or where none is given one encoder after
/// another. This thread alone records and renders. No more than one picture is held.
///
/// The scene is one that was read, or keeps the same bounds; it has the frame. A front of the text was put where the end has a fault: `Fault`
/// only where the sink's count of faults rose in this call, and `OutOfMemory` for want of memory.
pub fn put_scene_steps<P: Sink + Drop>(
    alloc: Global,
    scene: &Scene,
    order: Option<&Journal>,
    frame: u32,
    sink: P,
) -> Stepped<P>
    requires readable { IsReadable (scene_seen scene.now) }
    requires bounded { IsBounded (scene_seen scene.now) }
    requires frame { frame < length scene.now.frames }
    // The pictures are the definition's, or a front of them where there is a fault.
    ensures put { let s = scene_seen scene.now in
        HasPutText (scene_steps_text s (journal_asked s (order_seen order.entry)) frame) (told_by P.held P.faults P.sure sink) result.end (told_by P.held P.faults P.sure result.sink) }
    // Each deed has its doer.
    ensures doers { let s = scene_seen scene.now in
        result.end.fault ≡ None → map doer_seen result.end.doers.items ≡ scene_doers s (journal_asked s (order_seen order.entry)) frame }
{
    scene_traced_law();
    gathered_doers_law();
    colors_law();
    let asked = AskedFrame {
        width: scene.width,
        height: scene.height,
        frame,
    };
    match SteppingLink::new(alloc, scene.latency, asked, sink) {
        Ok(link) => {
            let played = play_here(alloc, order, scene, link);
            played.link.into_stepped()
        }
        Err(sink) => Stepped {
            sink,
            end: StepsEnd {
                doers: Vec::new(alloc),
                fault: Some(StepFault::OutOfMemory),
            },
        },
    }
}

/// The [lines](../../../docs/rules/formats.md#steps) of a frame's steps, whose deeds' doers these are. `bytes` are the scene's text, with or
/// without a journal behind it; each item is told with the number of the line that records it.
///
/// # Errors
///
/// As `step_lines`.
pub fn scene_step_lines(
    alloc: Global,
    bytes: &[u8],
    scene: &Scene,
    frame: u32,
    doers: &[Doer],
) -> Result<Vec<u8>, AllocError>
    requires few { length bytes.now ≤ 4294967294 }
    requires readable { IsReadable (scene_seen scene.now) }
    requires bounded { IsBounded (scene_seen scene.now) }
    ensures { IfOk result (λ text. text.items ≡ step_lines (item_lines bytes.now (scene_seen scene.now) frame) 1 (map doer_seen doers.now)) }
{
    let numbers = item_lines(alloc, bytes, scene, frame)?;
    step_lines(alloc, doers, &numbers)
}

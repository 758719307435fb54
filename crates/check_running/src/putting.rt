// Puts the lines of a scene, frame by frame.
ghost use Rattle.std.specs.Prelude.{◌≡◌, ◌≤◌, OnOk, IsErrOf, flat_map, length};
ghost use Rattle.io_edge.specs.Edge.{with_back, Rose};
ghost use Rattle.io_whole.specs.Whole.{HasFront};
ghost use Rattle.spelling_model.specs.Readable.{IsReadable};
ghost use Rattle.scene_text.specs.Bounds.{IsBounded};
ghost use Rattle.scene_text.specs.Seen.{scene_seen};
ghost use Rattle.dropped_lines.specs.Dropped.{dropped_text};
ghost use Rattle.check_running.specs.Lines.{told_line};
ghost use Rattle.check_running.specs.declared.putting.PutError.TheVariants.{OutOfMemory, Fault};

use crate::lines::text_of;
use io_edge::{Failed, Sink};
use io_whole::put_all;
use scene_check::{Checker, DroppedLine, line_numbers};
use scene_text::Scene;
use std::alloc::{AllocError, Global};

/// Why not all lines were put.
#[derive(Clone, Copy, Debug, PartialEq, Eq, Drop)]
pub(crate) enum PutError {
    Fault,
    OutOfMemory,
}

impl From<AllocError> for PutError {
    ghost from_gives = { λ _ e. e ≡ OutOfMemory };

    fn from(_: AllocError) -> Self {
        PutError::OutOfMemory
    }
}

impl From<Failed> for PutError {
    ghost from_gives = { λ _ e. e ≡ Fault };

    fn from(_: Failed) -> Self {
        PutError::Fault
    }
}

/// Puts a line for each of the dropped lines.
fn put_lines<N: Sink>(alloc: Global, dropped: &[DroppedLine], lines: &mut N) -> Result<(), PutError>
    ensures whole { OnOk result (N.held lines.new ≡ with_back (N.held lines.old) (flat_map told_line dropped.now)) }
    ensures front { HasFront (N.held lines.old) (flat_map told_line dropped.now) (N.held lines.new) }
    ensures fault { IsErrOf result PutError.Fault → Rose (N.faults lines.old) (N.faults lines.new) }
    ensures sure { N.sure lines.new ≡ N.sure lines.old }
    ensures no_fewer { N.faults lines.old ≤ N.faults lines.new }
{
    let text = text_of(alloc, dropped)?;
    put_all(lines, text.as_slice())?;
    Ok(())
}

/// Judges the lines of a scene frame by frame, and puts the lines of a frame before the next one is judged.
pub(crate) fn put_frames<N: Sink>(
    alloc: Global,
    bytes: &[u8],
    scene: &Scene,
    lines: &mut N,
) -> Result<(), PutError>
    requires few { length bytes.now ≤ 16777216 }
    requires readable { IsReadable (scene_seen scene.now) }
    requires bounded { IsBounded (scene_seen scene.now) }
    ensures whole { OnOk result (N.held lines.new ≡ with_back (N.held lines.old) (dropped_text bytes.now (scene_seen scene.now))) }
    ensures front { HasFront (N.held lines.old) (dropped_text bytes.now (scene_seen scene.now)) (N.held lines.new) }
    ensures fault { IsErrOf result PutError.Fault → Rose (N.faults lines.old) (N.faults lines.new) }
    ensures sure { N.sure lines.new ≡ N.sure lines.old }
    ensures no_fewer { N.faults lines.old ≤ N.faults lines.new }
{
    let numbers = line_numbers(alloc, bytes)?;
    let mut checker = Checker::new(alloc, numbers.as_slice(), scene)?;
    for frame in scene.frames.as_slice() {
        let dropped = checker.next_frame(alloc, scene, frame)?;
        put_lines(alloc, dropped.as_slice(), lines)?;
    }
    Ok(())
}

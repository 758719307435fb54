// The lines of a scene that are dropped.
ghost use Rattle.std.specs.Prelude.{◌≡◌, map, IfOk};
ghost use Rattle.spelling_model.specs.Readable.{IsReadable};
ghost use Rattle.scene_text.specs.Bounds.{IsBounded};
ghost use Rattle.scene_text.specs.Seen.{scene_seen};
ghost use Rattle.dropped_lines.specs.Dropped.{dropped_with};
ghost use Rattle.dropped_lines.specs.Verdicts.{verdicts};
ghost use Rattle.scene_check.specs.Found.{line_told};

use scene_check::{Checker, DroppedLine};
use scene_text::Scene;
use std::alloc::{AllocError, Global};

/// The lines of a scene that are dropped, where its lines have these numbers.
pub(crate) fn dropped_of(
    alloc: Global,
    numbers: &[u32],
    scene: &Scene,
) -> Result<Vec<DroppedLine>, AllocError>
    requires readable { IsReadable (scene_seen scene.now) }
    requires bounded { IsBounded (scene_seen scene.now) }
    ensures { IfOk result (λ dropped. dropped.items ≡ map line_told (dropped_with numbers.now (verdicts (scene_seen scene.now)))) }
{
    let mut dropped = Vec::new(alloc);
    let mut checker = Checker::new(alloc, numbers, scene)?;
    for frame in scene.frames.as_slice() {
        let lines = checker.next_frame(alloc, scene, frame)?;
        dropped.extend_from_slice(&lines)?;
    }
    Ok(dropped)
}

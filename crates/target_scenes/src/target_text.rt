// What is told of a pixel of the frame buffer of a name.
ghost use Rattle.std.specs.Prelude.{◌≡◌, ◌<◌, ◌≤◌, length, IfOk};
ghost use Rattle.spelling_model.specs.Readable.{IsReadable};
ghost use Rattle.scene_text.specs.Bounds.{IsBounded};
ghost use Rattle.scene_text.specs.Seen.{scene_seen};
ghost use Rattle.scene_playing.specs.Order.{order_seen};
ghost use Rattle.item_lines.specs.Items.{item_lines};
ghost use Rattle.scene_tracing.specs.Asked.{journal_asked};
ghost use Rattle.target_scenes.specs.Numbered.{scene_numbered_target_lines, scene_target_named};
ghost use Rattle.target_scenes.specs.Told.{IsTextOf};

use crate::lines::target_history_lines;
use crate::playing::scene_target;
use crate::told::TargetText;
use item_lines::item_lines;
use scene_progress::plan_law;
use scene_text::{Journal, Scene};
use std::alloc::{AllocError, Global};
use target_names::target_named;
use target_tracing::TargetSpot;

/// A pixel of a frame of a scene, by its column from the left and its row from the top, each from 0; it may not be there.
#[derive(Clone, Copy, Drop)]
pub struct TargetPlace {
    pub frame: u32,
    pub x: u32,
    pub y: u32,
}

/// The [lines](../../../docs/rules/formats.md#pixel-history) of what a pixel of the frame buffer of a name goes through in a frame of a scene, as
/// `scene_target` traces it; or that no view of the frame draws on what the name stands for, or that the frame buffer has no such pixel. `bytes`
/// are the scene's text, with or without a journal behind it; each item is told with the number of the line that records it.
///
/// # Errors
///
/// As `scene_target`.
pub fn target_lines(
    alloc: Global,
    bytes: &[u8],
    scene: &Scene,
    order: Option<&Journal>,
    name: &[u8],
    place: TargetPlace,
) -> Result<TargetText, AllocError>
    requires few { length bytes.now ≤ 4294967294 }
    requires readable { IsReadable (scene_seen scene.now) }
    requires bounded { IsBounded (scene_seen scene.now) }
    requires frame { place.frame < length scene.now.frames }
    ensures { let s = scene_seen scene.now in
        IfOk result (λ text. IsTextOf text (scene_target_named s place.frame name.now)
        (scene_numbered_target_lines (item_lines bytes.now s place.frame) s (journal_asked s (order_seen order.entry)) place.frame name.now place.x place.y)) }
{
    plan_law();
    let Some(target) = target_named(alloc, scene, place.frame, name)? else {
        return Ok(TargetText::NoTarget);
    };
    let spot = TargetSpot {
        target,
        x: place.x,
        y: place.y,
    };
    let found = scene_target(alloc, scene, order, place.frame, spot)?;
    match found.history {
        Some(history) => {
            let numbers = item_lines(alloc, bytes, scene, place.frame)?;
            let text = target_history_lines(alloc, &history, &numbers)?;
            Ok(TargetText::Lines(text))
        }
        None => Ok(TargetText::NoPixel),
    }
}

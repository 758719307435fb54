// The lines of what a pixel of a scene goes through.
ghost use Rattle.std.specs.Prelude.{◌≡◌, ◌<◌, ◌≤◌, length, IfOk};
ghost use Rattle.spelling_model.specs.Readable.{IsReadable};
ghost use Rattle.scene_text.specs.Bounds.{IsBounded};
ghost use Rattle.scene_text.specs.Seen.{scene_seen};
ghost use Rattle.scene_playing.specs.Order.{order_seen};
ghost use Rattle.item_lines.specs.Items.{item_lines};
ghost use Rattle.trace_lines.specs.Numbered.{scene_numbered_lines};
ghost use Rattle.scene_tracing.specs.Asked.{journal_asked, IsLawfulOrder};

use crate::history::Spot;
use crate::lines::history_lines;
use crate::pixel::trace_pixel;
use item_lines::item_lines;
use scene_text::{Journal, Scene};
use std::alloc::{AllocError, Global};

/// The [lines](../../../docs/rules/formats.md#pixel-history) of what a pixel goes through in a frame of a scene, as `trace_pixel` traces it.
/// `bytes` are the scene's text, with or without a journal behind it; each item is told with the number of the line that records it.
///
/// # Errors
///
/// As `trace_pixel`.
pub fn pixel_lines(
    alloc: Global,
    bytes: &[u8],
    scene: &Scene,
    order: Option<&Journal>,
    spot: Spot,
) -> Result<Vec<u8>, AllocError>
    requires few { length bytes.now ≤ 4294967294 }
    requires readable { IsReadable (scene_seen scene.now) }
    requires bounded { IsBounded (scene_seen scene.now) }
    requires lawful { IsLawfulOrder (scene_seen scene.now) (order_seen order) }
    requires frame { spot.frame < length scene.now.frames }
    requires column { spot.x < scene.now.width }
    requires row { spot.y < scene.now.height }
    ensures { let s = scene_seen scene.now in
        IfOk result (λ text. text.items ≡ scene_numbered_lines (item_lines bytes.now s spot.frame) s (journal_asked s (order_seen order.entry)) spot.frame spot.x spot.y) }
{
    let numbers = item_lines(alloc, bytes, scene, spot.frame)?;
    let history = trace_pixel(alloc, scene, order, spot)?;
    history_lines(alloc, &history, &numbers)
}

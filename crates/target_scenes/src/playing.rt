// What a pixel of a frame buffer goes through in a frame of a scene.
ghost use Rattle.std.specs.Prelude.{◌<◌, length, IfOk};
ghost use Rattle.spelling_model.specs.Readable.{IsReadable};
ghost use Rattle.scene_text.specs.Bounds.{IsBounded};
ghost use Rattle.scene_text.specs.Seen.{scene_seen};
ghost use Rattle.scene_playing.specs.Order.{order_seen};
ghost use Rattle.scene_tracing.specs.Asked.{journal_asked};
ghost use Rattle.target_scenes.specs.Scenes.{IsSceneHistory};

use crate::found::Found;
use crate::targeting_link::TargetingLink;
use scene_laws::colors_law;
use scene_playing::play_here;
use scene_text::{Journal, Scene};
use scene_traces::laws::gathered_doers_law;
use std::alloc::{AllocError, Global};
use target_laws::laws::scene_target_law;
use target_tracing::TargetSpot;

/// What a pixel of a frame buffer goes through in a frame of a scene; nothing where the frame buffer has no such pixel. The frames before it are
/// rendered; the items of each frame are recorded in the order of the journal, or where none is given one encoder after another. This thread
/// alone records and renders.
///
/// The scene is one that was read, or keeps the same bounds; it has the frame. What is said holds of a frame buffer on which a view of the
/// frame draws.
///
/// # Errors
///
/// For want of memory, or where the frame has 4,294,967,295 deeds or a draw so many triangles.
pub fn scene_target(
    alloc: Global,
    scene: &Scene,
    order: Option<&Journal>,
    frame: u32,
    spot: TargetSpot,
) -> Result<Found, AllocError>
    requires readable { IsReadable (scene_seen scene.now) }
    requires bounded { IsBounded (scene_seen scene.now) }
    requires frame { frame < length scene.now.frames }
    ensures { let s = scene_seen scene.now in IfOk result (λ b. ∥ IsSceneHistory s (journal_asked s (order_seen order.entry)) frame spot b.history ∥₁) }
{
    scene_target_law();
    gathered_doers_law();
    colors_law();
    let link = TargetingLink::new(alloc, scene.latency, scene.width, scene.height, frame, spot)?;
    let played = play_here(alloc, order, scene, link);
    match played.link.into_found() {
        Some(found) => Ok(found),
        None => Err(AllocError),
    }
}

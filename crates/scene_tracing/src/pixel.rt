// What a pixel of a scene goes through.
ghost use Rattle.std.specs.Prelude.{◌<◌, length, IfOk};
ghost use Rattle.spelling_model.specs.Readable.{IsReadable};
ghost use Rattle.scene_text.specs.Bounds.{IsBounded};
ghost use Rattle.scene_text.specs.Seen.{scene_seen};
ghost use Rattle.scene_playing.specs.Order.{order_seen};
ghost use Rattle.scene_tracing.specs.Asked.{journal_asked, IsLawfulOrder};
ghost use Rattle.scene_tracing.specs.Histories.{EndsInPicture, IsHistory};

use crate::asked::Asked;
use crate::history::{History, Spot};
use crate::link::TracingLink;
use scene_laws::colors_law;
use scene_playing::play_here;
use scene_progress::{lawful_law, plan_law};
use scene_text::{Journal, Scene};
use scene_traces::laws::{gathered_doers_law, scene_traced_law};
use std::alloc::{AllocError, Global};
use trace_laws::laws::scene_pixel_law;

/// What a pixel goes through in a frame of a scene. The frames before it are rendered, and the frame is traced; the items of each frame are
/// recorded in the order of the journal, or where none is given one encoder after another. This thread alone records and renders.
///
/// The scene is one that was read, or keeps the same bounds; it has the frame, and its pictures have the pixel. A journal is lawful for it.
///
/// # Errors
///
/// For want of memory alone, or where a frame has 4,294,967,295 deeds.
pub fn trace_pixel(
    alloc: Global,
    scene: &Scene,
    order: Option<&Journal>,
    spot: Spot,
) -> Result<History, AllocError>
    requires readable { IsReadable (scene_seen scene.now) }
    requires bounded { IsBounded (scene_seen scene.now) }
    requires lawful { IsLawfulOrder (scene_seen scene.now) (order_seen order) }
    requires frame { spot.frame < length scene.now.frames }
    requires column { spot.x < scene.now.width }
    requires row { spot.y < scene.now.height }
    // The history is the definition's, and each deed has its doer.
    ensures history { let s = scene_seen scene.now in IfOk result (λ h. IsHistory s (journal_asked s (order_seen order.entry)) spot.frame spot.x spot.y h) }
    // The colour with which it ends is that of the scene's picture.
    ensures color { let s = scene_seen scene.now in IfOk result (λ h. EndsInPicture s (journal_asked s (order_seen order.entry)) spot.frame spot.x spot.y h) }
{
    scene_traced_law();
    gathered_doers_law();
    scene_pixel_law();
    colors_law();
    plan_law();
    lawful_law();
    let asked = Asked {
        width: scene.width,
        height: scene.height,
        spot,
    };
    let link = TracingLink::new(alloc, scene.latency, asked)?;
    let played = play_here(alloc, order, scene, link);
    if !played.is_whole {
        return Err(AllocError);
    }
    match played.link.into_history() {
        Some(history) => Ok(history),
        None => Err(AllocError),
    }
}

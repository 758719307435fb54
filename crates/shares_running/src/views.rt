// The views of a scene's frames in which two encoders share a key.
ghost use Rattle.std.specs.Prelude.{◌≡◌, map, IfOk};
ghost use Rattle.spelling_model.specs.Readable.{IsReadable};
ghost use Rattle.scene_model.specs.Fold.{plans};
ghost use Rattle.scene_text.specs.Bounds.{IsBounded};
ghost use Rattle.scene_text.specs.Seen.{scene_seen};
ghost use Rattle.shared_keys.specs.Lines.{shared_views};
ghost use Rattle.shares_running.specs.Listed.{lists_seen};

use crate::listing::ListingLink;
use io_edge::NoGate;
use scene_playing::play_frames;
use scene_progress::plan_law;
use scene_text::Scene;
use shared_keys::SharedView;
use std::alloc::{AllocError, Global};
use std::sync::Wait;
use std::thread::Threads;

/// For each frame of a scene the views in which two encoders share a key. The frames are recorded, and nothing is rendered.
///
/// The scene is one that was read, or keeps the same bounds. `Err` only for want of memory.
pub(crate) fn scene_views<R: Threads + Wait + Sync>(
    rt: &R,
    alloc: Global,
    scene: &Scene,
) -> Result<Vec<Vec<SharedView>>, AllocError>
    requires readable { IsReadable (scene_seen scene.now) }
    requires bounded { IsBounded (scene_seen scene.now) }
    ensures { IfOk result (λ lists. lists_seen lists.items ≡ map shared_views (plans (scene_seen scene.now))) }
{
    plan_law();
    let link = ListingLink::new(alloc, scene.latency)?;
    let played = play_frames(rt, &NoGate, alloc, scene, link);
    if !played.is_whole {
        return Err(AllocError);
    }
    match played.link.into_lists() {
        Some(lists) => Ok(lists),
        None => Err(AllocError),
    }
}

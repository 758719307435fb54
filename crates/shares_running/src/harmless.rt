// The views of a scene's frames that are left when harmless ones are left out, and their lines.
ghost use Rattle.std.specs.Prelude.{IfOk};
ghost use Rattle.spelling_model.specs.Readable.{IsReadable};
ghost use Rattle.scene_text.specs.Bounds.{IsBounded};
ghost use Rattle.scene_text.specs.Seen.{scene_seen};
ghost use Rattle.shares_running.specs.Left.{AreLeftOf, HasLeftLines};
ghost use Rattle.shares_running.specs.Listed.{lists_seen};

use crate::leaving::LeavingLink;
use crate::lines::lines_of;
use bare_worlds::laws::shaped_law;
use io_edge::NoGate;
use scene_laws::colors_law;
use scene_playing::play_frames;
use scene_progress::plan_law;
use scene_text::Scene;
use shared_keys::SharedView;
use std::alloc::{AllocError, Global};
use std::sync::Wait;
use std::thread::Threads;

/// For each frame of a scene the views in which two encoders share a key, without those that are harmless. The frames are recorded and their
/// commands executed, and nothing is drawn.
///
/// The scene is one that was read, or keeps the same bounds. `Err` only for want of memory.
fn scene_left<R: Threads + Wait + Sync>(
    rt: &R,
    alloc: Global,
    scene: &Scene,
) -> Result<Vec<Vec<SharedView>>, AllocError>
    requires readable { IsReadable (scene_seen scene.now) }
    requires bounded { IsBounded (scene_seen scene.now) }
    ensures { IfOk result (λ lists. ∥ AreLeftOf (scene_seen scene.now) (lists_seen lists.items) ∥₁) }
{
    shaped_law();
    colors_law();
    plan_law();
    let link = LeavingLink::new(alloc, scene.latency, scene.width, scene.height)?;
    let played = play_frames(rt, &NoGate, alloc, scene, link);
    if !played.is_whole {
        return Err(AllocError);
    }
    match played.link.into_lists() {
        Some(lists) => Ok(lists),
        None => Err(AllocError),
    }
}

/// The lines of the views that are left.
pub(crate) fn left_lines<R: Threads + Wait + Sync>(
    rt: &R,
    alloc: Global,
    scene: &Scene,
) -> Result<Vec<u8>, AllocError>
    requires readable { IsReadable (scene_seen scene.now) }
    requires bounded { IsBounded (scene_seen scene.now) }
    ensures { IfOk result (λ lines. ∥ HasLeftLines (scene_seen scene.now) lines.items ∥₁) }
{
    let lists = scene_left(rt, alloc, scene)?;
    let lines = lines_of(alloc, lists.as_slice())?;
    Ok(lines)
}

// The pairs of items of a scene's frames, and their lines.
ghost use Rattle.std.specs.Prelude.{◌≡◌, ◌≤◌, ◌++◌, length, map, IfOk};
ghost use Rattle.spelling_model.specs.Readable.{IsReadable};
ghost use Rattle.scene_model.specs.Fold.{plans};
ghost use Rattle.scene_text.specs.Bounds.{IsBounded};
ghost use Rattle.scene_text.specs.Seen.{scene_seen};
ghost use Rattle.item_lines.specs.Items as model;
ghost use Rattle.shared_items.specs.Items.{frame_pairs};
ghost use Rattle.shared_items.specs.Lines.{paired_lines};
ghost use Rattle.shared_items.specs.Seen.{pair_seen};
ghost use Rattle.shares_running.specs.Lines.{pairs_from};
ghost use Rattle.shares_running.specs.Listed.{pairs_seen};

use crate::pairing::PairingLink;
use io_edge::NoGate;
use item_lines::item_lines;
use scene_playing::play_frames;
use scene_progress::plan_law;
use scene_text::Scene;
use shared_items::{ItemPair, push_pair_lines};
use std::alloc::{AllocError, Global};
use std::sync::Wait;
use std::thread::Threads;

/// For each frame of a scene the views in which two encoders share a key, with the least pairs of items. The frames are recorded, and nothing
/// is rendered.
///
/// The scene is one that was read, or keeps the same bounds. `Err` only for want of memory.
pub(crate) fn scene_pairs<R: Threads + Wait + Sync>(
    rt: &R,
    alloc: Global,
    scene: &Scene,
) -> Result<Vec<Vec<ItemPair>>, AllocError>
    requires readable { IsReadable (scene_seen scene.now) }
    requires bounded { IsBounded (scene_seen scene.now) }
    ensures pairs { IfOk result (λ lists. pairs_seen lists.items ≡ map frame_pairs (plans (scene_seen scene.now))) }
    ensures few { IfOk result (λ lists. length lists.items ≤ 1024) }
{
    plan_law();
    let link = PairingLink::new(alloc, scene.latency)?;
    let played = play_frames(rt, &NoGate, alloc, scene, link);
    if !played.is_whole {
        return Err(AllocError);
    }
    match played.link.into_lists() {
        Some(lists) => Ok(lists),
        None => Err(AllocError),
    }
}

/// Puts the lines of a frame's pairs behind others. The text is gone through only where there is a pair.
fn push_frame(
    alloc: Global,
    lines: &mut Vec<u8>,
    bytes: &[u8],
    scene: &Scene,
    frame: u32,
    pairs: &[ItemPair],
) -> Result<(), AllocError>
    requires few { length bytes.now ≤ 16777216 }
    requires readable { IsReadable (scene_seen scene.now) }
    requires bounded { IsBounded (scene_seen scene.now) }
    ensures { IfOk result (λ _. lines.new.items ≡ lines.old.items ++ paired_lines frame (model.item_lines bytes.now (scene_seen scene.now) frame) (map pair_seen pairs.now)) }
{
    if pairs.is_empty() {
        return Ok(());
    }
    let numbers = item_lines(alloc, bytes, scene, frame)?;
    push_pair_lines(alloc, lines, frame as usize, numbers.as_slice(), pairs)?;
    Ok(())
}

/// The lines of lists of pairs, one list for each frame of the scene that was read of the bytes.
pub(crate) fn pair_lines_of(
    alloc: Global,
    bytes: &[u8],
    scene: &Scene,
    lists: &[Vec<ItemPair>],
) -> Result<Vec<u8>, AllocError>
    requires few { length bytes.now ≤ 16777216 }
    requires frames { length lists.now ≤ 1024 }
    requires readable { IsReadable (scene_seen scene.now) }
    requires bounded { IsBounded (scene_seen scene.now) }
    ensures { IfOk result (λ lines. lines.items ≡ pairs_from bytes.now (scene_seen scene.now) 0 (pairs_seen lists.now)) }
{
    let mut lines = Vec::new(alloc);
    for (number, pairs) in lists.iter().enumerate() {
        push_frame(
            alloc,
            &mut lines,
            bytes,
            scene,
            number as u32,
            pairs.as_slice(),
        )?;
    }
    Ok(lines)
}

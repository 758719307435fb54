// How many items the encoders of a scene have.
ghost use Rattle.std.specs.Prelude.{◌≡◌, IfOk, map, length};
ghost use Rattle.std.specs.List.{range_with_len};
ghost use Rattle.spelling_model.specs.Readable.{IsReadable};
ghost use Rattle.scene_model.specs.Fold.{plans};
ghost use Rattle.scene_model.specs.Journal.{ordinals_of};
ghost use Rattle.scene_text.specs.Bounds.{IsBounded};
ghost use Rattle.scene_text.specs.Journals.{counts_of};
ghost use Rattle.scene_text.specs.Seen.{entry_seen, scene_seen};

use frame_keeping::KeepingLink;
use gfx_words::JournalEntry;
use io_edge::NoGate;
use scene_playing::play_frames;
use scene_progress::lawful_law;
use scene_text::{Scene, Sequence};
use std::alloc::{AllocError, Global};
use std::sync::Wait;
use std::thread::Threads;

/// How many items each encoder of each frame has: the frames are recorded, and nothing is rendered.
///
/// The scene is one that was read, or keeps the same bounds. `Err` only for want of memory.
pub fn item_counts<R: Threads + Wait + Sync>(
    rt: &R,
    alloc: Global,
    scene: &Scene,
) -> Result<Vec<Sequence<u32>>, AllocError>
    requires readable { IsReadable (scene_seen scene.now) }
    requires bounded { IsBounded (scene_seen scene.now) }
    ensures { IfOk result (λ counts. counts.items ≡ counts_of (plans (scene_seen scene.now))) }
{
    lawful_law();
    let link = KeepingLink::new(alloc, scene.latency)?;
    let played = play_frames(rt, &NoGate, alloc, scene, link);
    if !played.is_whole {
        return Err(AllocError);
    }
    counts_of_frames(alloc, played.journal.frames.as_slice(), scene.encoders)
}

/// How many entries each encoder has in each frame of a journal.
fn counts_of_frames(
    alloc: Global,
    frames: &[Sequence<JournalEntry>],
    encoders: u8,
) -> Result<Vec<Sequence<u32>>, AllocError>
    ensures { IfOk result (λ counts. counts.items ≡ map (λ entries. map (λ e. length (ordinals_of e (map entry_seen entries))) (range_with_len 0 encoders)) frames.now) }
{
    let mut counts = Vec::new(alloc);
    for frame in frames {
        counts.push(counts_in_frame(alloc, frame.as_slice(), encoders)?)?;
    }
    Ok(counts)
}

/// How many entries of a frame each encoder has.
fn counts_in_frame(
    alloc: Global,
    entries: &[JournalEntry],
    encoders: u8,
) -> Result<Sequence<u32>, AllocError>
    ensures { IfOk result (λ counts. counts ≡ map (λ e. length (ordinals_of e (map entry_seen entries.now))) (range_with_len 0 encoders)) }
{
    let mut counts = Sequence::new(alloc);
    for encoder in 0..encoders {
        counts.push(count_of_encoder(entries, encoder)?)?;
    }
    Ok(counts)
}

/// How many entries of a frame an encoder has. A number that a `u32` does not hold is refused as for want of memory.
fn count_of_encoder(entries: &[JournalEntry], encoder: u8) -> Result<u32, AllocError>
    ensures { IfOk result (λ count. count ≡ length (ordinals_of encoder (map entry_seen entries.now))) }
{
    let mut count: u64 = 0;
    for entry in entries {
        if entry.encoder == encoder {
            count += 1;
        }
    }
    match u32::try_from(count) {
        Ok(count) => Ok(count),
        Err(_) => Err(AllocError),
    }
}

// The journal of a frame.
ghost use Rattle.std.specs.Prelude.{◌≡◌, map, IfOk};
ghost use Rattle.std.specs.List.{AllByRecursion};
ghost use Rattle.gfx_model.specs.Frames.{collected, NumbersAscend};
ghost use Rattle.frame_record.specs.Kept.{IsCollectable};
ghost use Rattle.frame_record.specs.Seen.{entry_seen, recordings_seen};

use crate::merging::{NumberedEntry, merged};
use draw_encoder::Recording;
use gfx_words::JournalEntry;
use std::alloc::{AllocError, Global};

// the entries without their numbers
fn entries_of(alloc: Global, all: &[NumberedEntry]) -> Result<Vec<JournalEntry>, AllocError>
    ensures { IfOk result (λ journal. map entry_seen journal.items ≡ map (λ n. entry_seen n.entry) all.now) }
{
    let mut journal = Vec::with_capacity(alloc, all.len())?;
    for numbered in all {
        journal.push(numbered.entry)?;
    }
    Ok(journal)
}

/// The journal of several recordings: the entries of all their items, ascending by number. There are at most `MOST_ITEMS` items, and the
/// numbers of each recording ascend, as a bundle tells.
///
/// It merges one recording after the other, so it moves an entry at most once for each recording, and once more at the end, where the
/// entries leave their numbers.
pub fn collect(alloc: Global, recordings: &[Recording]) -> Result<Vec<JournalEntry>, AllocError>
    requires { IsCollectable recordings.now }
    ensures journal { IfOk result (λ journal. map entry_seen journal.items ≡ collected (recordings_seen recordings.now)) }
    ensures ascend { IfOk result (λ _. AllByRecursion (λ r. NumbersAscend 0 r.items) (recordings_seen recordings.now)) }
{
    let mut all = Vec::new(alloc);
    for recording in recordings {
        all = merged(alloc, &all, recording)?;
    }
    entries_of(alloc, &all)
}

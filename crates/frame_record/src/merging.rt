// Items with their numbers, merged in the order of the numbers.
ghost use Rattle.std.specs.Prelude.{◌≡◌, ◌≤◌, ◌++◌, length, map, drop, IfOk};
ghost use Rattle.gfx_model.specs.Frames.{numbered_entries};
ghost use Rattle.gfx_model.specs.World.{sorted_by_key};
ghost use Rattle.schedule_model.specs.Held.{Ascends};
ghost use Rattle.draw_encoder.specs.Seen as seen;
ghost use Rattle.frame_record.specs.Kept.{most_frame_items};
ghost use Rattle.frame_record.specs.Merged.{pair_of, right_first};
ghost use Rattle.frame_record.specs.Seen.{recorded_seen};

use draw_encoder::{Item, Recording};
use gfx_words::JournalEntry;
use std::alloc::{AllocError, Global};

/// An item's entry with its number.
#[derive(Clone, Copy, Drop)]
pub(crate) struct NumberedEntry {
    pub(crate) number: u64,
    pub(crate) entry: JournalEntry,
}

// the number that an item drew
fn number_of(item: &Item) -> u64
    ensures { result ≡ seen.number_of item.now }
{
    match item {
        Item::Draw(draw) => draw.number,
        Item::Touch(touch) => touch.number,
        Item::Blit(blit) => blit.number,
    }
}

// whether the next item of a recording comes before the next entry of a list
fn takes_right(left: &[NumberedEntry], at: usize, recording: &Recording, beside: usize) -> bool
    ensures { result ≡ right_first (drop at (map pair_of left.now)) (drop beside (numbered_entries (recorded_seen recording.now))) }
{
    let right = recording.items.as_slice();
    if beside >= right.len() {
        return false;
    }
    if at >= left.len() {
        return true;
    }
    number_of(&right[beside]) < left[at].number
}

/// Merges a recording's entries into a list, both ascending by number; at equal numbers those of the list come first. It moves each
/// entry of both once.
pub(crate) fn merged(
    alloc: Global,
    left: &[NumberedEntry],
    recording: &Recording,
) -> Result<Vec<NumberedEntry>, AllocError>
    requires few { length recording.now.items ≤ most_frame_items }
    requires left { sorted_by_key (map pair_of left.now) ≡ map pair_of left.now }
    requires right { Ascends (seen.numbers_of recording.now.items) }
    ensures { IfOk result (λ all. map pair_of all.items ≡ sorted_by_key (map pair_of left.now ++ numbered_entries (recorded_seen recording.now))) }
{
    let right = recording.items.as_slice();
    let mut all = Vec::with_capacity(alloc, left.len() + right.len())?;
    let mut at = 0;
    let mut beside = 0;
    for _ in 0..left.len() + right.len() {
        if takes_right(left, at, recording, beside) {
            let entry = JournalEntry {
                encoder: recording.encoder,
                ordinal: beside as u32,
            };
            all.push(NumberedEntry {
                number: number_of(&right[beside]),
                entry,
            })?;
            beside += 1;
        } else {
            all.push(left[at])?;
            at += 1;
        }
    }
    Ok(all)
}

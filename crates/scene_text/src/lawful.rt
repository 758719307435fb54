// Where a journal is first not lawful.
ghost use Rattle.std.specs.Prelude.{◌≡◌, ◌≤◌, ◌<◌, true, length, IfSome, ◌==◌, ◌&&◌, [], List, map, sum, slice_get, slice_index_or};
ghost use Rattle.scene_model.specs.Fold.{FramePlan};
ghost use Rattle.scene_model.specs.Journal as model;
ghost use Rattle.scene_text.specs.Journals.{counts_of, entry_count, has_item, fault_in, fault_from};
ghost use Rattle.scene_text.specs.Seen.{entry_seen, journal_seen};

use crate::journal::Journal;
use crate::sequence::Sequence;
use gfx_words::JournalEntry;

/// Whether a number is the sum of others.
fn is_sum(number: usize, parts: &[u32]) -> bool
    ensures { result ≡ (number == sum parts.now) }
{
    let mut left = number as u64;
    for part in parts {
        if left < u64::from(*part) {
            return false;
        }
        left -= u64::from(*part);
    }
    left == 0
}

/// Whether the entry is the next of its encoder, and the encoder has such an item.
fn can_stand(taken: &[u32; 256], counts: &[u32], entry: JournalEntry) -> bool
    ensures value { result ≡ ((entry.ordinal == slice_index_or taken.now entry.encoder 0) && has_item entry.ordinal (slice_get counts.now entry.encoder)) }
    ensures small { result ≡ true → entry.ordinal < 4294967295 }
    ensures byte { entry.encoder < 256 }
{
    if entry.ordinal != taken[entry.encoder as usize] {
        return false;
    }
    match counts.get(entry.encoder as usize) {
        Some(count) => entry.ordinal < *count,
        None => false,
    }
}

/// How many entries of a frame stand before its first fault.
fn frame_fault(entries: &[JournalEntry], counts: &[u32]) -> Option<usize>
    ensures value { result ≡ fault_in counts.now [] (map entry_seen entries.now) }
    ensures within { IfSome result (λ p. p ≤ length entries.now) }
{
    let mut taken = [0; 256];
    for (place, entry) in entries.iter().enumerate() {
        if !can_stand(&taken, counts, *entry) {
            return Some(place);
        }
        taken[entry.encoder as usize] = entry.ordinal + 1;
    }
    if is_sum(entries.len(), counts) {
        None
    } else {
        Some(entries.len())
    }
}

/// How many entries stand before the first one that can't stand where it is, or before the end of the first frame where
/// some are missing; none of a lawful journal.
///
/// `accepted` has for each frame of the scene the number of each encoder's accepted items. A journal of fewer frames, or
/// of more, has a fault where one is missed or stands. The journal has at most 4,294,967,294 entries, as each that
/// `read_journal` answers.
pub fn fault_place(journal: &Journal, accepted: &[Sequence<u32>]) -> Option<u32>
    requires { entry_count (journal_seen journal.now) ≤ 4294967294 }
    ensures place { (plans : List FramePlan) → counts_of plans ≡ accepted.now → result ≡ model.fault_place plans (journal_seen journal.now) }
{
    first_fault(journal.frames.as_slice(), accepted)
}

/// The same of the frames of a journal.
fn first_fault(frames: &[Sequence<JournalEntry>], accepted: &[Sequence<u32>]) -> Option<u32>
    requires { entry_count (map (map entry_seen) frames.now) ≤ 4294967294 }
    ensures { result ≡ fault_from accepted.now (map (map entry_seen) frames.now) }
{
    let mut place: u32 = 0;
    for (index, frame) in frames.iter().enumerate() {
        let Some(counts) = accepted.get(index) else {
            return Some(place);
        };
        if let Some(fault) = frame_fault(frame.as_slice(), counts.as_slice()) {
            return Some(place + fault as u32);
        }
        place += frame.as_slice().len() as u32;
    }
    if frames.len() < accepted.len() {
        return Some(place);
    }
    None
}

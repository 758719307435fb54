// The items of a frame's encoders in a given order.
ghost use Rattle.std.specs.Prelude.{◌≡◌, true, Some, length, map, slice_get};
ghost use Rattle.gfx_model.specs.Frames.{collected};
ghost use Rattle.scene_text.specs.Seen.{journal_seen};
ghost use Rattle.frame_record.specs.Kept.{IsCollectable};
ghost use Rattle.frame_record.specs.Seen.{entry_seen, recordings_seen};
ghost use Rattle.scene_playing.specs.Order.{order_seen, wanted_here, wanted_seen, ascend_from, StandByEncoder, Allows};

use block_recording::Steps;
use draw_encoder::{Naming, Recording};
use frame_record::{JournalEntry, collect};
use scene_text::Journal;
use std::alloc::Global;

/// In which order the items of each frame are to be numbered.
#[derive(Clone, Copy)]
pub(crate) enum Order<'a> {
    /// In any.
    Any,
    /// One encoder after another.
    Serial,
    /// In that of a journal.
    Of(&'a Journal),
}

impl<'a> Order<'a> {
    /// That of a journal where one is given, and else one encoder after another.
    pub(crate) fn here(journal: Option<&'a Journal>) -> Order<'a>
        ensures { wanted_seen result ≡ wanted_here (order_seen journal.entry) }
    {
        match journal {
            None => Order::Serial,
            Some(journal) => Order::Of(journal),
        }
    }
}

/// The items of a frame in the order of a journal; none where it has no such frame.
pub(crate) fn entries_at(journal: &Journal, number: u32) -> &[JournalEntry] {
    match journal.frames.as_slice().get(number as usize) {
        Some(entries) => entries.as_slice(),
        None => &[],
    }
}

/// Records items in an order: for each entry its encoder's next one.
pub(crate) fn record_entries<C: Naming>(begun: &mut [Steps<'_, C>], entries: &[JournalEntry])
    ensures { length begun.new ≡ length begun.old }
{
    for entry in entries {
        if let Some(steps) = begun.get_mut(entry.encoder as usize) {
            let _recorded = steps.next_item();
        }
    }
}

/// Whether the items of a frame have the order that they are to have.
pub(crate) fn is_in_order(
    alloc: Global,
    order: Order<'_>,
    number: u32,
    recordings: &[Recording],
) -> bool
    requires { IsCollectable recordings.now }
    ensures { result ≡ true → Allows (wanted_seen order.entry) number (collected (recordings_seen recordings.now)) }
{
    match order {
        Order::Any => true,
        Order::Serial => is_serial(alloc, recordings),
        Order::Of(journal) => has_entries(alloc, journal, number, recordings),
    }
}

/// Whether the encoders of entries ascend.
fn ascend(entries: &[JournalEntry]) -> bool
    ensures { result ≡ ascend_from 0 (map entry_seen entries.now) }
{
    let mut least = 0;
    for entry in entries {
        if entry.encoder < least {
            return false;
        }
        least = entry.encoder;
    }
    true
}

fn is_serial(alloc: Global, recordings: &[Recording]) -> bool
    requires { IsCollectable recordings.now }
    ensures { result ≡ true → StandByEncoder (collected (recordings_seen recordings.now)) }
{
    match collect(alloc, recordings) {
        Ok(entries) => ascend(entries.as_slice()),
        Err(_) => false,
    }
}

fn has_entries(alloc: Global, journal: &Journal, number: u32, recordings: &[Recording]) -> bool
    requires { IsCollectable recordings.now }
    ensures { result ≡ true → slice_get (journal_seen journal.now) number ≡ Some (collected (recordings_seen recordings.now)) }
{
    let Ok(entries) = collect(alloc, recordings) else {
        return false;
    };
    match journal.frames.as_slice().get(number as usize) {
        Some(expected) => entries.as_slice() == expected.as_slice(),
        None => false,
    }
}

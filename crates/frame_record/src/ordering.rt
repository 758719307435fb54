// The order in which a frame is drawn.
ghost use Rattle.std.specs.Prelude.{ℕ, ◌≡◌, ◌≢◌, ◌≤◌, ◌<◌, ◌^◌, ◌++◌, List, length, map, slice_get, slice_index_or, Some, IfOk, IfSome, OnOk, MatchOption, []};
ghost use Rattle.std.specs.List.{AllByRecursion};
ghost use Rattle.std.specs.Option.{option_map};
ghost use Rattle.gfx_model.specs.Frames.{draw_order, keyed_entry, keyed_entries, items_by, item_of_entry};
ghost use Rattle.gfx_model.specs.Views.{key_bits};
ghost use Rattle.gfx_model.specs.World.{sorted_by_key, view_of_item};
ghost use Rattle.sort_key.specs.Fields.{number_bits};
ghost use Rattle.draw_encoder.specs.declared.items.UniformSet.{UniformSet};
ghost use Rattle.draw_encoder.specs.Seen.{item_seen};
ghost use Rattle.frame_record.specs.Kept.{most_frame_items};
ghost use Rattle.frame_record.specs.Ordered.{keyed_of, position_of, key_or_none, one_or_none, AscendFrom, IsOfView, IsPlaced};
ghost use Rattle.frame_record.specs.Seen.{entry_seen, numbered_seen, recorded_seen, recordings_seen};

use crate::frame::Frame;
use draw_encoder::{DrawItem, Item, Recording, TouchItem};
use gfx_words::{JournalEntry, Kind};
use sort_key::SortKey;
use std::alloc::AllocError;
use view_table::ViewTable;

/// A draw or touch with its sort key.
#[derive(Clone, Copy, Drop, PartialEq, Eq, Debug)]
pub struct OrderedItem {
    pub key: SortKey,
    pub entry: JournalEntry,
}

impl OrderedItem {
    /// The position of the item's view in the order of the views.
    pub fn position(&self) -> u16
        ensures { result ≡ position_of self.now }
    {
        self.key.tell_facts();
        self.key.view_position()
    }
}

// the key of a draw, where its view is there and its program is one
fn draw_key(views: &ViewTable, draw: &DrawItem, place: u32) -> Option<SortKey>
    requires { place < 2 ^ number_bits }
    ensures key { (bytes : List ℕ) (sets : List UniformSet) → option_map key_bits result ≡ key_or_none views.now place (item_seen bytes sets (Item.Draw draw.now)) }
    ensures position { IfSome result (λ k. IsOfView views.now draw.now.view (key_bits k)) }
{
    let view = views.get(draw.view)?;
    if !draw.program.kind().is(Kind::Program) {
        return None;
    }
    views.tell_facts();
    let mode = view.mode;
    let position = views.position(draw.view);
    let index = draw.program.index();
    let key = SortKey::draw(
        mode,
        position,
        draw.state.blended(),
        index,
        draw.depth,
        place,
    );
    key.tell_facts();
    Some(key)
}

// the key of a touch, where its view is there
fn touch_key(views: &ViewTable, touch: &TouchItem, place: u32) -> Option<SortKey>
    requires { place < 2 ^ number_bits }
    ensures key { (bytes : List ℕ) (sets : List UniformSet) → option_map key_bits result ≡ key_or_none views.now place (item_seen bytes sets (Item.Touch touch.now)) }
    ensures position { IfSome result (λ k. IsOfView views.now touch.now.view (key_bits k)) }
{
    let view = views.get(touch.view)?;
    views.tell_facts();
    let position = views.position(touch.view);
    let key = SortKey::touch(view.mode, position, place);
    key.tell_facts();
    Some(key)
}

// the key of an item at a place of the journal, where it is drawn in an order by key
fn key_of(views: &ViewTable, item: &Item, place: u32) -> Option<SortKey>
    requires { place < 2 ^ number_bits }
    ensures key { (bytes : List ℕ) (sets : List UniformSet) → option_map key_bits result ≡ key_or_none views.now place (item_seen bytes sets item.now) }
    ensures position { (bytes : List ℕ) (sets : List UniformSet) → IfSome result (λ k. IsOfView views.now (view_of_item (item_seen bytes sets item.now)) (key_bits k)) }
{
    match item {
        Item::Draw(draw) => draw_key(views, draw, place),
        Item::Touch(touch) => touch_key(views, touch, place),
        Item::Blit(_) => None,
    }
}

// the first recording of an encoder
fn recording_by<'a>(recordings: &'a [Recording], encoder: u8) -> Option<&'a Recording>
    ensures items { MatchOption result
        (items_by (recordings_seen recordings.now) encoder ≡ [])
        (λ r. items_by (recordings_seen recordings.now) encoder ≡ (recorded_seen r.now).items) }
    ensures own { IfSome result (λ r. r.now.encoder ≡ encoder) }
{
    for recording in recordings {
        if recording.encoder == encoder {
            return Some(recording);
        }
    }
    None
}

// the item of an entry, with the recording that has it
pub(crate) fn item_at<'a>(
    recordings: &'a [Recording],
    entry: JournalEntry,
) -> Option<(&'a Recording, &'a Item)>
    ensures content { option_map (λ p. item_seen p.0.now.bytes p.0.now.uniforms p.1.now) result ≡ item_of_entry (recordings_seen recordings.now) (entry_seen entry) }
    ensures item { option_map (λ p. numbered_seen p.0.now p.1.now) result ≡ slice_get (items_by (recordings_seen recordings.now) entry.encoder) entry.ordinal }
    ensures own { IfSome result (λ p. (p.0.now.encoder ≡ entry.encoder) × (slice_get p.0.now.items entry.ordinal ≡ Some p.1.now)) }
{
    let recording = recording_by(recordings, entry.encoder)?;
    let item = recording.items.as_slice().get(entry.ordinal as usize)?;
    Some((recording, item))
}

// the key of an entry at a place of the journal, where its item is there and has one
fn key_at(
    views: &ViewTable,
    recordings: &[Recording],
    entry: JournalEntry,
    place: u32,
) -> Option<SortKey>
    requires { place < 2 ^ number_bits }
    ensures key { option_map (λ k. (key_bits k, entry_seen entry)) result ≡ keyed_entry views.now (recordings_seen recordings.now) place (entry_seen entry) }
    ensures placed { IfSome result (λ k. IsPlaced views.now (recordings_seen recordings.now) (key_bits k, entry_seen entry)) }
{
    let found = item_at(recordings, entry)?;
    key_of(views, found.1, place)
}

// puts an entry behind the others where it has a key
fn put_keyed(
    all: &mut Vec<OrderedItem>,
    key: Option<SortKey>,
    entry: JournalEntry,
) -> Result<(), AllocError>
    ensures { IfOk result (λ _. map keyed_of all.new.items ≡ map keyed_of all.old.items ++ one_or_none key (entry_seen entry)) }
{
    if let Some(key) = key {
        all.push(OrderedItem { key, entry })?;
    }
    Ok(())
}

// fills the room with the entries of the journal that have a key, each with it
fn with_keys(
    room: &mut Vec<OrderedItem>,
    views: &ViewTable,
    recordings: &[Recording],
    journal: &[JournalEntry],
) -> Result<(), AllocError>
    requires { length journal.now ≤ most_frame_items }
    ensures keyed { OnOk result (map keyed_of room.new.items ≡ keyed_entries views.now (recordings_seen recordings.now) (map entry_seen journal.now)) }
    ensures placed { OnOk result (AllByRecursion (IsPlaced views.now (recordings_seen recordings.now)) (map keyed_of room.new.items)) }
{
    room.clear();
    room.reserve(journal.len())?;
    for place in 0..journal.len() {
        let entry = journal[place];
        let key = key_at(views, recordings, entry, place as u32);
        put_keyed(room, key, entry)?;
    }
    Ok(())
}

// sorts by the key; entries of one key keep their order
fn sort(all: &mut Vec<OrderedItem>) -> Result<(), AllocError>
    ensures { OnOk result (map keyed_of all.new.items ≡ sorted_by_key (map keyed_of all.old.items)) }
{
    all.sort_by_key(|o| o.key.bits())
}

impl Frame {
    /// The item of an entry, with the recording that has it: the item at the entry's place in the recording of the entry's encoder. None
    /// exactly where that recording is not there or has no such item. The item's bytes and values are ranges of that recording's.
    pub fn item(&self, entry: JournalEntry) -> Option<(&Recording, &Item)>
        ensures content { option_map (λ p. item_seen p.0.now.bytes p.0.now.uniforms p.1.now) result ≡ item_of_entry (recordings_seen self.now.recordings.items) (entry_seen entry) }
        ensures item { option_map (λ p. numbered_seen p.0.now p.1.now) result ≡ slice_get (items_by (recordings_seen self.now.recordings.items) entry.encoder) entry.ordinal }
        ensures own { IfSome result (λ p. (p.0.now.encoder ≡ entry.encoder) × (slice_get p.0.now.items entry.ordinal ≡ Some p.1.now)) }
    {
        item_at(&self.recordings, entry)
    }

    /// Fills the room with the draws and touches in the order in which they are drawn: by the position of the view, then by the sort
    /// key, and at equal keys as they stand in the journal. Entries without an item, items of views that are not there and draws whose
    /// program is no program are left out. What the room held before is gone. `Err` only for want of memory.
    ///
    /// It takes memory only where the room has to grow, and to sort. The items of a view stand beside each other; `end_of_run` finds
    /// where they end.
    pub fn ordered(&self, room: &mut Vec<OrderedItem>) -> Result<(), AllocError>
        ensures keyed { OnOk result (map keyed_of room.new.items ≡ sorted_by_key (keyed_entries self.now.views (recordings_seen self.now.recordings.items) (map entry_seen self.now.journal.items))) }
        ensures order { OnOk result (map (λ o. entry_seen o.entry) room.new.items ≡ draw_order self.now.views (recordings_seen self.now.recordings.items) (map entry_seen self.now.journal.items)) }
        ensures ascend { OnOk result (AscendFrom 0 (map position_of room.new.items)) }
        ensures placed { OnOk result (AllByRecursion (IsPlaced self.now.views (recordings_seen self.now.recordings.items)) (map keyed_of room.new.items)) }
    {
        with_keys(room, &self.views, &self.recordings, &self.journal)?;
        sort(room)
    }
}

/// Where the run of items whose view has a position ends that begins at a place; it is that place where there is no such item.
pub fn end_of_run(ordered: &[OrderedItem], from: usize, position: u16) -> usize
    requires { from ≤ length ordered.now }
    ensures range { (from ≤ result) × (result ≤ length ordered.now) }
    ensures run { (i : ℕ) (d : OrderedItem) → from ≤ i → i < result → position_of (slice_index_or ordered.now i d) ≡ position }
    ensures end { (d : OrderedItem) → result < length ordered.now → position_of (slice_index_or ordered.now result d) ≢ position }
{
    for at in from..ordered.len() {
        if ordered[at].position() != position {
            return at;
        }
    }
    ordered.len()
}

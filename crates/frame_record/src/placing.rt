// The blits of a frame by view, and the views that have an item.
ghost use Rattle.std.specs.Prelude.{ℕ, ◌≡◌, ◌≢◌, ◌<◌, ◌≤◌, ◌++◌, ◌||◌, ◌==◌, List, [], ◌∷◌, false, length, map, slice_index_or, IfOk, OnOk};
ghost use Rattle.std.specs.List.{list_any, AllByRecursion};
ghost use Rattle.gfx_model.specs.Views.{view_count};
ghost use Rattle.gfx_model.specs.World.{sorted_by_key, is_of_view, view_of_item};
ghost use Rattle.draw_encoder.specs.declared.items.UniformSet.{UniformSet};
ghost use Rattle.draw_encoder.specs.Seen.{item_seen};
ghost use Rattle.frame_record.specs.Placed.{placed_of, blit_position, position_of_blit, blit_entries, one_placed, items_in, IsBlitAt};
ghost use Rattle.frame_record.specs.Ordered.{AscendFrom};
ghost use Rattle.frame_record.specs.Seen.{entry_seen, recordings_seen};

use crate::frame::Frame;
use crate::ordering::item_at;
use draw_encoder::{Item, Recording};
use gfx_words::JournalEntry;
use std::alloc::AllocError;
use view_table::ViewTable;

/// A blit with the position of its view in the order of the views.
#[derive(Clone, Copy, Drop, PartialEq, Eq, Debug)]
pub struct PlacedBlit {
    pub position: u16,
    pub entry: JournalEntry,
}

// the view of an item
fn view_of(item: &Item) -> u16
    ensures { (bytes : List ℕ) (sets : List UniformSet) → result ≡ view_of_item (item_seen bytes sets item.now) }
{
    match item {
        Item::Draw(draw) => draw.view,
        Item::Touch(touch) => touch.view,
        Item::Blit(blit) => blit.view,
    }
}

// the position of a blit's view, where it is there
fn blit_position(views: &ViewTable, item: &Item) -> Option<u16>
    ensures { (bytes : List ℕ) (sets : List UniformSet) → result ≡ blit_position views.now (item_seen bytes sets item.now) }
{
    let Item::Blit(blit) = item else {
        return None;
    };
    if blit.view >= views.count() {
        return None;
    }
    Some(views.position(blit.view))
}

// the position of an entry's blit
fn position_at(views: &ViewTable, recordings: &[Recording], entry: JournalEntry) -> Option<u16>
    ensures { result ≡ position_of_blit views.now (recordings_seen recordings.now) (entry_seen entry) }
{
    let found = item_at(recordings, entry)?;
    blit_position(views, found.1)
}

// puts a blit behind the others
fn put_placed(
    all: &mut Vec<PlacedBlit>,
    position: Option<u16>,
    entry: JournalEntry,
) -> Result<(), AllocError>
    ensures { IfOk result (λ _. map placed_of all.new.items ≡ map placed_of all.old.items ++ one_placed position (entry_seen entry)) }
{
    if let Some(position) = position {
        all.push(PlacedBlit { position, entry })?;
    }
    Ok(())
}

// sorts by the position; blits of one view keep their order
fn sort(all: &mut Vec<PlacedBlit>) -> Result<(), AllocError>
    ensures { OnOk result (map placed_of all.new.items ≡ sorted_by_key (map placed_of all.old.items)) }
{
    all.sort_by_key(|p| p.position)
}

// notes that a view has an item, where there is such a view
fn note(entered: &mut [bool], view: u16)
    ensures many { length entered.new ≡ length entered.old }
    ensures noted { (v : ℕ) → v < length entered.old → slice_index_or entered.new v false ≡ (slice_index_or entered.old v false || (view == v)) }
{
    if (view as usize) < entered.len() {
        entered[view as usize] = true;
    }
}

// fills the room with the blits of views that are there, each with the position of its view, as they stand in the journal
fn with_positions(
    room: &mut Vec<PlacedBlit>,
    views: &ViewTable,
    recordings: &[Recording],
    journal: &[JournalEntry],
) -> Result<(), AllocError>
    ensures { OnOk result (map placed_of room.new.items ≡ blit_entries views.now (recordings_seen recordings.now) (map entry_seen journal.now)) }
{
    room.clear();
    for place in 0..journal.len() {
        let entry = journal[place];
        let position = position_at(views, recordings, entry);
        put_placed(room, position, entry)?;
    }
    Ok(())
}

// notes the view of an entry's item, where it is there
fn note_at(entered: &mut [bool], recordings: &[Recording], entry: JournalEntry)
    ensures many { length entered.new ≡ length entered.old }
    ensures noted { (v : ℕ) → v < length entered.old → slice_index_or entered.new v false
        ≡ (slice_index_or entered.old v false || list_any (is_of_view v) (items_in (recordings_seen recordings.now) (entry_seen entry ∷ []))) }
{
    if let Some(found) = item_at(recordings, entry) {
        note(entered, view_of(found.1));
    }
}

// notes the view of each item of the journal
fn note_all(entered: &mut [bool], recordings: &[Recording], journal: &[JournalEntry])
    requires { (v : ℕ) → slice_index_or entered.old v false ≡ false }
    ensures many { length entered.new ≡ length entered.old }
    ensures noted { (v : ℕ) → v < length entered.old → slice_index_or entered.new v false ≡ list_any (is_of_view v) (items_in (recordings_seen recordings.now) (map entry_seen journal.now)) }
{
    for place in 0..journal.len() {
        note_at(entered, recordings, journal[place]);
    }
}

impl Frame {
    /// Fills the room with the blits by the position of their view, and those of one view as they stand in the journal. Blits of views
    /// that are not there are left out. What the room held before is gone. `Err` only for want of memory.
    ///
    /// It takes memory only where the room has to grow, and to sort. The blits of a view stand beside each other; `end_of_blits` finds
    /// where they end.
    pub fn blits(&self, room: &mut Vec<PlacedBlit>) -> Result<(), AllocError>
        ensures sorted { OnOk result (map placed_of room.new.items ≡ sorted_by_key (blit_entries self.now.views (recordings_seen self.now.recordings.items) (map entry_seen self.now.journal.items))) }
        ensures ascend { OnOk result (AscendFrom 0 (map (λ p. p.position) room.new.items)) }
        ensures placed { OnOk result (AllByRecursion (IsBlitAt self.now.views (recordings_seen self.now.recordings.items)) (map placed_of room.new.items)) }
    {
        with_positions(room, &self.views, &self.recordings, &self.journal)?;
        sort(room)
    }

    /// Fills the room with, for each view, whether an item of the journal is of it. What the room held before is gone. `Err` only for
    /// want of memory, which it takes only where the room has to grow.
    pub fn entered(&self, room: &mut Vec<bool>) -> Result<(), AllocError>
        ensures many { OnOk result (length room.new.items ≡ view_count self.now.views) }
        ensures noted { OnOk result ((v : ℕ) → v < view_count self.now.views
            → slice_index_or room.new.items v false ≡ list_any (is_of_view v) (items_in (recordings_seen self.now.recordings.items) (map entry_seen self.now.journal.items))) }
    {
        room.clear();
        room.resize(self.views.count() as usize, false)?;
        note_all(room, &self.recordings, &self.journal);
        Ok(())
    }
}

/// Where the run of blits of the view at a position ends that begins at a place; it is that place where there is no such blit.
pub fn end_of_blits(blits: &[PlacedBlit], from: usize, position: u16) -> usize
    requires { from ≤ length blits.now }
    ensures range { (from ≤ result) × (result ≤ length blits.now) }
    ensures run { (i : ℕ) (d : PlacedBlit) → from ≤ i → i < result → (slice_index_or blits.now i d).position ≡ position }
    ensures end { (d : PlacedBlit) → result < length blits.now → (slice_index_or blits.now result d).position ≢ position }
{
    for at in from..blits.len() {
        if blits[at].position != position {
            return at;
        }
    }
    blits.len()
}

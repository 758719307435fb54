// Whose each deed of a frame is.
ghost use Rattle.std.specs.Prelude.{◌≡◌, ◌++◌, ℕ, [], ◌∷◌, List, map, filter, flat_map, IfOk, OnOk};
ghost use Rattle.std.specs.List.{list_any};
ghost use Rattle.gfx_model.specs.World as world;
ghost use Rattle.gfx_model.specs.Views.{view_count};
ghost use Rattle.draw_encoder.specs.declared.items.UniformSet.{UniformSet};
ghost use Rattle.draw_encoder.specs.Seen.{item_seen};
ghost use Rattle.frame_record.specs.Seen.{entry_seen, recordings_seen};
ghost use Rattle.trace_laws.specs.Doers.{clear_doer, item_doer, doers_in, doers_in_view, done_entries, has_in, items_in};
ghost use Rattle.trace_lines.specs.Seen.{doer_seen};

use draw_encoder::Item;
use frame_record::{Frame, OrderedItem};
use gfx_words::JournalEntry;
use std::alloc::{AllocError, Global};

/// Whose a deed of a frame is.
#[derive(Clone, Copy, Drop)]
pub enum Doer {
    /// A view that is entered: the deed is its clear.
    Clear { view: u16 },
    /// An item of a view, by its encoder and its place among the encoder's items.
    Item { view: u16, entry: JournalEntry },
}

/// Whether an item is of a view.
fn is_of_view(item: &Item, view: u16) -> bool
    ensures { (bytes : List ℕ) (sets : List UniformSet) → result ≡ world.is_of_view view (item_seen bytes sets item.now) }
{
    match item {
        Item::Draw(draw) => draw.view == view,
        Item::Touch(touch) => touch.view == view,
        Item::Blit(blit) => blit.view == view,
    }
}

/// Whether an item is a blit.
fn is_blit(item: &Item) -> bool
    ensures { (bytes : List ℕ) (sets : List UniformSet) → result ≡ world.is_blit (item_seen bytes sets item.now) }
{
    match item {
        Item::Draw(_) => false,
        Item::Touch(_) => false,
        Item::Blit(_) => true,
    }
}

/// Whether an entry has an item of a view.
fn has_view(frame: &Frame, entry: JournalEntry, view: u16) -> bool
    ensures { result ≡ has_in (world.is_of_view view) (recordings_seen frame.now.recordings.items) (entry_seen entry) }
{
    match frame.item(entry) {
        Some((_, item)) => is_of_view(item, view),
        None => false,
    }
}

/// Whether an entry has a blit.
fn has_blit(frame: &Frame, entry: JournalEntry) -> bool
    ensures { result ≡ has_in world.is_blit (recordings_seen frame.now.recordings.items) (entry_seen entry) }
{
    match frame.item(entry) {
        Some((_, item)) => is_blit(item),
        None => false,
    }
}

/// Puts an entry behind others, where it has a blit.
fn put_blit(
    entries: &mut Vec<JournalEntry>,
    frame: &Frame,
    entry: JournalEntry,
) -> Result<(), AllocError>
    ensures { OnOk result (map entry_seen entries.new.items ≡ map entry_seen entries.old.items ++ filter (has_in world.is_blit (recordings_seen frame.now.recordings.items)) (entry_seen entry ∷ [])) }
{
    if has_blit(frame, entry) {
        entries.push(entry)?;
    }
    Ok(())
}

/// Puts the entries of a journal that have a blit behind others.
fn put_blits(
    entries: &mut Vec<JournalEntry>,
    frame: &Frame,
    journal: &[JournalEntry],
) -> Result<(), AllocError>
    ensures { OnOk result (map entry_seen entries.new.items ≡ map entry_seen entries.old.items ++ filter (has_in world.is_blit (recordings_seen frame.now.recordings.items)) (map entry_seen journal.now)) }
{
    for entry in journal {
        put_blit(entries, frame, *entry)?;
    }
    Ok(())
}

/// Puts the entries of draws and touches behind others.
fn put_ordered(entries: &mut Vec<JournalEntry>, ordered: &[OrderedItem]) -> Result<(), AllocError>
    ensures { OnOk result (map entry_seen entries.new.items ≡ map entry_seen entries.old.items ++ map (λ o. entry_seen o.entry) ordered.now) }
{
    for item in ordered {
        entries.push(item.entry)?;
    }
    Ok(())
}

/// The entries of a frame in the order in which their items are done in each view.
fn entries_of(alloc: Global, frame: &Frame) -> Result<Vec<JournalEntry>, AllocError>
    ensures { IfOk result (λ entries. map entry_seen entries.items ≡ done_entries frame.now.views (recordings_seen frame.now.recordings.items) (map entry_seen frame.now.journal.items)) }
{
    let mut ordered = Vec::new(alloc);
    frame.ordered(&mut ordered)?;
    let mut entries = Vec::new(alloc);
    put_blits(&mut entries, frame, &frame.journal)?;
    put_ordered(&mut entries, &ordered)?;
    Ok(entries)
}

/// Puts the doer of an entry behind others, where its item is of a view.
fn put_item(
    doers: &mut Vec<Doer>,
    frame: &Frame,
    view: u16,
    entry: JournalEntry,
) -> Result<(), AllocError>
    ensures { OnOk result (map doer_seen doers.new.items ≡ map doer_seen doers.old.items ++ map (item_doer view) (filter (has_in (world.is_of_view view) (recordings_seen frame.now.recordings.items)) (entry_seen entry ∷ []))) }
{
    if has_view(frame, entry, view) {
        doers.push(Doer::Item { view, entry })?;
    }
    Ok(())
}

/// Puts the doers of the entries whose items are of a view behind others.
fn put_items(
    doers: &mut Vec<Doer>,
    frame: &Frame,
    view: u16,
    entries: &[JournalEntry],
) -> Result<(), AllocError>
    ensures { OnOk result (map doer_seen doers.new.items ≡ map doer_seen doers.old.items ++ map (item_doer view) (filter (has_in (world.is_of_view view) (recordings_seen frame.now.recordings.items)) (map entry_seen entries.now))) }
{
    for entry in entries {
        put_item(doers, frame, view, *entry)?;
    }
    Ok(())
}

/// Puts the doers of a view behind others, where it is entered.
fn put_view(
    doers: &mut Vec<Doer>,
    frame: &Frame,
    entries: &[JournalEntry],
    view: u16,
    is_entered: bool,
) -> Result<(), AllocError>
    ensures { OnOk result (map doer_seen doers.new.items ≡ map doer_seen doers.old.items ++ flat_map (doers_in_view (recordings_seen frame.now.recordings.items) (map entry_seen entries.now)) (filter (λ v. is_entered) (view ∷ []))) }
{
    if is_entered {
        doers.push(Doer::Clear { view })?;
        put_items(doers, frame, view, entries)?;
    }
    Ok(())
}

/// Whose each deed of a frame is, in the order of the deeds: of each view that has an item, in the order of the views, its clear, then its
/// blits as they stand in the journal, then its draws and touches in the order in which they are drawn. `Err` only for want of memory.
pub fn doers_of(alloc: Global, frame: &Frame) -> Result<Vec<Doer>, AllocError>
    ensures { IfOk result (λ doers. map doer_seen doers.items ≡ doers_in frame.now.views (recordings_seen frame.now.recordings.items) (map entry_seen frame.now.journal.items)) }
{
    frame.views.tell_facts();
    let entries = entries_of(alloc, frame)?;
    let mut entered = Vec::new(alloc);
    frame.entered(&mut entered)?;
    let mut doers = Vec::new(alloc);
    for position in 0..frame.views.count() {
        let view = frame.views.view_at(position);
        put_view(&mut doers, frame, &entries, view, entered[view as usize])?;
    }
    Ok(doers)
}

// What one doer of a frame does.
ghost use Rattle.std.specs.Prelude.{◌≡◌, ℕ, List, option_map, OnOk};
ghost use Rattle.draw_encoder.specs.declared.items.UniformSet.{UniformSet};
ghost use Rattle.draw_encoder.specs.Seen.{item_seen};
ghost use Rattle.gfx_model.specs.Frames.{item_of_entry};
ghost use Rattle.gfx_model.specs.World as world;
ghost use Rattle.frame_record.specs.Seen.{entry_seen, recordings_seen};
ghost use Rattle.render_stores.specs.Seen.{stores_seen};
ghost use Rattle.view_table.specs.Seen.{view_seen};
ghost use Rattle.trace_laws.specs.Deeds.{item_deed};
ghost use Rattle.trace_laws.specs.Doers.{has_in};
ghost use Rattle.trace_lines.specs.Seen.{doer_seen};
ghost use Rattle.frame_steps.specs.Doing.{deed_of_frame, stores_after_some};

use draw_encoder::Item;
use frame_record::{Frame, JournalEntry, OrderedItem, PlacedBlit};
use int_raster::Rasterizer;
use render_stores::RenderStores;
use sort_key::SortKey;
use std::alloc::AllocError;
use trace_lines::Doer;
use view_drawing::{DrawingRoom, clear_view, copy_blits, do_draws};
use view_table::View;

/// Whether an item is a blit.
fn is_blit(item: &Item) -> bool
    ensures { (bytes : List ℕ) (sets : List UniformSet) → result ≡ world.is_blit (item_seen bytes sets item.now) }
{
    match item {
        Item::Draw(_) => false,
        Item::Touch(_) => false,
        Item::Blit(_) => true,
    }
}

/// Whether an entry has a blit.
fn has_blit(frame: &Frame, entry: JournalEntry) -> bool
    ensures { result ≡ has_in world.is_blit (recordings_seen frame.now.recordings.items) (entry_seen entry) }
{
    match frame.item(entry) {
        Some((_, item)) => is_blit(item),
        None => false,
    }
}

/// Does the item of an entry in a view, where the entry has one.
fn do_item<D: Rasterizer>(
    rasterizer: &mut D,
    stores: &mut RenderStores,
    view: &View,
    frame: &Frame,
    entry: JournalEntry,
    room: &mut DrawingRoom,
) -> Result<(), AllocError>
    ensures { OnOk result (stores_seen stores.new ≡ stores_after_some (stores_seen stores.old) (option_map (item_deed (view_seen view.now)) (item_of_entry (recordings_seen frame.now.recordings.items) (entry_seen entry)))) }
{
    if has_blit(frame, entry) {
        let one = [PlacedBlit { position: 0, entry }];
        return copy_blits(stores, view, frame, &one);
    }
    let key = SortKey::touch(view.mode, 0, 0);
    let one = [OrderedItem { key, entry }];
    do_draws(rasterizer, stores, view, frame, &one, room)
}

/// Does what a doer of a frame does on a renderer's stores: the clear of its view, or its item in its view. Nothing is done where the frame
/// has no such view, or the view's encoder no such item. `Err` only for want of memory.
pub fn do_deed<D: Rasterizer>(
    rasterizer: &mut D,
    stores: &mut RenderStores,
    frame: &Frame,
    doer: Doer,
    room: &mut DrawingRoom,
) -> Result<(), AllocError>
    ensures { OnOk result (stores_seen stores.new ≡ stores_after_some (stores_seen stores.old) (deed_of_frame frame.now (doer_seen doer))) }
{
    match doer {
        Doer::Clear { view } => match frame.views.get(view) {
            Some(settings) => {
                clear_view(stores, settings);
                Ok(())
            }
            None => Ok(()),
        },
        Doer::Item { view, entry } => match frame.views.get(view) {
            Some(settings) => do_item(rasterizer, stores, settings, frame, entry, room),
            None => Ok(()),
        },
    }
}

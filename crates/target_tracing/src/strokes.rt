// What a deed of a view that draws on a frame buffer does to a pixel of it.
ghost use Rattle.std.specs.Prelude.{◌≡◌, ◌<◌, map, IfOk};
ghost use Rattle.gfx_model.specs.Frames.{item_of_entry};
ghost use Rattle.frame_record.specs.Seen.{entry_seen, recordings_seen};
ghost use Rattle.view_table.specs.Seen.{view_seen};
ghost use Rattle.render_stores.specs.Seen.{stores_seen};
ghost use Rattle.trace_laws.specs.ByIndex.{clear_strokes_in};
ghost use Rattle.trace_lines.specs.Seen.{doer_seen};
ghost use Rattle.pixel_strokes.specs.Seen.{stroke_seen};
ghost use Rattle.frame_tracing.specs.Given.{strokes_prepared};
ghost use Rattle.target_tracing.specs.Placed.{placed_strokes, standing_strokes, strokes_given};
ghost use Rattle.target_tracing.specs.Surfaces.{surface_in};

use crate::surfaces::{put_surface, take_surface};
use frame_record::{Frame, OrderedItem};
use int_raster::{Prepared, view_rect};
use pixel_strokes::{Stroke, contains, fragments_at};
use render_stores::RenderStores;
use sort_key::SortKey;
use std::alloc::{AllocError, Global};
use std::mem::replace;
use store_model::put_back_law;
use trace_lines::Doer;
use tri_cover::Setup;
use view_drawing::{DrawingRoom, prepare_item};
use view_table::View;

/// What the clear of a view does to a pixel of the back buffer.
fn clear_strokes(
    alloc: Global,
    stores: &RenderStores,
    view: &View,
    x: u16,
    y: u16,
) -> Result<Vec<Stroke>, AllocError>
    ensures { IfOk result (λ strokes. map stroke_seen strokes.items ≡ clear_strokes_in (stores_seen stores.now) (view_seen view.now) x y) }
{
    let mut strokes = Vec::new(alloc);
    let rect = view_rect(view.rect, stores.back.color.width, stores.back.color.height);
    if contains(&rect, x, y) {
        strokes.push(Stroke::Clear(view.clear))?;
    }
    Ok(strokes)
}

/// The fragments of a draw that is prepared. `Err` for want of memory, or where there are more triangles than can be numbered.
fn prepared_strokes(
    alloc: Global,
    draw: &Prepared<'_>,
    triangles: &[Setup],
    x: u16,
    y: u16,
) -> Result<Vec<Stroke>, AllocError>
    requires { x < 65535 }
    ensures { IfOk result (λ strokes. map stroke_seen strokes.items ≡ strokes_prepared draw.now triangles.now x y) }
{
    if triangles.len() >= 4_294_967_296 {
        return Err(AllocError);
    }
    fragments_at(alloc, draw, triangles, x, y)
}

/// What an item does to a pixel of the back buffer when its values are given and its view's target is taken out.
fn item_strokes(
    alloc: Global,
    stores: &RenderStores,
    view: &View,
    frame: &Frame,
    item: &OrderedItem,
    x: u16,
    y: u16,
    room: &mut DrawingRoom,
) -> Result<Vec<Stroke>, AllocError>
    requires { x < 65535 }
    ensures { IfOk result (λ strokes. map stroke_seen strokes.items ≡ strokes_given (stores_seen stores.now) (view_seen view.now) x y (item_of_entry (recordings_seen frame.now.recordings.items) (entry_seen item.now.entry))) }
{
    match prepare_item(stores, view, frame, item, room) {
        Ok(Some(draw)) => prepared_strokes(alloc, &draw, room.triangles(), x, y),
        Ok(None) => Ok(Vec::new(alloc)),
        Err(fault) => Err(fault),
    }
}

/// What a deed that is done did to a pixel of a surface that stands in the place of the back buffer.
fn strokes_in_place(
    alloc: Global,
    stores: &RenderStores,
    view: &View,
    frame: &Frame,
    doer: Doer,
    x: u16,
    y: u16,
    room: &mut DrawingRoom,
) -> Result<Vec<Stroke>, AllocError>
    requires { x < 65535 }
    ensures { IfOk result (λ strokes. map stroke_seen strokes.items ≡ placed_strokes (stores_seen stores.now) (view_seen view.now) x y (recordings_seen frame.now.recordings.items) (doer_seen doer)) }
{
    match doer {
        Doer::Clear { .. } => clear_strokes(alloc, stores, view, x, y),
        Doer::Item { entry, .. } => {
            let key = SortKey::touch(view.mode, 0, 0);
            let item = OrderedItem { key, entry };
            item_strokes(alloc, stores, view, frame, &item, x, y, room)
        }
    }
}

/// What a deed that is done did to a pixel of the frame buffer at an index, on which its view draws; nothing where it is not there.
pub(crate) fn own_strokes(
    alloc: Global,
    stores: &mut RenderStores,
    view: &View,
    frame: &Frame,
    doer: Doer,
    index: u16,
    x: u16,
    y: u16,
    room: &mut DrawingRoom,
) -> Result<Vec<Stroke>, AllocError>
    requires { x < 65535 }
    ensures strokes { IfOk result (λ strokes. map stroke_seen strokes.items ≡ standing_strokes (surface_in stores.old.textures index) index (stores_seen stores.old) (view_seen view.now) x y (recordings_seen frame.now.recordings.items) (doer_seen doer)) }
    ensures same { stores_seen stores.new ≡ stores_seen stores.old }
{
    put_back_law();
    stores.textures.tell_facts();
    match take_surface(&mut stores.textures, index) {
        Some(surface) => {
            let back = replace(&mut stores.back, surface);
            let strokes = strokes_in_place(alloc, stores, view, frame, doer, x, y, room);
            let surface = replace(&mut stores.back, back);
            put_surface(&mut stores.textures, index, surface);
            strokes
        }
        None => Ok(Vec::new(alloc)),
    }
}

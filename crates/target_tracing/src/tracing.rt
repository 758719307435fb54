// The deeds of a frame, one after another.
ghost use Rattle.std.specs.Prelude.{◌≡◌, ◌<◌, ◌++◌, ◌-◌, ◌^◌, IfOk, IfSome, OnOk, length, map};
ghost use Rattle.gfx_model.specs.Frames.{item_of_entry};
ghost use Rattle.gfx_model.specs.Views.{view_at, view_count};
ghost use Rattle.frame_record.specs.Seen.{entry_seen, recordings_seen};
ghost use Rattle.view_table.specs.Seen.{view_seen};
ghost use Rattle.render_stores.specs.Seen.{stores_seen};
ghost use Rattle.trace_lines.specs.Seen.{doer_seen};
ghost use Rattle.render_core.specs.Seen.{frame_seen, journal_of, recordings_of};
ghost use Rattle.trace_laws.specs.ByIndex.{begun_in, deeds_in};
ghost use Rattle.trace_laws.specs.Doers.{doers_in};
ghost use Rattle.frame_steps.specs.Doing.{deed_of_frame};
ghost use Rattle.frame_steps.specs.Steps.{deeds_of_doers};
ghost use Rattle.frame_blame.specs.Done.{view_of_doer};
ghost use Rattle.pixel_ops.specs.Seen.{pixel_seen};
ghost use Rattle.target_laws.specs.Targets as model;
ghost use Rattle.target_laws.specs.ByIndex.{target_history_in, target_pixel_in};
ghost use Rattle.target_tracing.specs.Seen.{target_made_seen};
ghost use Rattle.target_tracing.specs.Surfaces.{surface_in};
ghost use Rattle.target_tracing.specs.Tracing.{Adds, IsTargetHistory, doer_draws, history_of_these, is_draw_some};

use crate::made::{TargetHistory, TargetMade, push_left, push_own};
use crate::strokes::own_strokes;
use crate::surfaces::{has_target_pixel, target_pixel};
use draw_encoder::Item;
use frame_record::{Frame, JournalEntry};
use frame_steps::do_deed;
use frame_steps::laws::done_law;
use gfx_words::Handle;
use int_raster::Rasterizer;
use pixel_ops::Pixel;
use render_stores::{RenderStores, execute_all};
use std::alloc::{AllocError, Global};
use trace_lines::{Doer, doers_of};
use view_drawing::DrawingRoom;
use view_table::View;

/// A pixel of a frame buffer, by its column from the left and its row from the top, each from 0; it may not be there.
#[derive(Clone, Copy, Drop)]
pub struct TargetSpot {
    pub target: Handle,
    pub x: u32,
    pub y: u32,
}

/// A pixel of a frame buffer that has it.
#[derive(Clone, Copy, Drop)]
struct Spot {
    target: Handle,
    x: u16,
    y: u16,
}

/// The pixel of a frame buffer; a pixel of zeros where that is not there.
fn pixel_at(stores: &mut RenderStores, spot: &Spot) -> Pixel
    ensures pixel { pixel_seen result ≡ model.pixel_on (surface_in stores.old.textures spot.now.target.index) spot.now.x spot.now.y }
    ensures same { stores_seen stores.new ≡ stores_seen stores.old }
{
    target_pixel(&mut stores.textures, spot.target.index(), spot.x, spot.y)
}

/// Whether a frame buffer is there and has the pixel.
fn has_pixel_at(stores: &mut RenderStores, spot: &Spot) -> bool
    ensures has { result ≡ model.has_pixel (surface_in stores.old.textures spot.now.target.index) spot.now.x spot.now.y }
    ensures same { stores_seen stores.new ≡ stores_seen stores.old }
{
    has_target_pixel(
        &mut stores.textures,
        spot.target.index(),
        spot.x as u32,
        spot.y as u32,
    )
}

/// Whether a view's target is this frame buffer.
fn is_target(target: Handle, of: Option<Handle>) -> bool
    ensures { result ≡ model.is_target target of }
{
    match of {
        None => false,
        Some(handle) => handle.index() == target.index() && handle.serial() == target.serial(),
    }
}

/// Whether an entry has an item that draws.
fn is_draw(frame: &Frame, entry: JournalEntry) -> bool
    ensures { result ≡ is_draw_some (item_of_entry (recordings_seen frame.now.recordings.items) (entry_seen entry)) }
{
    match frame.item(entry) {
        Some((_, Item::Draw(_))) => true,
        _ => false,
    }
}

/// Whether a deed in a view is a clear or a draw on a frame buffer.
fn draws_on(frame: &Frame, view: &View, doer: Doer, target: Handle) -> bool
    ensures { result ≡ doer_draws target (view_seen view.now) (recordings_seen frame.now.recordings.items) (doer_seen doer) }
{
    match doer {
        Doer::Clear { .. } => is_target(target, view.target),
        Doer::Item { entry, .. } => is_draw(frame, entry) && is_target(target, view.target),
    }
}

/// Does a deed of a view, and traces what it does to a pixel.
fn trace_in<D: Rasterizer>(
    alloc: Global,
    rasterizer: &mut D,
    stores: &mut RenderStores,
    frame: &Frame,
    view: &View,
    doer: Doer,
    number: u32,
    spot: &Spot,
    made: &mut Vec<TargetMade>,
    room: &mut DrawingRoom,
) -> Result<(), AllocError>
    requires column { spot.now.x < 65535 }
    requires there { view_of_doer (doer_seen doer) < view_count frame.now.views }
    requires own { view_seen view.now ≡ view_at frame.now.views (view_of_doer (doer_seen doer)) }
    ensures { OnOk result (Adds spot.now.target spot.now.x spot.now.y number (stores_seen stores.old) (deed_of_frame frame.now (doer_seen doer)) (map target_made_seen made.old.items) (map target_made_seen made.new.items) (stores_seen stores.new)) }
{
    let draws = draws_on(frame, view, doer, spot.target);
    let has = has_pixel_at(stores, spot);
    let before = pixel_at(stores, spot);
    stores.textures.tell_facts();
    do_deed(rasterizer, stores, frame, doer, room)?;
    if draws && has {
        let index = spot.target.index();
        let strokes = own_strokes(
            alloc, stores, view, frame, doer, index, spot.x, spot.y, room,
        )?;
        return push_own(made, number, &strokes);
    }
    let after = pixel_at(stores, spot);
    push_left(made, number, &before, &after)
}

/// The view of a doer.
fn view_of(doer: Doer) -> u16
    ensures { result ≡ view_of_doer (doer_seen doer) }
{
    match doer {
        Doer::Clear { view } => view,
        Doer::Item { view, .. } => view,
    }
}

/// Does a deed, and traces what it does to a pixel.
fn trace_doer<D: Rasterizer>(
    alloc: Global,
    rasterizer: &mut D,
    stores: &mut RenderStores,
    frame: &Frame,
    doer: Doer,
    number: u32,
    spot: &Spot,
    made: &mut Vec<TargetMade>,
    room: &mut DrawingRoom,
) -> Result<(), AllocError>
    requires { spot.now.x < 65535 }
    ensures { OnOk result (Adds spot.now.target spot.now.x spot.now.y number (stores_seen stores.old) (deed_of_frame frame.now (doer_seen doer)) (map target_made_seen made.old.items) (map target_made_seen made.new.items) (stores_seen stores.new)) }
{
    match frame.views.get(view_of(doer)) {
        Some(view) => trace_in(
            alloc, rasterizer, stores, frame, view, doer, number, spot, made, room,
        ),
        None => do_deed(rasterizer, stores, frame, doer, room),
    }
}

/// Does what doers do one after another, and traces what each does to a pixel.
fn trace_each<D: Rasterizer>(
    alloc: Global,
    rasterizer: &mut D,
    stores: &mut RenderStores,
    frame: &Frame,
    doers: &[Doer],
    spot: &Spot,
    made: &mut Vec<TargetMade>,
    room: &mut DrawingRoom,
) -> Result<(), AllocError>
    requires column { spot.now.x < 65535 }
    requires few { length doers.now < 2 ^ 32 - 1 }
    ensures { OnOk result (map target_made_seen made.new.items ≡ map target_made_seen made.old.items ++ history_of_these spot.now.target spot.now.x spot.now.y 0 (stores_seen stores.old) (deeds_of_doers frame.now doers.now)) }
{
    for place in 0..doers.len() {
        let doer = doers[place];
        trace_doer(
            alloc,
            rasterizer,
            stores,
            frame,
            doer,
            place as u32,
            spot,
            made,
            room,
        )?;
    }
    Ok(())
}

/// Whether a frame buffer is there and has a pixel.
fn has_spot(stores: &mut RenderStores, spot: &TargetSpot) -> bool
    ensures has { result ≡ model.has_pixel (surface_in stores.old.textures spot.now.target.index) spot.now.x spot.now.y }
    ensures same { stores_seen stores.new ≡ stores_seen stores.old }
{
    has_target_pixel(&mut stores.textures, spot.target.index(), spot.x, spot.y)
}

/// A pixel of a frame buffer that has it. Its sides are up to 65,535, so none is further out.
fn inner_spot(spot: TargetSpot) -> Option<Spot>
    ensures { IfSome result (λ s. (s.target ≡ spot.target) × (s.x ≡ spot.x) × (s.y ≡ spot.y) × (s.x < 65535)) }
{
    if spot.x >= 65_535 {
        return None;
    }
    if spot.y > 65_535 {
        return None;
    }
    Some(Spot {
        target: spot.target,
        x: spot.x as u16,
        y: spot.y as u16,
    })
}

/// What a pixel of a frame buffer that has it goes through in a frame whose first commands are executed.
fn trace_inside<D: Rasterizer>(
    alloc: Global,
    rasterizer: &mut D,
    stores: &mut RenderStores,
    frame: &Frame,
    spot: &Spot,
) -> Result<TargetHistory, AllocError>
    requires { spot.now.x < 65535 }
    ensures before { IfOk result (λ it. pixel_seen it.before ≡ target_pixel_in (stores_seen stores.old) spot.now.target spot.now.x spot.now.y) }
    ensures made { IfOk result (λ it. map target_made_seen it.made.items ≡ target_history_in spot.now.target spot.now.x spot.now.y 0 (stores_seen stores.old) (deeds_in (frame_seen frame.now))) }
    ensures doers { IfOk result (λ it. map doer_seen it.doers.items ≡ doers_in frame.now.views (recordings_of frame.now) (journal_of frame.now)) }
{
    done_law();
    frame.views.tell_facts();
    let before = pixel_at(stores, spot);
    let doers = doers_of(alloc, frame)?;
    if doers.len() >= 4_294_967_295 {
        return Err(AllocError);
    }
    let mut room = DrawingRoom::new(alloc);
    let mut made = Vec::new(alloc);
    trace_each(
        alloc,
        rasterizer,
        stores,
        frame,
        doers.as_slice(),
        spot,
        &mut made,
        &mut room,
    )?;
    Ok(TargetHistory {
        before,
        made,
        doers,
    })
}

/// What a pixel of a frame buffer goes through in a frame, and whose each of its deeds is: it executes the frame's first commands on a
/// renderer's stores, and does its deeds one after another. `None` exactly where the frame buffer is not there when the first deed is done, or
/// has no such pixel. After it the stores are of no use. `Err` only for want of memory, where there are 4,294,967,295 deeds, or so many
/// triangles in one draw.
pub fn trace_target<D: Rasterizer>(
    alloc: Global,
    rasterizer: &mut D,
    stores: &mut RenderStores,
    frame: &Frame,
    spot: TargetSpot,
) -> Result<Option<TargetHistory>, AllocError>
    ensures history { IfOk result (λ o. IsTargetHistory spot.target spot.x spot.y (begun_in (stores_seen stores.old) (frame_seen frame.now)) (frame_seen frame.now) o) }
    ensures doers { IfOk result (λ o. IfSome o (λ it. map doer_seen it.doers.items ≡ doers_in frame.now.views (recordings_of frame.now) (journal_of frame.now))) }
{
    execute_all(alloc, stores, &frame.payloads, &frame.pre)?;
    if !has_spot(stores, &spot) {
        return Ok(None);
    }
    let Some(inner) = inner_spot(spot) else {
        return Err(AllocError);
    };
    let history = trace_inside(alloc, rasterizer, stores, frame, &inner)?;
    Ok(Some(history))
}

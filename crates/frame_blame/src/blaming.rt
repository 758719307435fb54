// To which deed each pixel is due.
ghost use Rattle.std.specs.Prelude.{◌≡◌, ◌<◌, ◌-◌, ◌^◌, length, map, IfOk, OnOk};
ghost use Rattle.std.specs.List.{AllByRecursion};
ghost use Rattle.gfx_model.specs.Number.{u32_at};
ghost use Rattle.gfx_model.specs.World.{pixels_of};
ghost use Rattle.int_raster.specs.Seen.{surface_seen};
ghost use Rattle.render_stores.specs.Seen.{stores_seen};
ghost use Rattle.render_core.specs.Seen.{frame_seen};
ghost use Rattle.frame_steps.specs.Steps.{deeds_of_doers};
ghost use Rattle.frame_blame.specs.Blame.{AreNumbers, blame_in};
ghost use Rattle.frame_blame.specs.Done.{history_of_these};
ghost use Rattle.frame_blame.specs.Marks.{Changes, marked_by, new_mark, word_at};

use crate::deeds::Table;
use crate::marks::Mark;
use frame_record::Frame;
use frame_steps::do_deed;
use frame_steps::laws::done_law;
use int_raster::{Rasterizer, Surface};
use render_stores::{RenderStores, execute_all};
use std::alloc::{AllocError, Global};
use trace_lines::{Doer, doers_of};
use view_drawing::DrawingRoom;

/// The greatest number that three bytes tell.
const MOST: u32 = 16_777_215;

/// The word of a depth texel.
fn depth_word(texel: [u8; 4]) -> u32
    ensures { result ≡ u32_at texel 0 }
{
    u32::from_le_bytes(texel)
}

/// The depth and stencil of a pixel of a surface at a place, where it has them.
fn word_of(surface: &Surface, place: usize) -> Option<u32>
    requires { place < length surface.now.color.texels }
    ensures { result ≡ word_at (surface_seen surface.now) place }
{
    match &surface.depth {
        None => None,
        Some(depth) => Some(depth_word(depth.texels.as_slice()[place])),
    }
}

/// The marks of a surface's pixels before the first deed.
fn table_of(alloc: Global, surface: &Surface) -> Result<Table, AllocError>
    ensures sides { IfOk result (λ t. (t.width ≡ surface.now.color.width) × (t.height ≡ surface.now.color.height)) }
    ensures marks { IfOk result (λ t. t.marks.items ≡ map new_mark (pixels_of (surface_seen surface.now))) }
{
    let mut marks = Vec::new(alloc);
    for place in 0..surface.color.texels.len() {
        marks.push(Mark {
            depth: word_of(surface, place),
            deed: 0,
        })?;
    }
    Ok(Table {
        width: surface.color.width,
        height: surface.color.height,
        marks,
    })
}

/// The deeds of marks. `Err` for want of memory, or where three bytes do not tell one.
fn deeds_of(alloc: Global, marks: &[Mark]) -> Result<Vec<u32>, AllocError>
    ensures deeds { IfOk result (λ deeds. deeds.items ≡ map (λ m. m.deed) marks.now) }
    ensures small { IfOk result (λ deeds. AllByRecursion (λ n. n < 2 ^ 24) deeds.items) }
{
    let mut deeds = Vec::new(alloc);
    for mark in marks {
        if mark.deed > MOST {
            return Err(AllocError);
        }
        deeds.push(mark.deed)?;
    }
    Ok(deeds)
}

/// Does what doers do one after another, and marks what each did.
fn paint_each<D: Rasterizer>(
    rasterizer: &mut D,
    stores: &mut RenderStores,
    frame: &Frame,
    doers: &[Doer],
    table: &mut Table,
    room: &mut DrawingRoom,
) -> Result<(), AllocError>
    requires { length doers.now < 2 ^ 32 - 1 }
    ensures sides { OnOk result ((table.new.width ≡ table.old.width) × (table.new.height ≡ table.old.height)) }
    ensures painted { OnOk result (Changes table.old.width table.old.height (marked_by (λ x y. history_of_these x y 0 (stores_seen stores.old) (deeds_of_doers frame.now doers.now))) table.old.marks.items table.new.marks.items) }
{
    for place in 0..doers.len() {
        let doer = doers[place];
        do_deed(rasterizer, stores, frame, doer, room)?;
        table.paint_deed(stores, frame, doer, place as u32 + 1, room)?;
    }
    Ok(())
}

/// To which deed each pixel of a frame's picture is due, row by row: the number, counted from 1, of the deed that gave it its colour last, by a
/// clear that takes colours or a fragment that is stored; 0 where none did. It executes the frame's first commands on a renderer's stores and
/// does the frame's deeds one after another. `Err` only for want of memory, or where three bytes do not tell a number.
pub fn blame<D: Rasterizer>(
    alloc: Global,
    rasterizer: &mut D,
    stores: &mut RenderStores,
    frame: &Frame,
) -> Result<Vec<u32>, AllocError>
    ensures { let h = stores_seen stores.old in IfOk result (λ numbers. AreNumbers h.back.color.width h.back.color.height (blame_in h (frame_seen frame.now)) numbers.items) }
{
    done_law();
    frame.views.tell_facts();
    let mut table = table_of(alloc, &stores.back)?;
    execute_all(alloc, stores, &frame.payloads, &frame.pre)?;
    let doers = doers_of(alloc, frame)?;
    if doers.len() >= 4_294_967_295 {
        return Err(AllocError);
    }
    let mut room = DrawingRoom::new(alloc);
    paint_each(
        rasterizer,
        stores,
        frame,
        doers.as_slice(),
        &mut table,
        &mut room,
    )?;
    let numbers = deeds_of(alloc, table.marks.as_slice())?;
    Ok(numbers)
}

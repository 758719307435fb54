// Marks after a deed.
ghost use Rattle.std.specs.Prelude.{◌≡◌, ◌<◌, ◌*◌, None, length, OnOk};
ghost use Rattle.gfx_model.specs.Frames.{item_of_entry};
ghost use Rattle.gfx_model.specs.Views.{view_at, view_count};
ghost use Rattle.int_raster.specs.Seen.{facing_seen};
ghost use Rattle.frame_record.specs.Seen.{entry_seen, recordings_seen};
ghost use Rattle.render_stores.specs.Seen.{stores_seen};
ghost use Rattle.view_table.specs.Seen.{view_seen};
ghost use Rattle.trace_laws.specs.ByIndex.{clear_strokes_in};
ghost use Rattle.trace_lines.specs.Seen.{doer_seen};
ghost use Rattle.frame_steps.specs.Doing.{deed_of_frame};
ghost use Rattle.frame_tracing.specs.Given.{strokes_prepared};
ghost use Rattle.frame_blame.specs.Brushes.{brushed, IsBrushOf};
ghost use Rattle.frame_blame.specs.Done.{given_of, strokes_done, view_of_doer};
ghost use Rattle.frame_blame.specs.Marks.{Changes, stroked};

use crate::brushes::{Brush, Patch, Tip};
use crate::marks::Mark;
use crate::painting::paint;
use frame_record::{Frame, JournalEntry, OrderedItem};
use gfx_words::StencilWord;
use int_raster::{Prepared, view_rect};
use render_stores::RenderStores;
use sort_key::SortKey;
use std::alloc::AllocError;
use trace_lines::Doer;
use tri_cover::Setup;
use view_drawing::{DrawingRoom, prepare_item};
use view_table::View;

/// Marks of the pixels of a picture, row by row, with its sides.
#[derive(Drop)]
pub(crate) struct Table {
    pub(crate) width: u16,
    pub(crate) height: u16,
    pub(crate) marks: Vec<Mark>,
    pub(crate) ghost whole: { length marks.items ≡ width * height },
}

/// The stencil word of the side that a triangle shows.
fn stencil_of(draw: &Prepared<'_>, setup: &Setup) -> StencilWord
    ensures { result ≡ (facing_seen draw.now setup.now).stencil }
{
    if setup.front() || draw.back.word() == 0 {
        draw.front
    } else {
        draw.back
    }
}

/// A triangle of a draw as a brush.
fn triangle_brush(draw: &Prepared<'_>, setup: &Setup) -> Brush
    ensures { IsBrushOf draw.now setup.now result }
{
    Brush {
        cut: draw.cut,
        tip: Tip::Triangle(Patch {
            setup: *setup,
            state: draw.state,
            stencil: stencil_of(draw, setup),
        }),
    }
}

/// The view of a doer.
fn view_of(doer: Doer) -> u16
    ensures { result ≡ view_of_doer (doer_seen doer) }
{
    match doer {
        Doer::Clear { view } => view,
        Doer::Item { view, .. } => view,
    }
}

impl Table {
    /// Marks the pixels that a brush covers.
    fn paint(&mut self, brush: &Brush, number: u32)
        ensures sides { (self.new.width ≡ self.old.width) × (self.new.height ≡ self.old.height) }
        ensures painted { Changes self.old.width self.old.height (brushed number brush.now) self.old.marks.items self.new.marks.items }
    {
        paint(
            self.marks.as_mut_slice(),
            self.width,
            self.height,
            brush,
            number,
        );
    }

    /// Marks what a draw that is prepared did.
    fn paint_draw(&mut self, draw: &Prepared<'_>, triangles: &[Setup], number: u32)
        ensures sides { (self.new.width ≡ self.old.width) × (self.new.height ≡ self.old.height) }
        ensures painted { Changes self.old.width self.old.height (stroked number (strokes_prepared draw.now triangles.now)) self.old.marks.items self.new.marks.items }
    {
        for setup in triangles {
            self.paint(&triangle_brush(draw, setup), number);
        }
    }

    /// Marks what the clear of a view of the back buffer does.
    fn paint_clear(&mut self, stores: &RenderStores, view: &View, number: u32)
        ensures sides { (self.new.width ≡ self.old.width) × (self.new.height ≡ self.old.height) }
        ensures painted { Changes self.old.width self.old.height (stroked number (clear_strokes_in (stores_seen stores.now) (view_seen view.now))) self.old.marks.items self.new.marks.items }
    {
        let brush = Brush {
            cut: view_rect(view.rect, stores.back.color.width, stores.back.color.height),
            tip: Tip::Clear(view.clear),
        };
        self.paint(&brush, number);
    }

    /// Marks what an item of a view of the back buffer did, whose values are given.
    fn paint_item(
        &mut self,
        stores: &RenderStores,
        view: &View,
        frame: &Frame,
        item: &OrderedItem,
        number: u32,
        room: &mut DrawingRoom,
    ) -> Result<(), AllocError>
        requires { view.now.target ≡ None }
        ensures sides { OnOk result ((self.new.width ≡ self.old.width) × (self.new.height ≡ self.old.height)) }
        ensures painted { OnOk result (Changes self.old.width self.old.height (stroked number (given_of (stores_seen stores.now) (view_seen view.now) (item_of_entry (recordings_seen frame.now.recordings.items) (entry_seen item.now.entry)))) self.old.marks.items self.new.marks.items) }
    {
        match prepare_item(stores, view, frame, item, room) {
            Ok(Some(draw)) => {
                self.paint_draw(&draw, room.triangles(), number);
                Ok(())
            }
            Ok(None) => Ok(()),
            Err(fault) => Err(fault),
        }
    }

    /// Marks what a deed of a view did that is done.
    fn paint_in(
        &mut self,
        stores: &RenderStores,
        frame: &Frame,
        view: &View,
        doer: Doer,
        number: u32,
        room: &mut DrawingRoom,
    ) -> Result<(), AllocError>
        requires there { view_of_doer (doer_seen doer) < view_count frame.now.views }
        requires own { view_seen view.now ≡ view_at frame.now.views (view_of_doer (doer_seen doer)) }
        ensures sides { OnOk result ((self.new.width ≡ self.old.width) × (self.new.height ≡ self.old.height)) }
        ensures painted { OnOk result (Changes self.old.width self.old.height (stroked number (strokes_done (stores_seen stores.now) (deed_of_frame frame.now (doer_seen doer)))) self.old.marks.items self.new.marks.items) }
    {
        if view.target.is_some() {
            return Ok(());
        }
        match doer {
            Doer::Clear { .. } => {
                self.paint_clear(stores, view, number);
                Ok(())
            }
            Doer::Item { entry, .. } => {
                let key = SortKey::touch(view.mode, 0, 0);
                let item = OrderedItem { key, entry };
                self.paint_item(stores, view, frame, &item, number, room)
            }
        }
    }

    /// Marks what a deed did that is done. `Err` only for want of memory.
    pub(crate) fn paint_deed(
        &mut self,
        stores: &RenderStores,
        frame: &Frame,
        doer: Doer,
        number: u32,
        room: &mut DrawingRoom,
    ) -> Result<(), AllocError>
        ensures sides { OnOk result ((self.new.width ≡ self.old.width) × (self.new.height ≡ self.old.height)) }
        ensures painted { OnOk result (Changes self.old.width self.old.height (stroked number (strokes_done (stores_seen stores.now) (deed_of_frame frame.now (doer_seen doer)))) self.old.marks.items self.new.marks.items) }
    {
        match frame.views.get(view_of(doer)) {
            Some(view) => self.paint_in(stores, frame, view, doer, number, room),
            None => Ok(()),
        }
    }
}

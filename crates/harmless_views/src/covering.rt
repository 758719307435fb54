// The runs of draws.
ghost use Rattle.std.specs.Prelude.{◌≡◌, false, true, IfOk};
ghost use Rattle.gfx_model.specs.Frames.{item_of_entry};
ghost use Rattle.frame_record.specs.Seen.{entry_seen, recordings_seen};
ghost use Rattle.fix_math.specs.Seen.{rect_seen};
ghost use Rattle.covered_rows.specs.Covering.{AddsOnly, Keeps};
ghost use Rattle.view_table.specs.Seen.{view_seen};
ghost use Rattle.render_stores.specs.Seen.{stores_seen};
ghost use Rattle.harmless_views.specs.Runs.{HasTriangles, IsItemRun, IsTriangleRun, ItemCovered, LacksProgram};

use crate::scope::Scope;
use covered_rows::{Coverer, Run, push_triangle};
use fix_math::Rect;
use frame_record::OrderedItem;
use gfx_words::{JournalEntry, ViewMode};
use sort_key::SortKey;
use std::alloc::AllocError;
use tri_cover::Setup;
use view_drawing::{DrawingRoom, prepare_item};

/// Puts the runs of triangles within a cut of a surface with these sides behind others.
fn push_triangles(
    runs: &mut Vec<Run>,
    triangles: &[Setup],
    cut: Rect,
    coverer: Coverer,
    width: u16,
    height: u16,
) -> Result<(), AllocError>
    ensures keeps { IfOk result (λ _. Keeps runs.old.items runs.new.items) }
    ensures has { IfOk result (λ _. HasTriangles runs.new.items coverer.key coverer.encoder triangles.now (rect_seen cut) width height) }
    ensures adds { IfOk result (λ _. AddsOnly (IsTriangleRun coverer.key coverer.encoder triangles.now (rect_seen cut) width height) runs.old.items runs.new.items) }
{
    for setup in triangles {
        push_triangle(runs, setup, cut, coverer, width, height)?;
    }
    Ok(())
}

/// An entry, by any key: what it is drawn with does not depend on that.
fn by_any_key(entry: JournalEntry) -> OrderedItem
    ensures { result.entry ≡ entry }
{
    OrderedItem {
        key: SortKey::touch(ViewMode::Default, 0, 0),
        entry,
    }
}

/// Puts the runs of a draw of the view behind others. Answers whether it is one, and its program is there.
pub(crate) fn push_draw(
    scope: &Scope<'_>,
    entry: JournalEntry,
    coverer: Coverer,
    runs: &mut Vec<Run>,
    room: &mut DrawingRoom,
) -> Result<bool, AllocError>
    ensures keeps { IfOk result (λ _. Keeps runs.old.items runs.new.items) }
    ensures has { IfOk result (λ done. done ≡ true
        → ItemCovered runs.new.items coverer.key coverer.encoder (stores_seen scope.now.stores.now) (view_seen scope.now.view.now) (item_of_entry (recordings_seen scope.now.frame.now.recordings.items) (entry_seen entry))) }
    ensures adds { IfOk result (λ _. AddsOnly (IsItemRun coverer.key coverer.encoder (stores_seen scope.now.stores.now) (view_seen scope.now.view.now) (item_of_entry (recordings_seen scope.now.frame.now.recordings.items) (entry_seen entry))) runs.old.items runs.new.items) }
    ensures lacks { IfOk result (λ done. done ≡ false → LacksProgram (stores_seen scope.now.stores.now) (item_of_entry (recordings_seen scope.now.frame.now.recordings.items) (entry_seen entry))) }
{
    let back = &scope.stores.back.color;
    let item = by_any_key(entry);
    match prepare_item(scope.stores, scope.view, scope.frame, &item, room) {
        Ok(Some(draw)) => {
            push_triangles(
                runs,
                room.triangles(),
                draw.cut,
                coverer,
                back.width,
                back.height,
            )?;
            Ok(true)
        }
        Ok(None) => Ok(false),
        Err(fault) => Err(fault),
    }
}

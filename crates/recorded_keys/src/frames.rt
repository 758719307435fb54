// One frame.
ghost use Rattle.std.specs.Prelude.{◌≡◌, ℕ, Some, map, slice_get, IfOk};
ghost use Rattle.std.specs.List.{AllByRecursion};
ghost use Rattle.gfx_model.specs.Views.{view_count};
ghost use Rattle.scene_model.specs.Scene.{Scene};
ghost use Rattle.scene_model.specs.Fold.{FramePlan, plans};
ghost use Rattle.shared_keys.specs.Lines as lines;
ghost use Rattle.shared_keys.specs.Marks.{shared_seen, AreMarksOf, IsThere};
ghost use Rattle.draw_encoder.specs.Bundles.{items_of};
ghost use Rattle.recorded_keys.specs.Recorded.{marks_of, ArePlanned};

use crate::marking::put_marks;
use draw_encoder::Recording;
use shared_keys::laws::{marks_law, there_law};
use shared_keys::{Mark, SharedView, shared_views};
use std::alloc::{AllocError, Global};
use view_table::ViewTable;

/// The marks of all recorded items, which are there.
fn frame_marks(
    alloc: Global,
    views: &ViewTable,
    recordings: &[Recording],
) -> Result<Vec<Mark>, AllocError>
    ensures { IfOk result (λ marks. AllByRecursion (λ r. AllByRecursion (IsThere (view_count views.now)) (items_of r)) recordings.now
        → marks.items ≡ marks_of views.now recordings.now) }
{
    let mut marks = Vec::new(alloc);
    for recording in recordings {
        put_marks(&mut marks, views, recording)?;
    }
    Ok(marks)
}

/// The marks of all items of a scene's frame that can clash.
///
/// The views are those at the end of the frame's lines, and the recordings are those of the frame's encoders, in any order.
///
/// # Errors
///
/// For want of memory alone.
pub fn recorded_marks(
    alloc: Global,
    views: &ViewTable,
    recordings: &[Recording],
) -> Result<Vec<Mark>, AllocError>
    ensures { IfOk result (λ marks. (s : Scene) (k : ℕ) (p : FramePlan) → slice_get (plans s) k ≡ Some p → views.now ≡ p.views → ArePlanned p recordings.now
        → AreMarksOf p marks.items) }
{
    there_law();
    let marks = frame_marks(alloc, views, recordings)?;
    Ok(marks)
}

/// The views of a scene's frame in which two encoders share a key, ascending, each with the least pair of such encoders.
///
/// The views are those at the end of the frame's lines, and the recordings are those of the frame's encoders, in any order. The items
/// are sorted once, so that the time grows as n log n. `Err` only for want of memory.
pub fn recorded_views(
    alloc: Global,
    views: &ViewTable,
    recordings: &[Recording],
) -> Result<Vec<SharedView>, AllocError>
    ensures { IfOk result (λ found. (s : Scene) (k : ℕ) (p : FramePlan) → slice_get (plans s) k ≡ Some p → views.now ≡ p.views → ArePlanned p recordings.now
        → map shared_seen found.items ≡ lines.shared_views p) }
{
    there_law();
    marks_law();
    let marks = frame_marks(alloc, views, recordings)?;
    let found = shared_views(alloc, marks)?;
    Ok(found)
}

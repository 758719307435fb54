// Clears that may be made before earlier draws.
ghost use Rattle.std.specs.Prelude.{◌≡◌, ◌≤◌, ◌+◌, map, not, IsTrue};
ghost use Rattle.std.specs.List.{AllByRecursion};
ghost use Rattle.gfx_model.specs.Raster.{has_no_sides};
ghost use Rattle.fix_math.specs.Seen.{rect_seen};
ghost use Rattle.pass_laws.specs.Passed.{AreApart, ClearsBefore, ClearsNothing};
ghost use Rattle.view_table.specs.Seen.{clear_seen, view_seen};
ghost use Rattle.view_drawing.specs.Apart.{AreBeside};
ghost use Rattle.view_drawing.specs.Passes.{turn_seen};

use crate::clearing::has_flag;
use crate::view_parts::ViewPart;
use fix_math::Rect;
use view_table::{Clear, View};

/// Whether a view with this rectangle covers that much and not its whole target.
fn has_sides(r: Rect) -> bool
    ensures { result ≡ not (has_no_sides (rect_seen r)) }
{
    if r.w != 0 {
        return true;
    }
    r.h != 0
}

fn ends_before(start: u16, length: u16, other: u16) -> bool
    ensures { IsTrue result → start + length ≤ other }
{
    start as u32 + length as u32 <= other as u32
}

/// Whether one of two rectangles ends before the other begins, in columns or in rows.
fn are_beside(a: Rect, b: Rect) -> bool
    ensures { IsTrue result → AreBeside (rect_seen a) (rect_seen b) }
{
    if ends_before(a.x, a.w, b.x) {
        return true;
    }
    if ends_before(b.x, b.w, a.x) {
        return true;
    }
    if ends_before(a.y, a.h, b.y) {
        return true;
    }
    ends_before(b.y, b.h, a.y)
}

/// Whether two views with these rectangles have no pixel of a target in common. Where it says no, they may have none all the same.
fn are_apart(a: Rect, b: Rect) -> bool
    ensures { IsTrue result → AreApart (rect_seen a) (rect_seen b) }
{
    if !has_sides(a) {
        return false;
    }
    if !has_sides(b) {
        return false;
    }
    are_beside(a, b)
}

/// Whether a clear takes neither colours nor depths nor stencils.
fn clears_nothing(clear: &Clear) -> bool
    ensures { IsTrue result → ClearsNothing (clear_seen clear.now) }
{
    if has_flag(clear, 0) {
        return false;
    }
    if has_flag(clear, 1) {
        return false;
    }
    !has_flag(clear, 2)
}

/// Whether a view has no pixel in common with any of these.
fn all_apart(views: &[ViewPart<'_>], view: &View) -> bool
    ensures { IsTrue result → AllByRecursion (λ t. ClearsBefore t.view (view_seen view.now)) (map turn_seen views.now) }
{
    for one in views {
        if !are_apart(one.view.rect, view.rect) {
            return false;
        }
    }
    true
}

/// Whether the clear of a view may be made before the draws of these.
pub(crate) fn clears_before(views: &[ViewPart<'_>], view: &View) -> bool
    ensures { IsTrue result → AllByRecursion (λ t. ClearsBefore t.view (view_seen view.now)) (map turn_seen views.now) }
{
    if clears_nothing(&view.clear) {
        return true;
    }
    all_apart(views, view)
}

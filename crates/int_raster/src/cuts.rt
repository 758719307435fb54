// Where a draw may paint.
ghost use Rattle.std.specs.Prelude.{◌≡◌, ◌+◌, ℕ, ◌&&◌, nat_le, nat_lt};
ghost use Rattle.gfx_model.specs.Raster.{contains, passes_scissor, view_rect as view_rect_of, has_no_sides as has_no_sides_of};
ghost use Rattle.fix_math.specs.Seen.{rect_seen};
ghost use Rattle.int_raster.specs.Cuts.{CutsDraws};

use fix_math::Rect;

/// A part of a side: where it starts, and how long it is.
#[derive(Clone, Copy)]
struct Part {
    start: u16,
    length: u16,
}

/// The part that two parts share.
fn shared(a: Part, b: Part) -> Part
    ensures { (x : ℕ) → (nat_le result.start x && nat_lt x (result.start + result.length)) ≡ ((nat_le a.start x && nat_lt x (a.start + a.length)) && (nat_le b.start x && nat_lt x (b.start + b.length))) }
{
    let start = a.start.max(b.start);
    let end = (a.start as u32 + a.length as u32).min(b.start as u32 + b.length as u32);
    Part {
        start,
        length: end.saturating_sub(start as u32) as u16,
    }
}

/// The pixels that two rectangles share.
fn intersection(a: Rect, b: Rect) -> Rect
    ensures { (x y : ℕ) → contains (rect_seen result) x y ≡ (contains (rect_seen a) x y && contains (rect_seen b) x y) }
{
    let columns = shared(
        Part {
            start: a.x,
            length: a.w,
        },
        Part {
            start: b.x,
            length: b.w,
        },
    );
    let rows = shared(
        Part {
            start: a.y,
            length: a.h,
        },
        Part {
            start: b.y,
            length: b.h,
        },
    );
    Rect {
        x: columns.start,
        y: rows.start,
        w: columns.length,
        h: rows.length,
    }
}

/// Whether both sides are 0.
fn has_no_sides(rect: Rect) -> bool
    ensures { result ≡ has_no_sides_of (rect_seen rect) }
{
    rect.w == 0 && rect.h == 0
}

/// The pixels of a rectangle that a scissor lets through.
fn cut_by(rect: Rect, scissor: Rect) -> Rect
    ensures { (x y : ℕ) → contains (rect_seen result) x y ≡ (contains (rect_seen rect) x y && passes_scissor (rect_seen scissor) x y) }
{
    if has_no_sides(scissor) {
        return rect;
    }
    intersection(rect, scissor)
}

/// The pixels of a view's rectangle, as it is on the target, that the view's scissor and the draw's let through. A scissor
/// whose sides are both 0 lets all through.
pub fn draw_cut(rect: Rect, view_scissor: Rect, draw_scissor: Rect) -> Rect
    ensures pixels { (x y : ℕ) → contains (rect_seen result) x y ≡ (contains (rect_seen rect) x y && passes_scissor (rect_seen view_scissor) x y && passes_scissor (rect_seen draw_scissor) x y) }
    ensures draws { CutsDraws (rect_seen rect) (rect_seen view_scissor) (rect_seen draw_scissor) (rect_seen result) }
{
    cut_by(cut_by(rect, view_scissor), draw_scissor)
}

/// A view's rectangle on a target of these sides, in pixels: all of it where both sides are 0.
pub fn view_rect(rect: Rect, width: u16, height: u16) -> Rect
    ensures { rect_seen result ≡ view_rect_of (rect_seen rect) width height }
{
    if !has_no_sides(rect) {
        return rect;
    }
    Rect {
        x: 0,
        y: 0,
        w: width,
        h: height,
    }
}

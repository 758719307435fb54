// The rows and columns of a surface that a triangle may change.
ghost use Rattle.std.specs.Prelude.{◌≡◌, ◌≤◌, ◌<◌, ◌+◌, ℕ, length, slice_index_or, min, true, false, ◌&&◌, nat_le, nat_lt};
ghost use Rattle.gfx_model.specs.Raster.{contains, covers};
ghost use Rattle.fix_math.specs.Seen.{rect_seen};
ghost use Rattle.tri_cover.specs.Shown.{setup_seen};
ghost use Rattle.tri_cover.specs.Bounded.{IsSpan};
ghost use Rattle.int_raster.specs.Filled.{AreLimits};
ghost use Rattle.int_raster.specs.Joined.{IsInside};
ghost use Rattle.int_raster.specs.Covered.{CoverRows};

use crate::rows::Rows;
use fix_math::Rect;
use tri_cover::Setup;

/// The end of a side that begins at a place, within a limit.
#[inline(always)]
pub(crate) fn end_within(start: u16, side: u16, limit: u16) -> u16
    ensures { result ≡ min (start + side) limit }
{
    (start as u32 + side as u32).min(limit as u32) as u16
}

/// The rows of a band that a triangle may change are among these, counted from the band's first, and they lie in the cut.
pub(crate) fn drawn_rows(setup: &Setup, cut: &Rect, rows: &Rows) -> (u16, u16)
    ensures all { (x y : ℕ) → y < rows.now.count → contains (rect_seen cut.now) x (rows.now.top + y) ≡ true → covers (setup_seen setup.now).triangle x (rows.now.top + y) ≡ true → (result.0 ≤ y) × (y < result.1) }
    ensures order { result.0 ≤ result.1 }
    ensures within { result.1 ≤ rows.now.count }
    ensures first { (y : ℕ) → result.0 ≤ y → y < result.1 → (cut.now.y ≤ rows.now.top + y) × (rows.now.top + y < cut.now.y + cut.now.h) }
{
    let bottom = rows.top + rows.count;
    let (first, after) = setup.rows(bottom);
    let first = first.max(cut.y).max(rows.top);
    let after = after.min(end_within(cut.y, cut.h, bottom));
    if first < after {
        (first - rows.top, after - rows.top)
    } else {
        (0, 0)
    }
}

/// Whether a triangle may change rows of a band.
pub(crate) fn meets(setup: &Setup, cut: &Rect, rows: &Rows) -> bool
    ensures { (x y : ℕ) → result ≡ false → y < rows.now.count → contains (rect_seen cut.now) x (rows.now.top + y) ≡ true → covers (setup_seen setup.now).triangle x (rows.now.top + y) ≡ true → ⊥ }
{
    let (first, after) = drawn_rows(setup, cut, rows);
    first < after
}

/// The rows of a surface that triangles may cover, from the first up to the second number.
pub(crate) fn covered_rows(triangles: &[Setup]) -> (u16, u16)
    ensures { CoverRows result.0 result.1 (length triangles.now) triangles.now }
{
    let mut top = 65535;
    let mut bottom = 0;
    for setup in triangles {
        let (first, after) = setup.rows(65535);
        top = top.min(first);
        bottom = bottom.max(after);
    }
    (top, bottom)
}

/// The columns of a cut on a surface of a width, from the first up to the second number.
pub(crate) fn drawn_limits(cut: &Rect, width: u16) -> (u16, u16)
    ensures { AreLimits result cut.now width }
{
    (cut.x, end_within(cut.x, cut.w, width))
}

/// The columns of a row of the cut that a triangle changes, from a list of rows' columns.
#[inline(always)]
pub(crate) fn drawn_columns(
    spans: &[(u16, u16)],
    place: u16,
    limits: (u16, u16),
    setup: &Setup,
    cut: &Rect,
    y: u16,
    width: u16,
) -> (u16, u16)
    requires room { place < length spans.now }
    requires limits { AreLimits limits cut.now width }
    requires held { IsSpan (slice_index_or spans.now place (0, 0)) (setup_seen setup.now).triangle limits.0 limits.1 y }
    requires upper { cut.now.y ≤ y }
    requires lower { y < cut.now.y + cut.now.h }
    ensures columns { (x : ℕ) → x < width → (contains (rect_seen cut.now) x y && covers (setup_seen setup.now).triangle x y) ≡ (nat_le result.0 x && nat_lt x result.1) }
    ensures order { result.0 ≤ result.1 }
    ensures within { result.1 ≤ width }
{
    spans[place as usize]
}

/// The columns of a row, from a list of rows' columns.
#[inline(always)]
pub(crate) fn columns_at(spans: &[(u16, u16)], place: u16, width: u16) -> (u16, u16)
    requires room { place < length spans.now }
    requires inside { IsInside (slice_index_or spans.now place (0, 0)) width }
    ensures is { result ≡ slice_index_or spans.now place (0, 0) }
    ensures order { result.0 ≤ result.1 }
    ensures within { result.1 ≤ width }
{
    spans[place as usize]
}

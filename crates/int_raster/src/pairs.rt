// Two triangles of one colour and one depth that lie side by side, as one tile.
ghost use Rattle.std.specs.Prelude.{◌≡◌, ◌≤◌, ◌<◌, ◌+◌, ◌-◌, ◌==◌, ℕ, false, min, max, length, slice_index_or, IsTrue};
ghost use Rattle.gfx_model.specs.Raster.{fragment_at};
ghost use Rattle.gfx_model.specs.World.{painted};
ghost use Rattle.tri_cover.specs.Shown.{setup_seen};
ghost use Rattle.int_raster.specs.Joined.{IsJoined, TouchAll, JoinAll, HoldsJoined, HoldRows};
ghost use Rattle.int_raster.specs.Rules.{IsLevel};
ghost use Rattle.int_raster.specs.Seen.{paint_seen, facing_seen};

use crate::columns::drawn_rows;
use crate::lanes::word_of;
use crate::lists::Prepared;
use crate::opaque::Level;
use crate::painters::{one_color, one_depth};
use crate::painting::stencil_of;
use crate::rows::Rows;
use tri_cover::Setup;

/// Whether the columns of two spans touch.
#[inline(always)]
fn touch(a: (u16, u16), b: (u16, u16)) -> bool
    ensures { IsTrue result → max a.0 b.0 ≤ min a.1 b.1 }
{
    a.0.max(b.0) <= a.1.min(b.1)
}

/// The columns of two spans that touch.
#[inline(always)]
fn joined(a: (u16, u16), b: (u16, u16)) -> (u16, u16)
    requires { max a.0 b.0 ≤ min a.1 b.1 }
    ensures { IsJoined result a b }
{
    (a.0.min(b.0), a.1.max(b.1))
}

/// The columns of a row, from a list of rows' columns.
#[inline(always)]
fn columns_of(list: &[(u16, u16)], at: u16) -> (u16, u16)
    requires { at < length list.now }
    ensures { result ≡ slice_index_or list.now at (0, 0) }
{
    list[at as usize]
}

/// Puts the columns of a row into a list.
#[inline(always)]
fn put_columns(list: &mut [(u16, u16)], at: u16, columns: (u16, u16))
    requires { at < length list.old }
    ensures same { length list.new ≡ length list.old }
    ensures here { slice_index_or list.new at (0, 0) ≡ columns }
    ensures others { (i : ℕ) → (i == at) ≡ false → slice_index_or list.new i (0, 0) ≡ slice_index_or list.old i (0, 0) }
{
    list[at as usize] = columns;
}

/// Whether the columns of rows touch others in each row.
#[inline(always)]
fn all_touch(spans: &[(u16, u16)], others: &[(u16, u16)], count: u16) -> bool
    requires room { count ≤ length spans.now }
    requires other_room { count ≤ length others.now }
    ensures { IsTrue result → TouchAll spans.now others.now count }
{
    let mut all = true;
    for k in 0..count {
        let (a, b) = (columns_of(spans, k), columns_of(others, k));
        all = all & touch(a, b);
    }
    all
}

/// Joins the columns of rows to others that touch them.
#[inline(always)]
fn join(spans: &mut [(u16, u16)], others: &[(u16, u16)], count: u16)
    requires room { count ≤ length spans.old }
    requires other_room { count ≤ length others.now }
    requires touch { TouchAll spans.old others.now count }
    ensures same { length spans.new ≡ length spans.old }
    ensures joined { JoinAll spans.new spans.old others.now count }
{
    for k in 0..count {
        let (a, b) = (columns_of(spans, k), columns_of(others, k));
        put_columns(spans, k, joined(a, b));
    }
}

/// Whether two triangles have one colour.
fn have_one_color(color: [u8; 4], other: &Setup, draw: &Prepared) -> bool
    ensures { IsTrue result → (x y : ℕ) → color ≡ painted (paint_seen draw.now.paint) (fragment_at (setup_seen other.now).triangle x y) }
{
    match one_color(other, &draw.paint) {
        Some(found) => word_of(found) == word_of(color),
        None => false,
    }
}

/// Whether a triangle has this depth alone.
fn has_depth(depth: u32, other: &Setup) -> bool
    ensures { IsTrue result → (x y : ℕ) → depth ≡ (fragment_at (setup_seen other.now).triangle x y).depth }
{
    match one_depth(other) {
        Some(found) => found == depth,
        None => false,
    }
}

/// Whether a triangle has no stencil word.
fn has_no_stencil(setup: &Setup, draw: &Prepared) -> bool
    ensures { IsTrue result → (facing_seen draw.now setup.now).stencil ≡ 0 }
{
    stencil_of(draw, setup).word() == 0
}

/// Whether a triangle has the one colour and the one depth of another of its draw, and no stencil word.
fn is_alike(level: &Level, setup: &Setup, other: &Setup, draw: &Prepared) -> bool
    requires { IsLevel level.now draw.now setup.now }
    ensures { IsTrue result → IsLevel level.now draw.now other.now }
{
    if !has_no_stencil(other, draw) {
        return false;
    }
    has_depth(level.depth, other) && have_one_color(level.color, other, draw)
}

/// Whether a triangle may change just these rows of a band.
fn share_rows(shared: (u16, u16), other: &Setup, draw: &Prepared, rows: &Rows) -> bool
    ensures { IsTrue result → HoldRows shared rows.now draw.now other.now }
{
    let (top, bottom) = drawn_rows(other, &draw.cut, rows);
    if top != shared.0 {
        return false;
    }
    bottom == shared.1
}

/// Joins the columns of rows to those of a triangle where they touch in each row: whether they do.
#[inline(always)]
fn with_columns(
    spans: &mut [(u16, u16)],
    setup: &Setup,
    y: u16,
    count: u16,
    limits: (u16, u16),
) -> bool
    requires room { count ≤ length spans.old }
    requires few { count ≤ 32 }
    requires rows { y + count ≤ 65535 }
    ensures same { length spans.new ≡ length spans.old }
    ensures joined { IsTrue result → HoldsJoined spans.new spans.old (setup_seen setup.now).triangle limits.0 limits.1 y count }
    ensures still { result ≡ false → spans.new ≡ spans.old }
{
    let mut others = [(0, 0); 32];
    setup.spans(&mut others, y, count, limits.0, limits.1);
    if !all_touch(spans, &others, count) {
        return false;
    }
    join(spans, &others, count);
    true
}

/// Joins the columns of a triangle's rows in a band to those of the next one, if there is one and it is of one tile with it: it has
/// its rows, its one colour and its one depth, and their columns touch in each row. Whether that is so.
pub(crate) fn with_next(
    spans: &mut [(u16, u16)],
    shared: (u16, u16),
    limits: (u16, u16),
    level: &Level,
    setup: &Setup,
    next: &Setup,
    more: bool,
    draw: &Prepared,
    rows: &Rows,
) -> bool
    requires room { 32 ≤ length spans.old }
    requires order { shared.0 ≤ shared.1 }
    requires within { shared.1 ≤ rows.now.count }
    requires few { shared.1 ≤ shared.0 + 32 }
    requires level { IsLevel level.now draw.now setup.now }
    ensures same { length spans.new ≡ length spans.old }
    ensures more { IsTrue result → IsTrue more }
    ensures all { IsTrue result → HoldRows shared rows.now draw.now next.now }
    ensures level { IsTrue result → IsLevel level.now draw.now next.now }
    ensures joined { IsTrue result → HoldsJoined spans.new spans.old (setup_seen next.now).triangle limits.0 limits.1 (rows.now.top + shared.0) (shared.1 - shared.0) }
    ensures still { result ≡ false → spans.new ≡ spans.old }
{
    if !more {
        return false;
    }
    if !share_rows(shared, next, draw, rows) {
        return false;
    }
    if !is_alike(level, setup, next, draw) {
        return false;
    }
    with_columns(
        spans,
        next,
        rows.top + shared.0,
        shared.1 - shared.0,
        limits,
    )
}

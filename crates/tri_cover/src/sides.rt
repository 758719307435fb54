// The sides of a triangle, stepped from row to row without divisions, and the columns on their inner side.
ghost use Rattle.std.specs.Prelude.{◌≡◌, ◌≤◌, ◌<◌, ◌^◌, ◌+◌, ℕ, pos, ◌≤ℤ◌, ◌<ℤ◌, unsigned_abs, ◌&&◌, nat_le, nat_lt};
ghost use Rattle.tri_cover.specs.Columns.{is_between};
ghost use Rattle.tri_cover.specs.Seen.{IsNear, is_on_side};
ghost use Rattle.tri_cover.specs.Walked.{IsDivided, IsDivisor, IsSide};

use crate::edges::{Edge, gained_by_row, reach};
use crate::stepping::{Quotient, advanced};

/// An edge in a row: its value at the left end of the row and what it gains per row, both by one divisor.
#[derive(Clone, Copy)]
pub struct Side {
    pub(crate) here: Quotient,
    pub(crate) gain: Quotient,
    pub(crate) divisor: i64,
}

/// The three edges of a triangle in a row.
#[derive(Clone, Copy)]
pub struct Sides {
    pub(crate) ab: Side,
    pub(crate) bc: Side,
    pub(crate) ca: Side,
}

/// How much an edge's value changes from column to column, or 1 where it does not.
fn divisor_of(fall: i64) -> i64
    requires { unsigned_abs fall < 2 ^ 29 }
    ensures divisor { IsDivisor result fall }
    ensures positive { pos 0 <ℤ result }
    ensures near { unsigned_abs result < 2 ^ 60 }
{
    if fall > 0 {
        256 * fall
    } else if fall < 0 {
        256 * -fall
    } else {
        1
    }
}

fn divided(z: i64, n: i64) -> Quotient
    requires z { unsigned_abs z < 2 ^ 62 }
    requires n { pos 0 <ℤ n }
    requires few { unsigned_abs n < 2 ^ 60 }
    ensures { IsDivided result z n }
{
    let whole = z.div_euclid(n);
    Quotient {
        whole,
        rest: z - whole * n,
    }
}

/// An edge in a row, by two divisions.
pub(crate) fn side_of(edge: &Edge, row: u16) -> Side
    requires { IsNear edge.now }
    ensures { IsSide result edge.now row }
{
    let divisor = divisor_of(edge.fall);
    Side {
        here: divided(reach(edge, row), divisor),
        gain: divided(gained_by_row(edge), divisor),
        divisor,
    }
}

/// The side one row on.
#[inline(always)]
pub(crate) fn next_side(side: Side, edge: &Edge, row: u16) -> Side
    requires near { IsNear edge.now }
    requires side { IsSide side edge.now row }
    ensures { IsSide result edge.now (row + 1) }
{
    Side {
        here: advanced(side.here, side.gain, side.divisor),
        gain: side.gain,
        divisor: side.divisor,
    }
}

#[inline(always)]
fn whole_of(side: &Side, edge: &Edge, row: u16) -> i64
    requires near { IsNear edge.now }
    requires side { IsSide side.now edge.now row }
    ensures value { result ≡ side.now.here.whole }
    ensures near { unsigned_abs result < 2 ^ 62 }
{
    side.here.whole
}

/// The columns from first up to after that lie on the inner side of an edge in a row.
#[inline(always)]
pub(crate) fn cut(first: i64, after: i64, side: &Side, edge: &Edge, row: u16) -> (i64, i64)
    requires near { IsNear edge.now }
    requires side { IsSide side.now edge.now row }
    requires first { unsigned_abs first < 2 ^ 62 }
    ensures columns { (x : ℕ) → is_between result.0 result.1 x ≡ (is_between first after x && is_on_side edge.now row x) }
    ensures first { first ≤ℤ result.0 }
    ensures after { result.0 <ℤ result.1 → result.1 ≤ℤ after }
    ensures low { unsigned_abs result.0 < 2 ^ 62 }
{
    let whole = whole_of(side, edge, row);
    if edge.fall > 0 {
        (first, after.min(whole + 1))
    } else if edge.fall < 0 {
        (first.max(-whole), after)
    } else if whole >= 0 {
        (first, after)
    } else {
        (first, first)
    }
}

/// Columns as numbers of columns.
#[inline(always)]
pub(crate) fn ends(first: i64, after: i64, width: u16) -> (u16, u16)
    requires first { pos 0 ≤ℤ first }
    requires after { first <ℤ after → after ≤ℤ pos width }
    ensures columns { (x : ℕ) → (nat_le result.0 x && nat_lt x result.1) ≡ is_between first after x }
    ensures order { result.0 ≤ result.1 }
    ensures within { result.1 ≤ width }
{
    if first < after {
        (first as u16, after as u16)
    } else {
        (0, 0)
    }
}

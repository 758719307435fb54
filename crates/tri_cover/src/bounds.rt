// The ends of a triangle's rows in fixed point, stepped from row to row by one addition for each of its sides.
ghost use Rattle.std.specs.Prelude.{◌≡◌, ◌≤◌, ◌<◌, ◌^◌, ◌+◌, ◌-◌, ◌*◌, ℕ, pos, ◌+ℤ◌, ◌*ℤ◌, ◌≤ℤ◌, unsigned_abs, length, IfSome, IsTrue, ◌&&◌, nat_le, nat_lt, int_le, int_lt, true};
ghost use Rattle.std.specs.Int.{int_div_euclid};
ghost use Rattle.tri_cover.specs.Slope.{IsFloor};
ghost use Rattle.tri_cover.specs.Seen.{IsNear, is_on_side};
ghost use Rattle.tri_cover.specs.Walked.{reached_at};
ghost use Rattle.tri_cover.specs.Bounded.{bound_at, is_not_before, is_not_behind, is_within, is_let, IsTame, AreTame, IsMoved, AreMoved, HoldsCuts};

use crate::edges::{Edge, reach};
use crate::inverses::small_power;
use crate::numbers::floor_by_256;
use crate::quads::short_spans;
use crate::shorts::shorts_of;
use crate::sides::ends;

/// A side as a bound of the columns, in 1/2^28 of a column, and what it gains per row.
#[derive(Clone, Copy)]
pub(crate) struct Bound {
    pub at: i64,
    pub step: i64,
}

/// The bounds of the columns of a row, two to the left and two to the right. A left one is given by its distance to the left.
#[derive(Clone, Copy)]
pub(crate) struct Bounds {
    pub left: Bound,
    pub other_left: Bound,
    pub right: Bound,
    pub other_right: Bound,
}

/// A bound that lets all columns pass.
const FREE: Bound = Bound {
    at: 1 << 62,
    step: 0,
};

/// Whether a bound is the one that lets all columns pass.
#[inline(always)]
pub(crate) fn is_free(bound: &Bound) -> bool
    ensures { IsTrue result → (k x : ℕ) → x < 65536 → (is_not_before (bound_at bound.now k) x ≡ true) × (is_not_behind (bound_at bound.now k) x ≡ true) }
{
    bound.at == 1 << 62 && bound.step == 0
}

/// About 2^62 by n.
#[inline(always)]
fn inverse_of(n: u64) -> u64
    requires { 0 < n }
    ensures low { result * n ≤ 2 ^ 62 }
    ensures high { 2 ^ 62 < result * n + n }
    ensures fits { result ≤ 2 ^ 62 }
{
    small_power(62) / n
}

/// The floor of a product by 2^34.
#[inline(always)]
fn shifted(z: i64, inverse: u64) -> i128
    requires z { unsigned_abs z ≤ 2 ^ 34 }
    requires inverse { inverse ≤ 2 ^ 62 }
    ensures { result ≡ int_div_euclid (z *ℤ pos inverse) (pos (2 ^ 34)) }
{
    z as i128 * inverse as i64 as i128 >> 34
}

/// The same in 64 bits.
#[inline(always)]
fn scaled(z: i64, inverse: u64) -> i64
    requires z { unsigned_abs z ≤ 2 ^ 34 }
    requires inverse { inverse ≤ 2 ^ 62 }
    ensures value { result ≡ int_div_euclid (z *ℤ pos inverse) (pos (2 ^ 34)) }
    ensures near { unsigned_abs result ≤ 2 ^ 62 }
{
    shifted(z, inverse) as i64
}

/// The floor of a product by 2^42.
#[inline(always)]
fn coarse(z: i64, inverse: u64) -> i64
    requires z { unsigned_abs z ≤ 2 ^ 34 }
    requires inverse { inverse ≤ 2 ^ 62 }
    ensures value { result ≡ int_div_euclid (int_div_euclid (z *ℤ pos inverse) (pos (2 ^ 34))) (pos 256) }
    ensures near { unsigned_abs result ≤ 2 ^ 54 }
{
    floor_by_256(scaled(z, inverse))
}

/// A bound at z by n that gains d by n per row, in 1/2^20 of a column, a little high: as much as 32 steps may lose.
#[inline(always)]
fn coarse_bound(z: i64, d: i64, n: u64) -> Bound
    requires z { unsigned_abs z ≤ 2 ^ 33 }
    requires d { unsigned_abs d < 2 ^ 29 }
    requires positive { 0 < n }
    requires small { n ≤ 7936 }
    ensures floors { (k : ℕ) → k ≤ 32 → IsFloor (bound_at result k) (int_div_euclid (z +ℤ d *ℤ pos k) (pos n)) (2 ^ 28) }
    ensures tame { IsTame result }
{
    let inverse = inverse_of(n);
    Bound {
        at: (coarse(z, inverse) + 66) * 256,
        step: coarse(d, inverse) * 256,
    }
}

/// A bound at z by n that gains d by n per row, in 1/2^28 of a column, a little high.
#[inline(always)]
fn fine_bound(z: i64, d: i64, n: u64) -> Bound
    requires z { unsigned_abs z ≤ 2 ^ 33 }
    requires d { unsigned_abs d < 2 ^ 29 }
    requires positive { 0 < n }
    requires small { n ≤ 2 ^ 20 }
    ensures floors { (k : ℕ) → k ≤ 32 → IsFloor (bound_at result k) (int_div_euclid (z +ℤ d *ℤ pos k) (pos n)) (2 ^ 28) }
    ensures tame { IsTame result }
{
    let inverse = inverse_of(n);
    Bound {
        at: scaled(z, inverse) + 66,
        step: scaled(d, inverse),
    }
}

/// A bound at z by n that gains d by n per row, a little high; in 1/2^20 of a column where that is enough.
#[inline(always)]
fn bound_by(z: i64, d: i64, n: u64) -> Bound
    requires z { unsigned_abs z ≤ 2 ^ 33 }
    requires d { unsigned_abs d < 2 ^ 29 }
    requires positive { 0 < n }
    requires small { n ≤ 2 ^ 20 }
    ensures floors { (k : ℕ) → k ≤ 32 → IsFloor (bound_at result k) (int_div_euclid (z +ℤ d *ℤ pos k) (pos n)) (2 ^ 28) }
    ensures tame { IsTame result }
{
    if n <= 7936 {
        coarse_bound(z, d, n)
    } else {
        fine_bound(z, d, n)
    }
}

/// The value of an edge at the left end of a row, by 256.
#[inline(always)]
fn lowered(edge: &Edge, row: u16) -> i64
    requires { IsNear edge.now }
    ensures { result ≡ int_div_euclid (reached_at edge.now row) (pos 256) }
{
    reach(edge, row) >> 8
}

/// Whether a value that gains d per row is nowhere below 0 in so many rows.
#[inline(always)]
fn stays(z: i64, d: i64, count: u16) -> bool
    requires z { unsigned_abs z ≤ 2 ^ 33 }
    requires d { unsigned_abs d < 2 ^ 29 }
    requires few { count ≤ 32 }
    ensures { IsTrue result → (k : ℕ) → k < count → pos 0 ≤ℤ (z +ℤ d *ℤ pos k) }
{
    z >= 0 && z + d * (count as i64 - 1) >= 0
}

/// Puts one bound more to the right, where there is room: whether there is.
#[inline(always)]
fn put_right(bounds: &mut Bounds, bound: Bound) -> bool
    requires tame { AreTame bounds.old }
    requires more { IsTame bound }
    ensures tame { AreTame bounds.new }
    ensures columns { IsTrue result → (k x : ℕ) → x < 65536 → is_let bounds.new k x ≡ (is_let bounds.old k x && is_not_behind (bound_at bound k) x) }
{
    if !is_free(&bounds.other_right) {
        return false;
    }
    bounds.other_right = bounds.right;
    bounds.right = bound;
    true
}

/// Puts one bound more to the left, where there is room: whether there is.
#[inline(always)]
fn put_left(bounds: &mut Bounds, bound: Bound) -> bool
    requires tame { AreTame bounds.old }
    requires more { IsTame bound }
    ensures tame { AreTame bounds.new }
    ensures columns { IsTrue result → (k x : ℕ) → x < 65536 → is_let bounds.new k x ≡ (is_let bounds.old k x && is_not_before (bound_at bound k) x) }
{
    if !is_free(&bounds.other_left) {
        return false;
    }
    bounds.other_left = bounds.left;
    bounds.left = bound;
    true
}

/// Puts an edge as one bound more in so many rows from a row on, where its numbers are not too large and there is room: whether it does.
/// A level edge takes no bound: it must be right in all of them.
#[inline(always)]
pub(crate) fn put_edge(bounds: &mut Bounds, edge: &Edge, row: u16, count: u16) -> bool
    requires near { IsNear edge.now }
    requires few { count ≤ 32 }
    requires tame { AreTame bounds.old }
    ensures tame { AreTame bounds.new }
    ensures columns { IsTrue result → (k x : ℕ) → k < count → x < 65536 → is_let bounds.new k x ≡ (is_let bounds.old k x && is_on_side edge.now (row + k) x) }
{
    let z = lowered(edge, row);
    let n = edge.fall.unsigned_abs();
    if z.unsigned_abs() > 1 << 33 || n > 1 << 20 {
        return false;
    }
    if n == 0 {
        return stays(z, edge.rise, count);
    }
    let bound = bound_by(z, edge.rise, n);
    if edge.fall > 0 {
        put_right(bounds, bound)
    } else {
        put_left(bounds, bound)
    }
}

/// Bounds that let all columns pass.
#[inline(always)]
pub(crate) fn no_bounds() -> Bounds
    ensures tame { AreTame result }
    ensures columns { (k x : ℕ) → x < 65536 → is_let result k x ≡ true }
{
    Bounds {
        left: FREE,
        other_left: FREE,
        right: FREE,
        other_right: FREE,
    }
}

/// The first column that is not before two left ends.
#[inline(always)]
fn left_end(left: i64, other_left: i64) -> i64
    ensures columns { (x : ℕ) → int_le result (pos x) ≡ (is_not_before left x && is_not_before other_left x) }
    ensures near { unsigned_abs result ≤ 2 ^ 36 }
{
    -(left.min(other_left) >> 28)
}

/// The column behind the last that is not behind two right ends.
#[inline(always)]
fn right_end(right: i64, other_right: i64) -> i64
    ensures columns { (x : ℕ) → int_lt (pos x) result ≡ (is_not_behind right x && is_not_behind other_right x) }
    ensures near { unsigned_abs result ≤ 2 ^ 36 }
{
    (right.min(other_right) >> 28) + 1
}

/// The columns from first up to after that lie between two left and two right ends.
#[inline(always)]
fn between(
    left: i64,
    other_left: i64,
    right: i64,
    other_right: i64,
    first: u16,
    after: u16,
) -> (u16, u16)
    ensures columns { (x : ℕ) → (nat_le result.0 x && nat_lt x result.1) ≡ ((nat_le first x && nat_lt x after) && is_within left other_left right other_right x) }
    ensures order { result.0 ≤ result.1 }
    ensures within { result.1 ≤ after }
{
    let from = left_end(left, other_left).max(first as i64);
    let to = right_end(right, other_right).min(after as i64);
    ends(from, to, after)
}

/// A bound one row on.
#[inline(always)]
fn stepped(bound: &Bound, start: &Bound, k: u16) -> Bound
    requires tame { IsTame start.now }
    requires few { k < 32 }
    requires here { IsMoved bound.now start.now k }
    ensures { IsMoved result start.now (k + 1) }
{
    Bound {
        at: bound.at + bound.step,
        step: bound.step,
    }
}

/// Bounds one row on.
#[inline(always)]
fn next_bounds(bounds: &Bounds, start: &Bounds, k: u16) -> Bounds
    requires tame { AreTame start.now }
    requires few { k < 32 }
    requires here { AreMoved bounds.now start.now k }
    ensures { AreMoved result start.now (k + 1) }
{
    Bounds {
        left: stepped(&bounds.left, &start.left, k),
        other_left: stepped(&bounds.other_left, &start.other_left, k),
        right: stepped(&bounds.right, &start.right, k),
        other_right: stepped(&bounds.other_right, &start.other_right, k),
    }
}

/// The columns of so many rows from first up to after that bounds let pass, row by row.
#[inline(always)]
fn stepped_cuts(spans: &mut [(u16, u16)], bounds: &Bounds, count: u16, first: u16, after: u16)
    requires room { count ≤ length spans.old }
    requires few { count ≤ 32 }
    requires tame { AreTame bounds.now }
    ensures same { length spans.new ≡ length spans.old }
    ensures cuts { HoldsCuts spans.new bounds.now first after count }
{
    let start = *bounds;
    let mut here = *bounds;
    for k in 0..count {
        spans[k as usize] = between(
            here.left.at,
            here.other_left.at,
            here.right.at,
            here.other_right.at,
            first,
            after,
        );
        here = next_bounds(&here, &start, k);
    }
}

/// The columns of so many rows from first up to after that bounds let pass.
#[inline(always)]
pub(crate) fn cuts(spans: &mut [(u16, u16)], bounds: &Bounds, count: u16, first: u16, after: u16)
    requires room { count ≤ length spans.old }
    requires few { count ≤ 32 }
    requires tame { AreTame bounds.now }
    ensures same { length spans.new ≡ length spans.old }
    ensures cuts { HoldsCuts spans.new bounds.now first after count }
{
    if after <= 2048 && spans.len() >= 32 {
        if let Some(shorts) = shorts_of(bounds) {
            short_spans(spans, &shorts, count, first, after);
            return;
        }
    }
    stepped_cuts(spans, bounds, count, first, after);
}

// The weights of a triangle's corners, stepped by columns and rows.
ghost use Rattle.std.specs.Prelude.{◌≡◌, ◌≤◌, ◌<◌, ◌^◌, ◌+◌, ◌-◌, ◌*◌, ◌%◌, ◌/◌, true, ℕ, ℤ, pos, ◌+ℤ◌, ◌-ℤ◌, ◌*ℤ◌, unsigned_abs, IfSome, IsSome, IsTrue};
ghost use Rattle.std.specs.Int.{int_rem_euclid};

use crate::inverses::{Inverse, low_bits, power, small_power};
use crate::numbers::{limited, narrow_sum, pair_sum, wide_limited};
use crate::ramps::Ramp;

/// Three numbers, one for each corner.
#[derive(Clone, Copy)]
pub(crate) struct Three {
    pub a: i64,
    pub b: i64,
    pub c: i64,
    pub ghost near_b: { unsigned_abs b < 2 ^ 60 },
    pub ghost near_c: { unsigned_abs c < 2 ^ 60 },
}

/// The weights at a pixel, what they gain per column and per row, and the inverse of their sum. Pixels are at most `most`
/// steps less one away. Where they are narrow, the sums of values by the weights fit 64 bits.
#[derive(Clone, Copy)]
pub struct Steps {
    pub(crate) x: u16,
    pub(crate) y: u16,
    pub(crate) most: u64,
    pub(crate) at: Three,
    pub(crate) right: Three,
    pub(crate) down: Three,
    pub(crate) inverse: Inverse,
    pub(crate) narrow: bool,
    pub ghost few: { most < 2 ^ 18 },
    pub ghost small_at_b: { IsTrue narrow → unsigned_abs at.b < 2 ^ 30 },
    pub ghost small_at_c: { IsTrue narrow → unsigned_abs at.c < 2 ^ 30 },
    pub ghost small_right_b: { IsTrue narrow → unsigned_abs right.b < 2 ^ 30 },
    pub ghost small_right_c: { IsTrue narrow → unsigned_abs right.c < 2 ^ 30 },
    pub ghost small_down_b: { IsTrue narrow → unsigned_abs down.b < 2 ^ 30 },
    pub ghost small_down_c: { IsTrue narrow → unsigned_abs down.c < 2 ^ 30 },
}

/// Whether the weights of the second and the third corner are small.
fn is_narrow(by: &Three) -> bool
    ensures b { IsTrue result → unsigned_abs by.now.b < 2 ^ 30 }
    ensures c { IsTrue result → unsigned_abs by.now.c < 2 ^ 30 }
{
    by.b.unsigned_abs() < 1 << 30 && by.c.unsigned_abs() < 1 << 30
}

/// Whether all weights of the second and the third corner are small.
pub(crate) fn are_narrow(at: &Three, right: &Three, down: &Three) -> bool
    ensures at_b { IsTrue result → unsigned_abs at.now.b < 2 ^ 30 }
    ensures at_c { IsTrue result → unsigned_abs at.now.c < 2 ^ 30 }
    ensures right_b { IsTrue result → unsigned_abs right.now.b < 2 ^ 30 }
    ensures right_c { IsTrue result → unsigned_abs right.now.c < 2 ^ 30 }
    ensures down_b { IsTrue result → unsigned_abs down.now.b < 2 ^ 30 }
    ensures down_c { IsTrue result → unsigned_abs down.now.c < 2 ^ 30 }
{
    is_narrow(at) && is_narrow(right) && is_narrow(down)
}

/// As `sum_within`, by narrow weights.
#[inline(always)]
fn narrow_within(by: &Three, v: i64, w: i64, limit: u64) -> Option<i64>
    requires b { unsigned_abs by.now.b < 2 ^ 30 }
    requires c { unsigned_abs by.now.c < 2 ^ 30 }
    requires v { unsigned_abs v < 2 ^ 32 }
    requires w { unsigned_abs w < 2 ^ 32 }
    ensures value { IfSome result (λ z. z ≡ by.now.b *ℤ v +ℤ by.now.c *ℤ w) }
    ensures near { IfSome result (λ z. unsigned_abs z ≤ limit) }
    ensures some { unsigned_abs (by.now.b *ℤ v +ℤ by.now.c *ℤ w) ≤ limit → IsSome result }
{
    let sum = narrow_sum(by.b, by.c, v, w);
    limited(sum, limit)
}

/// As `sum_within`, by any weights.
#[inline(always)]
fn wide_within(by: &Three, v: i64, w: i64, limit: u64) -> Option<i64>
    requires v { unsigned_abs v < 2 ^ 32 }
    requires w { unsigned_abs w < 2 ^ 32 }
    requires limit { limit ≤ 2 ^ 62 }
    ensures value { IfSome result (λ z. z ≡ by.now.b *ℤ v +ℤ by.now.c *ℤ w) }
    ensures near { IfSome result (λ z. unsigned_abs z ≤ limit) }
    ensures some { unsigned_abs (by.now.b *ℤ v +ℤ by.now.c *ℤ w) ≤ limit → IsSome result }
{
    let sum = pair_sum(by.b, by.c, v, w);
    wide_limited(sum, limit)
}

/// The sum of 0 and two values by their weights; none where it is further from 0 than a limit.
#[inline(always)]
fn sum_within(by: &Three, narrow: bool, v: i64, w: i64, limit: u64) -> Option<i64>
    requires b { IsTrue narrow → unsigned_abs by.now.b < 2 ^ 30 }
    requires c { IsTrue narrow → unsigned_abs by.now.c < 2 ^ 30 }
    requires v { unsigned_abs v < 2 ^ 32 }
    requires w { unsigned_abs w < 2 ^ 32 }
    requires limit { limit ≤ 2 ^ 62 }
    ensures value { IfSome result (λ z. z ≡ by.now.b *ℤ v +ℤ by.now.c *ℤ w) }
    ensures near { IfSome result (λ z. unsigned_abs z ≤ limit) }
    ensures some { unsigned_abs (by.now.b *ℤ v +ℤ by.now.c *ℤ w) ≤ limit → IsSome result }
{
    if narrow {
        narrow_within(by, v, w, limit)
    } else {
        wide_within(by, v, w, limit)
    }
}

/// Whether so many steps are exact.
fn is_fine(most: u64, divisor: u64, bits: u32) -> bool
    requires most { most < 2 ^ 18 }
    requires bits { bits ≤ 62 }
    ensures exact { IsTrue result → 4 * most * divisor ≤ 2 ^ bits }
    ensures fine { 4 * most * divisor ≤ 2 ^ bits → IsTrue result }
{
    4 * most as u128 * divisor as u128 <= small_power(bits) as u128
}

/// The value at column 0 of row 0 of a value whose slopes are given.
fn started(at: u64, right: u64, down: u64, x: u16, y: u16, most: u64) -> u64
    requires { most < 2 ^ 18 }
    ensures { result ≡ (((at + 2 * most) % 2 ^ 64 + 2 ^ 64 - (x * right) % 2 ^ 64) % 2 ^ 64 + 2 ^ 64 - (y * down) % 2 ^ 64) % 2 ^ 64 }
{
    at.wrapping_add(2 * most)
        .wrapping_sub((x as u64).wrapping_mul(right))
        .wrapping_sub((y as u64).wrapping_mul(down))
}

fn is_zero(v: i64) -> bool
    ensures { IsTrue result → v ≡ pos 0 }
{
    v == 0
}

/// The low 64 bits of a value with so many bits of fraction.
fn scaled(u: i64, bits: u32) -> u64
    requires u { unsigned_abs u < 2 ^ 32 }
    requires bits { bits ≤ 62 }
    ensures { pos result ≡ int_rem_euclid (u *ℤ pos (2 ^ bits)) (pos (2 ^ 64)) }
{
    low_bits(u as i128 * power(bits) as i128)
}

/// A ramp raised by a value.
fn raised(ramp: Ramp, u: i64, bits: u32) -> Ramp
    requires u { unsigned_abs u < 2 ^ 32 }
    requires bits { bits ≤ 62 }
    ensures start { (k : ℤ) × (pos result.start ≡ pos ramp.start +ℤ u *ℤ pos (2 ^ bits) +ℤ k *ℤ pos (2 ^ 64)) }
    ensures right { result.right ≡ ramp.right }
    ensures down { result.down ≡ ramp.down }
{
    Ramp {
        start: ramp.start.wrapping_add(scaled(u, bits)),
        right: ramp.right,
        down: ramp.down,
    }
}

/// The ramp with three bits less above its whole part.
fn aligned(ramp: Ramp) -> Ramp
    ensures start { result.start ≡ 8 * ramp.start % 2 ^ 64 }
    ensures right { result.right ≡ 8 * ramp.right % 2 ^ 64 }
    ensures down { result.down ≡ 8 * ramp.down % 2 ^ 64 }
{
    Ramp {
        start: ramp.start.wrapping_mul(8),
        right: ramp.right.wrapping_mul(8),
        down: ramp.down.wrapping_mul(8),
    }
}

impl Steps {
    ghost use Rattle.gfx_model.specs.Vertex.{Triangle};
    ghost use Rattle.gfx_model.specs.Raster.{ScreenVertex, covers, weighted, weighted_number};
    ghost use Rattle.tri_cover.specs.Slope.{IsRamp, IsSamePlace, ramp_at};
    ghost use Rattle.tri_cover.specs.Stepped.{AreSteps, IsNearby, HasRoom};

    /// The mean of 0 and two values, with so many bits of fraction; none where these are too few.
    #[inline(always)]
    fn slopes(&self, v: i64, w: i64, bits: u32) -> Option<Ramp>
        requires v { unsigned_abs v < 2 ^ 32 }
        requires w { unsigned_abs w < 2 ^ 32 }
        requires bits { bits ≤ 62 }
        ensures ramp { IfSome result (λ r. (t : Triangle ScreenVertex) → AreSteps self.now t → (x y : ℕ) → IsNearby self.now x y → IsRamp r t (pos 0) v w (2 ^ bits) x y) }
        ensures some { HasRoom self.now v w bits → IsSome result }
    {
        let dropped = self.inverse.scale - bits;
        if dropped > 62 {
            return None;
        }
        if !is_fine(self.most, self.inverse.divisor, bits) {
            return None;
        }
        let limit = small_power(dropped);
        let at = sum_within(&self.at, self.narrow, v, w, limit)?;
        let right = sum_within(&self.right, self.narrow, v, w, limit)?;
        let down = sum_within(&self.down, self.narrow, v, w, limit)?;
        let at = self.inverse.slope(at, bits);
        let right = self.inverse.slope(right, bits);
        let down = self.inverse.slope(down, bits);
        Some(Ramp {
            start: started(at, right, down, self.x, self.y, self.most),
            right,
            down,
        })
    }

    /// The mean of 0 and two values. Where both are 0 it is 0 everywhere.
    #[inline(always)]
    fn relative(&self, v: i64, w: i64, bits: u32) -> Option<Ramp>
        requires v { unsigned_abs v < 2 ^ 32 }
        requires w { unsigned_abs w < 2 ^ 32 }
        requires bits { bits ≤ 62 }
        ensures ramp { IfSome result (λ r. (t : Triangle ScreenVertex) → AreSteps self.now t → (x y : ℕ) → IsNearby self.now x y → IsRamp r t (pos 0) v w (2 ^ bits) x y) }
        ensures some { HasRoom self.now v w bits → IsSome result }
    {
        if is_zero(v) && is_zero(w) {
            return Some(Ramp {
                start: 0,
                right: 0,
                down: 0,
            });
        }
        let ramp = self.slopes(v, w, bits)?;
        Some(ramp)
    }

    /// The mean of three values, by what the second and the third differ from the first.
    #[inline(always)]
    fn ramp(&self, u: i64, v: i64, w: i64, bits: u32) -> Option<Ramp>
        requires u { unsigned_abs u < 2 ^ 32 }
        requires v { unsigned_abs (v -ℤ u) < 2 ^ 32 }
        requires w { unsigned_abs (w -ℤ u) < 2 ^ 32 }
        requires far_v { unsigned_abs v < 2 ^ 32 }
        requires far_w { unsigned_abs w < 2 ^ 32 }
        requires bits { bits ≤ 62 }
        ensures ramp { IfSome result (λ r. (t : Triangle ScreenVertex) → AreSteps self.now t → (x y : ℕ) → IsNearby self.now x y → IsRamp r t u v w (2 ^ bits) x y) }
        ensures some { HasRoom self.now (v -ℤ u) (w -ℤ u) bits → IsSome result }
    {
        let ramp = self.relative(v - u, w - u, bits)?;
        Some(raised(ramp, u, bits))
    }

    /// The mean of three channels in the upper 8 bits; some where 64 bits are enough.
    #[inline(always)]
    pub fn channel(&self, u: u8, v: u8, w: u8) -> Option<Ramp>
        ensures ramp { IfSome result (λ r. (t : Triangle ScreenVertex) → AreSteps self.now t → (x y : ℕ) → IsNearby self.now x y → covers t x y ≡ true → ramp_at r x y / 2 ^ 56 ≡ weighted_number t x y u v w) }
        ensures some { HasRoom self.now (pos v -ℤ pos u) (pos w -ℤ pos u) 53 → IsSome result }
    {
        Some(aligned(self.ramp(u as i64, v as i64, w as i64, 53)?))
    }

    /// The mean of three depths in the upper 24 bits; some where 64 bits are enough.
    #[inline(always)]
    pub fn depth(&self, u: u32, v: u32, w: u32) -> Option<Ramp>
        requires u { u ≤ 16777215 }
        requires v { v ≤ 16777215 }
        requires w { w ≤ 16777215 }
        ensures ramp { IfSome result (λ r. (t : Triangle ScreenVertex) → AreSteps self.now t → (x y : ℕ) → IsNearby self.now x y → covers t x y ≡ true → ramp_at r x y / 2 ^ 40 ≡ weighted_number t x y u v w) }
        ensures some { HasRoom self.now (pos v -ℤ pos u) (pos w -ℤ pos u) 37 → IsSome result }
    {
        Some(aligned(self.ramp(u as i64, v as i64, w as i64, 37)?))
    }

    /// The mean of three texture positions modulo 65536 in the upper 16 bits; some where 64 bits are enough.
    #[inline(always)]
    pub fn place(&self, u: i32, v: i32, w: i32) -> Option<Ramp>
        ensures ramp { IfSome result (λ r. (t : Triangle ScreenVertex) → AreSteps self.now t → (x y : ℕ) → IsNearby self.now x y → covers t x y ≡ true → IsSamePlace (ramp_at r x y / 2 ^ 48) (weighted t x y u v w)) }
        ensures some { HasRoom self.now (v -ℤ u) (w -ℤ u) 45 → IsSome result }
    {
        Some(aligned(self.ramp(u as i64, v as i64, w as i64, 45)?))
    }
}

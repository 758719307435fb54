// Bounds in 32 bits, for columns below 2,048.
ghost use Rattle.std.specs.Prelude.{◌≡◌, ◌≤◌, ◌<◌, ◌^◌, ℕ, pos, ◌+ℤ◌, ◌*ℤ◌, ◌≤ℤ◌, ◌<ℤ◌, unsigned_abs, IfSome, IsTrue};
ghost use Rattle.std.specs.Int.{int_rem_euclid};
ghost use Rattle.tri_cover.specs.Shortened.{IsShort, AreShort};

use crate::bounds::{Bound, Bounds, is_free};
use crate::numbers::floor_by_256;

/// A side as a bound of the columns, in 1/2^20 of a column and 2,048 columns more than it is, and what it gains per row, around 2^32.
#[derive(Clone, Copy)]
pub(crate) struct Short {
    pub at: u32,
    pub step: u32,
}

/// The bounds of the columns of a row, two to the left and two to the right.
#[derive(Clone, Copy)]
pub(crate) struct Shorts {
    pub left: Short,
    pub other_left: Short,
    pub right: Short,
    pub other_right: Short,
}

/// Whether a number has at most 31 bits besides its sign.
#[inline(always)]
fn is_near(at: i64) -> bool
    ensures { IsTrue result → (pos 0 ≤ℤ (at +ℤ pos (2 ^ 31))) × ((at +ℤ pos (2 ^ 31)) <ℤ pos (2 ^ 32)) }
{
    -0x8000_0000 <= at && at < 0x8000_0000
}

/// Whether a number that gains another per row stays within 31 bits and its sign in 32 rows.
#[inline(always)]
fn stays_near(at: i64, step: i64) -> bool
    requires at { unsigned_abs at ≤ 2 ^ 55 }
    requires step { unsigned_abs step ≤ 2 ^ 55 }
    ensures { IsTrue result → (k : ℕ) → k < 32 → (pos 0 ≤ℤ (at +ℤ step *ℤ pos k +ℤ pos (2 ^ 31))) × ((at +ℤ step *ℤ pos k +ℤ pos (2 ^ 31)) <ℤ pos (2 ^ 32)) }
{
    is_near(at) && is_near(at + step * 31)
}

/// A number near 0 with 2^31 more.
#[inline(always)]
fn raised(at: i64) -> u32
    requires low { pos 0 ≤ℤ (at +ℤ pos (2 ^ 31)) }
    requires high { (at +ℤ pos (2 ^ 31)) <ℤ pos (2 ^ 32) }
    ensures { pos result ≡ at +ℤ pos (2 ^ 31) }
{
    (at + 0x8000_0000) as u32
}

/// The low 32 bits of a number.
#[inline(always)]
fn low_bits(step: i64) -> u32
    ensures { pos result ≡ int_rem_euclid step (pos (2 ^ 32)) }
{
    step.rem_euclid(0x1_0000_0000) as u32
}

/// A bound in 32 bits by its whole numbers of 1/2^20 of a column, where it has no finer parts.
#[inline(always)]
fn whole_short(at: i64, step: i64, bound: &Bound) -> Option<Short>
    requires at { bound.now.at ≡ at *ℤ pos 256 }
    requires step { bound.now.step ≡ step *ℤ pos 256 }
    requires near_at { unsigned_abs at ≤ 2 ^ 55 }
    requires near_step { unsigned_abs step ≤ 2 ^ 55 }
    ensures { IfSome result (λ s. IsShort s bound.now) }
{
    if stays_near(at, step) {
        Some(Short {
            at: raised(at),
            step: low_bits(step),
        })
    } else {
        None
    }
}

/// A bound in 32 bits, where it stays within them in 32 rows and has no finer parts.
#[inline(always)]
fn short_of(bound: &Bound) -> Option<Short>
    ensures { IfSome result (λ s. IsShort s bound.now) }
{
    if is_free(bound) {
        return Some(Short {
            at: 0xffff_ffff,
            step: 0,
        });
    }
    let at = floor_by_256(bound.at);
    let step = floor_by_256(bound.step);
    if at * 256 == bound.at && step * 256 == bound.step {
        whole_short(at, step, bound)
    } else {
        None
    }
}

/// Bounds in 32 bits, where they have no more.
#[inline(always)]
pub(crate) fn shorts_of(bounds: &Bounds) -> Option<Shorts>
    ensures { IfSome result (λ s. AreShort s bounds.now) }
{
    let left = short_of(&bounds.left)?;
    let other_left = short_of(&bounds.other_left)?;
    let right = short_of(&bounds.right)?;
    let other_right = short_of(&bounds.other_right)?;
    Some(Shorts {
        left,
        other_left,
        right,
        other_right,
    })
}

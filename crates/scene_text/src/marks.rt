// Which of 32 bytes are not visible, told by the bits of a number.
ghost use Rattle.std.specs.Prelude.{◌≡◌, ◌≢◌, ◌+◌, ◌<◌, ◌≤◌, ℕ, length};
ghost use Rattle.std.specs.Int.{bit_at};
ghost use Rattle.scene_text.specs.Cuts.{AreMarks};

use std::simd::prelude::*;

/// The marks of the 32 bytes from a place on: bit k is set where byte k is not visible. One comparison finds the bytes below
/// 33 and those above 126, since a difference that would be below 0 wraps.
#[inline(always)]
pub fn marks_from(bytes: &[u8], from: usize) -> u64
    requires { from + 32 ≤ length bytes.now }
    ensures { AreMarks bytes.now from result }
{
    let lanes = u8x32::from_slice(&bytes[from..]);
    (lanes - u8x32::splat(33))
        .simd_ge(u8x32::splat(94))
        .to_bitmask()
}

/// The place of the lowest mark.
#[inline(always)]
pub fn lowest(marks: u64) -> usize
    requires { marks ≢ 0 }
    ensures bound { result < 64 }
    ensures set { bit_at marks result ≡ 1 }
    ensures below { (k : ℕ) → k < result → bit_at marks k ≡ 0 }
{
    marks.trailing_zeros() as usize
}

/// The marks without one of them.
#[inline(always)]
pub fn without(marks: u64, bit: usize) -> u64
    requires bound { bit < 64 }
    requires set { bit_at marks bit ≡ 1 }
    ensures smaller { result < marks }
    ensures cleared { bit_at result bit ≡ 0 }
    ensures kept { (k : ℕ) → k < 64 → k ≢ bit → bit_at result k ≡ bit_at marks k }
    ensures no_more { (k : ℕ) → bit_at result k ≡ 1 → bit_at marks k ≡ 1 }
{
    marks & !(1 << bit)
}

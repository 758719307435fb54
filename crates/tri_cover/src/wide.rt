// Slopes in 128 bits, by divisions.
ghost use Rattle.std.specs.Prelude.{◌≡◌, ◌≤◌, ◌<◌, ◌^◌, ◌+◌, ◌*◌, ◌%◌, ◌/◌, ℕ, ℤ, pos};
ghost use Rattle.std.specs.Int.{int_div_euclid, int_rem_euclid};
ghost use Rattle.tri_cover.specs.Widened.{IsWideSlope};

use crate::ramps::{Ramp, WideRamp};

/// A part of a quotient, and the rest that is left.
#[derive(Clone, Copy)]
struct Part {
    whole: u64,
    rest: u64,
}

/// The low 24 bits of the floor of a quotient.
fn whole_bits(z: i128, n: u64) -> u32
    requires { 0 < n }
    ensures value { pos result ≡ int_rem_euclid (int_div_euclid z (pos n)) (pos (2 ^ 24)) }
    ensures small { result < 2 ^ 24 }
{
    z.div_euclid(n as i128).rem_euclid(1 << 24) as u32
}

fn rest_part(z: i128, n: u64) -> u64
    requires { 0 < n }
    ensures value { pos result ≡ int_rem_euclid z (pos n) }
    ensures below { result < n }
{
    z.rem_euclid(n as i128) as u64
}

fn scaled_rest(rest: u64, scale: u64) -> u128
    ensures { result ≡ rest * scale }
{
    rest as u128 * scale as u128
}

/// A rest times a scale, divided again.
fn next_part(rest: u64, scale: u64, n: u64) -> Part
    requires below { rest < n }
    ensures is { rest * scale ≡ result.whole * n + result.rest }
    ensures below { result.rest < n }
    ensures small { result.whole ≤ scale }
{
    let z = scaled_rest(rest, scale);
    Part {
        whole: (z / n as u128) as u64,
        rest: (z % n as u128) as u64,
    }
}

/// The three parts of a slope: 24 bits, 60 bits and 44 bits.
fn joined(whole: u32, high: u64, low: u64) -> u128
    requires whole { whole < 2 ^ 24 }
    requires high { high ≤ 2 ^ 60 }
    requires low { low ≤ 2 ^ 44 }
    ensures { result ≡ (whole * 2 ^ 104 + high * 2 ^ 44 + low) % 2 ^ 128 }
{
    ((whole as u128) << 104)
        .wrapping_add((high as u128) << 44)
        .wrapping_add(low as u128)
}

/// The low 128 bits of z by n, times 2^104.
pub(crate) fn wide_slope(z: i128, n: u64) -> u128
    requires { 0 < n }
    ensures { IsWideSlope z result n }
{
    let whole = whole_bits(z, n);
    let high = next_part(rest_part(z, n), 1 << 60, n);
    let low = next_part(high.rest, 1 << 44, n);
    joined(whole, high.whole, low.whole)
}

/// A start from which 2^17 steps less one lose less than a whole.
pub(crate) fn wide_start(slope: u128) -> u128
    ensures { result ≡ (slope + 2 ^ 18) % 2 ^ 128 }
{
    slope.wrapping_add(1 << 18)
}

/// A number shifted to the upper half of 128 bits.
fn upper(n: u64) -> u128
    ensures { result ≡ n * 2 ^ 64 }
{
    (n as u128) << 64
}

/// A number shifted by 56 bits.
fn raised_by_56(n: u64) -> u128
    ensures { result ≡ n * 2 ^ 56 }
{
    (n as u128) << 56
}

impl Ramp {
    ghost use Rattle.tri_cover.specs.Slope.{ramp_at, IsSamePlace};
    ghost use Rattle.tri_cover.specs.Widened.{wide_whole};

    /// The ramp of a depth, in 128 bits.
    pub fn wide_depth(&self) -> WideRamp
        ensures { (x y : ℕ) → wide_whole result x y ≡ ramp_at self.now x y / 2 ^ 40 }
    {
        WideRamp {
            start: upper(self.start),
            right: upper(self.right),
            down: upper(self.down),
        }
    }

    /// The ramp of a texture position, in 128 bits.
    pub fn wide_place(&self) -> WideRamp
        ensures { (x y : ℕ) (v : ℤ) → IsSamePlace (ramp_at self.now x y / 2 ^ 48) v → IsSamePlace (wide_whole result x y) v }
    {
        WideRamp {
            start: raised_by_56(self.start),
            right: raised_by_56(self.right),
            down: raised_by_56(self.down),
        }
    }
}

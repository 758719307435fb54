// Means of three values by the weights of a triangle's corners.
ghost use Rattle.std.specs.Prelude.{◌≡◌, ◌≤◌, ◌<◌, ◌^◌, ℤ, pos, ◌+ℤ◌, ◌*ℤ◌, ◌≤ℤ◌, ◌<ℤ◌, unsigned_abs};
ghost use Rattle.std.specs.Int.{int_div_euclid};
ghost use Rattle.gfx_model.specs.Number.{at_least_zero};

use crate::numbers::{floor_of, weighted};

/// The weights of the three corners at a covered pixel, and their sum.
#[derive(Clone, Copy)]
pub(crate) struct Weights {
    pub a: i64,
    pub b: i64,
    pub c: i64,
    pub sum: i64,
    ghost low: { (pos 0 ≤ℤ a) × (pos 0 ≤ℤ b) × (pos 0 ≤ℤ c) },
    ghost near: { (unsigned_abs a < 2 ^ 60) × (unsigned_abs b < 2 ^ 60) × (unsigned_abs c < 2 ^ 60) },
    ghost whole: { sum ≡ a +ℤ b +ℤ c },
    ghost positive: { pos 0 <ℤ sum },
}

/// The floor of the weighted mean of three values.
pub(crate) fn mean(by: &Weights, u: i64, v: i64, w: i64) -> i64
    requires u { unsigned_abs u < 2 ^ 32 }
    requires v { unsigned_abs v < 2 ^ 32 }
    requires w { unsigned_abs w < 2 ^ 32 }
    ensures value { result ≡ int_div_euclid (by.now.a *ℤ u +ℤ by.now.b *ℤ v +ℤ by.now.c *ℤ w) by.now.sum }
    ensures low { (l : ℤ) → l ≤ℤ u → l ≤ℤ v → l ≤ℤ w → l ≤ℤ result }
    ensures high { (l : ℤ) → u ≤ℤ l → v ≤ℤ l → w ≤ℤ l → result ≤ℤ l }
{
    floor_of(weighted(by.a, by.b, by.c, u, v, w), by.sum)
}

pub(crate) fn mean_depth(by: &Weights, u: u32, v: u32, w: u32) -> u32
    requires u { u ≤ 16777215 }
    requires v { v ≤ 16777215 }
    requires w { w ≤ 16777215 }
    ensures deep { result ≤ 16777215 }
    ensures value { result ≡ at_least_zero (int_div_euclid (by.now.a *ℤ pos u +ℤ by.now.b *ℤ pos v +ℤ by.now.c *ℤ pos w) by.now.sum) }
{
    mean(by, u as i64, v as i64, w as i64) as u32
}

pub(crate) fn mean_channel(by: &Weights, u: u8, v: u8, w: u8) -> u8
    ensures { result ≡ at_least_zero (int_div_euclid (by.now.a *ℤ pos u +ℤ by.now.b *ℤ pos v +ℤ by.now.c *ℤ pos w) by.now.sum) }
{
    mean(by, u as i64, v as i64, w as i64) as u8
}

pub(crate) fn mean_place(by: &Weights, u: i32, v: i32, w: i32) -> i32
    ensures { result ≡ int_div_euclid (by.now.a *ℤ u +ℤ by.now.b *ℤ v +ℤ by.now.c *ℤ w) by.now.sum }
{
    mean(by, u as i64, v as i64, w as i64) as i32
}

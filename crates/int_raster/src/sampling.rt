// Texels at positions within one unit, without a division.
ghost use Rattle.std.specs.Prelude.{◌≡◌, ◌≤◌, ◌<◌, ◌+◌, ◌*◌, ◌/◌, ◌%◌, ◌^◌, ℕ, pos, [], length, slice_index, slice_index_or};
ghost use Rattle.gfx_model.specs.Raster.{sample};
ghost use Rattle.fix_math.specs.Seen.{texels_seen};
ghost use Rattle.int_raster.specs.Sampled.{sampler_seen, AreSides};
ghost use Rattle.int_raster.specs.Tiled.{word_bytes};

use crate::lanes::{joined, upper_parts, word_of};
use crate::samplers::{Sampler, Sides};
use fix_math::Texels;
use std::simd::prelude::*;

/// What samples a texture.
pub(crate) fn sampler_of(texels: &Texels) -> Sampler<'_>
    ensures { sampler_seen result ≡ texels_seen texels.now }
{
    Sampler {
        width: texels.width as u32,
        height: texels.height as u32,
        texels: texels.texels.as_slice(),
    }
}

/// The column or the row, of `n`, at a position of 1/65536 within one unit.
#[inline(always)]
fn place_of(u: u32, n: u32) -> u32
    requires unit { u < 65536 }
    requires some { 1 ≤ n }
    requires few { n ≤ 2048 }
    ensures place { result ≡ u * n / 65536 }
    ensures within { result < n }
{
    u * n / 65536
}

/// The texel at a position within one unit: what `Texels::sample` answers there.
#[inline(always)]
pub(crate) fn texel_at(sampler: &Sampler, u: u32, v: u32) -> [u8; 4]
    requires u { u < 65536 }
    requires v { v < 65536 }
    ensures { result ≡ sample (sampler_seen sampler.now) (pos u) (pos v) }
{
    let x = place_of(u, sampler.width);
    let y = place_of(v, sampler.height);
    sampler.texels[(y * sampler.width + x) as usize]
}

/// The sides of a sampler's texture, in lanes. They have twelve bits, which lets a compiler take shorter products.
pub(crate) fn sides_of(sampler: &Sampler) -> Sides
    ensures { AreSides result sampler.now }
{
    let (width, height) = (sampler.width & 0xfff, sampler.height & 0xfff);
    let (w, h) = (width as u16, height as u16);
    Sides {
        both: u16x8::from_array([w, h, w, h, w, h, w, h]),
        width: u32x4::splat(width),
    }
}

/// The columns and the rows at positions of 1/65536 within one unit, of these sides.
#[inline(always)]
pub(crate) fn places_of(at: u16x8, sides: u16x8) -> u16x8
    ensures { (j : ℕ) → j < 8 → slice_index result j ≡ slice_index at j * slice_index sides j / 2 ^ 16 }
{
    ((at.cast::<u32>() * sides.cast::<u32>()) >> u32x8::splat(16)).cast::<u16>()
}

/// The numbers of the texels in columns, the lower halves of the words, and rows, the upper ones.
#[inline(always)]
fn numbers_at(places: u32x4, width: u32x4) -> u32x4
    ensures { (j : ℕ) → j < 4 → slice_index result j ≡ (slice_index places j / 2 ^ 16 * slice_index width j + slice_index places j % 2 ^ 16) % 2 ^ 32 }
{
    (places >> u32x4::splat(16)) * width + (places & u32x4::splat(0xffff))
}

/// The texels of these numbers, as words.
#[inline(always)]
fn four_texels(texels: &[[u8; 4]], numbers: u32x4) -> u32x4
    requires { (j : ℕ) → j < 4 → slice_index numbers j < length texels.now }
    ensures { (j : ℕ) → j < 4 → word_bytes (slice_index result j) ≡ slice_index_or texels.now (slice_index numbers j) [] }
{
    let numbers = numbers.to_array();
    u32x4::from_array([
        word_of(texels[numbers[0] as usize]),
        word_of(texels[numbers[1] as usize]),
        word_of(texels[numbers[2] as usize]),
        word_of(texels[numbers[3] as usize]),
    ])
}

/// The texels, as words, at four positions of 1/65536 within one unit: of each the column's and the row's are the upper halves of two words.
#[inline(always)]
pub(crate) fn texels_at(sampler: &Sampler, sides: &Sides, front: u32x4, back: u32x4) -> u32x4
    requires { AreSides sides.now sampler.now }
    ensures front { (j : ℕ) → j < 2 → word_bytes (slice_index result j) ≡ sample (sampler_seen sampler.now) (pos (slice_index front (2 * j) / 2 ^ 16)) (pos (slice_index front (2 * j + 1) / 2 ^ 16)) }
    ensures back { (j : ℕ) → j < 2 → word_bytes (slice_index result (2 + j)) ≡ sample (sampler_seen sampler.now) (pos (slice_index back (2 * j) / 2 ^ 16)) (pos (slice_index back (2 * j + 1) / 2 ^ 16)) }
{
    let at = upper_parts(front, back);
    let places = joined(places_of(at, sides.both));
    four_texels(sampler.texels, numbers_at(places, sides.width))
}

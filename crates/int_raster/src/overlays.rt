// Four colours that are laid over others or multiplied: two channels of each in lanes of 16 bits.
ghost use Rattle.std.specs.Prelude.{◌≡◌, ◌≤◌, ◌<◌, ◌+◌, ◌*◌, ◌/◌, ◌%◌, ℕ, [], ◌∷◌, slice_index};
ghost use Rattle.gfx_model.specs.Number.{byte_product, zip_with};
ghost use Rattle.pixel_ops.specs.Blended.{over_by, over_byte};
ghost use Rattle.int_raster.specs.Tiled.{word_bytes};

use crate::lanes::{joined, parts_of};
use crate::sampling::places_of;
use std::simd::prelude::*;

/// The lower bytes of eight halves: red and blue of four colours.
#[inline(always)]
fn even_parts(parts: u16x8) -> u16x8
    ensures byte { (j : ℕ) → j < 8 → slice_index result j ≡ slice_index parts j % 256 }
    ensures few { (j : ℕ) → j < 8 → slice_index result j < 256 }
{
    parts & u16x8::splat(255)
}

/// The upper bytes of eight halves: green and alpha of four colours.
#[inline(always)]
fn odd_parts(parts: u16x8) -> u16x8
    ensures byte { (j : ℕ) → j < 8 → slice_index result j ≡ slice_index parts j / 256 }
    ensures few { (j : ℕ) → j < 8 → slice_index result j < 256 }
{
    parts >> u16x8::splat(8)
}

/// The alphas of four colours, each for two channels.
#[inline(always)]
fn alphas_of(odd: u16x8) -> u16x8
    requires { (j : ℕ) → j < 8 → slice_index odd j < 256 }
    ensures lower { (j : ℕ) → j < 4 → slice_index result (2 * j) ≡ slice_index odd (2 * j + 1) }
    ensures upper { (j : ℕ) → j < 4 → slice_index result (2 * j + 1) ≡ slice_index odd (2 * j + 1) }
    ensures few { (j : ℕ) → j < 8 → slice_index result j < 256 }
{
    odd.swizzle([1, 1, 3, 3, 5, 5, 7, 7])
}

/// The products of bytes as shares of 255, rounded to the nearest.
#[inline(always)]
fn shares_of(a: u16x8, b: u16x8) -> u16x8
    requires a { (j : ℕ) → j < 8 → slice_index a j < 256 }
    requires b { (j : ℕ) → j < 8 → slice_index b j < 256 }
    ensures product { (j : ℕ) → j < 8 → slice_index result j ≡ byte_product (slice_index a j) (slice_index b j) }
    ensures few { (j : ℕ) → j < 8 → slice_index result j < 256 }
{
    places_of(a * b + u16x8::splat(128), u16x8::splat(257))
}

/// Bytes by alphas, over stored ones by what is left.
#[inline(always)]
fn over_parts(new: u16x8, old: u16x8, alphas: u16x8) -> u16x8
    requires new { (j : ℕ) → j < 8 → slice_index new j < 256 }
    requires old { (j : ℕ) → j < 8 → slice_index old j < 256 }
    requires alphas { (j : ℕ) → j < 8 → slice_index alphas j < 256 }
    ensures over { (j : ℕ) → j < 8 → slice_index result j ≡ over_byte (slice_index new j) (slice_index old j) (slice_index alphas j) }
    ensures few { (j : ℕ) → j < 8 → slice_index result j < 256 }
{
    let left = u16x8::splat(255) - alphas;
    shares_of(new, alphas) + shares_of(old, left)
}

/// The words of four colours of these channels.
#[inline(always)]
fn colors_of(even: u16x8, odd: u16x8) -> u32x4
    requires even { (j : ℕ) → j < 8 → slice_index even j < 256 }
    requires odd { (j : ℕ) → j < 8 → slice_index odd j < 256 }
    ensures { (j : ℕ) → j < 4 → word_bytes (slice_index result j) ≡ slice_index even (2 * j) ∷ slice_index odd (2 * j) ∷ slice_index even (2 * j + 1) ∷ slice_index odd (2 * j + 1) ∷ [] }
{
    joined(even + (odd << u16x8::splat(8)))
}

/// Four colours by their alphas over stored ones by what is left, all as words.
#[inline(always)]
pub(crate) fn four_over(new: u32x4, old: u32x4) -> u32x4
    ensures { (j : ℕ) → j < 4 → word_bytes (slice_index result j) ≡ over_by (word_bytes (slice_index new j)) (word_bytes (slice_index old j)) }
{
    let (new, old) = (parts_of(new), parts_of(old));
    let high = odd_parts(new);
    let alphas = alphas_of(high);
    let even = over_parts(even_parts(new), even_parts(old), alphas);
    let odd = over_parts(high, odd_parts(old), alphas);
    colors_of(even, odd)
}

/// The products of four colours with four others, channel by channel, all as words.
#[inline(always)]
pub(crate) fn four_products(a: u32x4, b: u32x4) -> u32x4
    ensures { (j : ℕ) → j < 4 → word_bytes (slice_index result j) ≡ zip_with byte_product (word_bytes (slice_index a j)) (word_bytes (slice_index b j)) }
{
    let (a, b) = (parts_of(a), parts_of(b));
    let even = shares_of(even_parts(a), even_parts(b));
    let odd = shares_of(odd_parts(a), odd_parts(b));
    colors_of(even, odd)
}

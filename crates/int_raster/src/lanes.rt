// Four texels at a time, as words.
ghost use Rattle.std.specs.Prelude.{◌≡◌, ◌≤◌, ◌<◌, ◌+◌, ◌*◌, ◌/◌, ◌%◌, ◌^◌, ℕ, [], ◌∷◌, length, slice_index, slice_index_or, false, ◌&&◌, nat_le, nat_lt, max, if◌then◌else◌};
ghost use Rattle.gfx_model.specs.Number.{u32_at};
ghost use Rattle.int_raster.specs.Tiled.{word_bytes, deep_word, is_among, deep_of, is_within};

use crate::reaches::Reach;
use std::simd::prelude::*;

/// The word of a texel, its lowest byte first.
#[inline(always)]
pub(crate) fn word_of(texel: [u8; 4]) -> u32
    ensures word { result ≡ u32_at texel 0 }
    ensures bytes { word_bytes result ≡ texel }
    ensures few { u32_at texel 0 < 2 ^ 32 }
{
    u32::from_le_bytes(texel)
}

/// The texel of a word.
#[inline(always)]
pub(crate) fn texel_of(word: u32) -> [u8; 4]
    ensures word { u32_at result 0 ≡ word }
    ensures bytes { result ≡ word_bytes word }
{
    word.to_le_bytes()
}

/// The words of four texels from a place on.
#[inline(always)]
pub(crate) fn words_of(texels: &[[u8; 4]], at: usize) -> u32x4
    requires { at + 4 ≤ length texels.now }
    ensures words { (j : ℕ) → j < 4 → slice_index result j ≡ u32_at (slice_index_or texels.now (at + j) []) 0 }
    ensures bytes { (j : ℕ) → j < 4 → word_bytes (slice_index result j) ≡ slice_index_or texels.now (at + j) [] }
    ensures few { (j : ℕ) → j < 4 → u32_at (slice_index_or texels.now (at + j) []) 0 < 2 ^ 32 }
{
    u32x4::from_array([
        word_of(texels[at]),
        word_of(texels[at + 1]),
        word_of(texels[at + 2]),
        word_of(texels[at + 3]),
    ])
}

/// Puts the texels of four words from a place on.
#[inline(always)]
pub(crate) fn put_words(texels: &mut [[u8; 4]], at: usize, words: u32x4)
    requires { at + 4 ≤ length texels.old }
    ensures many { length texels.new ≡ length texels.old }
    ensures words { (j : ℕ) → j < 4 → u32_at (slice_index_or texels.new (at + j) []) 0 ≡ slice_index words j }
    ensures bytes { (j : ℕ) → j < 4 → slice_index_or texels.new (at + j) [] ≡ word_bytes (slice_index words j) }
    ensures others { (i : ℕ) → (nat_le at i && nat_lt i (at + 4)) ≡ false → slice_index_or texels.new i [] ≡ slice_index_or texels.old i [] }
{
    let words = words.to_array();
    let (a, b, c, d) = (
        texel_of(words[0]),
        texel_of(words[1]),
        texel_of(words[2]),
        texel_of(words[3]),
    );
    texels[at] = a;
    texels[at + 1] = b;
    texels[at + 2] = c;
    texels[at + 3] = d;
}

/// Four numbers from a place on.
#[inline(always)]
pub(crate) fn numbers_of(numbers: &[u32], at: usize) -> u32x4
    requires { at + 4 ≤ length numbers.now }
    ensures { (j : ℕ) → j < 4 → slice_index result j ≡ slice_index_or numbers.now (at + j) 0 }
{
    u32x4::from_array([
        numbers[at],
        numbers[at + 1],
        numbers[at + 2],
        numbers[at + 3],
    ])
}

/// Some bits of words, with a number that comes to them.
#[inline(always)]
pub(crate) fn with_depth(words: u32x4, bits: u32, depth: u32) -> u32x4
    ensures { (j : ℕ) → j < 4 → slice_index result j ≡ deep_word bits depth (slice_index words j) }
{
    (words & u32x4::splat(bits)) + u32x4::splat(depth)
}

/// The new words in the first lanes whose depth is the least or one of so many more, and the old ones in the others.
#[inline(always)]
pub(crate) fn kept(old: u32x4, new: u32x4, words: u32x4, least: u32, more: u32, left: u32) -> u32x4
    requires low { least ≤ 16777216 }
    requires few { more ≤ 16777215 }
    ensures { (j : ℕ) → j < 4 → slice_index result j ≡ (if nat_lt j left && is_among least more (slice_index words j % 2 ^ 24) then slice_index new j else slice_index old j) }
{
    let inside = u32x4::splat(left).simd_gt(u32x4::from_array([0, 1, 2, 3]));
    let behind = (words & u32x4::splat(0xff_ffff)) - u32x4::splat(least);
    let on = inside & behind.simd_le(u32x4::splat(more));
    on.select(new, old)
}

/// The new words in the first lanes, and the old ones in the others.
#[inline(always)]
pub(crate) fn first_kept(old: u32x4, new: u32x4, left: u32) -> u32x4
    ensures { (j : ℕ) → j < 4 → slice_index result j ≡ (if nat_lt j left then slice_index new j else slice_index old j) }
{
    let lanes = u32x4::from_array([0, 1, 2, 3]);
    lanes.simd_lt(u32x4::splat(left)).select(new, old)
}

/// The new words in the first lanes whose stored depths are within reach of new depths, and the old ones in the others.
#[inline(always)]
pub(crate) fn kept_within(
    old: u32x4,
    new: u32x4,
    words: u32x4,
    depths: u32x4,
    reach: &Reach,
    left: u32,
) -> u32x4
    ensures { (j : ℕ) → j < 4 → slice_index result j ≡ (if nat_lt j left && is_within reach.now.least reach.now.more (slice_index depths j) (slice_index words j % 2 ^ 24) then slice_index new j else slice_index old j) }
{
    let lanes = u32x4::from_array([0, 1, 2, 3]);
    let inside = lanes.simd_lt(u32x4::splat(left));
    let behind = (words & u32x4::splat(0xff_ffff)) - depths - u32x4::splat(reach.least);
    let on = inside & behind.simd_le(u32x4::splat(reach.more));
    on.select(new, old)
}

/// The bits of words that stay, with those of new depths that come to them.
#[inline(always)]
pub(crate) fn with_depths(words: u32x4, depths: u32x4, reach: &Reach) -> u32x4
    ensures { (j : ℕ) → j < 4 → slice_index result j ≡ deep_of reach.now.bits reach.now.taken (slice_index depths j) (slice_index words j) }
{
    (words & u32x4::splat(reach.bits)) + (depths & u32x4::splat(reach.taken))
}

/// Puts four numbers from a place on.
#[inline(always)]
pub(crate) fn put_numbers(numbers: &mut [u32], at: usize, four: u32x4)
    requires { at + 4 ≤ length numbers.old }
    ensures many { length numbers.new ≡ length numbers.old }
    ensures put { (j : ℕ) → j < 4 → slice_index numbers.new (at + j) ≡ slice_index four j }
    ensures others { (i : ℕ) → (nat_le at i && nat_lt i (at + 4)) ≡ false → slice_index numbers.new i ≡ slice_index numbers.old i }
{
    let four = four.to_array();
    numbers[at] = four[0];
    numbers[at + 1] = four[1];
    numbers[at + 2] = four[2];
    numbers[at + 3] = four[3];
}

/// The halves of two values of ramps, of each the lower one first.
#[inline(always)]
pub(crate) fn halves_of(two: u64x2) -> u32x4
    ensures lower { (j : ℕ) → j < 2 → slice_index result (2 * j) ≡ slice_index two j % 2 ^ 32 }
    ensures upper { (j : ℕ) → j < 2 → slice_index result (2 * j + 1) ≡ slice_index two j / 2 ^ 32 }
{
    u32x4::from_le_bytes(two.to_le_bytes())
}

/// The upper halves of four values of ramps.
#[inline(always)]
pub(crate) fn upper_halves(a: u64x2, b: u64x2) -> u32x4
    ensures front { (j : ℕ) → j < 2 → slice_index result j ≡ slice_index a j / 2 ^ 32 }
    ensures back { (j : ℕ) → j < 2 → slice_index result (2 + j) ≡ slice_index b j / 2 ^ 32 }
{
    let (a, b) = (halves_of(a), halves_of(b));
    a.shuffle(b, [1, 3, 5, 7])
}

/// Two values of ramps, each a step on.
#[inline(always)]
pub(crate) fn stepped_on(at: u64x2, by: u64x2) -> u64x2
    ensures { (j : ℕ) → j < 2 → slice_index result j ≡ (slice_index at j + slice_index by j) % 2 ^ 64 }
{
    at + by
}

/// The larger ones of two, lane by lane.
#[inline(always)]
pub(crate) fn larger(a: u32x4, b: u32x4) -> u32x4
    ensures { (j : ℕ) → j < 4 → slice_index result j ≡ max (slice_index a j) (slice_index b j) }
{
    a.simd_max(b)
}

/// The halves of four words, of each the lower one first.
#[inline(always)]
pub(crate) fn parts_of(four: u32x4) -> u16x8
    ensures lower { (j : ℕ) → j < 4 → slice_index result (2 * j) ≡ slice_index four j % 2 ^ 16 }
    ensures upper { (j : ℕ) → j < 4 → slice_index result (2 * j + 1) ≡ slice_index four j / 2 ^ 16 }
{
    u16x8::from_le_bytes(four.to_le_bytes())
}

/// The upper halves of eight words.
#[inline(always)]
pub(crate) fn upper_parts(a: u32x4, b: u32x4) -> u16x8
    ensures front { (j : ℕ) → j < 4 → slice_index result j ≡ slice_index a j / 2 ^ 16 }
    ensures back { (j : ℕ) → j < 4 → slice_index result (4 + j) ≡ slice_index b j / 2 ^ 16 }
{
    let (a, b) = (parts_of(a), parts_of(b));
    a.shuffle(b, [1, 3, 5, 7, 9, 11, 13, 15])
}

/// The words of eight halves, of each the lower one first.
#[inline(always)]
pub(crate) fn joined(eight: u16x8) -> u32x4
    ensures { (j : ℕ) → j < 4 → slice_index result j ≡ slice_index eight (2 * j) + 2 ^ 16 * slice_index eight (2 * j + 1) }
{
    u32x4::from_le_bytes(eight.to_le_bytes())
}

/// The larger ones of two halves of words, lane by lane.
#[inline(always)]
pub(crate) fn larger_parts(a: u16x8, b: u16x8) -> u16x8
    ensures { (j : ℕ) → j < 8 → slice_index result j ≡ max (slice_index a j) (slice_index b j) }
{
    a.simd_max(b)
}

/// The lower halves of eight words.
#[inline(always)]
pub(crate) fn lower_halves(a: u32x4, b: u32x4) -> u16x8
    ensures front { (j : ℕ) → j < 4 → slice_index result j ≡ slice_index a j % 2 ^ 16 }
    ensures back { (j : ℕ) → j < 4 → slice_index result (4 + j) ≡ slice_index b j % 2 ^ 16 }
{
    let (a, b) = (parts_of(a), parts_of(b));
    a.shuffle(b, [0, 2, 4, 6, 8, 10, 12, 14])
}

/// The words of four texels, of which each lane has a byte.
#[inline(always)]
pub(crate) fn lowest_bytes(a: u16x8, b: u16x8) -> u32x4
    ensures front { (j : ℕ) → j < 2 → word_bytes (slice_index result j) ≡ slice_index a (4 * j) % 256 ∷ slice_index a (4 * j + 1) % 256 ∷ slice_index a (4 * j + 2) % 256 ∷ slice_index a (4 * j + 3) % 256 ∷ [] }
    ensures back { (j : ℕ) → j < 2 → word_bytes (slice_index result (2 + j)) ≡ slice_index b (4 * j) % 256 ∷ slice_index b (4 * j + 1) % 256 ∷ slice_index b (4 * j + 2) % 256 ∷ slice_index b (4 * j + 3) % 256 ∷ [] }
{
    let bytes = a.to_le_bytes().shuffle(
        b.to_le_bytes(),
        [0, 2, 4, 6, 8, 10, 12, 14, 16, 18, 20, 22, 24, 26, 28, 30],
    );
    u32x4::from_le_bytes(bytes)
}

// The colours of a piece of a row, by a painter, and its depths, by a ramp. What is borrowed may change with each entry that is
// stored, as far as a compiler can tell; so each loop copies it first. Four columns at a time where the list has room for them, else one.
ghost use Rattle.std.specs.Prelude.{◌≡◌, ◌≤◌, ◌<◌, ◌+◌, ◌-◌, ◌*◌, ◌/◌, ◌%◌, ◌^◌, ℕ, pos, [], ◌∷◌, length, slice_index, slice_index_or, IsTrue};
ghost use Rattle.gfx_model.specs.Number.{zip_with, byte_product};
ghost use Rattle.gfx_model.specs.Raster.{sample};
ghost use Rattle.fix_math.specs.Seen.{texels_seen};
ghost use Rattle.tri_cover.specs.Widened.{wide_whole};
ghost use Rattle.int_raster.specs.Sampled.{sampler_seen};
ghost use Rattle.int_raster.specs.Tinted.{IsTint, IsTintGain};
ghost use Rattle.int_raster.specs.Tiled.{word_bytes};
ghost use Rattle.int_raster.specs.Painted.{place_at, shade_at, painter_color, HoldsPiece, HoldsDepths, AreDepths};

use crate::lanes::{
    halves_of, larger, larger_parts, lower_halves, lowest_bytes, parts_of, put_numbers, put_words,
    stepped_on, upper_halves, words_of,
};
use crate::overlays::four_products;
use crate::painters::{Painter, Place, Shade, packed, value_at, wide_value_at};
use crate::samplers::Sampler;
use crate::sampling::{sampler_of, sides_of, texel_at, texels_at};
use crate::spans::Span;
use fix_math::Texels;
use std::simd::prelude::*;
use tri_cover::WideRamp;

/// The position within one unit of a value of a texture position's ramp.
#[inline(always)]
fn unit_part(value: u128) -> u32
    ensures part { result ≡ value / 2 ^ 104 % 65536 }
    ensures unit { result < 65536 }
{
    (value >> 104) as u32 % 65536
}

/// The values of the four channels' ramps at a pixel: red and green, blue and alpha.
#[derive(Clone, Copy)]
pub(crate) struct Tint {
    front: u64x2,
    back: u64x2,
}

/// The channels' values at a pixel.
pub(crate) fn tint_at(shade: &Shade, x: u16, y: u16) -> Tint
    ensures { IsTint result shade.now x y }
{
    let (red, green) = (value_at(&shade.red, x, y), value_at(&shade.green, x, y));
    let (blue, alpha) = (value_at(&shade.blue, x, y), value_at(&shade.alpha, x, y));
    Tint {
        front: u64x2::from_array([red, green]),
        back: u64x2::from_array([blue, alpha]),
    }
}

/// What the channels' values gain in a column.
#[inline(always)]
pub(crate) fn tint_gain(shade: &Shade) -> Tint
    ensures { IsTintGain result shade.now }
{
    Tint {
        front: u64x2::from_array([shade.red.right, shade.green.right]),
        back: u64x2::from_array([shade.blue.right, shade.alpha.right]),
    }
}

/// The channels' values one column on.
#[inline(always)]
fn tint_on(at: Tint, by: Tint) -> Tint
    ensures { (s : Shade) (x y : ℕ) → IsTint at s x y → IsTintGain by s → IsTint result s (x + 1) y }
{
    Tint {
        front: stepped_on(at.front, by.front),
        back: stepped_on(at.back, by.back),
    }
}

/// The four channels of a pixel.
#[inline(always)]
fn channels_of(at: Tint) -> u32x4
    ensures { (s : Shade) (x y : ℕ) → IsTint at s x y → slice_index result 0 ∷ slice_index result 1 ∷ slice_index result 2 ∷ slice_index result 3 ∷ [] ≡ shade_at s x y }
{
    upper_halves(at.front, at.back) >> u32x4::splat(24)
}

/// The colours of four pixels side by side, as words.
#[inline(always)]
fn four_shades(a: Tint, b: Tint, c: Tint, d: Tint) -> u32x4
    ensures { (s : Shade) (x y : ℕ) → IsTint a s x y → IsTint b s (x + 1) y → IsTint c s (x + 2) y → IsTint d s (x + 3) y → (j : ℕ) → j < 4 → word_bytes (slice_index result j) ≡ shade_at s (x + j) y }
{
    let front = lower_halves(channels_of(a), channels_of(b));
    let back = lower_halves(channels_of(c), channels_of(d));
    lowest_bytes(front, back)
}

/// The colours of a pixel and the three behind it, as words, and the channels' values behind these.
#[inline(always)]
pub(crate) fn shades_on(at: Tint, by: Tint) -> (u32x4, Tint)
    ensures colors { (s : Shade) (x y j : ℕ) → IsTint at s x y → IsTintGain by s → j < 4 → word_bytes (slice_index result.0 j) ≡ shade_at s (x + j) y }
    ensures next { (s : Shade) (x y : ℕ) → IsTint at s x y → IsTintGain by s → IsTint result.1 s (x + 4) y }
{
    let b = tint_on(at, by);
    let c = tint_on(b, by);
    let d = tint_on(c, by);
    (four_shades(at, b, c, d), tint_on(d, by))
}

/// The vertices' colours, four columns at a time: whether the list has room for the last four.
fn shades_by_four(shade: &Shade, piece: &Span, colors: &mut [[u8; 4]]) -> bool
    ensures { IsTrue result → HoldsPiece colors.new (λ x. shade_at shade.now x piece.now.y) piece.now.first piece.now.after }
{
    let (shade, piece) = (*shade, *piece);
    let fours = ((piece.after - piece.first) as usize + 3) / 4;
    if colors.len() < 4 * fours {
        return false;
    }
    let by = tint_gain(&shade);
    let mut at = tint_at(&shade, piece.first, piece.y);
    for i in 0..fours {
        let (four, next) = shades_on(at, by);
        put_words(colors, 4 * i, four);
        at = next;
    }
    true
}

/// The vertices' colours.
fn shade_piece(shade: &Shade, piece: &Span, colors: &mut [[u8; 4]])
    requires room { piece.now.after ≤ piece.now.first + length colors.old }
    ensures { HoldsPiece colors.new (λ x. shade_at shade.now x piece.now.y) piece.now.first piece.now.after }
{
    if shades_by_four(shade, piece, colors) {
        return;
    }
    let (shade, piece) = (*shade, *piece);
    let mut red = value_at(&shade.red, piece.first, piece.y);
    let mut green = value_at(&shade.green, piece.first, piece.y);
    let mut blue = value_at(&shade.blue, piece.first, piece.y);
    let mut alpha = value_at(&shade.alpha, piece.first, piece.y);
    for x in piece.first..piece.after {
        let color = [
            (red >> 56) as u8,
            (green >> 56) as u8,
            (blue >> 56) as u8,
            (alpha >> 56) as u8,
        ];
        colors[(x - piece.first) as usize] = packed(color);
        red = red.wrapping_add(shade.red.right);
        green = green.wrapping_add(shade.green.right);
        blue = blue.wrapping_add(shade.blue.right);
        alpha = alpha.wrapping_add(shade.alpha.right);
    }
}

/// The bits of a texture position that are stepped: its 16 bits within one unit, and 48 behind the point.
#[inline(always)]
pub(crate) fn middle_bits(value: u128) -> u64
    ensures { result ≡ value / 2 ^ 56 % 2 ^ 64 }
{
    ((value >> 56) % (1 << 64)) as u64
}

/// Whether the first 16 bits behind the point have room in all texture positions, of which these words have the largest ones by turns.
#[inline(always)]
fn have_room(most: u16x8) -> bool
    ensures { IsTrue result → (j : ℕ) → j < 4 → slice_index most (2 * j) < 65535 }
{
    let most = most.to_array();
    most[0].max(most[2]).max(most[4].max(most[6])) < 0xffff
}

/// The texels at the texture positions by their middle bits alone, four columns at a time: whether they are right. In so many columns
/// the lowest bits carry no more than one a column to the middle ones, so a position is right where there is room for that behind the point.
fn texels_by_four(sampler: &Sampler, at: &Place, piece: &Span, colors: &mut [[u8; 4]]) -> bool
    ensures { IsTrue result → HoldsPiece colors.new (λ x. sample (sampler_seen sampler.now) (pos (place_at at.now.u x piece.now.y)) (pos (place_at at.now.v x piece.now.y))) piece.now.first piece.now.after }
{
    let (sampler, at, piece) = (*sampler, *at, *piece);
    let fours = ((piece.after - piece.first) as usize + 3) / 4;
    if colors.len() < 4 * fours {
        return false;
    }
    let sides = sides_of(&sampler);
    let by = u64x2::from_array([middle_bits(at.u.right), middle_bits(at.v.right)]);
    let mut a = u64x2::from_array([
        middle_bits(wide_value_at(&at.u, piece.first, piece.y)),
        middle_bits(wide_value_at(&at.v, piece.first, piece.y)),
    ]);
    let mut most = u16x8::splat(0);
    for i in 0..fours {
        let b = stepped_on(a, by);
        let c = stepped_on(b, by);
        let d = stepped_on(c, by);
        let (front, back) = (upper_halves(a, b), upper_halves(c, d));
        most = larger_parts(most, larger_parts(parts_of(front), parts_of(back)));
        put_words(colors, 4 * i, texels_at(&sampler, &sides, front, back));
        a = stepped_on(d, by);
    }
    have_room(most)
}

/// The texels at the texture positions.
fn texture_piece(texels: &Texels, at: &Place, piece: &Span, colors: &mut [[u8; 4]])
    requires room { piece.now.after ≤ piece.now.first + length colors.old }
    ensures { HoldsPiece colors.new (λ x. sample (texels_seen texels.now) (pos (place_at at.now.u x piece.now.y)) (pos (place_at at.now.v x piece.now.y))) piece.now.first piece.now.after }
{
    let (at, piece) = (*at, *piece);
    let sampler = sampler_of(texels);
    if texels_by_four(&sampler, &at, &piece, colors) {
        return;
    }
    let mut u = wide_value_at(&at.u, piece.first, piece.y);
    let mut v = wide_value_at(&at.v, piece.first, piece.y);
    for x in piece.first..piece.after {
        let column = unit_part(u);
        let row = unit_part(v);
        colors[(x - piece.first) as usize] = texel_at(&sampler, column, row);
        u = u.wrapping_add(at.u.right);
        v = v.wrapping_add(at.v.right);
    }
}

/// The products of a list's colours and of the vertices', four columns at a time.
fn tint_by_four(shade: &Shade, piece: &Span, colors: &mut [[u8; 4]])
    requires room { piece.now.after ≤ piece.now.first + length colors.old }
    requires whole { length colors.old % 4 ≡ 0 }
    ensures { (x : ℕ) → piece.now.first ≤ x → x < piece.now.after → slice_index_or colors.new (x - piece.now.first) [] ≡ zip_with byte_product (slice_index_or colors.old (x - piece.now.first) []) (shade_at shade.now x piece.now.y) }
{
    let (shade, piece) = (*shade, *piece);
    let fours = ((piece.after - piece.first) as usize + 3) / 4;
    let by = tint_gain(&shade);
    let mut at = tint_at(&shade, piece.first, piece.y);
    for i in 0..fours {
        let (shades, next) = shades_on(at, by);
        put_words(
            colors,
            4 * i,
            four_products(words_of(colors, 4 * i), shades),
        );
        at = next;
    }
}

/// The products of the texels at the texture positions and of the vertices' colours.
fn product_piece(texels: &Texels, at: &Place, shade: &Shade, piece: &Span, colors: &mut [[u8; 4]])
    requires room { piece.now.after ≤ piece.now.first + length colors.old }
    requires whole { length colors.old % 4 ≡ 0 }
    ensures { HoldsPiece colors.new (λ x. zip_with byte_product (sample (texels_seen texels.now) (pos (place_at at.now.u x piece.now.y)) (pos (place_at at.now.v x piece.now.y))) (shade_at shade.now x piece.now.y)) piece.now.first piece.now.after }
{
    texture_piece(texels, at, piece, colors);
    tint_by_four(shade, piece, colors);
}

/// One colour.
fn solid_piece(color: [u8; 4], piece: &Span, colors: &mut [[u8; 4]])
    requires room { piece.now.after ≤ piece.now.first + length colors.old }
    ensures { HoldsPiece colors.new (λ x. color) piece.now.first piece.now.after }
{
    let piece = *piece;
    for x in piece.first..piece.after {
        colors[(x - piece.first) as usize] = color;
    }
}

/// The colours of a painter.
pub(crate) fn paint_piece(painter: &Painter, piece: &Span, colors: &mut [[u8; 4]])
    requires room { piece.now.after ≤ piece.now.first + length colors.old }
    requires whole { length colors.old % 4 ≡ 0 }
    ensures { HoldsPiece colors.new (λ x. painter_color painter.now x piece.now.y) piece.now.first piece.now.after }
{
    match painter {
        Painter::Solid(color) => solid_piece(*color, piece, colors),
        Painter::Vertex(shade) => shade_piece(shade, piece, colors),
        Painter::Texture(texels, at) => texture_piece(texels, at, piece, colors),
        Painter::TexColor(texels, at, shade) => product_piece(texels, at, shade, piece, colors),
    }
}

/// The upper half of a number.
#[inline(always)]
fn upper_half(n: u128) -> u64
    ensures { result ≡ n / 2 ^ 64 }
{
    (n >> 64) as u64
}

/// The lower half of a number.
#[inline(always)]
fn lower_half(n: u128) -> u64
    ensures { result ≡ n % 2 ^ 64 }
{
    (n % (1 << 64)) as u64
}

/// The sum of two numbers of 128 bits by their halves. A compiler makes of it one addition a column, and of a sum in 128 bits
/// one for each of several columns side by side, which takes longer.
#[inline(always)]
fn sum_of_halves(high: u64, low: u64, by_high: u64, by_low: u64) -> (u64, u64)
    ensures sum { result.0 * 2 ^ 64 + result.1 ≡ (high * 2 ^ 64 + low + (by_high * 2 ^ 64 + by_low)) % 2 ^ 128 }
    ensures small { result.1 < 2 ^ 64 }
{
    let sum = low.wrapping_add(by_low);
    let carry = if sum < low { 1 } else { 0 };
    (high.wrapping_add(by_high).wrapping_add(carry), sum)
}

/// The depths of four values that have 24 bits before the point.
#[inline(always)]
pub(crate) fn four_depths(front: u64x2, back: u64x2) -> u32x4
    ensures front { (j : ℕ) → j < 2 → slice_index result j ≡ slice_index front j / 2 ^ 40 }
    ensures back { (j : ℕ) → j < 2 → slice_index result (2 + j) ≡ slice_index back j / 2 ^ 40 }
{
    upper_halves(front, back) >> u32x4::splat(8)
}

/// The depths of a ramp by the upper halves of its values alone, four columns at a time: whether they are right. In so many columns
/// the lower halves carry no more than one a column to the upper ones, so a depth is right where its fraction has room for that.
fn depths_by_four(first: u64, by: u64, count: u16, depths: &mut [u32]) -> bool
    ensures { IsTrue result → (start right k : ℕ) → start / 2 ^ 64 ≡ first → right / 2 ^ 64 ≡ by → k < count → slice_index depths.new k ≡ (start + k * right) % 2 ^ 128 / 2 ^ 104 }
{
    let fours = (count as usize + 3) / 4;
    if depths.len() < 4 * fours {
        return false;
    }
    let step = u64x2::splat(by.wrapping_mul(4));
    let mut front = u64x2::from_array([first, first.wrapping_add(by)]);
    let mut back = stepped_on(front, u64x2::splat(by.wrapping_mul(2)));
    let mut most = u32x4::splat(0);
    for i in 0..fours {
        put_numbers(depths, 4 * i, four_depths(front, back));
        most = larger(most, larger(halves_of(front), halves_of(back)));
        front = stepped_on(front, step);
        back = stepped_on(back, step);
    }
    let most = most.to_array();
    most[0].max(most[2]) < 0xffff_0000
}

/// The depths of a ramp.
pub(crate) fn depth_piece(ramp: &WideRamp, piece: &Span, depths: &mut [u32])
    requires room { piece.now.after ≤ piece.now.first + length depths.old }
    ensures depths { HoldsDepths depths.new (λ x. wide_whole ramp.now x piece.now.y) piece.now.first piece.now.after }
    ensures few { AreDepths depths.new piece.now.first piece.now.after }
{
    let (ramp, piece) = (*ramp, *piece);
    let start = wide_value_at(&ramp, piece.first, piece.y);
    let (mut high, mut low) = (upper_half(start), lower_half(start));
    let (by_high, by_low) = (upper_half(ramp.right), lower_half(ramp.right));
    if depths_by_four(high, by_high, piece.after - piece.first, depths) {
        return;
    }
    for x in piece.first..piece.after {
        depths[(x - piece.first) as usize] = (high >> 40) as u32;
        (high, low) = sum_of_halves(high, low, by_high, by_low);
    }
}

// Textures that are stored as they are, in the row itself, four columns at a time. The texture's positions gain no lower bits in a column, so
// those that are stepped are right in each.
ghost use Rattle.std.specs.Prelude.{◌≡◌, ◌≤◌, ◌<◌, ◌+◌, ◌*◌, ◌%◌, ◌^◌, ℕ, pos, length, slice_index, IsTrue};
ghost use Rattle.gfx_model.specs.Number.{map_from};
ghost use Rattle.gfx_model.specs.Raster.{fragment_at, sample};
ghost use Rattle.gfx_model.specs.World.{painted};
ghost use Rattle.fix_math.specs.Seen.{texels_seen};
ghost use Rattle.tri_cover.specs.Shown.{setup_seen};
ghost use Rattle.int_raster.specs.Places.{spanned, in_row};
ghost use Rattle.int_raster.specs.Painted.{place_at, IsOpaque};
ghost use Rattle.int_raster.specs.Placed.{AreBits, AreBitsGained, IsExact};
ghost use Rattle.int_raster.specs.Sampled.{sampler_seen, AreSides};
ghost use Rattle.int_raster.specs.Seen.{color_seen, paint_seen};
ghost use Rattle.int_raster.specs.Tiled.{word_bytes};

use crate::fours::store_colors;
use crate::lanes::{stepped_on, upper_halves};
use crate::lists::Prepared;
use crate::painters::{Place, wide_value_at};
use crate::pieces::middle_bits;
use crate::samplers::{Sampler, Sides};
use crate::sampling::{sampler_of, sides_of, texels_at};
use crate::spans::Span;
use crate::stores::Opaque;
use fix_math::Texels;
use std::simd::prelude::*;
use tri_cover::Setup;

/// The bits that are stepped of the two positions at a pixel.
fn bits_at(at: &Place, x: u16, y: u16) -> u64x2
    ensures { AreBits result at.now x y }
{
    u64x2::from_array([
        middle_bits(wide_value_at(&at.u, x, y)),
        middle_bits(wide_value_at(&at.v, x, y)),
    ])
}

/// What these gain in a column.
fn bits_gained(at: &Place) -> u64x2
    ensures { AreBitsGained result at.now }
{
    u64x2::from_array([middle_bits(at.u.right), middle_bits(at.v.right)])
}

/// Whether the positions gain no lower bits in a column.
fn is_exact(at: &Place) -> bool
    ensures { IsTrue result → IsExact at.now }
{
    at.u.right % (1 << 56) == 0 && at.v.right % (1 << 56) == 0
}

/// Whether a span can be stored four columns at a time: there are three places behind it, and the positions gain no lower bits.
pub(crate) fn goes_by_four(colors: &[[u8; 4]], span: &Span, at: &Place) -> bool
    requires { span.now.start + span.now.after ≤ length colors.now }
    ensures room { IsTrue result → span.now.start + span.now.after + 3 ≤ length colors.now }
    ensures exact { IsTrue result → IsExact at.now }
{
    colors.len() - (span.start + span.after as usize) >= 3 && is_exact(at)
}

/// The bits one column on.
#[inline(always)]
fn bits_on(at: u64x2, by: u64x2) -> u64x2
    ensures { (p : Place) (x y : ℕ) → AreBits at p x y → AreBitsGained by p → IsExact p → AreBits result p (x + 1) y }
{
    stepped_on(at, by)
}

/// The texels of a pixel and the three behind it, as words, and the bits behind these.
#[inline(always)]
fn texels_on(sampler: &Sampler, sides: &Sides, at: u64x2, by: u64x2) -> (u32x4, u64x2)
    requires { AreSides sides.now sampler.now }
    ensures texels { (p : Place) (x y j : ℕ) → AreBits at p x y → AreBitsGained by p → IsExact p → j < 4 → word_bytes (slice_index result.0 j) ≡ sample (sampler_seen sampler.now) (pos (place_at p.u (x + j) y)) (pos (place_at p.v (x + j) y)) }
    ensures next { (p : Place) (x y : ℕ) → AreBits at p x y → AreBitsGained by p → IsExact p → AreBits result.1 p (x + 4) y }
{
    let b = bits_on(at, by);
    let c = bits_on(b, by);
    let d = bits_on(c, by);
    let four = texels_at(sampler, sides, upper_halves(at, b), upper_halves(c, d));
    (four, bits_on(d, by))
}

/// Stores the texels at the positions in a span, behind which there are three more places.
pub(crate) fn texture_by_four(
    colors: &mut [[u8; 4]],
    span: &Span,
    texels: &Texels,
    at: &Place,
    setup: &Setup,
    draw: &Prepared,
)
    requires inside { span.now.start + span.now.after + 3 ≤ length colors.old }
    requires exact { IsExact at.now }
    requires opaque { IsOpaque draw.now.state }
    requires paints { (x : ℕ) → span.now.first ≤ x → x < span.now.after → sample (texels_seen texels.now) (pos (place_at at.now.u x span.now.y)) (pos (place_at at.now.v x span.now.y)) ≡ painted (paint_seen draw.now.paint) (fragment_at (setup_seen setup.now).triangle x span.now.y) }
    ensures { colors.new ≡ map_from (spanned (in_row span.now.start span.now.y (color_seen draw.now setup.now)) (span.now.start + span.now.first) (span.now.start + span.now.after)) 0 colors.old }
{
    let sampler = sampler_of(texels);
    let sides = sides_of(&sampler);
    let by = bits_gained(at);
    let mut bits = bits_at(at, span.first, span.y);
    let after = span.after as u32;
    let mut x = span.first as u32;
    while x < after {
        let (four, next) = texels_on(&sampler, &sides, bits, by);
        store_colors(colors, span.start + x as usize, after - x, four, &Opaque);
        bits = next;
        x += 4;
    }
}

// Spans of a surface with depth whose depths have 64 bits, stored in windows of four pixels as they are painted: one colour, or the
// vertices' colours. The last window runs past the span and keeps what is there, so three more places have to stand behind it.
ghost use Rattle.std.specs.Prelude.{◌≡◌, ◌≤◌, ◌<◌, ◌+◌, ◌*◌, ◌%◌, ◌^◌, ℕ, List, length, slice_index};
ghost use Rattle.gfx_model.specs.Number.{map_from};
ghost use Rattle.gfx_model.specs.Raster.{fragment_at};
ghost use Rattle.gfx_model.specs.Vertex.{Color};
ghost use Rattle.gfx_model.specs.World.{painted};
ghost use Rattle.tri_cover.specs.Shown.{setup_seen};
ghost use Rattle.int_raster.specs.Places.{deep_pixels, spanned, in_row};
ghost use Rattle.int_raster.specs.Painted.{depth_at, shade_at, HasSpanDepths};
ghost use Rattle.int_raster.specs.Rules.{IsPlain, IsReach};
ghost use Rattle.int_raster.specs.Seen.{paint_seen, step_seen};
ghost use Rattle.int_raster.specs.Tiled.{word_bytes};
ghost use Rattle.int_raster.specs.Deepened.{IsDeep};

use crate::fours::{Four, store_four};
use crate::lanes::{stepped_on, word_of};
use crate::lists::Prepared;
use crate::opaque::Rule;
use crate::painters::{Shade, value_at};
use crate::pieces::{four_depths, shades_on, tint_at, tint_gain};
use crate::reaches::{Reach, reach_of};
use crate::spans::Span;
use crate::stores::Opaque;
use std::simd::prelude::*;
use tri_cover::{Ramp, Setup};

/// The values of a depth's ramp at four pixels side by side.
#[derive(Clone, Copy)]
struct Deep {
    front: u64x2,
    back: u64x2,
}

/// The values of a ramp at a pixel and the three behind it.
fn deep_at(ramp: &Ramp, x: u16, y: u16) -> Deep
    ensures { IsDeep result ramp.now x y }
{
    let a = value_at(ramp, x, y);
    let b = a.wrapping_add(ramp.right);
    let c = b.wrapping_add(ramp.right);
    let d = c.wrapping_add(ramp.right);
    Deep {
        front: u64x2::from_array([a, b]),
        back: u64x2::from_array([c, d]),
    }
}

/// The values four columns on, by what the ramp gains in these.
#[inline(always)]
fn deep_on(at: Deep, by: u64x2) -> Deep
    ensures { (r : Ramp) (x y : ℕ) → IsDeep at r x y → ((j : ℕ) → j < 2 → slice_index by j ≡ r.right * 4 % 2 ^ 64) → IsDeep result r (x + 4) y }
{
    Deep {
        front: stepped_on(at.front, by),
        back: stepped_on(at.back, by),
    }
}

/// The depths of four pixels.
#[inline(always)]
fn depths_of(at: Deep) -> u32x4
    ensures { (r : Ramp) (x y j : ℕ) → IsDeep at r x y → j < 4 → slice_index result j ≡ depth_at r (x + j) y }
{
    four_depths(at.front, at.back)
}

/// One colour in each lane.
fn four_of(color: [u8; 4]) -> u32x4
    ensures { (j : ℕ) → j < 4 → word_bytes (slice_index result j) ≡ color }
{
    u32x4::splat(word_of(color))
}

/// Stores four fragments from a column of a span on where their depths pass, but for those past its end.
#[inline(always)]
fn store_window(
    colors: &mut [[u8; 4]],
    depths: &mut [[u8; 4]],
    span: &Span,
    x: u32,
    four: &Four,
    reach: &Reach,
    setup: &Setup,
    draw: &Prepared,
)
    requires inside { span.now.start + span.now.after + 3 ≤ length colors.old }
    requires same { length depths.old ≡ length colors.old }
    requires low { span.now.first ≤ x }
    requires high { x < span.now.after }
    requires paints { (j : ℕ) → j < 4 → x + j < span.now.after → word_bytes (slice_index four.now.colors j) ≡ painted (paint_seen draw.now.paint) (fragment_at (setup_seen setup.now).triangle (x + j) span.now.y) }
    requires depths { (j : ℕ) → j < 4 → x + j < span.now.after → slice_index four.now.depths j ≡ (fragment_at (setup_seen setup.now).triangle (x + j) span.now.y).depth }
    requires few { (j : ℕ) → j < 4 → slice_index four.now.depths j ≤ 16777215 }
    ensures many { (length colors.new ≡ length colors.old) × (length depths.new ≡ length depths.old) }
    ensures more { (rule : Rule) (olds deeps : List Color) → IsPlain rule draw.now setup.now → IsReach reach.now rule
        → deep_pixels colors.old depths.old ≡ map_from (spanned (spanned (in_row span.now.start span.now.y (step_seen draw.now setup.now)) 0 (span.now.start + span.now.after)) (span.now.start + span.now.first) (span.now.start + x)) 0 (deep_pixels olds deeps)
        → deep_pixels colors.new depths.new ≡ map_from (spanned (spanned (in_row span.now.start span.now.y (step_seen draw.now setup.now)) 0 (span.now.start + span.now.after)) (span.now.start + span.now.first) (span.now.start + (x + 4))) 0 (deep_pixels olds deeps) }
{
    let left = span.after as u32 - x;
    store_four(
        colors,
        depths,
        span.start + x as usize,
        left,
        four,
        reach,
        &Opaque,
    );
}

/// Stores one colour in a span where its depth passes.
pub(crate) fn fill_by_four(
    colors: &mut [[u8; 4]],
    depths: &mut [[u8; 4]],
    span: &Span,
    color: [u8; 4],
    depth: &Ramp,
    rule: &Rule,
    setup: &Setup,
    draw: &Prepared,
)
    requires inside { span.now.start + span.now.after + 3 ≤ length colors.old }
    requires same { length depths.old ≡ length colors.old }
    requires plain { IsPlain rule.now draw.now setup.now }
    requires paints { (x : ℕ) → span.now.first ≤ x → x < span.now.after → color ≡ painted (paint_seen draw.now.paint) (fragment_at (setup_seen setup.now).triangle x span.now.y) }
    requires depths { HasSpanDepths depth.now setup.now span.now.y span.now.first span.now.after }
    ensures { deep_pixels colors.new depths.new ≡ map_from (spanned (in_row span.now.start span.now.y (step_seen draw.now setup.now)) (span.now.start + span.now.first) (span.now.start + span.now.after)) 0 (deep_pixels colors.old depths.old) }
{
    let reach = reach_of(rule);
    let paint = four_of(color);
    let by = u64x2::splat(depth.right.wrapping_mul(4));
    let mut at = deep_at(depth, span.first, span.y);
    let after = span.after as u32;
    let mut x = span.first as u32;
    while x < after {
        let four = Four {
            colors: paint,
            depths: depths_of(at),
        };
        store_window(colors, depths, span, x, &four, &reach, setup, draw);
        at = deep_on(at, by);
        x += 4;
    }
}

/// Stores the vertices' colours in a span where their depths pass.
pub(crate) fn shade_by_four(
    colors: &mut [[u8; 4]],
    depths: &mut [[u8; 4]],
    span: &Span,
    shade: &Shade,
    depth: &Ramp,
    rule: &Rule,
    setup: &Setup,
    draw: &Prepared,
)
    requires inside { span.now.start + span.now.after + 3 ≤ length colors.old }
    requires same { length depths.old ≡ length colors.old }
    requires plain { IsPlain rule.now draw.now setup.now }
    requires paints { (x : ℕ) → span.now.first ≤ x → x < span.now.after → shade_at shade.now x span.now.y ≡ painted (paint_seen draw.now.paint) (fragment_at (setup_seen setup.now).triangle x span.now.y) }
    requires depths { HasSpanDepths depth.now setup.now span.now.y span.now.first span.now.after }
    ensures { deep_pixels colors.new depths.new ≡ map_from (spanned (in_row span.now.start span.now.y (step_seen draw.now setup.now)) (span.now.start + span.now.first) (span.now.start + span.now.after)) 0 (deep_pixels colors.old depths.old) }
{
    let reach = reach_of(rule);
    let gain = tint_gain(shade);
    let by = u64x2::splat(depth.right.wrapping_mul(4));
    let mut tint = tint_at(shade, span.first, span.y);
    let mut at = deep_at(depth, span.first, span.y);
    let after = span.after as u32;
    let mut x = span.first as u32;
    while x < after {
        let (paints, next) = shades_on(tint, gain);
        let four = Four {
            colors: paints,
            depths: depths_of(at),
        };
        store_window(colors, depths, span, x, &four, &reach, setup, draw);
        tint = next;
        at = deep_on(at, by);
        x += 4;
    }
}

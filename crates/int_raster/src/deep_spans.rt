// Spans of a surface with depth.
ghost use Rattle.std.specs.Prelude.{◌≡◌, ◌≤◌, ◌<◌, ◌+◌, ◌*◌, ℕ, true, Some, length};
ghost use Rattle.gfx_model.specs.Number.{map_from, u32_at};
ghost use Rattle.gfx_model.specs.Raster.{covers, fragment_at};
ghost use Rattle.gfx_model.specs.World.{painted};
ghost use Rattle.tri_cover.specs.Shown.{setup_seen};
ghost use Rattle.int_raster.specs.Places.{deep_pixels, spanned, in_row};
ghost use Rattle.int_raster.specs.Painted.{shade_at, HoldsPiece, HoldsDepths, AreDepths, HasSpanDepths};
ghost use Rattle.int_raster.specs.Rules.{IsLevel, IsPlain, IsRule};
ghost use Rattle.int_raster.specs.Seen.{facing_seen, paint_seen, step_seen};

use crate::gradients::{fill_by_four, shade_by_four};
use crate::lists::Prepared;
use crate::opaque::{Level, Rule, stored_after};
use crate::painters::{Shade, value_at};
use crate::painting::{stencil_of, stepped, stepped_by};
use crate::spans::Span;
use crate::stores::{Opaque, Store};
use pixel_ops::Pixel;
use tri_cover::{Ramp, Setup};

/// The depth word of a depth texel.
fn depth_word(texel: [u8; 4]) -> u32
    ensures { result ≡ u32_at texel 0 }
{
    u32::from_le_bytes(texel)
}

/// The bytes of a pixel's depth word, lowest first.
fn depth_texel(pixel: &Pixel) -> [u8; 4]
    ensures { (word : ℕ) → pixel.now.depth ≡ Some word → u32_at result 0 ≡ word }
{
    match pixel.depth {
        Some(word) => word.to_le_bytes(),
        None => [0, 0, 0, 0],
    }
}

/// The bytes of a depth word, lowest first.
fn word_texel(word: u32) -> [u8; 4]
    ensures { u32_at result 0 ≡ word }
{
    word.to_le_bytes()
}

/// Steps the pixels of a span by the exact means at each.
pub(crate) fn step_exactly(
    colors: &mut [[u8; 4]],
    depths: &mut [[u8; 4]],
    span: &Span,
    setup: &Setup,
    draw: &Prepared,
)
    requires inside { span.now.start + span.now.after ≤ length colors.old }
    requires same { length depths.old ≡ length colors.old }
    requires covered { (x : ℕ) → span.now.first ≤ x → x < span.now.after → covers (setup_seen setup.now).triangle x span.now.y ≡ true }
    ensures { deep_pixels colors.new depths.new ≡ map_from (spanned (in_row span.now.start span.now.y (step_seen draw.now setup.now)) (span.now.start + span.now.first) (span.now.start + span.now.after)) 0 (deep_pixels colors.old depths.old) }
{
    let start = span.start;
    for x in span.first..span.after {
        let color = colors[start + x as usize];
        let word = depth_word(depths[start + x as usize]);
        let before = Pixel {
            color,
            depth: Some(word),
        };
        let after = stepped(before, setup, x, span.y, draw);
        let painted = after.color;
        colors[start + x as usize] = painted;
        depths[start + x as usize] = depth_texel(&after);
    }
}

/// Steps the pixels of a piece by painted colours and their depths.
pub(crate) fn step(
    colors: &mut [[u8; 4]],
    depths: &mut [[u8; 4]],
    span: &Span,
    paints: &[[u8; 4]],
    news: &[u32],
    setup: &Setup,
    draw: &Prepared,
)
    requires inside { span.now.start + span.now.after ≤ length colors.old }
    requires same { length depths.old ≡ length colors.old }
    requires room { span.now.after ≤ span.now.first + length paints.now }
    requires paints { HoldsPiece paints.now (λ x. painted (paint_seen draw.now.paint) (fragment_at (setup_seen setup.now).triangle x span.now.y)) span.now.first span.now.after }
    requires new_room { span.now.after ≤ span.now.first + length news.now }
    requires depths { HoldsDepths news.now (λ x. (fragment_at (setup_seen setup.now).triangle x span.now.y).depth) span.now.first span.now.after }
    requires few { AreDepths news.now span.now.first span.now.after }
    ensures { deep_pixels colors.new depths.new ≡ map_from (spanned (in_row span.now.start span.now.y (step_seen draw.now setup.now)) (span.now.start + span.now.first) (span.now.start + span.now.after)) 0 (deep_pixels colors.old depths.old) }
{
    let span = *span;
    let start = span.start;
    let stencil = stencil_of(draw, setup);
    for x in span.first..span.after {
        let old = colors[start + x as usize];
        let word = depth_word(depths[start + x as usize]);
        let before = Pixel {
            color: old,
            depth: Some(word),
        };
        let color = paints[(x - span.first) as usize];
        let depth = news[(x - span.first) as usize];
        let after = stepped_by(before, color, depth, stencil, draw);
        let painted = after.color;
        colors[start + x as usize] = painted;
        depths[start + x as usize] = depth_texel(&after);
    }
}

/// Stores one colour at one depth in a span where it passes.
pub(crate) fn store_level(
    colors: &mut [[u8; 4]],
    depths: &mut [[u8; 4]],
    span: &Span,
    level: &Level,
    setup: &Setup,
    draw: &Prepared,
)
    requires inside { span.now.start + span.now.after ≤ length colors.old }
    requires same { length depths.old ≡ length colors.old }
    requires level { IsLevel level.now draw.now setup.now }
    ensures { deep_pixels colors.new depths.new ≡ map_from (spanned (in_row span.now.start span.now.y (step_seen draw.now setup.now)) (span.now.start + span.now.first) (span.now.start + span.now.after)) 0 (deep_pixels colors.old depths.old) }
{
    let start = span.start;
    let (span, level) = (*span, *level);
    for x in span.first..span.after {
        let old = colors[start + x as usize];
        let word = depth_word(depths[start + x as usize]);
        let after = stored_after(old, word, level.color, level.depth, &level.rule, &Opaque);
        let painted = after.color;
        colors[start + x as usize] = painted;
        depths[start + x as usize] = word_texel(after.word);
    }
}

/// Stores one colour in a span where its depth passes, pixel by pixel.
fn fill_each(
    colors: &mut [[u8; 4]],
    depths: &mut [[u8; 4]],
    span: &Span,
    color: [u8; 4],
    depth: &Ramp,
    rule: &Rule,
    setup: &Setup,
    draw: &Prepared,
)
    requires inside { span.now.start + span.now.after ≤ length colors.old }
    requires same { length depths.old ≡ length colors.old }
    requires plain { IsPlain rule.now draw.now setup.now }
    requires paints { (x : ℕ) → span.now.first ≤ x → x < span.now.after → color ≡ painted (paint_seen draw.now.paint) (fragment_at (setup_seen setup.now).triangle x span.now.y) }
    requires depths { HasSpanDepths depth.now setup.now span.now.y span.now.first span.now.after }
    ensures { deep_pixels colors.new depths.new ≡ map_from (spanned (in_row span.now.start span.now.y (step_seen draw.now setup.now)) (span.now.start + span.now.first) (span.now.start + span.now.after)) 0 (deep_pixels colors.old depths.old) }
{
    let start = span.start;
    let mut new = value_at(depth, span.first, span.y);
    for x in span.first..span.after {
        let old = colors[start + x as usize];
        let word = depth_word(depths[start + x as usize]);
        let after = stored_after(old, word, color, (new >> 40) as u32, rule, &Opaque);
        let painted = after.color;
        colors[start + x as usize] = painted;
        depths[start + x as usize] = word_texel(after.word);
        new = new.wrapping_add(depth.right);
    }
}

/// Stores one colour in a span where its depth passes: in windows, and near the end of the lists pixel by pixel.
pub(crate) fn fill(
    colors: &mut [[u8; 4]],
    depths: &mut [[u8; 4]],
    span: &Span,
    color: [u8; 4],
    depth: &Ramp,
    rule: &Rule,
    setup: &Setup,
    draw: &Prepared,
)
    requires inside { span.now.start + span.now.after ≤ length colors.old }
    requires same { length depths.old ≡ length colors.old }
    requires plain { IsPlain rule.now draw.now setup.now }
    requires paints { (x : ℕ) → span.now.first ≤ x → x < span.now.after → color ≡ painted (paint_seen draw.now.paint) (fragment_at (setup_seen setup.now).triangle x span.now.y) }
    requires depths { HasSpanDepths depth.now setup.now span.now.y span.now.first span.now.after }
    ensures { deep_pixels colors.new depths.new ≡ map_from (spanned (in_row span.now.start span.now.y (step_seen draw.now setup.now)) (span.now.start + span.now.first) (span.now.start + span.now.after)) 0 (deep_pixels colors.old depths.old) }
{
    if colors.len() - (span.start + span.after as usize) < 3 {
        fill_each(colors, depths, span, color, depth, rule, setup, draw);
    } else {
        fill_by_four(colors, depths, span, color, depth, rule, setup, draw);
    }
}

/// Stores the vertices' colours in a span where their depths pass, pixel by pixel.
fn shade_each(
    colors: &mut [[u8; 4]],
    depths: &mut [[u8; 4]],
    span: &Span,
    shade: &Shade,
    depth: &Ramp,
    rule: &Rule,
    setup: &Setup,
    draw: &Prepared,
)
    requires inside { span.now.start + span.now.after ≤ length colors.old }
    requires same { length depths.old ≡ length colors.old }
    requires plain { IsPlain rule.now draw.now setup.now }
    requires paints { (x : ℕ) → span.now.first ≤ x → x < span.now.after → shade_at shade.now x span.now.y ≡ painted (paint_seen draw.now.paint) (fragment_at (setup_seen setup.now).triangle x span.now.y) }
    requires depths { HasSpanDepths depth.now setup.now span.now.y span.now.first span.now.after }
    ensures { deep_pixels colors.new depths.new ≡ map_from (spanned (in_row span.now.start span.now.y (step_seen draw.now setup.now)) (span.now.start + span.now.first) (span.now.start + span.now.after)) 0 (deep_pixels colors.old depths.old) }
{
    let start = span.start;
    let mut red = value_at(&shade.red, span.first, span.y);
    let mut green = value_at(&shade.green, span.first, span.y);
    let mut blue = value_at(&shade.blue, span.first, span.y);
    let mut alpha = value_at(&shade.alpha, span.first, span.y);
    let mut new = value_at(depth, span.first, span.y);
    for x in span.first..span.after {
        let old = colors[start + x as usize];
        let word = depth_word(depths[start + x as usize]);
        let color = [
            (red >> 56) as u8,
            (green >> 56) as u8,
            (blue >> 56) as u8,
            (alpha >> 56) as u8,
        ];
        let after = stored_after(old, word, color, (new >> 40) as u32, rule, &Opaque);
        let painted = after.color;
        colors[start + x as usize] = painted;
        depths[start + x as usize] = word_texel(after.word);
        red = red.wrapping_add(shade.red.right);
        green = green.wrapping_add(shade.green.right);
        blue = blue.wrapping_add(shade.blue.right);
        alpha = alpha.wrapping_add(shade.alpha.right);
        new = new.wrapping_add(depth.right);
    }
}

/// Stores the vertices' colours in a span where their depths pass: in windows, and near the end of the lists pixel by pixel.
pub(crate) fn store_shade(
    colors: &mut [[u8; 4]],
    depths: &mut [[u8; 4]],
    span: &Span,
    shade: &Shade,
    depth: &Ramp,
    rule: &Rule,
    setup: &Setup,
    draw: &Prepared,
)
    requires inside { span.now.start + span.now.after ≤ length colors.old }
    requires same { length depths.old ≡ length colors.old }
    requires plain { IsPlain rule.now draw.now setup.now }
    requires paints { (x : ℕ) → span.now.first ≤ x → x < span.now.after → shade_at shade.now x span.now.y ≡ painted (paint_seen draw.now.paint) (fragment_at (setup_seen setup.now).triangle x span.now.y) }
    requires depths { HasSpanDepths depth.now setup.now span.now.y span.now.first span.now.after }
    ensures { deep_pixels colors.new depths.new ≡ map_from (spanned (in_row span.now.start span.now.y (step_seen draw.now setup.now)) (span.now.start + span.now.first) (span.now.start + span.now.after)) 0 (deep_pixels colors.old depths.old) }
{
    if colors.len() - (span.start + span.after as usize) < 3 {
        shade_each(colors, depths, span, shade, depth, rule, setup, draw);
    } else {
        shade_by_four(colors, depths, span, shade, depth, rule, setup, draw);
    }
}

/// Stores painted colours in a piece where their depths pass, pixel by pixel.
pub(crate) fn store_each<S: Store>(
    colors: &mut [[u8; 4]],
    depths: &mut [[u8; 4]],
    span: &Span,
    paints: &[[u8; 4]],
    news: &[u32],
    rule: &Rule,
    store: &S,
    setup: &Setup,
    draw: &Prepared,
)
    requires inside { span.now.start + span.now.after ≤ length colors.old }
    requires same { length depths.old ≡ length colors.old }
    requires rule { IsRule rule.now draw.now.state }
    requires store { S.meets store.now draw.now.state }
    requires plain { (facing_seen draw.now setup.now).stencil ≡ 0 }
    requires room { span.now.after ≤ span.now.first + length paints.now }
    requires paints { HoldsPiece paints.now (λ x. painted (paint_seen draw.now.paint) (fragment_at (setup_seen setup.now).triangle x span.now.y)) span.now.first span.now.after }
    requires new_room { span.now.after ≤ span.now.first + length news.now }
    requires depths { HoldsDepths news.now (λ x. (fragment_at (setup_seen setup.now).triangle x span.now.y).depth) span.now.first span.now.after }
    requires few { AreDepths news.now span.now.first span.now.after }
    ensures { deep_pixels colors.new depths.new ≡ map_from (spanned (in_row span.now.start span.now.y (step_seen draw.now setup.now)) (span.now.start + span.now.first) (span.now.start + span.now.after)) 0 (deep_pixels colors.old depths.old) }
{
    let (span, rule) = (*span, *rule);
    let start = span.start;
    for x in span.first..span.after {
        let old = colors[start + x as usize];
        let word = depth_word(depths[start + x as usize]);
        let color = paints[(x - span.first) as usize];
        let depth = news[(x - span.first) as usize];
        let after = stored_after(old, word, color, depth, &rule, store);
        let painted = after.color;
        colors[start + x as usize] = painted;
        depths[start + x as usize] = word_texel(after.word);
    }
}

// Painted colours that are stored in windows of four pixels.
ghost use Rattle.std.specs.Prelude.{◌≡◌, ◌≤◌, ◌<◌, ◌+◌, ◌%◌, ◌^◌, ℕ, [], false, length, slice_index, slice_index_or, ◌&&◌, nat_le, nat_lt, if◌then◌else◌};
ghost use Rattle.gfx_model.specs.Number.{map_from, u32_at};
ghost use Rattle.gfx_model.specs.Pixel.{pixel_step, stored_color};
ghost use Rattle.gfx_model.specs.Raster.{fragment_at};
ghost use Rattle.gfx_model.specs.World.{painted};
ghost use Rattle.tri_cover.specs.Shown.{setup_seen};
ghost use Rattle.int_raster.specs.Places.{deep_pixel, deep_pixels, spanned, in_row};
ghost use Rattle.int_raster.specs.Painted.{HoldsPiece, HoldsDepths, AreDepths};
ghost use Rattle.int_raster.specs.Rules.{IsReach, IsRule};
ghost use Rattle.int_raster.specs.Seen.{color_seen, facing_seen, paint_seen, step_seen};
ghost use Rattle.int_raster.specs.Tiled.{word_bytes, deep_of, is_within};

use crate::colors::color_each;
use crate::deep_spans::store_each;
use crate::lanes::{first_kept, kept_within, numbers_of, put_words, with_depths, words_of};
use crate::lists::Prepared;
use crate::opaque::Rule;
use crate::reaches::{Reach, reach_of};
use crate::spans::Span;
use crate::stores::Store;
use std::simd::prelude::*;
use tri_cover::Setup;

/// Four fragments: their colours as words, and their depths.
#[derive(Clone, Copy)]
pub(crate) struct Four {
    pub colors: u32x4,
    pub depths: u32x4,
}

/// Four fragments of a piece from a place of its lists on.
#[inline(always)]
fn four_at(paints: &[[u8; 4]], news: &[u32], from: usize) -> Four
    requires paints { from + 4 ≤ length paints.now }
    requires news { from + 4 ≤ length news.now }
    ensures colors { (j : ℕ) → j < 4 → word_bytes (slice_index result.colors j) ≡ slice_index_or paints.now (from + j) [] }
    ensures depths { (j : ℕ) → j < 4 → slice_index result.depths j ≡ slice_index_or news.now (from + j) 0 }
{
    Four {
        colors: words_of(paints, from),
        depths: numbers_of(news, from),
    }
}

/// Stores the first ones of four colours over those at four places.
#[inline(always)]
pub(crate) fn store_colors<S: Store>(
    colors: &mut [[u8; 4]],
    at: usize,
    left: u32,
    new: u32x4,
    store: &S,
)
    requires inside { at + 4 ≤ length colors.old }
    ensures many { length colors.new ≡ length colors.old }
    ensures stored { (state j : ℕ) → S.meets store.now state → j < 4 → j < left → slice_index_or colors.new (at + j) [] ≡ stored_color state (word_bytes (slice_index new j)) (slice_index_or colors.old (at + j) []) }
    ensures rest { (j : ℕ) → j < 4 → left ≤ j → slice_index_or colors.new (at + j) [] ≡ slice_index_or colors.old (at + j) [] }
    ensures others { (i : ℕ) → (nat_le at i && nat_lt i (at + 4)) ≡ false → slice_index_or colors.new i [] ≡ slice_index_or colors.old i [] }
{
    let old = words_of(colors, at);
    let over = store.four_over(new, old);
    put_words(colors, at, first_kept(old, over, left));
}

/// Stores painted colours in a piece, behind which there are three more places.
fn color_by_four<S: Store>(
    colors: &mut [[u8; 4]],
    span: &Span,
    paints: &[[u8; 4]],
    store: &S,
    setup: &Setup,
    draw: &Prepared,
)
    requires inside { span.now.start + span.now.after + 3 ≤ length colors.old }
    requires room { span.now.after ≤ span.now.first + length paints.now }
    requires whole { length paints.now % 4 ≡ 0 }
    requires store { S.meets store.now draw.now.state }
    requires paints { HoldsPiece paints.now (λ x. painted (paint_seen draw.now.paint) (fragment_at (setup_seen setup.now).triangle x span.now.y)) span.now.first span.now.after }
    ensures { colors.new ≡ map_from (spanned (in_row span.now.start span.now.y (color_seen draw.now setup.now)) (span.now.start + span.now.first) (span.now.start + span.now.after)) 0 colors.old }
{
    let (first, after) = (span.first as u32, span.after as u32);
    let whole = after.saturating_sub(3);
    let mut x = first;
    while x < whole {
        let four = words_of(paints, (x - first) as usize);
        store_colors(colors, span.start + x as usize, 4, four, store);
        x += 4;
    }
    if x < after {
        let four = words_of(paints, (x - first) as usize);
        store_colors(colors, span.start + x as usize, after - x, four, store);
    }
}

/// Stores painted colours in a piece: in windows, and near the end of the list pixel by pixel.
pub(crate) fn store_colored<S: Store>(
    colors: &mut [[u8; 4]],
    span: &Span,
    paints: &[[u8; 4]],
    store: &S,
    setup: &Setup,
    draw: &Prepared,
)
    requires inside { span.now.start + span.now.after ≤ length colors.old }
    requires room { span.now.after ≤ span.now.first + length paints.now }
    requires whole { length paints.now % 4 ≡ 0 }
    requires store { S.meets store.now draw.now.state }
    requires paints { HoldsPiece paints.now (λ x. painted (paint_seen draw.now.paint) (fragment_at (setup_seen setup.now).triangle x span.now.y)) span.now.first span.now.after }
    ensures { colors.new ≡ map_from (spanned (in_row span.now.start span.now.y (color_seen draw.now setup.now)) (span.now.start + span.now.first) (span.now.start + span.now.after)) 0 colors.old }
{
    if colors.len() - (span.start + span.after as usize) < 3 {
        color_each(colors, span, paints, store, setup, draw);
    } else {
        color_by_four(colors, span, paints, store, setup, draw);
    }
}

/// Stores the colours of the first ones of four fragments at four places, which have these depth words, where their depths pass.
#[inline(always)]
fn put_colors<S: Store>(
    colors: &mut [[u8; 4]],
    at: usize,
    left: u32,
    words: u32x4,
    four: &Four,
    reach: &Reach,
    store: &S,
)
    requires inside { at + 4 ≤ length colors.old }
    ensures many { length colors.new ≡ length colors.old }
    ensures stored { (state j : ℕ) → S.meets store.now state → j < 4 → j < left → slice_index_or colors.new (at + j) [] ≡
        (if is_within reach.now.least reach.now.more (slice_index four.now.depths j) (slice_index words j % 2 ^ 24) then stored_color state (word_bytes (slice_index four.now.colors j)) (slice_index_or colors.old (at + j) []) else slice_index_or colors.old (at + j) []) }
    ensures rest { (j : ℕ) → j < 4 → left ≤ j → slice_index_or colors.new (at + j) [] ≡ slice_index_or colors.old (at + j) [] }
    ensures others { (i : ℕ) → (nat_le at i && nat_lt i (at + 4)) ≡ false → slice_index_or colors.new i [] ≡ slice_index_or colors.old i [] }
{
    let old = words_of(colors, at);
    let over = store.four_over(four.colors, old);
    put_words(
        colors,
        at,
        kept_within(old, over, words, four.depths, reach, left),
    );
}

/// Stores the depths of the first ones of four fragments at four places, which have these words, where they pass.
#[inline(always)]
fn put_depths(
    depths: &mut [[u8; 4]],
    at: usize,
    left: u32,
    words: u32x4,
    four: &Four,
    reach: &Reach,
)
    requires inside { at + 4 ≤ length depths.old }
    requires words { (j : ℕ) → j < 4 → slice_index words j ≡ u32_at (slice_index_or depths.old (at + j) []) 0 }
    requires bytes { (j : ℕ) → j < 4 → word_bytes (slice_index words j) ≡ slice_index_or depths.old (at + j) [] }
    ensures many { length depths.new ≡ length depths.old }
    ensures stored { (j : ℕ) → j < 4 → j < left → u32_at (slice_index_or depths.new (at + j) []) 0 ≡
        (if is_within reach.now.least reach.now.more (slice_index four.now.depths j) (u32_at (slice_index_or depths.old (at + j) []) 0 % 2 ^ 24) then deep_of reach.now.bits reach.now.taken (slice_index four.now.depths j) (u32_at (slice_index_or depths.old (at + j) []) 0) else u32_at (slice_index_or depths.old (at + j) []) 0) }
    ensures rest { (j : ℕ) → j < 4 → left ≤ j → slice_index_or depths.new (at + j) [] ≡ slice_index_or depths.old (at + j) [] }
    ensures others { (i : ℕ) → (nat_le at i && nat_lt i (at + 4)) ≡ false → slice_index_or depths.new i [] ≡ slice_index_or depths.old i [] }
{
    let new = with_depths(words, four.depths, reach);
    put_words(
        depths,
        at,
        kept_within(words, new, words, four.depths, reach, left),
    );
}

/// Stores the first ones of four fragments at four places, where their depths pass.
#[inline(always)]
pub(crate) fn store_four<S: Store>(
    colors: &mut [[u8; 4]],
    depths: &mut [[u8; 4]],
    at: usize,
    left: u32,
    four: &Four,
    reach: &Reach,
    store: &S,
)
    requires inside { at + 4 ≤ length colors.old }
    requires same { length depths.old ≡ length colors.old }
    ensures many { (length colors.new ≡ length colors.old) × (length depths.new ≡ length depths.old) }
    ensures stored { (state j : ℕ) (rule : Rule) → S.meets store.now state → IsRule rule state → IsReach reach.now rule → j < 4 → j < left → slice_index four.now.depths j ≤ 16777215
        → deep_pixel (slice_index_or colors.new (at + j) []) (slice_index_or depths.new (at + j) []) ≡ pixel_step (deep_pixel (slice_index_or colors.old (at + j) []) (slice_index_or depths.old (at + j) [])) (record { color = word_bytes (slice_index four.now.colors j); depth = slice_index four.now.depths j }) state 0 }
    ensures rest { (j : ℕ) → j < 4 → left ≤ j → (slice_index_or colors.new (at + j) [] ≡ slice_index_or colors.old (at + j) []) × (slice_index_or depths.new (at + j) [] ≡ slice_index_or depths.old (at + j) []) }
    ensures others { (i : ℕ) → (nat_le at i && nat_lt i (at + 4)) ≡ false → (slice_index_or colors.new i [] ≡ slice_index_or colors.old i []) × (slice_index_or depths.new i [] ≡ slice_index_or depths.old i []) }
{
    let words = words_of(depths, at);
    put_colors(colors, at, left, words, four, reach, store);
    put_depths(depths, at, left, words, four, reach);
}

/// Stores painted colours where their depths pass in a piece, behind which there are three more places.
fn store_by_four<S: Store>(
    colors: &mut [[u8; 4]],
    depths: &mut [[u8; 4]],
    span: &Span,
    paints: &[[u8; 4]],
    news: &[u32],
    rule: &Rule,
    store: &S,
    setup: &Setup,
    draw: &Prepared,
)
    requires inside { span.now.start + span.now.after + 3 ≤ length colors.old }
    requires same { length depths.old ≡ length colors.old }
    requires rule { IsRule rule.now draw.now.state }
    requires store { S.meets store.now draw.now.state }
    requires plain { (facing_seen draw.now setup.now).stencil ≡ 0 }
    requires room { span.now.after ≤ span.now.first + length paints.now }
    requires whole { length paints.now % 4 ≡ 0 }
    requires paints { HoldsPiece paints.now (λ x. painted (paint_seen draw.now.paint) (fragment_at (setup_seen setup.now).triangle x span.now.y)) span.now.first span.now.after }
    requires new_room { length news.now ≡ length paints.now }
    requires depths { HoldsDepths news.now (λ x. (fragment_at (setup_seen setup.now).triangle x span.now.y).depth) span.now.first span.now.after }
    requires few { AreDepths news.now span.now.first span.now.after }
    ensures { deep_pixels colors.new depths.new ≡ map_from (spanned (in_row span.now.start span.now.y (step_seen draw.now setup.now)) (span.now.start + span.now.first) (span.now.start + span.now.after)) 0 (deep_pixels colors.old depths.old) }
{
    let reach = reach_of(rule);
    let (first, after) = (span.first as u32, span.after as u32);
    let whole = after.saturating_sub(3);
    let mut x = first;
    while x < whole {
        let four = four_at(paints, news, (x - first) as usize);
        store_four(
            colors,
            depths,
            span.start + x as usize,
            4,
            &four,
            &reach,
            store,
        );
        x += 4;
    }
    if x < after {
        let four = four_at(paints, news, (x - first) as usize);
        store_four(
            colors,
            depths,
            span.start + x as usize,
            after - x,
            &four,
            &reach,
            store,
        );
    }
}

/// Stores painted colours in a piece where their depths pass: in windows, and near the end of the lists pixel by pixel.
pub(crate) fn store_painted<S: Store>(
    colors: &mut [[u8; 4]],
    depths: &mut [[u8; 4]],
    span: &Span,
    paints: &[[u8; 4]],
    news: &[u32],
    rule: &Rule,
    store: &S,
    setup: &Setup,
    draw: &Prepared,
)
    requires inside { span.now.start + span.now.after ≤ length colors.old }
    requires same { length depths.old ≡ length colors.old }
    requires rule { IsRule rule.now draw.now.state }
    requires store { S.meets store.now draw.now.state }
    requires plain { (facing_seen draw.now setup.now).stencil ≡ 0 }
    requires room { span.now.after ≤ span.now.first + length paints.now }
    requires whole { length paints.now % 4 ≡ 0 }
    requires paints { HoldsPiece paints.now (λ x. painted (paint_seen draw.now.paint) (fragment_at (setup_seen setup.now).triangle x span.now.y)) span.now.first span.now.after }
    requires new_room { length news.now ≡ length paints.now }
    requires depths { HoldsDepths news.now (λ x. (fragment_at (setup_seen setup.now).triangle x span.now.y).depth) span.now.first span.now.after }
    requires few { AreDepths news.now span.now.first span.now.after }
    ensures { deep_pixels colors.new depths.new ≡ map_from (spanned (in_row span.now.start span.now.y (step_seen draw.now setup.now)) (span.now.start + span.now.first) (span.now.start + span.now.after)) 0 (deep_pixels colors.old depths.old) }
{
    if colors.len() - (span.start + span.after as usize) < 3 {
        store_each(colors, depths, span, paints, news, rule, store, setup, draw);
    } else {
        store_by_four(colors, depths, span, paints, news, rule, store, setup, draw);
    }
}

// Draws on a surface with depth.
ghost use Rattle.std.specs.Prelude.{◌≡◌, ◌≤◌, ◌<◌, ◌+◌, ◌*◌, ◌%◌, ℕ, Bool, true, false, List, length, map, take, slice_index_or, IfSome, IsTrue};
ghost use Rattle.gfx_model.specs.Number.{map_from};
ghost use Rattle.gfx_model.specs.Raster.{covers, fragment_at};
ghost use Rattle.gfx_model.specs.Pixel.{Pixel};
ghost use Rattle.gfx_model.specs.World.{painted};
ghost use Rattle.tri_cover.specs.Shown.{setup_seen};
ghost use Rattle.tri_cover.specs.Bounded.{HoldsSpans};
ghost use Rattle.int_raster.specs.Drawing.{prepared_step};
ghost use Rattle.int_raster.specs.Places.{above, deep_pixels, spanned, by_place, below, in_row, where_test};
ghost use Rattle.int_raster.specs.Filled.{AreLimits, AreInCut};
ghost use Rattle.int_raster.specs.Joined.{HoldsTest, HoldRows, AreInside, in_turn};
ghost use Rattle.int_raster.specs.Painted.{PaintsSpan, Paints, HoldsPiece, HoldsDepths, AreDepths, HasDepths, HasWideDepths, HasSpanDepths, HasWideSpanDepths};
ghost use Rattle.int_raster.specs.Rules.{IsPlain, IsMix, IsLevel, IsTile, IsFree};
ghost use Rattle.int_raster.specs.Seen.{paint_seen, prepared_seen, step_seen, change_seen};

use crate::colors::triangle_colors;
use crate::columns::{columns_at, drawn_columns, drawn_limits, drawn_rows, meets};
use crate::deep_spans::{fill, step, step_exactly, store_level, store_shade};
use crate::fours::store_painted;
use crate::lists::Prepared;
use crate::opaque::{Level, Mix, Rule, Tile, is_over, rule_of};
use crate::painters::{Brush, Painter, brush_of, is_opaque, one_color, one_depth, painter_of};
use crate::painting::stencil_of;
use crate::pairs::with_next;
use crate::pieces::{depth_piece, paint_piece};
use crate::rows::Rows;
use crate::spans::Span;
use crate::stores::{Laid, Opaque};
use crate::tiles::{draw_tile, tile_of};
use pixel_ops::Blending;
use tri_cover::{Ramp, Setup};

/// Blends or masks painted colours in a piece, with their depths.
fn store_mixed(
    colors: &mut [[u8; 4]],
    depths: &mut [[u8; 4]],
    span: &Span,
    paints: &[[u8; 4]],
    news: &[u32],
    mixing: &Mix,
    setup: &Setup,
    draw: &Prepared,
)
    requires inside { span.now.start + span.now.after ≤ length colors.old }
    requires same { length depths.old ≡ length colors.old }
    requires room { span.now.after ≤ span.now.first + length paints.now }
    requires paints { HoldsPiece paints.now (λ x. painted (paint_seen draw.now.paint) (fragment_at (setup_seen setup.now).triangle x span.now.y)) span.now.first span.now.after }
    requires whole { length paints.now % 4 ≡ 0 }
    requires new_room { length news.now ≡ length paints.now }
    requires depths { HoldsDepths news.now (λ x. (fragment_at (setup_seen setup.now).triangle x span.now.y).depth) span.now.first span.now.after }
    requires few { AreDepths news.now span.now.first span.now.after }
    requires mixing { IsMix mixing.now draw.now setup.now }
    ensures { deep_pixels colors.new depths.new ≡ map_from (spanned (in_row span.now.start span.now.y (step_seen draw.now setup.now)) (span.now.start + span.now.first) (span.now.start + span.now.after)) 0 (deep_pixels colors.old depths.old) }
{
    let (rule, blending) = (&mixing.rule, &mixing.blending);
    if blending.lays_over() {
        store_painted(colors, depths, span, paints, news, rule, &Laid, setup, draw);
    } else {
        store_painted(
            colors, depths, span, paints, news, rule, blending, setup, draw,
        );
    }
}

/// Stores, blends or steps painted colours in a piece, with their depths.
fn store_piece(
    colors: &mut [[u8; 4]],
    depths: &mut [[u8; 4]],
    span: &Span,
    paints: &[[u8; 4]],
    news: &[u32],
    rule: &Option<Rule>,
    mixing: &Option<Mix>,
    setup: &Setup,
    draw: &Prepared,
)
    requires inside { span.now.start + span.now.after ≤ length colors.old }
    requires same { length depths.old ≡ length colors.old }
    requires room { span.now.after ≤ span.now.first + length paints.now }
    requires paints { HoldsPiece paints.now (λ x. painted (paint_seen draw.now.paint) (fragment_at (setup_seen setup.now).triangle x span.now.y)) span.now.first span.now.after }
    requires whole { length paints.now % 4 ≡ 0 }
    requires new_room { length news.now ≡ length paints.now }
    requires depths { HoldsDepths news.now (λ x. (fragment_at (setup_seen setup.now).triangle x span.now.y).depth) span.now.first span.now.after }
    requires few { AreDepths news.now span.now.first span.now.after }
    requires rule { IfSome rule.now (λ r. IsPlain r draw.now setup.now) }
    requires mixing { IfSome mixing.now (λ m. IsMix m draw.now setup.now) }
    ensures { deep_pixels colors.new depths.new ≡ map_from (spanned (in_row span.now.start span.now.y (step_seen draw.now setup.now)) (span.now.start + span.now.first) (span.now.start + span.now.after)) 0 (deep_pixels colors.old depths.old) }
{
    match rule {
        Some(rule) => store_painted(
            colors, depths, span, paints, news, rule, &Opaque, setup, draw,
        ),
        None => match mixing {
            Some(mixing) => store_mixed(colors, depths, span, paints, news, mixing, setup, draw),
            None => step(colors, depths, span, paints, news, setup, draw),
        },
    }
}

/// Draws a span with a brush in pieces of at most as many columns as each of two lists has places, for their colours and their depths.
fn pieces_with(
    colors: &mut [[u8; 4]],
    depths: &mut [[u8; 4]],
    paints: &mut [[u8; 4]],
    news: &mut [u32],
    span: &Span,
    brush: &Brush,
    rule: &Option<Rule>,
    mixing: &Option<Mix>,
    setup: &Setup,
    draw: &Prepared,
)
    requires some { 0 < length paints.old }
    requires few { length paints.old ≤ 256 }
    requires whole { length paints.old % 4 ≡ 0 }
    requires news { length news.old ≡ length paints.old }
    requires inside { span.now.start + span.now.after ≤ length colors.old }
    requires same { length depths.old ≡ length colors.old }
    requires paints { PaintsSpan brush.now.painter draw.now setup.now span.now.y span.now.first span.now.after }
    requires depths { HasWideSpanDepths brush.now.depth setup.now span.now.y span.now.first span.now.after }
    requires rule { IfSome rule.now (λ r. IsPlain r draw.now setup.now) }
    requires mixing { IfSome mixing.now (λ m. IsMix m draw.now setup.now) }
    ensures { deep_pixels colors.new depths.new ≡ map_from (spanned (in_row span.now.start span.now.y (step_seen draw.now setup.now)) (span.now.start + span.now.first) (span.now.start + span.now.after)) 0 (deep_pixels colors.old depths.old) }
{
    let most = paints.len() as u16;
    let mut first = span.first;
    while first < span.after {
        let piece = span.piece(first, most);
        paint_piece(&brush.painter, &piece, paints);
        depth_piece(&brush.depth, &piece, news);
        store_piece(
            colors, depths, &piece, paints, news, rule, mixing, setup, draw,
        );
        first = piece.after;
    }
}

/// Draws a span with a brush, piece by piece: with lists of 16, 64 or 256 places by its length.
fn in_pieces(
    colors: &mut [[u8; 4]],
    depths: &mut [[u8; 4]],
    span: &Span,
    brush: &Brush,
    rule: &Option<Rule>,
    mixing: &Option<Mix>,
    setup: &Setup,
    draw: &Prepared,
)
    requires inside { span.now.start + span.now.after ≤ length colors.old }
    requires same { length depths.old ≡ length colors.old }
    requires paints { PaintsSpan brush.now.painter draw.now setup.now span.now.y span.now.first span.now.after }
    requires depths { HasWideSpanDepths brush.now.depth setup.now span.now.y span.now.first span.now.after }
    requires rule { IfSome rule.now (λ r. IsPlain r draw.now setup.now) }
    requires mixing { IfSome mixing.now (λ m. IsMix m draw.now setup.now) }
    ensures { deep_pixels colors.new depths.new ≡ map_from (spanned (in_row span.now.start span.now.y (step_seen draw.now setup.now)) (span.now.start + span.now.first) (span.now.start + span.now.after)) 0 (deep_pixels colors.old depths.old) }
{
    let count = span.after - span.first;
    if count <= 16 {
        let mut paints = [[0; 4]; 16];
        let mut news = [0; 16];
        pieces_with(
            colors,
            depths,
            &mut paints,
            &mut news,
            span,
            brush,
            rule,
            mixing,
            setup,
            draw,
        );
    } else if count <= 64 {
        let mut paints = [[0; 4]; 64];
        let mut news = [0; 64];
        pieces_with(
            colors,
            depths,
            &mut paints,
            &mut news,
            span,
            brush,
            rule,
            mixing,
            setup,
            draw,
        );
    } else {
        let mut paints = [[0; 4]; 256];
        let mut news = [0; 256];
        pieces_with(
            colors,
            depths,
            &mut paints,
            &mut news,
            span,
            brush,
            rule,
            mixing,
            setup,
            draw,
        );
    }
}

/// Draws a span with a brush whose depths have 64 bits, where fragments are stored as they are painted.
fn paint_plain(
    colors: &mut [[u8; 4]],
    depths: &mut [[u8; 4]],
    span: &Span,
    brush: &Brush,
    depth: &Ramp,
    plain: &Rule,
    rule: &Option<Rule>,
    mixing: &Option<Mix>,
    setup: &Setup,
    draw: &Prepared,
)
    requires inside { span.now.start + span.now.after ≤ length colors.old }
    requires same { length depths.old ≡ length colors.old }
    requires paints { PaintsSpan brush.now.painter draw.now setup.now span.now.y span.now.first span.now.after }
    requires depths { HasWideSpanDepths brush.now.depth setup.now span.now.y span.now.first span.now.after }
    requires short { HasSpanDepths depth.now setup.now span.now.y span.now.first span.now.after }
    requires plain { IsPlain plain.now draw.now setup.now }
    requires rule { IfSome rule.now (λ r. IsPlain r draw.now setup.now) }
    requires mixing { IfSome mixing.now (λ m. IsMix m draw.now setup.now) }
    ensures { deep_pixels colors.new depths.new ≡ map_from (spanned (in_row span.now.start span.now.y (step_seen draw.now setup.now)) (span.now.start + span.now.first) (span.now.start + span.now.after)) 0 (deep_pixels colors.old depths.old) }
{
    match &brush.painter {
        Painter::Solid(color) => { fill(colors, depths, span, *color, depth, plain, setup, draw) }
        Painter::Vertex(shade) => {
            store_shade(colors, depths, span, shade, depth, plain, setup, draw)
        }
        _ => in_pieces(colors, depths, span, brush, rule, mixing, setup, draw),
    }
}

/// Draws a span with a brush.
fn paint(
    colors: &mut [[u8; 4]],
    depths: &mut [[u8; 4]],
    span: &Span,
    brush: &Brush,
    rule: &Option<Rule>,
    mixing: &Option<Mix>,
    setup: &Setup,
    draw: &Prepared,
)
    requires inside { span.now.start + span.now.after ≤ length colors.old }
    requires same { length depths.old ≡ length colors.old }
    requires paints { PaintsSpan brush.now.painter draw.now setup.now span.now.y span.now.first span.now.after }
    requires depths { HasWideSpanDepths brush.now.depth setup.now span.now.y span.now.first span.now.after }
    requires short { IfSome brush.now.short (λ r. HasSpanDepths r setup.now span.now.y span.now.first span.now.after) }
    requires rule { IfSome rule.now (λ r. IsPlain r draw.now setup.now) }
    requires mixing { IfSome mixing.now (λ m. IsMix m draw.now setup.now) }
    ensures { deep_pixels colors.new depths.new ≡ map_from (spanned (in_row span.now.start span.now.y (step_seen draw.now setup.now)) (span.now.start + span.now.first) (span.now.start + span.now.after)) 0 (deep_pixels colors.old depths.old) }
{
    match rule {
        Some(plain) => match &brush.short {
            Some(depth) => paint_plain(
                colors, depths, span, brush, depth, plain, rule, mixing, setup, draw,
            ),
            None => in_pieces(colors, depths, span, brush, rule, mixing, setup, draw),
        },
        None => in_pieces(colors, depths, span, brush, rule, mixing, setup, draw),
    }
}

/// Draws a span that a triangle covers: where it is level, or with a brush where there is one.
fn draw_span(
    colors: &mut [[u8; 4]],
    depths: &mut [[u8; 4]],
    span: &Span,
    level: &Option<Level>,
    brush: &Option<Brush>,
    rule: &Option<Rule>,
    mixing: &Option<Mix>,
    setup: &Setup,
    draw: &Prepared,
)
    requires inside { span.now.start + span.now.after ≤ length colors.old }
    requires same { length depths.old ≡ length colors.old }
    requires covered { (x : ℕ) → span.now.first ≤ x → x < span.now.after → covers (setup_seen setup.now).triangle x span.now.y ≡ true }
    requires level { IfSome level.now (λ l. IsLevel l draw.now setup.now) }
    requires paints { IfSome brush.now (λ b. PaintsSpan b.painter draw.now setup.now span.now.y span.now.first span.now.after) }
    requires depths { IfSome brush.now (λ b. HasWideSpanDepths b.depth setup.now span.now.y span.now.first span.now.after) }
    requires short { IfSome brush.now (λ b. IfSome b.short (λ r. HasSpanDepths r setup.now span.now.y span.now.first span.now.after)) }
    requires rule { IfSome rule.now (λ r. IsPlain r draw.now setup.now) }
    requires mixing { IfSome mixing.now (λ m. IsMix m draw.now setup.now) }
    ensures { deep_pixels colors.new depths.new ≡ map_from (spanned (in_row span.now.start span.now.y (step_seen draw.now setup.now)) (span.now.start + span.now.first) (span.now.start + span.now.after)) 0 (deep_pixels colors.old depths.old) }
{
    if let Some(level) = level {
        store_level(colors, depths, span, level, setup, draw);
        return;
    }
    match brush {
        Some(brush) => paint(colors, depths, span, brush, rule, mixing, setup, draw),
        None => step_exactly(colors, depths, span, setup, draw),
    }
}

/// The depth test of a triangle that is stored as it is painted; none where it is blended, masked or has a stencil word.
fn plain_rule(setup: &Setup, draw: &Prepared) -> Option<Rule>
    ensures { IfSome result (λ r. IsPlain r draw.now setup.now) }
{
    if is_opaque(&draw.state) && stencil_of(draw, setup).word() == 0 {
        Some(rule_of(&draw.state))
    } else {
        None
    }
}

/// The depth test and the blending of a triangle that has no rule of its own; none where it has a stencil word.
fn mix_of(rule: &Option<Rule>, setup: &Setup, draw: &Prepared) -> Option<Mix>
    ensures { IfSome result (λ m. IsMix m draw.now setup.now) }
{
    if rule.is_some() || stencil_of(draw, setup).word() != 0 {
        return None;
    }
    Some(Mix {
        rule: rule_of(&draw.state),
        blending: Blending::new(&draw.state),
    })
}

/// The one colour and the one depth of a triangle with a rule of its own.
fn level_of(setup: &Setup, draw: &Prepared, rule: &Option<Rule>) -> Option<Level>
    requires { IfSome rule.now (λ r. IsPlain r draw.now setup.now) }
    ensures { IfSome result (λ l. IsLevel l draw.now setup.now) }
{
    match rule {
        Some(rule) => {
            let color = one_color(setup, &draw.paint)?;
            let depth = one_depth(setup)?;
            Some(Level {
                color,
                depth,
                rule: *rule,
                tile: tile_of(color, depth, rule),
            })
        }
        None => None,
    }
}

/// What draws the pixels of a triangle that is not level.
fn brush_unless<'x>(
    level: &Option<Level>,
    setup: &Setup,
    draw: &Prepared<'x>,
    width: u16,
    height: u16,
) -> Option<Brush<'x>>
    ensures paints { IfSome result (λ b. Paints b.painter draw.now setup.now width height) }
    ensures depths { IfSome result (λ b. HasWideDepths b.depth setup.now width height) }
    ensures short { IfSome result (λ b. IfSome b.short (λ r. HasDepths r setup.now width height)) }
{
    if level.is_some() {
        return None;
    }
    brush_of(setup, draw, width, height)
}

/// Draws a triangle with its depth in so many rows, whose columns a list has.
fn rows_tested(
    colors: &mut [[u8; 4]],
    depths: &mut [[u8; 4]],
    rows: &Rows,
    from: u16,
    count: u16,
    spans: &[(u16, u16)],
    limits: (u16, u16),
    level: &Option<Level>,
    brush: &Option<Brush>,
    rule: &Option<Rule>,
    mixing: &Option<Mix>,
    setup: &Setup,
    draw: &Prepared,
)
    requires whole { length colors.old ≡ rows.now.width * rows.now.count }
    requires same { length depths.old ≡ length colors.old }
    requires level { IfSome level.now (λ l. IsLevel l draw.now setup.now) }
    requires paints { IfSome brush.now (λ b. Paints b.painter draw.now setup.now rows.now.width (rows.now.top + rows.now.count)) }
    requires depths { IfSome brush.now (λ b. HasWideDepths b.depth setup.now rows.now.width (rows.now.top + rows.now.count)) }
    requires short { IfSome brush.now (λ b. IfSome b.short (λ r. HasDepths r setup.now rows.now.width (rows.now.top + rows.now.count))) }
    requires rule { IfSome rule.now (λ r. IsPlain r draw.now setup.now) }
    requires mixing { IfSome mixing.now (λ m. IsMix m draw.now setup.now) }
    requires inside { from + count ≤ rows.now.count }
    requires cut { AreInCut rows.now draw.now.cut from (from + count) }
    requires limits { AreLimits limits draw.now.cut rows.now.width }
    requires room { count ≤ length spans.now }
    requires held { HoldsSpans spans.now (setup_seen setup.now).triangle limits.0 limits.1 (rows.now.top + from) count }
    ensures { (start : List Pixel) → deep_pixels colors.old depths.old ≡ map_from (above rows.now.width from (below rows.now.top (change_seen draw.now setup.now))) 0 start → deep_pixels colors.new depths.new ≡ map_from (above rows.now.width (from + count) (below rows.now.top (change_seen draw.now setup.now))) 0 start }
{
    for k in 0..count {
        let row = from + k;
        let y = rows.top + row;
        let (first, after) = drawn_columns(spans, k, limits, setup, &draw.cut, y, rows.width);
        let span = Span {
            start: row as usize * rows.width as usize,
            y,
            first,
            after,
        };
        draw_span(
            colors, depths, &span, level, brush, rule, mixing, setup, draw,
        );
    }
}

/// Stores a tile in so many rows, whose columns a list has.
#[inline(never)]
fn rows_tiled(
    colors: &mut [[u8; 4]],
    depths: &mut [[u8; 4]],
    rows: &Rows,
    from: u16,
    count: u16,
    spans: &[(u16, u16)],
    tile: &Tile,
    level: &Level,
    setup: &Setup,
    draw: &Prepared,
)
    requires whole { length colors.old ≡ rows.now.width * rows.now.count }
    requires same { length depths.old ≡ length colors.old }
    requires level { IsLevel level.now draw.now setup.now }
    requires tile { IsTile tile.now level.now.color level.now.depth level.now.rule }
    requires inside { from + count ≤ rows.now.count }
    requires room { count ≤ length spans.now }
    requires spans { AreInside spans.now rows.now.width count }
    ensures { (test : ℕ → ℕ → Bool) (start : List Pixel) → HoldsTest spans.now test (rows.now.top + from) rows.now.width count → deep_pixels colors.old depths.old ≡ map_from (above rows.now.width from (below rows.now.top (where_test test (step_seen draw.now setup.now)))) 0 start → deep_pixels colors.new depths.new ≡ map_from (above rows.now.width (from + count) (below rows.now.top (where_test test (step_seen draw.now setup.now)))) 0 start }
{
    let tile = *tile;
    let width = rows.width as usize;
    let mut start = from as usize * width;
    for k in 0..count {
        let (first, after) = columns_at(spans, k, rows.width);
        let span = Span {
            start,
            y: rows.top + (from + k),
            first,
            after,
        };
        draw_tile(colors, depths, &span, &tile, level, setup, draw);
        start += width;
    }
}

/// Stores the tile of a triangle in all its rows, 32 at a time.
fn triangle_tall(
    colors: &mut [[u8; 4]],
    depths: &mut [[u8; 4]],
    rows: &Rows,
    tile: &Tile,
    level: &Level,
    setup: &Setup,
    draw: &Prepared,
)
    requires whole { length colors.old ≡ rows.now.width * rows.now.count }
    requires same { length depths.old ≡ length colors.old }
    requires level { IsLevel level.now draw.now setup.now }
    requires tile { IsTile tile.now level.now.color level.now.depth level.now.rule }
    ensures { deep_pixels colors.new depths.new ≡ map_from (by_place rows.now.width (below rows.now.top (change_seen draw.now setup.now))) 0 (deep_pixels colors.old depths.old) }
{
    let (top, bottom) = drawn_rows(setup, &draw.cut, rows);
    let limits = drawn_limits(&draw.cut, rows.width);
    let mut spans = [(0, 0); 32];
    let mut row = top;
    while row < bottom {
        let count = (bottom - row).min(32);
        setup.spans(&mut spans, rows.top + row, count, limits.0, limits.1);
        rows_tiled(
            colors, depths, rows, row, count, &spans, tile, level, setup, draw,
        );
        row += count;
    }
}

/// Stores the tile of a triangle in its rows, which are at most 32, and with it the next triangle of its draw, if there is one and it
/// is of one tile with it: whether that is so.
fn triangle_short(
    colors: &mut [[u8; 4]],
    depths: &mut [[u8; 4]],
    rows: &Rows,
    shared: (u16, u16),
    tile: &Tile,
    level: &Level,
    setup: &Setup,
    next: &Setup,
    more: bool,
    draw: &Prepared,
) -> bool
    requires whole { length colors.old ≡ rows.now.width * rows.now.count }
    requires same { length depths.old ≡ length colors.old }
    requires rows { HoldRows shared rows.now draw.now setup.now }
    requires few { shared.1 ≤ shared.0 + 32 }
    requires level { IsLevel level.now draw.now setup.now }
    requires tile { IsTile tile.now level.now.color level.now.depth level.now.rule }
    ensures more { IsTrue result → IsTrue more }
    ensures one { result ≡ false → deep_pixels colors.new depths.new ≡ map_from (by_place rows.now.width (below rows.now.top (change_seen draw.now setup.now))) 0 (deep_pixels colors.old depths.old) }
    ensures two { IsTrue result → deep_pixels colors.new depths.new ≡ map_from (by_place rows.now.width (below rows.now.top (change_seen draw.now next.now))) 0 (map_from (by_place rows.now.width (below rows.now.top (change_seen draw.now setup.now))) 0 (deep_pixels colors.old depths.old)) }
{
    let limits = drawn_limits(&draw.cut, rows.width);
    let mut spans = [(0, 0); 32];
    let count = shared.1 - shared.0;
    setup.spans(&mut spans, rows.top + shared.0, count, limits.0, limits.1);
    let two = with_next(
        &mut spans, shared, limits, level, setup, next, more, draw, rows,
    );
    rows_tiled(
        colors, depths, rows, shared.0, count, &spans, tile, level, setup, draw,
    );
    two
}

/// Stores the tile of a triangle, perhaps with the next one: whether with it.
fn triangle_tiled(
    colors: &mut [[u8; 4]],
    depths: &mut [[u8; 4]],
    rows: &Rows,
    tile: &Tile,
    level: &Level,
    setup: &Setup,
    next: &Setup,
    more: bool,
    draw: &Prepared,
) -> bool
    requires whole { length colors.old ≡ rows.now.width * rows.now.count }
    requires same { length depths.old ≡ length colors.old }
    requires level { IsLevel level.now draw.now setup.now }
    requires tile { IsTile tile.now level.now.color level.now.depth level.now.rule }
    ensures more { IsTrue result → IsTrue more }
    ensures one { result ≡ false → deep_pixels colors.new depths.new ≡ map_from (by_place rows.now.width (below rows.now.top (change_seen draw.now setup.now))) 0 (deep_pixels colors.old depths.old) }
    ensures two { IsTrue result → deep_pixels colors.new depths.new ≡ map_from (by_place rows.now.width (below rows.now.top (change_seen draw.now next.now))) 0 (map_from (by_place rows.now.width (below rows.now.top (change_seen draw.now setup.now))) 0 (deep_pixels colors.old depths.old)) }
{
    let shared = drawn_rows(setup, &draw.cut, rows);
    if shared.1 - shared.0 > 32 {
        triangle_tall(colors, depths, rows, tile, level, setup, draw);
        return false;
    }
    triangle_short(
        colors, depths, rows, shared, tile, level, setup, next, more, draw,
    )
}

/// Draws a triangle that is no tile, with its depth. What it needs on the stack is not made for the others.
#[inline(never)]
fn triangle_painted(
    colors: &mut [[u8; 4]],
    depths: &mut [[u8; 4]],
    rows: &Rows,
    level: Option<Level>,
    rule: Option<Rule>,
    setup: &Setup,
    draw: &Prepared,
)
    requires whole { length colors.old ≡ rows.now.width * rows.now.count }
    requires same { length depths.old ≡ length colors.old }
    requires level { IfSome level (λ l. IsLevel l draw.now setup.now) }
    requires rule { IfSome rule (λ r. IsPlain r draw.now setup.now) }
    ensures { deep_pixels colors.new depths.new ≡ map_from (by_place rows.now.width (below rows.now.top (change_seen draw.now setup.now))) 0 (deep_pixels colors.old depths.old) }
{
    let mixing = mix_of(&rule, setup, draw);
    let brush = brush_unless(&level, setup, draw, rows.width, rows.bottom());
    let (top, bottom) = drawn_rows(setup, &draw.cut, rows);
    let limits = drawn_limits(&draw.cut, rows.width);
    let mut spans = [(0, 0); 32];
    let mut row = top;
    while row < bottom {
        let count = (bottom - row).min(32);
        setup.spans(&mut spans, rows.top + row, count, limits.0, limits.1);
        rows_tested(
            colors, depths, rows, row, count, &spans, limits, &level, &brush, &rule, &mixing,
            setup, draw,
        );
        row += count;
    }
}

/// Whether every depth passes a triangle's own rule and none is stored.
fn is_plain_free(rule: &Rule, setup: &Setup, draw: &Prepared) -> bool
    requires { IsPlain rule.now draw.now setup.now }
    ensures { IsTrue result → IsFree draw.now setup.now }
{
    is_over(rule)
}

/// Whether a triangle that has no rule of its own neither tests nor stores a depth or a stencil.
fn is_other_free(setup: &Setup, draw: &Prepared) -> bool
    ensures { IsTrue result → IsFree draw.now setup.now }
{
    if stencil_of(draw, setup).word() != 0 {
        return false;
    }
    let rule = rule_of(&draw.state);
    is_over(&rule)
}

/// Whether a triangle neither tests nor stores a depth or a stencil.
fn is_free(rule: &Option<Rule>, setup: &Setup, draw: &Prepared) -> bool
    requires { IfSome rule.now (λ r. IsPlain r draw.now setup.now) }
    ensures { IsTrue result → IsFree draw.now setup.now }
{
    match rule {
        Some(rule) => is_plain_free(rule, setup, draw),
        None => is_other_free(setup, draw),
    }
}

/// Draws the colours alone of a triangle that neither tests nor stores a depth or a stencil.
fn triangle_free(
    colors: &mut [[u8; 4]],
    depths: &[[u8; 4]],
    rows: &Rows,
    setup: &Setup,
    draw: &Prepared,
)
    requires whole { length colors.old ≡ rows.now.width * rows.now.count }
    requires same { length depths.now ≡ length colors.old }
    requires free { IsFree draw.now setup.now }
    ensures { deep_pixels colors.new depths.now ≡ map_from (by_place rows.now.width (below rows.now.top (change_seen draw.now setup.now))) 0 (deep_pixels colors.old depths.now) }
{
    let painter = painter_of(setup, draw, rows.width, rows.bottom());
    triangle_colors(colors, rows, &painter, setup, draw);
}

/// Whether a triangle is drawn in 32 rows of a band at most.
fn is_short(setup: &Setup, draw: &Prepared, rows: &Rows) -> bool {
    let (top, bottom) = drawn_rows(setup, &draw.cut, rows);
    bottom - top <= 32
}

/// Draws a triangle: as a tile where it is one, but for one that is free and tall, and then perhaps with the next one: whether with it.
/// Of what is no tile and free colours alone are drawn.
fn triangle_deep(
    colors: &mut [[u8; 4]],
    depths: &mut [[u8; 4]],
    rows: &Rows,
    setup: &Setup,
    next: &Setup,
    more: bool,
    draw: &Prepared,
) -> bool
    requires whole { length colors.old ≡ rows.now.width * rows.now.count }
    requires same { length depths.old ≡ length colors.old }
    ensures more { IsTrue result → IsTrue more }
    ensures one { result ≡ false → deep_pixels colors.new depths.new ≡ map_from (by_place rows.now.width (below rows.now.top (change_seen draw.now setup.now))) 0 (deep_pixels colors.old depths.old) }
    ensures two { IsTrue result → deep_pixels colors.new depths.new ≡ map_from (by_place rows.now.width (below rows.now.top (change_seen draw.now next.now))) 0 (map_from (by_place rows.now.width (below rows.now.top (change_seen draw.now setup.now))) 0 (deep_pixels colors.old depths.old)) }
{
    let rule = plain_rule(setup, draw);
    let level = level_of(setup, draw, &rule);
    if let Some(level) = &level {
        if let Some(tile) = &level.tile {
            if !tile.free || is_short(setup, draw, rows) {
                return triangle_tiled(colors, depths, rows, tile, level, setup, next, more, draw);
            }
        }
    }
    if is_free(&rule, setup, draw) {
        triangle_free(colors, depths, rows, setup, draw);
    } else {
        triangle_painted(colors, depths, rows, level, rule, setup, draw);
    }
    false
}

/// Draws a triangle where it meets the rows of the band, perhaps with the next one: whether with it.
fn triangle_in_rows(
    colors: &mut [[u8; 4]],
    depths: &mut [[u8; 4]],
    rows: &Rows,
    setup: &Setup,
    next: &Setup,
    more: bool,
    draw: &Prepared,
) -> bool
    requires whole { length colors.old ≡ rows.now.width * rows.now.count }
    requires same { length depths.old ≡ length colors.old }
    ensures more { IsTrue result → IsTrue more }
    ensures one { result ≡ false → deep_pixels colors.new depths.new ≡ map_from (by_place rows.now.width (below rows.now.top (change_seen draw.now setup.now))) 0 (deep_pixels colors.old depths.old) }
    ensures two { IsTrue result → deep_pixels colors.new depths.new ≡ map_from (by_place rows.now.width (below rows.now.top (change_seen draw.now next.now))) 0 (map_from (by_place rows.now.width (below rows.now.top (change_seen draw.now setup.now))) 0 (deep_pixels colors.old depths.old)) }
{
    if meets(setup, &draw.cut, rows) {
        return triangle_deep(colors, depths, rows, setup, next, more, draw);
    }
    false
}

/// A triangle of a draw.
#[inline(always)]
fn triangle_at(triangles: &[Setup], at: usize) -> &Setup
    requires { at < length triangles.now }
    ensures { result.now ≡ slice_index_or triangles.now at result.now }
{
    &triangles[at]
}

/// The place behind one, or this one where it is the last.
#[inline(always)]
fn next_place(at: usize, count: usize) -> usize
    requires { at < count }
    ensures inside { result < count }
    ensures next { at + 1 < count → result ≡ at + 1 }
{
    if at + 1 < count { at + 1 } else { at }
}

/// Draws the next triangle of a draw, or the next two where they are one tile: the place of the one behind.
fn draw_next(
    colors: &mut [[u8; 4]],
    depths: &mut [[u8; 4]],
    rows: &Rows,
    draw: &Prepared,
    triangles: &[Setup],
    at: usize,
) -> usize
    requires whole { length colors.old ≡ rows.now.width * rows.now.count }
    requires same { length depths.old ≡ length colors.old }
    requires some { at < length triangles.now }
    ensures order { at < result }
    ensures within { result ≤ length triangles.now }
    ensures drawn { (start : List Pixel) → deep_pixels colors.old depths.old ≡ in_turn rows.now draw.now start (take at triangles.now) → deep_pixels colors.new depths.new ≡ in_turn rows.now draw.now start (take result triangles.now) }
{
    let more = at + 1 < triangles.len();
    let setup = triangle_at(triangles, at);
    let next = triangle_at(triangles, next_place(at, triangles.len()));
    if triangle_in_rows(colors, depths, rows, setup, next, more, draw) {
        at + 2
    } else {
        at + 1
    }
}

/// Draws all triangles of a draw.
pub(crate) fn draw_deep(
    colors: &mut [[u8; 4]],
    depths: &mut [[u8; 4]],
    rows: &Rows,
    draw: &Prepared,
    triangles: &[Setup],
)
    requires whole { length colors.old ≡ rows.now.width * rows.now.count }
    requires same { length depths.old ≡ length colors.old }
    ensures { deep_pixels colors.new depths.new ≡ map_from (by_place rows.now.width (below rows.now.top (prepared_step (prepared_seen draw.now (map setup_seen triangles.now))))) 0 (deep_pixels colors.old depths.old) }
{
    let mut at = 0;
    while at < triangles.len() {
        at = draw_next(colors, depths, rows, draw, triangles, at);
    }
}

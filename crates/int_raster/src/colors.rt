// Draws on colours alone: on surfaces without depth, and where depths are neither tested nor stored.
ghost use Rattle.std.specs.Prelude.{◌≡◌, ◌≤◌, ◌<◌, ◌+◌, ◌*◌, ◌%◌, ℕ, true, List, length, IfSome, IsTrue};
ghost use Rattle.gfx_model.specs.Number.{map_from};
ghost use Rattle.gfx_model.specs.Raster.{covers, fragment_at};
ghost use Rattle.gfx_model.specs.Vertex.{Color};
ghost use Rattle.gfx_model.specs.World.{painted};
ghost use Rattle.tri_cover.specs.Shown.{setup_seen};
ghost use Rattle.tri_cover.specs.Bounded.{HoldsSpans};
ghost use Rattle.pixel_ops.specs.Blended.{IsBlending};
ghost use Rattle.int_raster.specs.Places.{above, below, spanned, in_row, by_place};
ghost use Rattle.int_raster.specs.Filled.{AreLimits, AreInCut};
ghost use Rattle.int_raster.specs.Painted.{shade_at, PaintsSpan, Paints, IsOpaque, HoldsPiece};
ghost use Rattle.int_raster.specs.Seen.{paint_seen, color_seen, color_change};

use crate::columns::{drawn_columns, drawn_limits, drawn_rows};
use crate::fours::store_colored;
use crate::lists::Prepared;
use crate::painters::{Painter, Shade, is_opaque, packed, value_at, whole};
use crate::painting::stepped;
use crate::pieces::paint_piece;
use crate::rows::Rows;
use crate::spans::Span;
use crate::stores::{Laid, Opaque, Store};
use crate::textured::{goes_by_four, texture_by_four};
use pixel_ops::{Blending, Pixel};
use tri_cover::Setup;

/// Steps the colours of a span by the exact means at each pixel.
pub(crate) fn step_exactly(colors: &mut [[u8; 4]], span: &Span, setup: &Setup, draw: &Prepared)
    requires inside { span.now.start + span.now.after ≤ length colors.old }
    requires covered { (x : ℕ) → span.now.first ≤ x → x < span.now.after → covers (setup_seen setup.now).triangle x span.now.y ≡ true }
    ensures { colors.new ≡ map_from (spanned (in_row span.now.start span.now.y (color_seen draw.now setup.now)) (span.now.start + span.now.first) (span.now.start + span.now.after)) 0 colors.old }
{
    for x in span.first..span.after {
        let color = colors[span.start + x as usize];
        let after = stepped(Pixel { color, depth: None }, setup, x, span.y, draw);
        let painted = after.color;
        colors[span.start + x as usize] = painted;
    }
}

/// Stores one colour in a span.
fn fill(colors: &mut [[u8; 4]], span: &Span, color: [u8; 4], setup: &Setup, draw: &Prepared)
    requires inside { span.now.start + span.now.after ≤ length colors.old }
    requires opaque { IsOpaque draw.now.state }
    requires paints { (x : ℕ) → span.now.first ≤ x → x < span.now.after → color ≡ painted (paint_seen draw.now.paint) (fragment_at (setup_seen setup.now).triangle x span.now.y) }
    ensures { colors.new ≡ map_from (spanned (in_row span.now.start span.now.y (color_seen draw.now setup.now)) (span.now.start + span.now.first) (span.now.start + span.now.after)) 0 colors.old }
{
    let bytes = whole(color);
    for x in span.first..span.after {
        colors[span.start + x as usize] = bytes;
    }
}

/// Stores the vertices' colours in a span.
fn store_shade(colors: &mut [[u8; 4]], span: &Span, shade: &Shade, setup: &Setup, draw: &Prepared)
    requires inside { span.now.start + span.now.after ≤ length colors.old }
    requires opaque { IsOpaque draw.now.state }
    requires paints { (x : ℕ) → span.now.first ≤ x → x < span.now.after → shade_at shade.now x span.now.y ≡ painted (paint_seen draw.now.paint) (fragment_at (setup_seen setup.now).triangle x span.now.y) }
    ensures { colors.new ≡ map_from (spanned (in_row span.now.start span.now.y (color_seen draw.now setup.now)) (span.now.start + span.now.first) (span.now.start + span.now.after)) 0 colors.old }
{
    let (span, shade) = (*span, *shade);
    let mut red = value_at(&shade.red, span.first, span.y);
    let mut green = value_at(&shade.green, span.first, span.y);
    let mut blue = value_at(&shade.blue, span.first, span.y);
    let mut alpha = value_at(&shade.alpha, span.first, span.y);
    for x in span.first..span.after {
        let color = [
            (red >> 56) as u8,
            (green >> 56) as u8,
            (blue >> 56) as u8,
            (alpha >> 56) as u8,
        ];
        colors[span.start + x as usize] = packed(color);
        red = red.wrapping_add(shade.red.right);
        green = green.wrapping_add(shade.green.right);
        blue = blue.wrapping_add(shade.blue.right);
        alpha = alpha.wrapping_add(shade.alpha.right);
    }
}

/// Stores painted colours in a piece, pixel by pixel.
pub(crate) fn color_each<S: Store>(
    colors: &mut [[u8; 4]],
    span: &Span,
    paints: &[[u8; 4]],
    store: &S,
    setup: &Setup,
    draw: &Prepared,
)
    requires inside { span.now.start + span.now.after ≤ length colors.old }
    requires room { span.now.after ≤ span.now.first + length paints.now }
    requires store { S.meets store.now draw.now.state }
    requires paints { HoldsPiece paints.now (λ x. painted (paint_seen draw.now.paint) (fragment_at (setup_seen setup.now).triangle x span.now.y)) span.now.first span.now.after }
    ensures { colors.new ≡ map_from (spanned (in_row span.now.start span.now.y (color_seen draw.now setup.now)) (span.now.start + span.now.first) (span.now.start + span.now.after)) 0 colors.old }
{
    let span = *span;
    for x in span.first..span.after {
        let old = colors[span.start + x as usize];
        let color = paints[(x - span.first) as usize];
        colors[span.start + x as usize] = store.stored_over(color, old);
    }
}

/// Stores or blends painted colours in a piece.
fn store_piece(
    colors: &mut [[u8; 4]],
    span: &Span,
    paints: &[[u8; 4]],
    opaque: bool,
    blending: &Blending,
    setup: &Setup,
    draw: &Prepared,
)
    requires inside { span.now.start + span.now.after ≤ length colors.old }
    requires room { span.now.after ≤ span.now.first + length paints.now }
    requires whole { length paints.now % 4 ≡ 0 }
    requires opaque { IsTrue opaque → IsOpaque draw.now.state }
    requires blending { IsBlending blending.now draw.now.state }
    requires paints { HoldsPiece paints.now (λ x. painted (paint_seen draw.now.paint) (fragment_at (setup_seen setup.now).triangle x span.now.y)) span.now.first span.now.after }
    ensures { colors.new ≡ map_from (spanned (in_row span.now.start span.now.y (color_seen draw.now setup.now)) (span.now.start + span.now.first) (span.now.start + span.now.after)) 0 colors.old }
{
    if opaque {
        store_colored(colors, span, paints, &Opaque, setup, draw);
    } else if blending.lays_over() {
        store_colored(colors, span, paints, &Laid, setup, draw);
    } else {
        store_colored(colors, span, paints, blending, setup, draw);
    }
}

/// Draws a span with a painter in pieces of at most as many columns as a list has places for their colours.
fn pieces_with(
    colors: &mut [[u8; 4]],
    paints: &mut [[u8; 4]],
    span: &Span,
    painter: &Painter,
    opaque: bool,
    blending: &Blending,
    setup: &Setup,
    draw: &Prepared,
)
    requires some { 0 < length paints.old }
    requires few { length paints.old ≤ 256 }
    requires whole { length paints.old % 4 ≡ 0 }
    requires inside { span.now.start + span.now.after ≤ length colors.old }
    requires opaque { IsTrue opaque → IsOpaque draw.now.state }
    requires blending { IsBlending blending.now draw.now.state }
    requires paints { PaintsSpan painter.now draw.now setup.now span.now.y span.now.first span.now.after }
    ensures { colors.new ≡ map_from (spanned (in_row span.now.start span.now.y (color_seen draw.now setup.now)) (span.now.start + span.now.first) (span.now.start + span.now.after)) 0 colors.old }
{
    let most = paints.len() as u16;
    let mut first = span.first;
    while first < span.after {
        let piece = span.piece(first, most);
        paint_piece(painter, &piece, paints);
        store_piece(colors, &piece, paints, opaque, blending, setup, draw);
        first = piece.after;
    }
}

/// Draws a span with a painter, piece by piece: with a list of 16, 64 or 256 places by its length.
fn in_pieces(
    colors: &mut [[u8; 4]],
    span: &Span,
    painter: &Painter,
    opaque: bool,
    blending: &Blending,
    setup: &Setup,
    draw: &Prepared,
)
    requires inside { span.now.start + span.now.after ≤ length colors.old }
    requires opaque { IsTrue opaque → IsOpaque draw.now.state }
    requires blending { IsBlending blending.now draw.now.state }
    requires paints { PaintsSpan painter.now draw.now setup.now span.now.y span.now.first span.now.after }
    ensures { colors.new ≡ map_from (spanned (in_row span.now.start span.now.y (color_seen draw.now setup.now)) (span.now.start + span.now.first) (span.now.start + span.now.after)) 0 colors.old }
{
    let count = span.after - span.first;
    if count <= 16 {
        let mut paints = [[0; 4]; 16];
        pieces_with(
            colors,
            &mut paints,
            span,
            painter,
            opaque,
            blending,
            setup,
            draw,
        );
    } else if count <= 64 {
        let mut paints = [[0; 4]; 64];
        pieces_with(
            colors,
            &mut paints,
            span,
            painter,
            opaque,
            blending,
            setup,
            draw,
        );
    } else {
        let mut paints = [[0; 4]; 256];
        pieces_with(
            colors,
            &mut paints,
            span,
            painter,
            opaque,
            blending,
            setup,
            draw,
        );
    }
}

/// Draws a span with a painter.
fn paint(
    colors: &mut [[u8; 4]],
    span: &Span,
    painter: &Painter,
    opaque: bool,
    blending: &Blending,
    setup: &Setup,
    draw: &Prepared,
)
    requires inside { span.now.start + span.now.after ≤ length colors.old }
    requires opaque { IsTrue opaque → IsOpaque draw.now.state }
    requires blending { IsBlending blending.now draw.now.state }
    requires paints { PaintsSpan painter.now draw.now setup.now span.now.y span.now.first span.now.after }
    ensures { colors.new ≡ map_from (spanned (in_row span.now.start span.now.y (color_seen draw.now setup.now)) (span.now.start + span.now.first) (span.now.start + span.now.after)) 0 colors.old }
{
    if opaque {
        match painter {
            Painter::Solid(color) => fill(colors, span, *color, setup, draw),
            Painter::Vertex(shade) => store_shade(colors, span, shade, setup, draw),
            Painter::Texture(texels, at) => {
                if goes_by_four(colors, span, at) {
                    texture_by_four(colors, span, texels, at, setup, draw);
                } else {
                    in_pieces(colors, span, painter, opaque, blending, setup, draw);
                }
            }
            _ => in_pieces(colors, span, painter, opaque, blending, setup, draw),
        }
    } else {
        in_pieces(colors, span, painter, opaque, blending, setup, draw);
    }
}

/// Draws a span that a triangle covers, with a painter where there is one.
fn draw_span(
    colors: &mut [[u8; 4]],
    span: &Span,
    painter: &Option<Painter>,
    opaque: bool,
    blending: &Blending,
    setup: &Setup,
    draw: &Prepared,
)
    requires inside { span.now.start + span.now.after ≤ length colors.old }
    requires opaque { IsTrue opaque → IsOpaque draw.now.state }
    requires blending { IsBlending blending.now draw.now.state }
    requires covered { (x : ℕ) → span.now.first ≤ x → x < span.now.after → covers (setup_seen setup.now).triangle x span.now.y ≡ true }
    requires paints { IfSome painter.now (λ p. PaintsSpan p draw.now setup.now span.now.y span.now.first span.now.after) }
    ensures { colors.new ≡ map_from (spanned (in_row span.now.start span.now.y (color_seen draw.now setup.now)) (span.now.start + span.now.first) (span.now.start + span.now.after)) 0 colors.old }
{
    match painter {
        Some(painter) => paint(colors, span, painter, opaque, blending, setup, draw),
        None => step_exactly(colors, span, setup, draw),
    }
}

/// Draws a triangle's colours in so many rows, whose columns a list has.
fn rows_colors(
    colors: &mut [[u8; 4]],
    rows: &Rows,
    from: u16,
    count: u16,
    spans: &[(u16, u16)],
    limits: (u16, u16),
    painter: &Option<Painter>,
    opaque: bool,
    blending: &Blending,
    setup: &Setup,
    draw: &Prepared,
)
    requires whole { length colors.old ≡ rows.now.width * rows.now.count }
    requires opaque { IsTrue opaque → IsOpaque draw.now.state }
    requires blending { IsBlending blending.now draw.now.state }
    requires paints { IfSome painter.now (λ p. Paints p draw.now setup.now rows.now.width (rows.now.top + rows.now.count)) }
    requires inside { from + count ≤ rows.now.count }
    requires cut { AreInCut rows.now draw.now.cut from (from + count) }
    requires limits { AreLimits limits draw.now.cut rows.now.width }
    requires room { count ≤ length spans.now }
    requires held { HoldsSpans spans.now (setup_seen setup.now).triangle limits.0 limits.1 (rows.now.top + from) count }
    ensures { (start : List Color) → colors.old ≡ map_from (above rows.now.width from (below rows.now.top (color_change draw.now setup.now))) 0 start → colors.new ≡ map_from (above rows.now.width (from + count) (below rows.now.top (color_change draw.now setup.now))) 0 start }
{
    for k in 0..count {
        let row = from + k;
        let y = rows.top + row;
        let (first, after) = drawn_columns(spans, k, limits, setup, &draw.cut, y, rows.width);
        let span = Span {
            start: row as usize * rows.width as usize,
            y,
            first,
            after,
        };
        draw_span(colors, &span, painter, opaque, blending, setup, draw);
    }
}

/// Draws a triangle's colours, with a painter where there is one.
pub(crate) fn triangle_colors(
    colors: &mut [[u8; 4]],
    rows: &Rows,
    painter: &Option<Painter>,
    setup: &Setup,
    draw: &Prepared,
)
    requires whole { length colors.old ≡ rows.now.width * rows.now.count }
    requires paints { IfSome painter.now (λ p. Paints p draw.now setup.now rows.now.width (rows.now.top + rows.now.count)) }
    ensures { colors.new ≡ map_from (by_place rows.now.width (below rows.now.top (color_change draw.now setup.now))) 0 colors.old }
{
    let opaque = is_opaque(&draw.state);
    let blending = Blending::new(&draw.state);
    let (top, bottom) = drawn_rows(setup, &draw.cut, rows);
    let limits = drawn_limits(&draw.cut, rows.width);
    let mut spans = [(0, 0); 32];
    let mut row = top;
    while row < bottom {
        let count = (bottom - row).min(32);
        setup.spans(&mut spans, rows.top + row, count, limits.0, limits.1);
        rows_colors(
            colors, rows, row, count, &spans, limits, painter, opaque, &blending, setup, draw,
        );
        row += count;
    }
}

// Draws of a list with other paints, each on a band of rows.
ghost use Rattle.std.specs.Prelude.{◌≡◌, ◌<◌, ◌*◌, List, length, slice_index_or};
ghost use Rattle.gfx_model.specs.Number.{map_from};
ghost use Rattle.tri_cover.specs.Shown.{Shown};
ghost use Rattle.int_raster.specs.Bands.{deep, deep_after, flat_after};
ghost use Rattle.int_raster.specs.Drawing.{PreparedDraw, prepared_step};
ghost use Rattle.int_raster.specs.Places.{below, by_place, deep_pixels};
ghost use Rattle.int_raster.specs.Repainted.{painted_as};
ghost use Rattle.int_raster.specs.Seen.{paint_seen, prepared_seen};

use crate::deep::draw_deep;
use crate::flat::draw_flat;
use crate::lists::{DrawList, Paint, Prepared};
use crate::rows::Rows;
use fix_math::tell_texels;

/// A draw that paints with something else.
fn repainted<'x>(draw: &Prepared<'_>, paint: Paint<'x>) -> Prepared<'x>
    ensures { (ts : List Shown) → prepared_seen result ts ≡ painted_as (prepared_seen draw.now ts) (paint_seen paint.entry) }
{
    Prepared {
        cut: draw.cut,
        state: draw.state,
        front: draw.front,
        back: draw.back,
        paint,
    }
}

/// Makes one draw of a list, with another paint than it has there, on rows of a surface without depth. The colours are those of
/// the rows, one row behind the other.
pub fn draw_flat_as(
    rows: &Rows,
    list: &DrawList<'_>,
    index: usize,
    paint: Paint<'_>,
    colors: &mut [[u8; 4]],
)
    requires whole { length colors.old ≡ rows.now.width * rows.now.count }
    requires inside { index < length list.now }
    ensures { (d : PreparedDraw) → colors.new ≡ flat_after rows.now.width (below rows.now.top (prepared_step (painted_as (slice_index_or list.now index d) (paint_seen paint.entry)))) colors.old }
{
    if list.meets(index, rows) {
        let (draw, triangles) = list.draw(index);
        let other = repainted(&draw, paint);
        draw_flat(colors, rows, &other, triangles);
    }
}

/// Makes one draw of a list with another paint on rows with depth, where it meets them.
fn draw_deep_pixels_as(
    rows: &Rows,
    list: &DrawList<'_>,
    index: usize,
    paint: Paint<'_>,
    colors: &mut [[u8; 4]],
    depths: &mut [[u8; 4]],
)
    requires whole { length colors.old ≡ rows.now.width * rows.now.count }
    requires same { length depths.old ≡ length colors.old }
    requires inside { index < length list.now }
    ensures { (d : PreparedDraw) → deep_pixels colors.new depths.new ≡ map_from (by_place rows.now.width (below rows.now.top (prepared_step (painted_as (slice_index_or list.now index d) (paint_seen paint.entry))))) 0 (deep_pixels colors.old depths.old) }
{
    if list.meets(index, rows) {
        let (draw, triangles) = list.draw(index);
        let other = repainted(&draw, paint);
        draw_deep(colors, depths, rows, &other, triangles);
    }
}

/// Makes one draw of a list, with another paint than it has there, on rows of a surface with depth. The colours and the depths are
/// those of the rows, one row behind the other.
pub fn draw_deep_as(
    rows: &Rows,
    list: &DrawList<'_>,
    index: usize,
    paint: Paint<'_>,
    colors: &mut [[u8; 4]],
    depths: &mut [[u8; 4]],
)
    requires whole { length colors.old ≡ rows.now.width * rows.now.count }
    requires same { length depths.old ≡ length colors.old }
    requires inside { index < length list.now }
    ensures { (d : PreparedDraw) → deep colors.new depths.new ≡ deep_after rows.now.width (below rows.now.top (prepared_step (painted_as (slice_index_or list.now index d) (paint_seen paint.entry)))) (deep colors.old depths.old) }
{
    draw_deep_pixels_as(rows, list, index, paint, colors, depths);
    tell_texels(depths);
}

// Draws on a surface without depth.
ghost use Rattle.std.specs.Prelude.{◌≡◌, ◌+◌, ◌*◌, length, map};
ghost use Rattle.gfx_model.specs.Number.{map_from};
ghost use Rattle.tri_cover.specs.Shown.{setup_seen};
ghost use Rattle.int_raster.specs.Drawing.{prepared_step};
ghost use Rattle.int_raster.specs.Places.{below, flat_pixels, by_place};
ghost use Rattle.int_raster.specs.Seen.{prepared_seen, change_seen};

use crate::colors::triangle_colors;
use crate::columns::meets;
use crate::lists::Prepared;
use crate::painters::painter_of;
use crate::rows::Rows;
use tri_cover::Setup;

/// Draws a triangle where it meets the rows of the band.
fn triangle_flat(colors: &mut [[u8; 4]], rows: &Rows, setup: &Setup, draw: &Prepared)
    requires whole { length colors.old ≡ rows.now.width * rows.now.count }
    ensures { flat_pixels colors.new ≡ map_from (by_place rows.now.width (below rows.now.top (change_seen draw.now setup.now))) 0 (flat_pixels colors.old) }
{
    if meets(setup, &draw.cut, rows) {
        let painter = painter_of(setup, draw, rows.width, rows.bottom());
        triangle_colors(colors, rows, &painter, setup, draw);
    }
}

/// Draws all triangles of a draw.
pub(crate) fn draw_flat(colors: &mut [[u8; 4]], rows: &Rows, draw: &Prepared, triangles: &[Setup])
    requires whole { length colors.old ≡ rows.now.width * rows.now.count }
    ensures { flat_pixels colors.new ≡ map_from (by_place rows.now.width (below rows.now.top (prepared_step (prepared_seen draw.now (map setup_seen triangles.now))))) 0 (flat_pixels colors.old) }
{
    for setup in triangles {
        triangle_flat(colors, rows, setup, draw);
    }
}

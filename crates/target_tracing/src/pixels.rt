// A pixel of a surface by its texels.
ghost use Rattle.std.specs.Prelude.{◌≡◌, ◌+◌, ◌*◌, Some, length, option_map, slice_index_or};
ghost use Rattle.gfx_model.specs.Number.{u32_at};
ghost use Rattle.gfx_model.specs.Raster.{no_color};
ghost use Rattle.gfx_model.specs.World.{pixels_of};
ghost use Rattle.fix_math.specs.Seen.{texels_seen};
ghost use Rattle.int_raster.specs.Seen.{surface_seen};
ghost use Rattle.pixel_ops.specs.Seen.{pixel_seen};
ghost use Rattle.target_laws.specs.Targets as model;

use fix_math::Texels;
use int_raster::Surface;
use pixel_ops::Pixel;

/// The texel at a place; zeros past the last one.
fn texel_at(texels: &[[u8; 4]], place: usize) -> [u8; 4]
    ensures { result ≡ slice_index_or texels.now place no_color }
{
    match texels.get(place) {
        Some(texel) => *texel,
        None => [0; 4],
    }
}

/// The word of a depth texel.
fn depth_word(texel: [u8; 4]) -> u32
    ensures { result ≡ u32_at texel 0 }
{
    u32::from_le_bytes(texel)
}

/// The place of a column of a row of so many columns.
fn place_of(width: u16, x: u32, y: u32) -> usize
    ensures { result ≡ y * width + x }
{
    y as usize * width as usize + x as usize
}

/// The depth and stencil at a place, where there are such.
fn word_at(depth: &Option<Texels>, place: usize) -> Option<u32>
    ensures { result ≡ option_map (λ d. u32_at (slice_index_or d.texels place no_color) 0) (option_map texels_seen depth.now) }
{
    match depth {
        None => None,
        Some(texels) => Some(depth_word(texel_at(texels.texels.as_slice(), place))),
    }
}

/// The pixel of a surface at a column and a row.
pub(crate) fn texel_pixel(surface: &Surface, x: u16, y: u16) -> Pixel
    ensures { pixel_seen result ≡ model.texel_pixel (surface_seen surface.now) x y }
{
    let place = place_of(surface.color.width, x as u32, y as u32);
    Pixel {
        color: texel_at(surface.color.texels.as_slice(), place),
        depth: word_at(&surface.depth, place),
    }
}

/// How many pixels a surface has.
fn count_of(surface: &Surface) -> usize
    ensures { result ≡ length (pixels_of (surface_seen surface.now)) }
{
    surface.color.texels.len()
}

/// Whether a surface has a pixel at a column and a row.
pub(crate) fn has_pixel(surface: &Surface, x: u32, y: u32) -> bool
    ensures { result ≡ model.has_pixel (Some (surface_seen surface.now)) x y }
{
    x < surface.color.width as u32 && place_of(surface.color.width, x, y) < count_of(surface)
}

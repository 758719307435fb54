// The texels that are read, and how they are written.
ghost use Rattle.std.specs.Prelude.{◌≡◌, option_map, Ok, Err, MatchResult};
ghost use Rattle.store_model.specs.Textures.{texels_at};
ghost use Rattle.fix_math.specs.Seen.{texels_seen};
ghost use Rattle.int_raster.specs.Seen.{surface_seen};
ghost use Rattle.render_stores.specs.Seen.{stores_seen};
ghost use Rattle.pixel_reading.specs.Formats.{is_of_format as is_of_format_of};
ghost use Rattle.pixel_reading.specs.Reads.{texels_of_surface, or_not_there, texels_for, Writes, Reads};

use crate::formats::{Pixels, format_of, is_of_format, order_of};
use c_words::Fault;
use fix_math::Texels;
use gfx_words::{Handle, Refusal};
use int_raster::Surface;
use render_stores::RenderStores;
use texel_rows::{has_room, write_rows};

// The colours of a surface, or its depths.
fn surface_texels(surface: &Surface, pixels: Pixels) -> Option<&Texels>
    ensures { option_map (λ t. texels_seen t.now) result ≡ texels_of_surface (surface_seen surface.now) pixels }
{
    match pixels {
        Pixels::Rgba8 => Some(&surface.color),
        Pixels::D24S8 => match &surface.depth {
            Some(depth) => Some(depth),
            None => None,
        },
        Pixels::Bgra8 => Some(&surface.color),
    }
}

// Texels, or that there are none.
fn or_fault(texels: Option<&Texels>) -> Result<&Texels, Fault>
    ensures { MatchResult result (λ t. or_not_there (option_map (λ s. texels_seen s.now) texels.entry) ≡ Ok (texels_seen t.now)) (λ f. or_not_there (option_map (λ s. texels_seen s.now) texels.entry) ≡ Err f) }
{
    match texels {
        None => Err(Fault::NotThere),
        Some(texels) => Ok(texels),
    }
}

// The texels that are read.
fn texels_of<'a>(
    stores: &'a RenderStores,
    texture: Option<Handle>,
    pixels: Pixels,
) -> Result<&'a Texels, Fault>
    ensures { MatchResult result (λ t. texels_for (stores_seen stores.now) texture pixels ≡ Ok (texels_seen t.now)) (λ f. texels_for (stores_seen stores.now) texture pixels ≡ Err f) }
{
    let Some(h) = texture else {
        return or_fault(surface_texels(&stores.back, pixels));
    };
    if !is_of_format(format_of(&h), pixels) {
        return Err(Fault::Refused(Refusal::WrongKind));
    }
    or_fault(stores.textures.texels_of(h.index()))
}

// Writes texels as rows, where the stride is long enough and the buffer has room.
fn write_texels(
    texels: &Texels,
    pixels: Pixels,
    stride: usize,
    buffer: &mut [u8],
) -> Result<(), Fault>
    ensures { Writes result pixels (texels_seen texels.now) stride buffer.old buffer.new }
{
    if stride < 4 * usize::from(texels.width) {
        return Err(Fault::Refused(Refusal::BadSize));
    }
    if !has_room(texels, stride, buffer.len()) {
        return Err(Fault::TooSmall);
    }
    write_rows(order_of(pixels), texels, stride, buffer);
    Ok(())
}

/// Reads a texture, or the back buffer where none is given, into a buffer: row by row from the top, with `stride` bytes from the start of a
/// row to that of the next. What lies between rows and behind the last one is left as it is.
///
/// `WrongKind` where the handle is no texture of the pixels' format; then `NotThere` where the stores have no texels at its index; `BadSize`
/// where the stride is shorter than a row; `TooSmall` where the last row passes the buffer's end. After a refusal the buffer is as before.
pub fn read_pixels(
    stores: &RenderStores,
    texture: Option<Handle>,
    pixels: Pixels,
    stride: usize,
    buffer: &mut [u8],
) -> Result<(), Fault>
    ensures { Reads result (stores_seen stores.now) texture pixels stride buffer.old buffer.new }
{
    match texels_of(stores, texture, pixels) {
        Err(fault) => Err(fault),
        Ok(texels) => write_texels(texels, pixels, stride, buffer),
    }
}

// What pixels are read as.
ghost use Rattle.std.specs.Prelude.{◌≡◌, option_map};
ghost use Rattle.gfx_model.specs.Recorder as calls;
ghost use Rattle.gfx_words.specs.Seen.{format_seen};
ghost use Rattle.pixel_reading.specs.Formats.{pixels_of_number, order_of as order_of_pixels, is_of_format as is_of_format_of};

use gfx_words::{Format, Handle, Info, Kind};
use handle_kinds::is_not_of;
use texel_rows::ByteOrder;

/// What pixels are read as, of four bytes each.
#[derive(Clone, Copy, Drop, PartialEq, Eq, Debug)]
pub enum Pixels {
    /// Red, green, blue and alpha.
    Rgba8,
    /// The depth in three bytes, lowest first, and the stencil.
    D24S8,
    /// Blue, green, red and alpha.
    Bgra8,
}

/// The pixels of a number: 0 is RGBA8, 1 is D24S8, 2 is BGRA8.
pub fn pixels_of(number: u32) -> Option<Pixels>
    ensures { result ≡ pixels_of_number number }
{
    match number {
        0 => Some(Pixels::Rgba8),
        1 => Some(Pixels::D24S8),
        2 => Some(Pixels::Bgra8),
        _ => None,
    }
}

// The order of their bytes.
pub(crate) fn order_of(pixels: Pixels) -> ByteOrder
    ensures { result ≡ order_of_pixels pixels }
{
    match pixels {
        Pixels::Rgba8 => ByteOrder::Kept,
        Pixels::D24S8 => ByteOrder::Kept,
        Pixels::Bgra8 => ByteOrder::Exchanged,
    }
}

// The format of a texture's handle.
pub(crate) fn format_of(h: &Handle) -> Option<Format>
    ensures { option_map format_seen result ≡ calls.format_of h.now }
{
    if is_not_of(h, Kind::Texture) {
        return None;
    }
    match h.info() {
        Info::Texture { format, .. } => Some(format),
        _ => None,
    }
}

// Whether there is a format, and textures of it are read as these pixels.
pub(crate) fn is_of_format(format: Option<Format>, pixels: Pixels) -> bool
    ensures { result ≡ is_of_format_of (option_map format_seen format) pixels }
{
    match format {
        None => false,
        Some(Format::Rgba8) => match pixels {
            Pixels::Rgba8 => true,
            Pixels::D24S8 => false,
            Pixels::Bgra8 => true,
        },
        Some(Format::D24S8) => match pixels {
            Pixels::Rgba8 => false,
            Pixels::D24S8 => true,
            Pixels::Bgra8 => false,
        },
    }
}

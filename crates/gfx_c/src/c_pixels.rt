// Pixels for C.
ghost use Rattle.std.specs.Prelude.{◌≡◌};
ghost use Rattle.c_calls.specs.Exports.{OnContext};
ghost use Rattle.c_calls.specs.Pixels.{ReadsHere};

use c_calls::{Slot, read_pixels};
use std::alloc::Global;

/// Reads a texture, or the back buffer by 0, as the frames so far left it, into a buffer with a stride.
#[unsafe(no_mangle)]
pub extern "C" fn vgfx_read_pixels(
    alloc: Global,
    context: &mut Slot,
    texture: u64,
    format: u32,
    pixels: &mut [u8],
    stride: usize,
) -> u32
    ensures { OnContext context.old.value context.new.value result (λ r c d. (d ≡ c) × ReadsHere r texture format stride pixels.old pixels.new c) (pixels.new ≡ pixels.old) }
{
    read_pixels(alloc, context, texture, format, pixels, stride)
}

// Frames in passes for C.
ghost use Rattle.c_calls.specs.Bands.{ClosesFrame, DrawsBand, EndsPass, NextPass, OpensFrame, values_of};

use c_calls::{Framed, Slot, begin_frame, close_frame, draw_band, end_pass, next_pass};
use std::alloc::Global;

/// Begins the frame, which is drawn in passes.
#[unsafe(no_mangle)]
pub extern "C" fn vgfx_frame_begin(alloc: Global, context: &mut Slot) -> u32
    ensures { OpensFrame context.old.value context.new.value result }
{
    begin_frame(alloc, context)
}

/// Begins the next pass of a frame, and hands its bands out to handles that are null; tells how many, and 0 where no pass is left.
#[unsafe(no_mangle)]
pub extern "C" fn vgfx_pass_next(
    alloc: Global,
    context: &mut Slot,
    bands: &mut [Slot],
    count: &mut usize,
) -> u32
    ensures { NextPass context.old.value context.new.value result (values_of bands.old) (values_of bands.new) count.old count.new }
{
    next_pass(alloc, context, bands, count)
}

/// Draws a band. Any thread may draw it.
#[unsafe(no_mangle)]
pub extern "C" fn vgfx_band_draw(alloc: Global, band: &mut Slot) -> u32
    ensures { DrawsBand band.old.value band.new.value result }
{
    draw_band(alloc, band)
}

/// Takes bands back, whose handles are null then, and ends the pass that is out.
#[unsafe(no_mangle)]
pub extern "C" fn vgfx_pass_end(alloc: Global, context: &mut Slot, bands: &mut [Slot]) -> u32
    ensures { EndsPass context.old.value context.new.value result (values_of bands.old) (values_of bands.new) }
{
    end_pass(alloc, context, bands)
}

/// Ends a frame that was drawn in passes, and writes its picture.
#[unsafe(no_mangle)]
pub extern "C" fn vgfx_frame_end(
    alloc: Global,
    context: &mut Slot,
    picture: &mut [u8],
    framed: &mut Framed,
) -> u32
    ensures { ClosesFrame context.old.value context.new.value result picture.old picture.new framed.old framed.new }
{
    close_frame(alloc, context, picture, framed)
}

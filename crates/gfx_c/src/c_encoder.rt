// The ends of encoders for C.
ghost use Rattle.c_calls.specs.Exports.{Ends, Drops};

use c_calls::{Slot, drop_encoder, end_encoder};
use std::alloc::Global;

/// Ends an encoder. Its handle is null from then on.
#[unsafe(no_mangle)]
pub extern "C" fn vgfx_encoder_end(alloc: Global, encoder: &mut Slot, dropped: u32) -> u32
    ensures { Ends encoder.old.value encoder.new.value result }
{
    end_encoder(alloc, encoder, dropped)
}

/// Gives an encoder up with what it recorded. Its handle is null from then on, and no frame of its context ends any more.
#[unsafe(no_mangle)]
pub extern "C" fn vgfx_encoder_drop(alloc: Global, encoder: &mut Slot) -> u32
    ensures { Drops encoder.old.value encoder.new.value result }
{
    drop_encoder(alloc, encoder)
}

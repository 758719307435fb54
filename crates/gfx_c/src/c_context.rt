// Contexts for C.
ghost use Rattle.std.specs.Prelude.{◌≡◌, Ok};
ghost use Rattle.c_calls.specs.Calls.{Collects};
ghost use Rattle.c_calls.specs.Exports.{OnContext, ShutsDown};
ghost use Rattle.c_calls.specs.Opening.{Opens, BeginsInto};

use c_calls::{Slot, begin_into, collect, frame_number, open_into, shut_down};
use context_core::Room;
use std::alloc::Global;

/// Makes a context, whose pictures have these sides, for a handle that is null.
#[unsafe(no_mangle)]
pub extern "C" fn vgfx_init(alloc: Global, context: &mut Slot, width: u16, height: u16) -> u32
    ensures { Opens context.old.value context.new.value result width height }
{
    open_into(alloc, context, width, height)
}

/// Gives a context up. Its handle is null from then on.
#[unsafe(no_mangle)]
pub extern "C" fn vgfx_shutdown(alloc: Global, context: &mut Slot) -> u32
    ensures { ShutsDown context.old.value context.new.value result }
{
    shut_down(alloc, context)
}

/// Begins this frame's next encoder, for a handle that is null.
#[unsafe(no_mangle)]
pub extern "C" fn vgfx_encoder_begin(
    alloc: Global,
    context: &mut Slot,
    encoder: &mut Slot,
    items: u32,
    bytes: u32,
    uniforms: u32,
) -> u32
    ensures { BeginsInto context.old.value context.new.value encoder.old.value encoder.new.value result (record { items = items; bytes = bytes; uniforms = uniforms }) }
{
    let room = Room {
        items,
        bytes,
        uniforms,
    };
    begin_into(alloc, context, encoder, room)
}

/// Collects what encoders of this frame ended with and has come, and tells how many have not come.
#[unsafe(no_mangle)]
pub extern "C" fn vgfx_collect(alloc: Global, context: &mut Slot, off: &mut u32) -> u32
    ensures { OnContext context.old.value context.new.value result (λ r c d. (r ≡ Ok (tt {0})) × Collects off.new c d) (off.new ≡ off.old) }
{
    collect(alloc, context, off)
}

/// Tells the number of the frame that is recorded.
#[unsafe(no_mangle)]
pub extern "C" fn vgfx_frame_number(alloc: Global, context: &mut Slot, number: &mut u32) -> u32
    ensures { OnContext context.old.value context.new.value result (λ r c d. (r ≡ Ok (tt {0})) × (d ≡ c) × (number.new ≡ c.core.state.book.resources.frame)) (number.new ≡ number.old) }
{
    frame_number(alloc, context, number)
}

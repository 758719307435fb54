// Frames for C.
ghost use Rattle.std.specs.Prelude.{◌≡◌};
ghost use Rattle.c_calls.specs.Exports.{OnContext};
ghost use Rattle.c_calls.specs.Frames.{FramesHere, framed_after};
ghost use Rattle.c_words.specs.Statuses.{status_of};

use c_calls::{Framed, Slot, end_frame};
use std::alloc::Global;

/// Ends the frame, renders it, and writes its picture.
#[unsafe(no_mangle)]
pub extern "C" fn vgfx_frame(
    alloc: Global,
    context: &mut Slot,
    picture: &mut [u8],
    framed: &mut Framed,
) -> u32
    ensures { OnContext context.old.value context.new.value result (λ r c d. FramesHere r picture.old picture.new c d × (framed.new ≡ framed_after r framed.old)) ((picture.new ≡ picture.old) × (framed.new ≡ framed.old)) }
{
    end_frame(alloc, context, picture, framed)
}

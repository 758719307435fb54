// Frames, pixels and what else is asked, on the handle of a context.
ghost use Rattle.std.specs.Prelude.{◌≡◌, Ok};
ghost use Rattle.c_calls.specs.Calls.{Collects};
ghost use Rattle.c_calls.specs.Exports.{OnContext};
ghost use Rattle.c_calls.specs.Frames.{FramesHere, framed_after};
ghost use Rattle.c_calls.specs.Pixels.{ReadsHere};
ghost use Rattle.c_words.specs.Statuses.{status_of};

use crate::frame::Framed;
use crate::held::put_other;
use crate::objects::Object;
use crate::slot::{Slot, put, take};
use c_words::{Fault, NO_OBJECT, status};
use std::alloc::Global;

// Hands what is told of a frame to C.
pub(crate) fn tell(answer: Result<Framed, Fault>, framed: &mut Framed) -> u32
    ensures status { result ≡ status_of answer }
    ensures told { framed.new ≡ framed_after answer framed.old }
{
    match answer {
        Ok(told) => {
            *framed = told;
            0
        }
        Err(fault) => fault.number(),
    }
}

/// Ends the frame, renders it, and writes its picture.
pub fn end_frame(alloc: Global, context: &mut Slot, picture: &mut [u8], framed: &mut Framed) -> u32
    ensures { OnContext context.old.value context.new.value result (λ r c d. FramesHere r picture.old picture.new c d × (framed.new ≡ framed_after r framed.old)) ((picture.new ≡ picture.old) × (framed.new ≡ framed.old)) }
{
    let Some(mut object) = take(context, alloc) else {
        return NO_OBJECT;
    };
    match &mut *object {
        Object::Api(api) => {
            let answer = api.frame(picture);
            put(context, object);
            tell(answer, framed)
        }
        _ => put_other(context, object),
    }
}

/// Reads a texture, or the back buffer by 0, as the frames so far left it, into a buffer with a stride.
pub fn read_pixels(
    alloc: Global,
    context: &mut Slot,
    texture: u64,
    format: u32,
    pixels: &mut [u8],
    stride: usize,
) -> u32
    ensures { OnContext context.old.value context.new.value result (λ r c d. (d ≡ c) × ReadsHere r texture format stride pixels.old pixels.new c) (pixels.new ≡ pixels.old) }
{
    let Some(mut object) = take(context, alloc) else {
        return NO_OBJECT;
    };
    match &mut *object {
        Object::Api(api) => {
            let answer = api.read(texture, format, stride, pixels);
            put(context, object);
            status(answer)
        }
        _ => put_other(context, object),
    }
}

/// Collects what encoders of this frame ended with and has come, and tells how many have not come.
pub fn collect(alloc: Global, context: &mut Slot, off: &mut u32) -> u32
    ensures { OnContext context.old.value context.new.value result (λ r c d. (r ≡ Ok (tt {0})) × Collects off.new c d) (off.new ≡ off.old) }
{
    let Some(mut object) = take(context, alloc) else {
        return NO_OBJECT;
    };
    match &mut *object {
        Object::Api(api) => {
            *off = api.collect();
            put(context, object);
            0
        }
        _ => put_other(context, object),
    }
}

/// Tells the number of the frame that is recorded.
pub fn frame_number(alloc: Global, context: &mut Slot, number: &mut u32) -> u32
    ensures { OnContext context.old.value context.new.value result (λ r c d. (r ≡ Ok (tt {0})) × (d ≡ c) × (number.new ≡ c.core.state.book.resources.frame)) (number.new ≡ number.old) }
{
    let Some(mut object) = take(context, alloc) else {
        return NO_OBJECT;
    };
    match &mut *object {
        Object::Api(api) => {
            *number = api.frame_number();
            put(context, object);
            0
        }
        _ => put_other(context, object),
    }
}

// How handles come to stand for something.
ghost use Rattle.std.specs.Prelude.{◌≡◌, None};
ghost use Rattle.gfx_words.specs.Seen.{room_seen};
ghost use Rattle.c_words.specs.Statuses.{status_of};
ghost use Rattle.c_calls.specs.Calls.{BeginsHere};
ghost use Rattle.c_calls.specs.Exports.{OnContext};
ghost use Rattle.c_calls.specs.Opening.{Opens, BeginsInto, opened_into, begun_into};

use crate::context::Context;
use crate::encoder::Encoder;
use crate::held::{blank_box, put_context, put_encoder, put_other};
use crate::objects::Object;
use crate::slot::{Slot, is_null, put, take};
use c_words::{Fault, NO_OBJECT};
use context_core::Room;
use gfx_words::Refusal;
use std::alloc::Global;

// Puts a context that was made into a handle that is null, and answers its status.
fn hand_context(context: &mut Slot, blank: Box<Object>, made: Result<Context, Fault>) -> u32
    requires { context.old.value ≡ None }
    ensures status { result ≡ status_of made }
    ensures handle { context.new.value ≡ opened_into made }
{
    match made {
        Ok(made) => {
            put_context(context, blank, made);
            0
        }
        Err(fault) => fault.number(),
    }
}

// Puts an encoder that was begun into a handle that is null, and answers its status.
fn hand_encoder(encoder: &mut Slot, blank: Box<Object>, begun: Result<Encoder, Fault>) -> u32
    requires { encoder.old.value ≡ None }
    ensures status { result ≡ status_of begun }
    ensures handle { encoder.new.value ≡ begun_into begun }
{
    match begun {
        Ok(begun) => {
            put_encoder(encoder, blank, begun);
            0
        }
        Err(fault) => fault.number(),
    }
}

// Begins an encoder for a handle that is null, whose box this is.
fn begin_for(
    alloc: Global,
    context: &mut Slot,
    encoder: &mut Slot,
    blank: Box<Object>,
    room: Room,
) -> u32
    requires { encoder.old.value ≡ None }
    ensures { OnContext context.old.value context.new.value result (λ r c d. (encoder.new.value ≡ begun_into r) × BeginsHere r (room_seen room) c d) (encoder.new.value ≡ None) }
{
    let Some(mut object) = take(context, alloc) else {
        return NO_OBJECT;
    };
    match &mut *object {
        Object::Api(api) => {
            let begun = api.begin(room);
            put(context, object);
            hand_encoder(encoder, blank, begun)
        }
        _ => put_other(context, object),
    }
}

/// Makes a context, whose pictures have these sides, for a handle that is null. The status is 105 of another handle, and else that of
/// `Context::new`.
pub fn open_into(alloc: Global, context: &mut Slot, width: u16, height: u16) -> u32
    ensures { Opens context.old.value context.new.value result width height }
{
    if !is_null(context, alloc) {
        return Fault::Taken.number();
    }
    let Some(blank) = blank_box(alloc) else {
        return Fault::Refused(Refusal::OutOfMemory).number();
    };
    let made = Context::new(alloc, width, height);
    hand_context(context, blank, made)
}

/// Begins this frame's next encoder, for a handle that is null. The status is 105 of another handle, then 100 where the context's handle
/// stands for none, and else that of `Context::begin`.
pub fn begin_into(alloc: Global, context: &mut Slot, encoder: &mut Slot, room: Room) -> u32
    ensures { BeginsInto context.old.value context.new.value encoder.old.value encoder.new.value result (room_seen room) }
{
    if !is_null(encoder, alloc) {
        return Fault::Taken.number();
    }
    let Some(blank) = blank_box(alloc) else {
        return Fault::Refused(Refusal::OutOfMemory).number();
    };
    begin_for(alloc, context, encoder, blank, room)
}

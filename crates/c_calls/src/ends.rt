// How handles come to be null again.
ghost use Rattle.c_calls.specs.Exports.{Ends, Drops, ShutsDown};

use crate::held::{put_encoder, take_encoder};
use crate::objects::Object;
use crate::slot::{Slot, put, take};
use c_words::{Fault, NO_OBJECT};
use std::alloc::Global;

/// Gives a context up, also one with a frame that is begun. Its handle is null from then on. The status is 100 where the handle stands for none.
pub fn shut_down(alloc: Global, context: &mut Slot) -> u32
    ensures { ShutsDown context.old.value context.new.value result }
{
    let Some(object) = take(context, alloc) else {
        return NO_OBJECT;
    };
    match &*object {
        Object::Api(_) => 0,
        Object::Drawing(_) => 0,
        _ => {
            put(context, object);
            NO_OBJECT
        }
    }
}

/// Ends an encoder. Its handle is null from then on. The status is 100 where the handle stands for none, and 101 where another recording
/// waits in its place, and then the handle is as before.
pub fn end_encoder(alloc: Global, encoder: &mut Slot, dropped: u32) -> u32
    ensures { Ends encoder.old.value encoder.new.value result }
{
    let Some((object, recording)) = take_encoder(encoder, alloc) else {
        return NO_OBJECT;
    };
    match recording.end(dropped) {
        Ok(()) => 0,
        Err(back) => {
            put_encoder(encoder, object, back);
            Fault::TryAgain.number()
        }
    }
}

/// Gives an encoder up with what it recorded. Its handle is null from then on, and no frame of its context ends any more. The status is
/// 100 where the handle stands for none.
pub fn drop_encoder(alloc: Global, encoder: &mut Slot) -> u32
    ensures { Drops encoder.old.value encoder.new.value result }
{
    match take_encoder(encoder, alloc) {
        Some((_blank, recording)) => {
            recording.give_up();
            0
        }
        None => NO_OBJECT,
    }
}

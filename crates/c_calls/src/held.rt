// The object behind a handle, out of its box and back into it.
ghost use Rattle.std.specs.Prelude.{◌≡◌, Some, None, MatchOption, MatchResult};
ghost use Rattle.c_calls.specs.declared.objects.Object.TheVariants.{Api, Drawing, Recording};
ghost use Rattle.c_calls.specs.Exports.{context_of, encoder_of, frame_of, without_context, without_frame};

use crate::context::Context;
use crate::encoder::Encoder;
use crate::objects::Object;
use crate::open_frames::OpenFrame;
use crate::slot::{Slot, put, take};
use c_words::{Fault, NO_OBJECT};
use std::alloc::Global;
use std::mem;

/// A box for what a handle is to stand for. None only for want of memory.
pub(crate) fn blank_box(alloc: Global) -> Option<Box<Object>> {
    Box::new(alloc, Object::Blank).ok()
}

/// Puts an object into a box, out of which another falls. What drops an object stands here alone.
fn fill(object: &mut Object, value: Object)
    ensures { object.new ≡ value }
{
    drop(mem::replace(object, value));
}

/// Puts a context into a box, and that into a handle.
pub(crate) fn put_context(slot: &mut Slot, object: Box<Object>, context: Context)
    ensures { slot.new.value ≡ Some (Api context) }
{
    let mut object = object;
    fill(&mut object, Object::Api(context));
    put(slot, object);
}

// Puts what was taken out of a box back into it, and that into its handle.
fn put_back(slot: &mut Slot, object: Box<Object>, value: Object)
    ensures { slot.new.value ≡ Some value }
{
    let mut object = object;
    fill(&mut object, value);
    put(slot, object);
}

// What a call on a context is told by another object.
fn no_context(object: &Object) -> u32
    ensures { result ≡ without_context (Some object.now) }
{
    match object {
        Object::Drawing(_) => Fault::BadValue.number(),
        _ => NO_OBJECT,
    }
}

// What a call on a frame that is begun is told by another object.
fn no_frame(object: &Object) -> u32
    ensures { result ≡ without_frame (Some object.now) }
{
    match object {
        Object::Api(_) => Fault::BadValue.number(),
        _ => NO_OBJECT,
    }
}

/// Puts an object back into its handle, and answers what a call on a context is told by it.
pub(crate) fn put_other(slot: &mut Slot, object: Box<Object>) -> u32
    ensures put { slot.new.value ≡ Some object.value }
    ensures told { result ≡ without_context (Some object.value) }
{
    let status = no_context(&object);
    put(slot, object);
    status
}

/// Takes the context of a handle, with the box that it was in; or answers what the call is told, and the handle is as it was.
pub(crate) fn take_context(slot: &mut Slot, alloc: Global) -> Result<(Box<Object>, Context), u32>
    ensures { MatchResult result (λ p. (slot.old.value ≡ Some (Api p.1)) × (slot.new.value ≡ None)) (λ s. (context_of slot.old.value ≡ None) × ((slot.new.value ≡ slot.old.value) × (s ≡ without_context slot.old.value))) }
{
    let Some(mut object) = take(slot, alloc) else {
        return Err(NO_OBJECT);
    };
    match mem::replace(&mut *object, Object::Blank) {
        Object::Api(context) => Ok((object, context)),
        other => {
            let status = no_context(&other);
            put_back(slot, object, other);
            Err(status)
        }
    }
}

/// Takes the frame that is begun of a handle, with the box that it was in; or answers what the call is told, and the handle is as it was.
pub(crate) fn take_frame(slot: &mut Slot, alloc: Global) -> Result<(Box<Object>, OpenFrame), u32>
    ensures { MatchResult result (λ p. (slot.old.value ≡ Some (Drawing p.1)) × (slot.new.value ≡ None)) (λ s. (frame_of slot.old.value ≡ None) × ((slot.new.value ≡ slot.old.value) × (s ≡ without_frame slot.old.value))) }
{
    let Some(mut object) = take(slot, alloc) else {
        return Err(NO_OBJECT);
    };
    match mem::replace(&mut *object, Object::Blank) {
        Object::Drawing(begun) => Ok((object, begun)),
        other => {
            let status = no_frame(&other);
            put_back(slot, object, other);
            Err(status)
        }
    }
}

/// Puts a frame that is begun into a box, and that into a handle.
pub(crate) fn put_frame(slot: &mut Slot, object: Box<Object>, begun: OpenFrame)
    ensures { slot.new.value ≡ Some (Drawing begun) }
{
    put_back(slot, object, Object::Drawing(begun));
}

/// Takes the encoder of a handle, with the box that it was in. None where the handle is another, which stays as it was.
pub(crate) fn take_encoder(slot: &mut Slot, alloc: Global) -> Option<(Box<Object>, Encoder)>
    ensures { MatchOption result ((encoder_of slot.old.value ≡ None) × (slot.new.value ≡ slot.old.value)) (λ p. (slot.old.value ≡ Some (Recording p.1)) × (slot.new.value ≡ None)) }
{
    let Some(mut object) = take(slot, alloc) else {
        return None;
    };
    match mem::replace(&mut *object, Object::Blank) {
        Object::Recording(encoder) => Some((object, encoder)),
        other => {
            put_back(slot, object, other);
            None
        }
    }
}

/// Puts an encoder into a box, and that into a handle.
pub(crate) fn put_encoder(slot: &mut Slot, object: Box<Object>, encoder: Encoder)
    ensures { slot.new.value ≡ Some (Recording encoder) }
{
    let mut object = object;
    fill(&mut object, Object::Recording(encoder));
    put(slot, object);
}

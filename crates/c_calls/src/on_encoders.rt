// The record calls, on the handle of an encoder.
ghost use Rattle.std.specs.Prelude.{◌≡◌, ◌∷◌, []};
ghost use Rattle.gfx_model.specs.Recorder as calls;
ghost use Rattle.gfx_model.specs.Words.{vec4_value, int_value};
ghost use Rattle.c_calls.specs.Calls.{Records, DiscardsHere, OnThing, OnMaybe};
ghost use Rattle.c_calls.specs.Exports.{OnEncoder};

use crate::objects::Object;
use crate::recording::Copied;
use crate::slot::{Slot, put, take};
use crate::transform::Transform;
use c_words::{NO_OBJECT, status};
use fix_math::{Affine, Rect};
use gfx_words::UniformValue;
use std::alloc::Global;

/// Sets the state word of the next draws.
pub fn encoder_set_state(alloc: Global, encoder: &mut Slot, word: u64) -> u32
    ensures { OnEncoder encoder.old.value encoder.new.value result (λ r c d. Records r (calls.set_state word) c d) }
{
    let Some(mut object) = take(encoder, alloc) else {
        return NO_OBJECT;
    };
    match &mut *object {
        Object::Recording(recording) => {
            let answer = recording.set_state(word);
            put(encoder, object);
            status(answer)
        }
        _ => {
            put(encoder, object);
            NO_OBJECT
        }
    }
}

/// Sets the stencil words for triangles that face to the front and to the back; 0 is no stencil.
pub fn encoder_set_stencil(alloc: Global, encoder: &mut Slot, front: u32, back: u32) -> u32
    ensures { OnEncoder encoder.old.value encoder.new.value result (λ r c d. Records r (calls.set_stencil front back) c d) }
{
    let Some(mut object) = take(encoder, alloc) else {
        return NO_OBJECT;
    };
    match &mut *object {
        Object::Recording(recording) => {
            let answer = recording.set_stencil(front, back);
            put(encoder, object);
            status(answer)
        }
        _ => {
            put(encoder, object);
            NO_OBJECT
        }
    }
}

/// Sets the scissor in pixels; with both sides 0 there is none.
pub fn encoder_set_scissor(alloc: Global, encoder: &mut Slot, x: u16, y: u16, w: u16, h: u16) -> u32
    ensures { OnEncoder encoder.old.value encoder.new.value result (λ r c d. Records r (calls.set_scissor (record { x = x; y = y; w = w; h = h })) c d) }
{
    let Some(mut object) = take(encoder, alloc) else {
        return NO_OBJECT;
    };
    match &mut *object {
        Object::Recording(recording) => {
            let answer = recording.set_scissor(Rect { x, y, w, h });
            put(encoder, object);
            status(answer)
        }
        _ => {
            put(encoder, object);
            NO_OBJECT
        }
    }
}

/// Sets the transform from the vertices to the view.
pub fn encoder_set_transform(alloc: Global, encoder: &mut Slot, transform: &Transform) -> u32
    ensures { OnEncoder encoder.old.value encoder.new.value result (λ r c d. Records r (calls.set_transform transform.now.m) c d) }
{
    let Some(mut object) = take(encoder, alloc) else {
        return NO_OBJECT;
    };
    match &mut *object {
        Object::Recording(recording) => {
            let answer = recording.set_transform(Affine { m: transform.m });
            put(encoder, object);
            status(answer)
        }
        _ => {
            put(encoder, object);
            NO_OBJECT
        }
    }
}

/// Takes vertices of a buffer.
pub fn encoder_set_vertices(
    alloc: Global,
    encoder: &mut Slot,
    buffer: u64,
    first: u32,
    count: u32,
) -> u32
    ensures { OnEncoder encoder.old.value encoder.new.value result (λ r c d. OnThing c.rows buffer r c d (λ h. Records r (calls.set_vertices h first count) c d)) }
{
    let Some(mut object) = take(encoder, alloc) else {
        return NO_OBJECT;
    };
    match &mut *object {
        Object::Recording(recording) => {
            let answer = recording.set_vertices(buffer, first, count);
            put(encoder, object);
            status(answer)
        }
        _ => {
            put(encoder, object);
            NO_OBJECT
        }
    }
}

/// Takes indices of a buffer.
pub fn encoder_set_indices(
    alloc: Global,
    encoder: &mut Slot,
    buffer: u64,
    first: u32,
    count: u32,
) -> u32
    ensures { OnEncoder encoder.old.value encoder.new.value result (λ r c d. OnThing c.rows buffer r c d (λ h. Records r (calls.set_indices h first count) c d)) }
{
    let Some(mut object) = take(encoder, alloc) else {
        return NO_OBJECT;
    };
    match &mut *object {
        Object::Recording(recording) => {
            let answer = recording.set_indices(buffer, first, count);
            put(encoder, object);
            status(answer)
        }
        _ => {
            put(encoder, object);
            NO_OBJECT
        }
    }
}

/// Takes a copy of bytes as vertices of a layout.
pub fn encoder_set_transient_vertices(
    alloc: Global,
    encoder: &mut Slot,
    layout: u64,
    bytes: &[u8],
) -> u32
    ensures { OnEncoder encoder.old.value encoder.new.value result (λ r c d. OnThing c.rows layout r c d (λ h. Records r (calls.set_transient_vertices h bytes.now) c d)) }
{
    let Some(mut object) = take(encoder, alloc) else {
        return NO_OBJECT;
    };
    match &mut *object {
        Object::Recording(recording) => {
            let answer = recording.set_transient_vertices(layout, bytes);
            put(encoder, object);
            status(answer)
        }
        _ => {
            put(encoder, object);
            NO_OBJECT
        }
    }
}

/// Takes a copy of bytes as indices of two bytes each.
pub fn encoder_set_transient_indices(alloc: Global, encoder: &mut Slot, bytes: &[u8]) -> u32
    ensures { OnEncoder encoder.old.value encoder.new.value result (λ r c d. Records r (calls.set_transient_indices bytes.now) c d) }
{
    let Some(mut object) = take(encoder, alloc) else {
        return NO_OBJECT;
    };
    match &mut *object {
        Object::Recording(recording) => {
            let answer = recording.set_transient_indices(bytes);
            put(encoder, object);
            status(answer)
        }
        _ => {
            put(encoder, object);
            NO_OBJECT
        }
    }
}

/// Puts a texture on stage 0 or 1, or takes it off by 0.
pub fn encoder_set_texture(alloc: Global, encoder: &mut Slot, stage: u8, texture: u64) -> u32
    ensures { OnEncoder encoder.old.value encoder.new.value result (λ r c d. OnMaybe c.rows texture r c d (λ o. Records r (calls.set_texture stage o) c d)) }
{
    let Some(mut object) = take(encoder, alloc) else {
        return NO_OBJECT;
    };
    match &mut *object {
        Object::Recording(recording) => {
            let answer = recording.set_texture(stage, texture);
            put(encoder, object);
            status(answer)
        }
        _ => {
            put(encoder, object);
            NO_OBJECT
        }
    }
}

/// Sets a value of a uniform of four numbers, in units of 1/65536.
pub fn encoder_set_vec4(
    alloc: Global,
    encoder: &mut Slot,
    uniform: u64,
    x: i32,
    y: i32,
    z: i32,
    w: i32,
) -> u32
    ensures { OnEncoder encoder.old.value encoder.new.value result (λ r c d. OnThing c.rows uniform r c d (λ h. Records r (calls.set_uniform h (vec4_value (x ∷ y ∷ z ∷ w ∷ []))) c d)) }
{
    let Some(mut object) = take(encoder, alloc) else {
        return NO_OBJECT;
    };
    match &mut *object {
        Object::Recording(recording) => {
            let answer = recording.set_uniform(uniform, UniformValue::Vec4([x, y, z, w]));
            put(encoder, object);
            status(answer)
        }
        _ => {
            put(encoder, object);
            NO_OBJECT
        }
    }
}

/// Sets a value of a uniform of one whole number.
pub fn encoder_set_int(alloc: Global, encoder: &mut Slot, uniform: u64, value: i32) -> u32
    ensures { OnEncoder encoder.old.value encoder.new.value result (λ r c d. OnThing c.rows uniform r c d (λ h. Records r (calls.set_uniform h (int_value value)) c d)) }
{
    let Some(mut object) = take(encoder, alloc) else {
        return NO_OBJECT;
    };
    match &mut *object {
        Object::Recording(recording) => {
            let answer = recording.set_uniform(uniform, UniformValue::Int(value));
            put(encoder, object);
            status(answer)
        }
        _ => {
            put(encoder, object);
            NO_OBJECT
        }
    }
}

/// Puts down a draw by a program with the current state.
pub fn encoder_submit(
    alloc: Global,
    encoder: &mut Slot,
    view: u16,
    program: u64,
    depth: u32,
    discard: u8,
) -> u32
    ensures { OnEncoder encoder.old.value encoder.new.value result (λ r c d. OnThing c.rows program r c d (λ h. Records r (calls.submit view h depth discard) c d)) }
{
    let Some(mut object) = take(encoder, alloc) else {
        return NO_OBJECT;
    };
    match &mut *object {
        Object::Recording(recording) => {
            let answer = recording.submit(view, program, depth, discard);
            put(encoder, object);
            status(answer)
        }
        _ => {
            put(encoder, object);
            NO_OBJECT
        }
    }
}

/// Resets the parts of the state for the next draw that the flags name, as they are where an encoder begins.
pub fn encoder_discard(alloc: Global, encoder: &mut Slot, discard: u8) -> u32
    ensures { OnEncoder encoder.old.value encoder.new.value result (λ r c d. DiscardsHere r discard c d) }
{
    let Some(mut object) = take(encoder, alloc) else {
        return NO_OBJECT;
    };
    match &mut *object {
        Object::Recording(recording) => {
            let answer = recording.discard(discard);
            put(encoder, object);
            status(answer)
        }
        _ => {
            put(encoder, object);
            NO_OBJECT
        }
    }
}

/// Puts down an empty primitive.
pub fn encoder_touch(alloc: Global, encoder: &mut Slot, view: u16) -> u32
    ensures { OnEncoder encoder.old.value encoder.new.value result (λ r c d. Records r (calls.touch view) c d) }
{
    let Some(mut object) = take(encoder, alloc) else {
        return NO_OBJECT;
    };
    match &mut *object {
        Object::Recording(recording) => {
            let answer = recording.touch(view);
            put(encoder, object);
            status(answer)
        }
        _ => {
            put(encoder, object);
            NO_OBJECT
        }
    }
}

/// Puts down a copy of a region between textures.
pub fn encoder_blit(
    alloc: Global,
    encoder: &mut Slot,
    view: u16,
    dst: u64,
    dx: u16,
    dy: u16,
    src: u64,
    sx: u16,
    sy: u16,
    w: u16,
    h: u16,
) -> u32
    ensures { OnEncoder encoder.old.value encoder.new.value result (λ r c d. OnThing c.rows dst r c d (λ to. OnThing c.rows src r c d (λ from. Records r (calls.blit (record { view = view; destination = to; dx = dx; dy = dy; source = from; sx = sx; sy = sy; w = w; h = h })) c d))) }
{
    let Some(mut object) = take(encoder, alloc) else {
        return NO_OBJECT;
    };
    match &mut *object {
        Object::Recording(recording) => {
            let answer = recording.blit(
                view,
                dst,
                src,
                Copied {
                    dx,
                    dy,
                    sx,
                    sy,
                    w,
                    h,
                },
            );
            put(encoder, object);
            status(answer)
        }
        _ => {
            put(encoder, object);
            NO_OBJECT
        }
    }
}

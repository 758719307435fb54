// The record calls of encoders for C.
ghost use Rattle.std.specs.Prelude.{◌≡◌, ◌∷◌, []};
ghost use Rattle.gfx_model.specs.Recorder as calls;
ghost use Rattle.gfx_model.specs.Words.{vec4_value, int_value};
ghost use Rattle.c_calls.specs.Calls.{Records, DiscardsHere, OnThing, OnMaybe};
ghost use Rattle.c_calls.specs.Exports.{OnEncoder};

use c_calls::{
    Slot, Transform, encoder_blit, encoder_discard, encoder_set_indices, encoder_set_int,
    encoder_set_scissor, encoder_set_state, encoder_set_stencil, encoder_set_texture,
    encoder_set_transform, encoder_set_transient_indices, encoder_set_transient_vertices,
    encoder_set_vec4, encoder_set_vertices, encoder_submit, encoder_touch,
};
use std::alloc::Global;

/// Sets the state word of the next draws.
#[unsafe(no_mangle)]
pub extern "C" fn vgfx_encoder_set_state(alloc: Global, encoder: &mut Slot, word: u64) -> u32
    ensures { OnEncoder encoder.old.value encoder.new.value result (λ r c d. Records r (calls.set_state word) c d) }
{
    encoder_set_state(alloc, encoder, word)
}

/// Sets the stencil words for triangles that face to the front and to the back; 0 is no stencil.
#[unsafe(no_mangle)]
pub extern "C" fn vgfx_encoder_set_stencil(
    alloc: Global,
    encoder: &mut Slot,
    front: u32,
    back: u32,
) -> u32
    ensures { OnEncoder encoder.old.value encoder.new.value result (λ r c d. Records r (calls.set_stencil front back) c d) }
{
    encoder_set_stencil(alloc, encoder, front, back)
}

/// Sets the scissor in pixels; with both sides 0 there is none.
#[unsafe(no_mangle)]
pub extern "C" fn vgfx_encoder_set_scissor(
    alloc: Global,
    encoder: &mut Slot,
    x: u16,
    y: u16,
    w: u16,
    h: u16,
) -> u32
    ensures { OnEncoder encoder.old.value encoder.new.value result (λ r c d. Records r (calls.set_scissor (record { x = x; y = y; w = w; h = h })) c d) }
{
    encoder_set_scissor(alloc, encoder, x, y, w, h)
}

/// Sets the transform from the vertices to the view.
#[unsafe(no_mangle)]
pub extern "C" fn vgfx_encoder_set_transform(
    alloc: Global,
    encoder: &mut Slot,
    transform: &Transform,
) -> u32
    ensures { OnEncoder encoder.old.value encoder.new.value result (λ r c d. Records r (calls.set_transform transform.now.m) c d) }
{
    encoder_set_transform(alloc, encoder, transform)
}

/// Takes vertices of a buffer.
#[unsafe(no_mangle)]
pub extern "C" fn vgfx_encoder_set_vertices(
    alloc: Global,
    encoder: &mut Slot,
    buffer: u64,
    first: u32,
    count: u32,
) -> u32
    ensures { OnEncoder encoder.old.value encoder.new.value result (λ r c d. OnThing c.rows buffer r c d (λ h. Records r (calls.set_vertices h first count) c d)) }
{
    encoder_set_vertices(alloc, encoder, buffer, first, count)
}

/// Takes indices of a buffer.
#[unsafe(no_mangle)]
pub extern "C" fn vgfx_encoder_set_indices(
    alloc: Global,
    encoder: &mut Slot,
    buffer: u64,
    first: u32,
    count: u32,
) -> u32
    ensures { OnEncoder encoder.old.value encoder.new.value result (λ r c d. OnThing c.rows buffer r c d (λ h. Records r (calls.set_indices h first count) c d)) }
{
    encoder_set_indices(alloc, encoder, buffer, first, count)
}

/// Takes a copy of bytes as vertices of a layout.
#[unsafe(no_mangle)]
pub extern "C" fn vgfx_encoder_set_transient_vertices(
    alloc: Global,
    encoder: &mut Slot,
    layout: u64,
    bytes: &[u8],
) -> u32
    ensures { OnEncoder encoder.old.value encoder.new.value result (λ r c d. OnThing c.rows layout r c d (λ h. Records r (calls.set_transient_vertices h bytes.now) c d)) }
{
    encoder_set_transient_vertices(alloc, encoder, layout, bytes)
}

/// Takes a copy of bytes as indices of two bytes each.
#[unsafe(no_mangle)]
pub extern "C" fn vgfx_encoder_set_transient_indices(
    alloc: Global,
    encoder: &mut Slot,
    bytes: &[u8],
) -> u32
    ensures { OnEncoder encoder.old.value encoder.new.value result (λ r c d. Records r (calls.set_transient_indices bytes.now) c d) }
{
    encoder_set_transient_indices(alloc, encoder, bytes)
}

/// Puts a texture on stage 0 or 1, or takes it off by 0.
#[unsafe(no_mangle)]
pub extern "C" fn vgfx_encoder_set_texture(
    alloc: Global,
    encoder: &mut Slot,
    stage: u8,
    texture: u64,
) -> u32
    ensures { OnEncoder encoder.old.value encoder.new.value result (λ r c d. OnMaybe c.rows texture r c d (λ o. Records r (calls.set_texture stage o) c d)) }
{
    encoder_set_texture(alloc, encoder, stage, texture)
}

/// Sets a value of a uniform of four numbers, in units of 1/65536.
#[unsafe(no_mangle)]
pub extern "C" fn vgfx_encoder_set_vec4(
    alloc: Global,
    encoder: &mut Slot,
    uniform: u64,
    x: i32,
    y: i32,
    z: i32,
    w: i32,
) -> u32
    ensures { OnEncoder encoder.old.value encoder.new.value result (λ r c d. OnThing c.rows uniform r c d (λ h. Records r (calls.set_uniform h (vec4_value (x ∷ y ∷ z ∷ w ∷ []))) c d)) }
{
    encoder_set_vec4(alloc, encoder, uniform, x, y, z, w)
}

/// Sets a value of a uniform of one whole number.
#[unsafe(no_mangle)]
pub extern "C" fn vgfx_encoder_set_int(
    alloc: Global,
    encoder: &mut Slot,
    uniform: u64,
    value: i32,
) -> u32
    ensures { OnEncoder encoder.old.value encoder.new.value result (λ r c d. OnThing c.rows uniform r c d (λ h. Records r (calls.set_uniform h (int_value value)) c d)) }
{
    encoder_set_int(alloc, encoder, uniform, value)
}

/// Puts down a draw by a program with the current state.
#[unsafe(no_mangle)]
pub extern "C" fn vgfx_encoder_submit(
    alloc: Global,
    encoder: &mut Slot,
    view: u16,
    program: u64,
    depth: u32,
    discard: u8,
) -> u32
    ensures { OnEncoder encoder.old.value encoder.new.value result (λ r c d. OnThing c.rows program r c d (λ h. Records r (calls.submit view h depth discard) c d)) }
{
    encoder_submit(alloc, encoder, view, program, depth, discard)
}

/// Resets the parts of the state for the next draw that the flags name, as they are where an encoder begins.
#[unsafe(no_mangle)]
pub extern "C" fn vgfx_encoder_discard(alloc: Global, encoder: &mut Slot, discard: u8) -> u32
    ensures { OnEncoder encoder.old.value encoder.new.value result (λ r c d. DiscardsHere r discard c d) }
{
    encoder_discard(alloc, encoder, discard)
}

/// Puts down an empty primitive.
#[unsafe(no_mangle)]
pub extern "C" fn vgfx_encoder_touch(alloc: Global, encoder: &mut Slot, view: u16) -> u32
    ensures { OnEncoder encoder.old.value encoder.new.value result (λ r c d. Records r (calls.touch view) c d) }
{
    encoder_touch(alloc, encoder, view)
}

/// Puts down a copy of a region between textures.
#[unsafe(no_mangle)]
pub extern "C" fn vgfx_encoder_blit(
    alloc: Global,
    encoder: &mut Slot,
    view: u16,
    dst: u64,
    dx: u16,
    dy: u16,
    src: u64,
    sx: u16,
    sy: u16,
    w: u16,
    h: u16,
) -> u32
    ensures { OnEncoder encoder.old.value encoder.new.value result (λ r c d. OnThing c.rows dst r c d (λ to. OnThing c.rows src r c d (λ from. Records r (calls.blit (record { view = view; destination = to; dx = dx; dy = dy; source = from; sx = sx; sy = sy; w = w; h = h })) c d))) }
{
    encoder_blit(alloc, encoder, view, dst, dx, dy, src, sx, sy, w, h)
}

// Changes of things for C.
ghost use Rattle.std.specs.Prelude.{◌≡◌, ⊤};
ghost use Rattle.gfx_model.specs.Resources as model;
ghost use Rattle.c_calls.specs.Calls.{DestroysHere, UpdatesHere, OnThing};
ghost use Rattle.c_calls.specs.Exports.{OnContext};

use c_calls::{Slot, destroy, update_buffer, update_texture};
use std::alloc::Global;

/// Changes bytes of a vertex or index buffer.
#[unsafe(no_mangle)]
pub extern "C" fn vgfx_update_buffer(
    alloc: Global,
    context: &mut Slot,
    buffer: u64,
    offset: u32,
    bytes: &[u8],
) -> u32
    ensures { OnContext context.old.value context.new.value result (λ r c d. OnThing c.rows buffer r c d (λ h. UpdatesHere r (model.update_buffer h offset bytes.now) c d)) ⊤ }
{
    update_buffer(alloc, context, buffer, offset, bytes)
}

/// Changes texels of a texture.
#[unsafe(no_mangle)]
pub extern "C" fn vgfx_update_texture(
    alloc: Global,
    context: &mut Slot,
    texture: u64,
    x: u16,
    y: u16,
    w: u16,
    h: u16,
    bytes: &[u8],
) -> u32
    ensures { OnContext context.old.value context.new.value result (λ r c d. OnThing c.rows texture r c d (λ thing. UpdatesHere r (model.update_texture thing (record { x = x; y = y; w = w; h = h }) bytes.now) c d)) ⊤ }
{
    update_texture(alloc, context, texture, x, y, w, h, bytes)
}

/// Destroys a thing, or takes one reference of a uniform.
#[unsafe(no_mangle)]
pub extern "C" fn vgfx_destroy(alloc: Global, context: &mut Slot, thing: u64) -> u32
    ensures { OnContext context.old.value context.new.value result (λ r c d. OnThing c.rows thing r c d (λ h. DestroysHere r h c d)) ⊤ }
{
    destroy(alloc, context, thing)
}

// Changes of things, on the handle of a context.
ghost use Rattle.std.specs.Prelude.{◌≡◌, ⊤};
ghost use Rattle.gfx_model.specs.Resources as model;
ghost use Rattle.c_calls.specs.Calls.{DestroysHere, UpdatesHere, OnThing};
ghost use Rattle.c_calls.specs.Exports.{OnContext};

use crate::held::put_other;
use crate::objects::Object;
use crate::slot::{Slot, put, take};
use c_words::{NO_OBJECT, status};
use fix_math::Rect;
use std::alloc::Global;

/// Changes bytes of a vertex or index buffer.
pub fn update_buffer(
    alloc: Global,
    context: &mut Slot,
    buffer: u64,
    offset: u32,
    bytes: &[u8],
) -> u32
    ensures { OnContext context.old.value context.new.value result (λ r c d. OnThing c.rows buffer r c d (λ h. UpdatesHere r (model.update_buffer h offset bytes.now) c d)) ⊤ }
{
    let Some(mut object) = take(context, alloc) else {
        return NO_OBJECT;
    };
    match &mut *object {
        Object::Api(api) => {
            let answer = api.update_buffer(buffer, offset, bytes);
            put(context, object);
            status(answer)
        }
        _ => put_other(context, object),
    }
}

/// Changes texels of a texture.
pub fn update_texture(
    alloc: Global,
    context: &mut Slot,
    texture: u64,
    x: u16,
    y: u16,
    w: u16,
    h: u16,
    bytes: &[u8],
) -> u32
    ensures { OnContext context.old.value context.new.value result (λ r c d. OnThing c.rows texture r c d (λ thing. UpdatesHere r (model.update_texture thing (record { x = x; y = y; w = w; h = h }) bytes.now) c d)) ⊤ }
{
    let Some(mut object) = take(context, alloc) else {
        return NO_OBJECT;
    };
    match &mut *object {
        Object::Api(api) => {
            let answer = api.update_texture(texture, Rect { x, y, w, h }, bytes);
            put(context, object);
            status(answer)
        }
        _ => put_other(context, object),
    }
}

/// Destroys a thing, or takes one reference of a uniform.
pub fn destroy(alloc: Global, context: &mut Slot, thing: u64) -> u32
    ensures { OnContext context.old.value context.new.value result (λ r c d. OnThing c.rows thing r c d (λ h. DestroysHere r h c d)) ⊤ }
{
    let Some(mut object) = take(context, alloc) else {
        return NO_OBJECT;
    };
    match &mut *object {
        Object::Api(api) => {
            let answer = api.destroy(thing);
            put(context, object);
            status(answer)
        }
        _ => put_other(context, object),
    }
}

// Views, on the handle of a context.
ghost use Rattle.std.specs.Prelude.{◌≡◌, ◌∷◌, [], ⊤, Err, MatchOption};
ghost use Rattle.gfx_model.specs.Resources as model;
ghost use Rattle.c_words.specs.declared.faults.Fault.TheVariants as faults;
ghost use Rattle.c_calls.specs.Calls.{ChangesHere, OnMaybe};
ghost use Rattle.c_calls.specs.Exports.{OnContext};
ghost use Rattle.c_words.specs.Modes.{mode_of_number};

use crate::held::put_other;
use crate::objects::Object;
use crate::slot::{Slot, put, take};
use crate::transform::Transform;
use c_words::{NO_OBJECT, status};
use fix_math::{Affine, Rect};
use std::alloc::Global;

/// Sets the part of its target that a view draws on.
pub fn set_view_rect(
    alloc: Global,
    context: &mut Slot,
    view: u16,
    x: u16,
    y: u16,
    w: u16,
    h: u16,
) -> u32
    ensures { OnContext context.old.value context.new.value result (λ r c d. ChangesHere r (model.set_view_rect view (record { x = x; y = y; w = w; h = h })) c d) ⊤ }
{
    let Some(mut object) = take(context, alloc) else {
        return NO_OBJECT;
    };
    match &mut *object {
        Object::Api(api) => {
            let answer = api.set_view_rect(view, Rect { x, y, w, h });
            put(context, object);
            status(answer)
        }
        _ => put_other(context, object),
    }
}

/// Sets the scissor of a view; with both sides 0 there is none.
pub fn set_view_scissor(
    alloc: Global,
    context: &mut Slot,
    view: u16,
    x: u16,
    y: u16,
    w: u16,
    h: u16,
) -> u32
    ensures { OnContext context.old.value context.new.value result (λ r c d. ChangesHere r (model.set_view_scissor view (record { x = x; y = y; w = w; h = h })) c d) ⊤ }
{
    let Some(mut object) = take(context, alloc) else {
        return NO_OBJECT;
    };
    match &mut *object {
        Object::Api(api) => {
            let answer = api.set_view_scissor(view, Rect { x, y, w, h });
            put(context, object);
            status(answer)
        }
        _ => put_other(context, object),
    }
}

/// Sets what entering a view clears: 1 the colour, 2 the depth, 4 the stencil.
pub fn set_view_clear(
    alloc: Global,
    context: &mut Slot,
    view: u16,
    flags: u8,
    red: u8,
    green: u8,
    blue: u8,
    alpha: u8,
    depth: u32,
    stencil: u8,
) -> u32
    ensures { OnContext context.old.value context.new.value result (λ r c d. ChangesHere r (model.set_view_clear view (record { flags = flags; color = red ∷ green ∷ blue ∷ alpha ∷ []; depth = depth; stencil = stencil })) c d) ⊤ }
{
    let Some(mut object) = take(context, alloc) else {
        return NO_OBJECT;
    };
    match &mut *object {
        Object::Api(api) => {
            let answer = api.set_view_clear(view, flags, [red, green, blue, alpha], depth, stencil);
            put(context, object);
            status(answer)
        }
        _ => put_other(context, object),
    }
}

/// Sets how a view orders its draws and touches: 0 by program, 1 as they come, 2 by ascending depth, 3 by descending depth.
pub fn set_view_mode(alloc: Global, context: &mut Slot, view: u16, mode: u32) -> u32
    ensures { OnContext context.old.value context.new.value result (λ r c d. MatchOption (mode_of_number mode) ((r ≡ Err faults.BadValue) × (d ≡ c)) (λ m. ChangesHere r (model.set_view_mode view m) c d)) ⊤ }
{
    let Some(mut object) = take(context, alloc) else {
        return NO_OBJECT;
    };
    match &mut *object {
        Object::Api(api) => {
            let answer = api.set_view_mode(view, mode);
            put(context, object);
            status(answer)
        }
        _ => put_other(context, object),
    }
}

/// Sets the transform of a view.
pub fn set_view_transform(
    alloc: Global,
    context: &mut Slot,
    view: u16,
    transform: &Transform,
) -> u32
    ensures { OnContext context.old.value context.new.value result (λ r c d. ChangesHere r (model.set_view_transform view transform.now.m) c d) ⊤ }
{
    let Some(mut object) = take(context, alloc) else {
        return NO_OBJECT;
    };
    match &mut *object {
        Object::Api(api) => {
            let answer = api.set_view_transform(view, Affine { m: transform.m });
            put(context, object);
            status(answer)
        }
        _ => put_other(context, object),
    }
}

/// Sets the target of a view, a frame buffer, or the back buffer by 0.
pub fn set_view_target(alloc: Global, context: &mut Slot, view: u16, target: u64) -> u32
    ensures { OnContext context.old.value context.new.value result (λ r c d. OnMaybe c.rows target r c d (λ o. ChangesHere r (model.set_view_target view o) c d)) ⊤ }
{
    let Some(mut object) = take(context, alloc) else {
        return NO_OBJECT;
    };
    match &mut *object {
        Object::Api(api) => {
            let answer = api.set_view_target(view, target);
            put(context, object);
            status(answer)
        }
        _ => put_other(context, object),
    }
}

/// Sets the views that come first.
pub fn set_view_order(alloc: Global, context: &mut Slot, views: &[u16]) -> u32
    ensures { OnContext context.old.value context.new.value result (λ r c d. ChangesHere r (model.set_view_order views.now) c d) ⊤ }
{
    let Some(mut object) = take(context, alloc) else {
        return NO_OBJECT;
    };
    match &mut *object {
        Object::Api(api) => {
            let answer = api.set_view_order(views);
            put(context, object);
            status(answer)
        }
        _ => put_other(context, object),
    }
}

/// Sets a view as it is at first.
pub fn reset_view(alloc: Global, context: &mut Slot, view: u16) -> u32
    ensures { OnContext context.old.value context.new.value result (λ r c d. ChangesHere r (model.reset_view view) c d) ⊤ }
{
    let Some(mut object) = take(context, alloc) else {
        return NO_OBJECT;
    };
    match &mut *object {
        Object::Api(api) => {
            let answer = api.reset_view(view);
            put(context, object);
            status(answer)
        }
        _ => put_other(context, object),
    }
}

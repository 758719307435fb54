// Making things, on the handle of a context.
ghost use Rattle.std.specs.Prelude.{◌≡◌, ◌∷◌, [], nat_lt, Err, MatchOption};
ghost use Rattle.gfx_model.specs.Resources as model;
ghost use Rattle.gfx_model.specs.Words.{program_of_number, format_of_number, uniform_of_number};
ghost use Rattle.c_words.specs.declared.faults.Fault.TheVariants as faults;
ghost use Rattle.c_calls.specs.Calls.{CreatesHere, CreatesTexture, MakesLayout, OnThing, OnMaybe};
ghost use Rattle.c_calls.specs.Exports.{OnContext, word_after};
ghost use Rattle.c_words.specs.Layouts.{parts_of};
ghost use Rattle.c_words.specs.Statuses.{status_of};

use crate::held::put_other;
use crate::objects::Object;
use crate::slot::{Slot, put, take};
use c_words::{Fault, NO_OBJECT, Part};
use gfx_words::Handle;
use std::alloc::Global;

// Hands the word of what was made to C.
fn word(answer: Result<Handle, Fault>, thing: &mut u64) -> u32
    ensures status { result ≡ status_of answer }
    ensures thing { thing.new ≡ word_after answer thing.old }
{
    match answer {
        Ok(h) => {
            *thing = h.word();
            0
        }
        Err(fault) => fault.number(),
    }
}

/// Makes a layout of parts, one behind the other.
pub fn create_layout(alloc: Global, context: &mut Slot, parts: &[Part], thing: &mut u64) -> u32
    ensures { OnContext context.old.value context.new.value result (λ r c d. (thing.new ≡ word_after r thing.old) × MakesLayout (parts_of parts.now) r c d) (thing.new ≡ thing.old) }
{
    let Some(mut object) = take(context, alloc) else {
        return NO_OBJECT;
    };
    match &mut *object {
        Object::Api(api) => {
            let answer = api.create_layout(parts);
            put(context, object);
            word(answer, thing)
        }
        _ => put_other(context, object),
    }
}

/// Makes a vertex buffer of a layout.
pub fn create_vertex_buffer(
    alloc: Global,
    context: &mut Slot,
    layout: u64,
    bytes: &[u8],
    thing: &mut u64,
) -> u32
    ensures { OnContext context.old.value context.new.value result (λ r c d. (thing.new ≡ word_after r thing.old) × OnThing c.rows layout r c d (λ h. CreatesHere r (model.create_vertex_buffer h bytes.now) c d)) (thing.new ≡ thing.old) }
{
    let Some(mut object) = take(context, alloc) else {
        return NO_OBJECT;
    };
    match &mut *object {
        Object::Api(api) => {
            let answer = api.create_vertex_buffer(layout, bytes);
            put(context, object);
            word(answer, thing)
        }
        _ => put_other(context, object),
    }
}

/// Makes an index buffer, of indices of two bytes.
pub fn create_index_buffer(alloc: Global, context: &mut Slot, bytes: &[u8], thing: &mut u64) -> u32
    ensures { OnContext context.old.value context.new.value result (λ r c d. (thing.new ≡ word_after r thing.old) × CreatesHere r (model.create_index_buffer bytes.now) c d) (thing.new ≡ thing.old) }
{
    let Some(mut object) = take(context, alloc) else {
        return NO_OBJECT;
    };
    match &mut *object {
        Object::Api(api) => {
            let answer = api.create_index_buffer(bytes);
            put(context, object);
            word(answer, thing)
        }
        _ => put_other(context, object),
    }
}

/// Makes a texture of texels of four bytes. A `blit` of 0 makes one that no blit may write.
pub fn create_texture(
    alloc: Global,
    context: &mut Slot,
    width: u16,
    height: u16,
    format: u32,
    blit: u8,
    bytes: &[u8],
    thing: &mut u64,
) -> u32
    ensures { OnContext context.old.value context.new.value result (λ r c d. (thing.new ≡ word_after r thing.old) × MatchOption (format_of_number format) ((r ≡ Err faults.BadValue) × (d ≡ c)) (λ f. CreatesTexture r width height f (nat_lt 0 blit) bytes.now c d)) (thing.new ≡ thing.old) }
{
    let Some(mut object) = take(context, alloc) else {
        return NO_OBJECT;
    };
    match &mut *object {
        Object::Api(api) => {
            let answer = api.create_texture(width, height, format, blit > 0, bytes);
            put(context, object);
            word(answer, thing)
        }
        _ => put_other(context, object),
    }
}

/// Makes a texture all of whose texels are these four bytes.
pub fn create_filled_texture(
    alloc: Global,
    context: &mut Slot,
    width: u16,
    height: u16,
    format: u32,
    blit: u8,
    red: u8,
    green: u8,
    blue: u8,
    alpha: u8,
    thing: &mut u64,
) -> u32
    ensures { OnContext context.old.value context.new.value result (λ r c d. (thing.new ≡ word_after r thing.old) × MatchOption (format_of_number format) ((r ≡ Err faults.BadValue) × (d ≡ c)) (λ f. CreatesHere r (model.create_texture width height f (nat_lt 0 blit) (model.fill_source (red ∷ green ∷ blue ∷ alpha ∷ []))) c d)) (thing.new ≡ thing.old) }
{
    let Some(mut object) = take(context, alloc) else {
        return NO_OBJECT;
    };
    match &mut *object {
        Object::Api(api) => {
            let answer = api.create_filled_texture(
                width,
                height,
                format,
                blit > 0,
                [red, green, blue, alpha],
            );
            put(context, object);
            word(answer, thing)
        }
        _ => put_other(context, object),
    }
}

/// Makes a frame buffer of a colour texture, and of a depth texture or none by 0.
pub fn create_frame_buffer(
    alloc: Global,
    context: &mut Slot,
    color: u64,
    depth: u64,
    thing: &mut u64,
) -> u32
    ensures { OnContext context.old.value context.new.value result (λ r c d. (thing.new ≡ word_after r thing.old) × OnThing c.rows color r c d (λ h. OnMaybe c.rows depth r c d (λ o. CreatesHere r (model.create_frame_buffer h o) c d))) (thing.new ≡ thing.old) }
{
    let Some(mut object) = take(context, alloc) else {
        return NO_OBJECT;
    };
    match &mut *object {
        Object::Api(api) => {
            let answer = api.create_frame_buffer(color, depth);
            put(context, object);
            word(answer, thing)
        }
        _ => put_other(context, object),
    }
}

/// Makes a program: 0 the colour uniform, 1 the vertex colour, 2 the sample, 3 the product of the last two.
pub fn create_program(alloc: Global, context: &mut Slot, program: u32, thing: &mut u64) -> u32
    ensures { OnContext context.old.value context.new.value result (λ r c d. (thing.new ≡ word_after r thing.old) × MatchOption (program_of_number program) ((r ≡ Err faults.BadValue) × (d ≡ c)) (λ k. CreatesHere r (model.create_program k) c d)) (thing.new ≡ thing.old) }
{
    let Some(mut object) = take(context, alloc) else {
        return NO_OBJECT;
    };
    match &mut *object {
        Object::Api(api) => {
            let answer = api.create_program(program);
            put(context, object);
            word(answer, thing)
        }
        _ => put_other(context, object),
    }
}

/// Makes a uniform, 0 of four numbers and 1 of one, or refers to the live one of that name once more.
pub fn create_uniform(
    alloc: Global,
    context: &mut Slot,
    name: &[u8],
    kind: u32,
    thing: &mut u64,
) -> u32
    ensures { OnContext context.old.value context.new.value result (λ r c d. (thing.new ≡ word_after r thing.old) × MatchOption (uniform_of_number kind) ((r ≡ Err faults.BadValue) × (d ≡ c)) (λ k. CreatesHere r (model.create_uniform name.now k) c d)) (thing.new ≡ thing.old) }
{
    let Some(mut object) = take(context, alloc) else {
        return NO_OBJECT;
    };
    match &mut *object {
        Object::Api(api) => {
            let answer = api.create_uniform(name, kind);
            put(context, object);
            word(answer, thing)
        }
        _ => put_other(context, object),
    }
}

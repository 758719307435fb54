// The draw order of a frame with all items that a frame can have.
ghost use Rattle.std.specs.Prelude.{◌≡◌, ℕ, List};
ghost use Rattle.gfx_model.specs.World.{Item as SeenItem};
ghost use Rattle.frame_record.specs.Links.{frames_of};

use crate::cases::{Calls, Case, told};
use frame_record::{Frame, JournalEntry, OrderedItem, end_of_run};
use frame_swap::RenderEnd;
use gfx_context::{Encoder, Naming, Room};
use std::alloc::Global;
use std::sync::Wait;
use std::test::Fail;

const ITEMS: Room = Room {
    items: 8191,
    bytes: 0,
    uniforms: 0,
};

// Touches the 256 views in turn, and tells how many touches were accepted.
fn touches<C: Naming>(encoder: &mut Encoder<'_, C>) -> u32 {
    for taken in 0..8191u32 {
        if encoder.touch((taken % 256) as u16).is_err() {
            return taken;
        }
    }
    8191
}

// The next encoder.
fn begun<'t, C: Naming, R: Wait>(context: &mut Calls<'t, '_, C, R>) -> Option<Encoder<'t, C>> {
    if context.is_ended() {
        return None;
    }
    match context.begin(ITEMS) {
        Ok(encoder) => Some(encoder),
        Err(_) => None,
    }
}

// An encoder fills its room. How many touches were accepted.
fn filled<C: Naming, R: Wait>(rt: &R, context: &mut Calls<'_, '_, C, R>) -> Option<u32>
    requires admits { (e f d : ℕ) (items : List SeenItem) → C.admits e f items d }
{
    let mut encoder = begun(context)?;
    let taken = touches(&mut encoder);
    encoder.end(rt, 0);
    Some(taken)
}

// Eight encoders do. How many touches were accepted.
fn eight<C: Naming, R: Wait>(rt: &R, context: &mut Calls<'_, '_, C, R>) -> Option<u32>
    requires admits { (e f d : ℕ) (items : List SeenItem) → C.admits e f items d }
{
    let mut all = 0u32;
    for _ in 0..8u8 {
        all = all.wrapping_add(filled(rt, context)?);
    }
    Some(all)
}

/// What is asked of an order: its items, the touches of view 0, the first of them, the first of view 1, and the last of view 255.
pub type Order = (usize, usize, [Option<JournalEntry>; 3]);

fn asked(order: &[OrderedItem]) -> Order {
    let first = order.first().map(|item| item.entry);
    let second = order.get(256).map(|item| item.entry);
    let last = order.last().map(|item| item.entry);
    (order.len(), end_of_run(order, 0, 0), [first, second, last])
}

/// A frame of eight full encoders is given. How many touches were accepted.
pub fn all_given<C: Naming, R: Wait>(rt: &R, context: &mut Calls<'_, '_, C, R>) -> Option<u32>
    requires admits { (e f d : ℕ) (items : List SeenItem) → C.admits e f items d }
{
    let touched = eight(rt, context)?;
    if context.is_ended() {
        return None;
    }
    match context.frame(rt) {
        Ok(_) => Some(touched),
        Err(_) => None,
    }
}

// The order of a frame.
fn order_of(alloc: Global, frame: &Frame) -> Option<Order> {
    let mut order = Vec::new(alloc);
    match frame.ordered(&mut order) {
        Ok(_) => Some(asked(&order)),
        Err(_) => None,
    }
}

/// The order of the frame that the renderer's end takes.
pub fn order_taken(alloc: Global, render: &mut RenderEnd) -> Option<Order>
    requires { render.old.seat.me.0.taken ≡ frames_of render.old.seat.me.0.returned }
{
    match render.try_take() {
        Ok(Some(frame)) => order_of(alloc, &frame),
        _ => None,
    }
}

// Touch k of an encoder is of view k mod 256, so view 0 has 32 touches of each encoder and view 255 has 31, the last of them number 7,935.
#[test]
fn the_order_of_all_items(rt: HostRuntime) -> Result<(), Fail> {
    let (_, touched, order) = told(&rt, rt.alloc(), Case::Frame).ok_or("memory")?;
    let (items, of_first, entries) = order.ok_or("refused")?;
    assert_eq!(rt; (touched, items, of_first), (Some(65_528), 65_528, 256));
    let first = JournalEntry {
        encoder: 0,
        ordinal: 0,
    };
    let second = JournalEntry {
        encoder: 0,
        ordinal: 1,
    };
    let last = JournalEntry {
        encoder: 7,
        ordinal: 7935,
    };
    assert_eq!(rt; entries, [Some(first), Some(second), Some(last)]);
    Ok(())
}

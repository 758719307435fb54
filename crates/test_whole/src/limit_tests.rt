// Limits that no scene can pass, since its text has them too: each at its greatest number and one past it, by the calls of a context.
use crate::cases::{Calls, Case, told};
use gfx_context::{Naming, Room};
use gfx_words::{Refusal, UniformKind};
use resource_book::ResourceCalls;
use std::sync::Wait;

/// What calls at names and clears answered; and how many encoders were begun behind a room, and its refusal.
pub type Limits = ([Option<Refusal>; 8], [(u32, Option<Refusal>); 6]);

// The refusal of a call.
fn refusal_of<T: Drop>(answer: Result<T, Refusal>) -> Option<Refusal> {
    match answer {
        Ok(_made) => None,
        Err(refusal) => Some(refusal),
    }
}

// The answers to names of 32 and of 33 bytes and of none, and to the first one again for the other kind; and to what view 255 clears at the
// greatest numbers, to one flag, one of depth and one view more.
fn names_and_clears<B: ResourceCalls>(calls: &mut B) -> [Option<Refusal>; 8] {
    [
        refusal_of(calls.create_uniform(&[97; 32], UniformKind::Int)),
        refusal_of(calls.create_uniform(&[97; 33], UniformKind::Int)),
        refusal_of(calls.create_uniform(&[], UniformKind::Int)),
        refusal_of(calls.create_uniform(&[97; 32], UniformKind::Vec4)),
        refusal_of(calls.set_view_clear(255, 7, [255; 4], 16_777_215, 255)),
        refusal_of(calls.set_view_clear(255, 8, [255; 4], 0, 0)),
        refusal_of(calls.set_view_clear(255, 0, [255; 4], 16_777_216, 0)),
        refusal_of(calls.set_view_clear(256, 0, [255; 4], 0, 0)),
    ]
}

fn room(items: u32, bytes: u32, uniforms: u32) -> Room {
    Room {
        items,
        bytes,
        uniforms,
    }
}

// How many encoders are begun behind a room, and its refusal.
fn begins<C: Naming, R: Wait>(
    context: &mut Calls<'_, '_, C, R>,
    room: Room,
) -> (u32, Option<Refusal>) {
    if context.is_ended() {
        return (99, None);
    }
    let refusal = refusal_of(context.begin(room));
    (context.begun(), refusal)
}

/// All of it, the rooms outside their range and within it.
pub fn at_limits<C: Naming, R: Wait>(context: &mut Calls<'_, '_, C, R>) -> Limits {
    let answers = names_and_clears(context);
    let begun = [
        begins(context, room(0, 0, 0)),
        begins(context, room(1, 0, 0)),
        begins(context, room(8192, 0, 0)),
        begins(context, room(1, 1_048_577, 0)),
        begins(context, room(1, 0, 8192)),
        begins(context, room(8191, 1_048_576, 8191)),
    ];
    (answers, begun)
}

#[test]
fn names_clears_and_rooms_have_greatest_numbers(rt: HostRuntime) {
    let (limits, _, _) = told(&rt, rt.alloc(), Case::Limits).expect(&rt, "memory");
    let (answers, begun) = limits.expect(&rt, "memory");
    let wanted = [
        None,
        Some(Refusal::BadSize),
        Some(Refusal::BadSize),
        Some(Refusal::WrongKind),
        None,
        Some(Refusal::BadState),
        Some(Refusal::BadState),
        Some(Refusal::BadView),
    ];
    let rooms = [
        (0, Some(Refusal::BadSize)),
        (1, None),
        (1, Some(Refusal::BadSize)),
        (1, Some(Refusal::BadSize)),
        (1, Some(Refusal::BadSize)),
        (2, None),
    ];
    assert!(rt; answers == wanted);
    assert!(rt; begun == rooms);
}

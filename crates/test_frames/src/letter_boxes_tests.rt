// What no clause says: that a letter which was posted is found, once; and the same of one that says that its encoder was given up. What is
// found is what was posted by a clause: `posted` shows it of a number.
ghost use Rattle.std.specs.Prelude.{◌≡◌, ℕ, List, IfSome};
ghost use Rattle.gfx_model.specs.World.{Item};
ghost use Rattle.hold_table.specs.Seats.{table_of};

use draw_encoder::{Recorder, Room};
use hold_table::HoldTable;
use letter_boxes::{Posting, Shared, Unclaimed};
use std::alloc::Global;
use std::marker::Brand;

const ROOM: Room = Room {
    items: 2,
    bytes: 0,
    uniforms: 0,
};

// The boxes beside a table, and an encoder of it with number 5.
fn begun<C: Posting>(alloc: Global) -> Option<(Shared<C>, Recorder)>
    ensures { IfSome result (λ p. (p.1.table ≡ table_of p.0.table) × (p.1.state.recorder.view_count ≡ 512)) }
{
    let (table, mut api) = HoldTable::new(alloc, 3).ok()?;
    let seat = table.split(&mut api, 5);
    let shared = Shared::new(alloc, table).ok()?;
    let recorder = Recorder::start(alloc, seat, 5, 3, ROOM, 512).ok()?;
    Some((shared, recorder))
}

// The number with which an encoder was posted, as it is taken; and whether there was no letter before, and none after.
fn posted<C: Posting>(alloc: Global, dropped: u32) -> Option<(bool, u32, bool)>
    requires posted { (e f : ℕ) (items : List Item) → C.posted e f items dropped }
    requires alone { (e f d : ℕ) (items : List Item) → C.posted e f items d → d ≡ dropped }
    ensures { IfSome result (λ t. t.1 ≡ dropped) }
{
    let (shared, recorder) = begun::<C>(alloc)?;
    let none_before = shared.try_take(5).is_none();
    let Ok(()) = shared.try_post(recorder, dropped) else {
        return None;
    };
    let (recording, _seat) = shared.try_take(5)?.part();
    Some((none_before, recording.dropped, shared.try_take(5).is_none()))
}

fn ended(alloc: Global) -> Option<(bool, u32, bool)> {
    posted::<Brand>(alloc, 9)
}

// Whether none was given up before, whether one is found that was, and whether it is found again, or in its box.
fn given_up(alloc: Global) -> Option<(bool, bool, bool, bool)> {
    let (shared, recorder) = begun::<Unclaimed>(alloc)?;
    let none_before = shared.find_given_up().is_none();
    shared.give_up(recorder);
    let none_in_box = shared.try_take(5).is_none();
    let found = shared.find_given_up().is_some();
    Some((
        none_before,
        none_in_box,
        found,
        shared.find_given_up().is_none(),
    ))
}

#[test]
fn a_letter_and_one_given_up_are_found_once(rt: HostRuntime) {
    assert_eq!(rt; ended(rt.alloc()), Some((true, 9, true)));
    assert_eq!(rt; given_up(rt.alloc()), Some((true, true, true, true)));
}

// The steps of one seat that is the whole, for a link that renders in place.
ghost use Rattle.std.specs.Prelude.{◌≡◌, ◌+◌, ◌%◌, [], ◌∷◌, ◌++◌, length, ◌<◌, true};
ghost use Rattle.atomic_table.specs.Table.{rest};
ghost use Rattle.frame_record.specs.Links.{frames_of, out_of};
ghost use Rattle.frame_swap.specs.Views.{api, None_slot, some_slot, later_of, gave, took, gave_back, came};

use crate::content::Content;
use crate::ends::FrameTable;
use crate::view::{BackHere, Give, Return, TakeHere, View};
use atomic_table::Seat;
use frame_record::{Frame, RenderedFrame};

// A plain write of the slot that the seat took last, which is empty.
fn fill(table: &FrameTable, seat: &mut Seat<Option<Content>, View>, place: usize, value: Content)
    requires seated { seat.old.table_id ≡ table.now.shared.table_id }
    requires slot { seat.old.me.1 ≡ (place, None_slot) ∷ rest seat.old.me.1 }
    ensures same { seat.new.table_id ≡ seat.old.table_id }
    ensures me { seat.new.me ≡ (seat.old.me.0, (place, some_slot value) ∷ rest seat.old.me.1) }
{
    match table.shared.exchange(seat, place, Some(value)) {
        None => {}
        Some(_) => unreachable!(),
    }
}

// A plain read of the slot that the seat took last, which is empty then.
fn empty(table: &FrameTable, seat: &mut Seat<Option<Content>, View>, place: usize) -> Content
    requires seated { seat.old.table_id ≡ table.now.shared.table_id }
    requires slot { (x : Content) × (seat.old.me.1 ≡ (place, some_slot x) ∷ rest seat.old.me.1) }
    ensures same { seat.new.table_id ≡ seat.old.table_id }
    ensures value { seat.old.me.1 ≡ (place, some_slot result) ∷ rest seat.old.me.1 }
    ensures me { seat.new.me ≡ (seat.old.me.0, (place, None_slot) ∷ rest seat.old.me.1) }
{
    match table.shared.exchange(seat, place, None) {
        Some(value) => value,
        None => unreachable!(),
    }
}

/// The frame is given and taken again, in two steps: the one seat is both ends. `place` is the word of the next frame, whose empty
/// slot the seat took last.
pub fn give_here(
    table: &FrameTable,
    seat: &mut Seat<Option<Content>, View>,
    place: usize,
    frame: Frame,
) -> Frame
    requires seated { (seat.old.table_id ≡ table.now.shared.table_id) × (place < table.now.shared.table_id.words) }
    requires is_api { (seat.old.me.0.side ≡ api) × (seat.old.me.0.is_whole ≡ true) × (seat.old.me.0.claimed ≡ table.now.shared.key) }
    requires rendered { (seat.old.me.0.taken ≡ seat.old.me.0.given) × (seat.old.me.0.given ≡ frames_of seat.old.me.0.returned) }
    requires room { length seat.old.me.0.given < length seat.old.me.0.back + table.now.shared.key }
    requires place { place ≡ length seat.old.me.0.given % table.now.shared.key }
    requires slot { seat.old.me.1 ≡ (place, None_slot) ∷ rest seat.old.me.1 }
    ensures same { (seat.new.table_id ≡ seat.old.table_id) × (result ≡ frame) }
    ensures me { seat.new.me ≡ (took frame (gave frame seat.old.me.0), (place, None_slot) ∷ rest seat.old.me.1) }
{
    fill(table, seat, place, Content::Given(frame));
    let shared = &table.shared;
    shared.store::<Give>(seat, place, 1);
    shared.store::<TakeHere>(seat, place, 2);
    match empty(table, seat, place) {
        Content::Given(taken) => taken,
        Content::Back(_) => unreachable!(),
    }
}

/// The frame that was taken last is given back, with its outcome, in one step.
pub fn return_here(
    table: &FrameTable,
    seat: &mut Seat<Option<Content>, View>,
    place: usize,
    back: RenderedFrame,
)
    requires seated { (seat.old.table_id ≡ table.now.shared.table_id) × (place < table.now.shared.table_id.words) }
    requires is_api { (seat.old.me.0.side ≡ api) × (seat.old.me.0.is_whole ≡ true) }
    requires unchanged { seat.old.me.0.taken ≡ frames_of seat.old.me.0.returned ++ back.frame ∷ [] }
    requires place { place ≡ length seat.old.me.0.returned % table.now.shared.key }
    requires slot { seat.old.me.1 ≡ (place, None_slot) ∷ rest seat.old.me.1 }
    ensures same { seat.new.table_id ≡ seat.old.table_id }
    ensures me { seat.new.me ≡ (gave_back back seat.old.me.0, rest seat.old.me.1) }
{
    fill(table, seat, place, Content::Back(back));
    table.shared.store::<Return>(seat, place, 3);
}

/// The oldest frame that is out comes back, in one step. `place` is its word; its slot then is the one that the seat took first.
pub fn back_here(
    table: &FrameTable,
    seat: &mut Seat<Option<Content>, View>,
    place: usize,
) -> RenderedFrame
    requires seated { (seat.old.table_id ≡ table.now.shared.table_id) × (place < table.now.shared.table_id.words) }
    requires is_api { (seat.old.me.0.side ≡ api) × (seat.old.me.0.is_whole ≡ true) × (seat.old.me.0.claimed ≡ table.now.shared.key) }
    requires some_out { length seat.old.me.0.back < length seat.old.me.0.returned }
    requires place { place ≡ length seat.old.me.0.back % table.now.shared.key }
    ensures same { seat.new.table_id ≡ seat.old.table_id }
    ensures me { seat.new.me ≡ (came result seat.old.me.0, seat.old.me.1 ++ (place, None_slot) ∷ []) }
    ensures oldest { seat.old.me.0.given ≡ frames_of seat.old.me.0.back ++ result.frame ∷ out_of seat.old.me.0.given (seat.old.me.0.back ++ result ∷ []) }
    ensures outcome { seat.old.me.0.returned ≡ seat.old.me.0.back ++ result ∷ later_of seat.old.me.0.returned (seat.old.me.0.back ++ result ∷ []) }
{
    table.shared.store::<BackHere>(seat, place, 0);
    let found = empty(table, seat, place);
    seat.turn();
    match found {
        Content::Back(rendered) => rendered,
        Content::Given(_) => unreachable!(),
    }
}

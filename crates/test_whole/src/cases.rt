// What is told of a context of its own, whose frames go to another end.
ghost use Rattle.std.specs.Prelude.{◌≡◌, ℕ, List, []};
ghost use Rattle.gfx_model.specs.Views.{fewest_views};
ghost use Rattle.gfx_model.specs.World.{Item as SeenItem};
ghost use Rattle.hold_table.specs.Seats.{table_of, api_table, api_view};
ghost use Rattle.hold_table.specs.Views.{first_view};
ghost use Rattle.frame_swap.specs.Ends.{given_by, back_by, latency_of};

use crate::limit_tests::{Limits, at_limits};
use crate::order_tests::{Order, all_given, order_taken};
use frame_swap::{ApiEnd, WaitingEnd, swap_pair};
use gfx_context::{Context, Naming, Shared, Start};
use hold_table::{ApiSeat, HoldTable};
use std::alloc::Global;
use std::marker::Brand;
use std::sync::Wait;

const START: Start = Start {
    frame: 0,
    serial: 1,
    views: 256,
    latency: 1,
};

/// The context of a case.
pub type Calls<'t, 'r, C, R> = Context<'t, C, WaitingEnd<'r, R>>;

/// What is tried of a context: its limits, or a frame with all items.
#[derive(Clone, Copy, Drop)]
pub enum Case {
    Limits,
    Frame,
}

/// What calls at limits answered; how many touches were accepted; and the order of the frame that was given.
pub type Told = (Option<Limits>, Option<u32>, Option<Order>);

// The first two, by a context.
fn told_in<C: Naming, R: Wait>(
    rt: &R,
    context: &mut Calls<'_, '_, C, R>,
    case: Case,
) -> (Option<Limits>, Option<u32>)
    requires admits { (e f d : ℕ) (items : List SeenItem) → C.admits e f items d }
{
    match case {
        Case::Limits => (Some(at_limits(context)), None),
        Case::Frame => (None, all_given(rt, context)),
    }
}

// The same by a new context that gives its frames to the end.
fn by_context<C: Naming, R: Wait>(
    rt: &R,
    alloc: Global,
    shared: &Shared<C>,
    seat: ApiSeat,
    api: ApiEnd,
    case: Case,
) -> (Option<Limits>, Option<u32>)
    requires table { (api_table seat ≡ C.table) × (api_view seat ≡ first_view 0) }
    requires views { C.views ≡ fewest_views }
    requires admits { (e f d : ℕ) (items : List SeenItem) → C.admits e f items d }
    requires end { (given_by api ≡ []) × (back_by api ≡ []) × (latency_of api ≡ 1) }
{
    let link = WaitingEnd::new(api, rt);
    match Context::init(alloc, shared, seat, link, START) {
        Ok(mut context) => told_in(rt, &mut context, case),
        Err(_) => (None, None),
    }
}

fn in_shared<C: Naming, R: Wait>(
    rt: &R,
    alloc: Global,
    shared: &Shared<C>,
    seat: ApiSeat,
    case: Case,
) -> Option<Told>
    requires table { (api_table seat ≡ C.table) × (api_view seat ≡ first_view 0) }
    requires views { C.views ≡ fewest_views }
    requires admits { (e f d : ℕ) (items : List SeenItem) → C.admits e f items d }
{
    match swap_pair(alloc, 1) {
        Ok((api, mut render)) => {
            let (limits, touched) = by_context(rt, alloc, shared, seat, api, case);
            Some((limits, touched, order_taken(alloc, &mut render)))
        }
        Err(_) => None,
    }
}

fn by_case<C: Naming, R: Wait>(
    rt: &R,
    alloc: Global,
    table: HoldTable,
    seat: ApiSeat,
    case: Case,
) -> Option<Told>
    requires table { (table_of table ≡ C.table) × (api_table seat ≡ C.table) × (api_view seat ≡ first_view 0) }
    requires views { C.views ≡ fewest_views }
    requires admits { (e f d : ℕ) (items : List SeenItem) → C.admits e f items d }
{
    match Shared::<C>::new(alloc, table) {
        Ok(shared) => in_shared(rt, alloc, &shared, seat, case),
        Err(_) => None,
    }
}

/// What is told of a case; none where there is no memory.
pub fn told<R: Wait>(rt: &R, alloc: Global, case: Case) -> Option<Told> {
    match HoldTable::new(alloc, 0) {
        Ok((table, seat)) => by_case::<Brand, R>(rt, alloc, table, seat, case),
        Err(_) => None,
    }
}

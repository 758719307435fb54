// What each seat of the table knows, and the kinds of step.
use atomic_table::{Join, Play, Split, TableRule};
use std::marker::{Brand, Model, PhantomData};

/// What a seat knows. Contracts see it as a `SeatView`; no value of it is made.
pub struct View {
    nothing: (),
}

impl Model for View {
    ghost use Rattle.hold_table.specs.Views.{SeatView, spent_view};

    ghost Value = { SeatView };

    ghost view = { λ v. spent_view };
}

/// The rule of the table. Its key is the first frame.
pub struct Law;

impl TableRule<(), View, u32> for Law {
    ghost use Rattle.hold_table.specs.Rule.{IsHeld};
    ghost use Rattle.hold_table.specs.Views.{first_view};

    ghost holds = { IsHeld };

    ghost first = { first_view };
}

/// The number of an encoder, which the caller picks.
pub trait Numbered {
    ghost use Rattle.std.specs.Prelude.{ℕ};

    ghost number: { ℕ };
}

impl Numbered for Brand {
    ghost number = { 0 };
}

/// A recorder begins.
pub struct Begin<N> {
    marker: PhantomData<N>,
}

impl<N: Numbered> Split<View> for Begin<N> {
    ghost use Rattle.hold_table.specs.Views.{lent, fresh};

    ghost left = { lent N.number };

    ghost right = { fresh N.number };
}

/// A recorder is joined.
pub struct Gather;

impl Join<View> for Gather {
    ghost use Rattle.hold_table.specs.Views.{gathered, spent_view};

    ghost both = { gathered };

    ghost spent = { spent_view };
}

/// What the joined recorder shows is learnt.
pub struct Learn;

impl Play<(), View> for Learn {
    ghost use Rattle.hold_table.specs.Views.{Learns};

    ghost then = { Learns };
}

/// A number is drawn.
pub struct Draw;

impl Play<(), View> for Draw {
    ghost use Rattle.hold_table.specs.Views.{Draws};

    ghost then = { Draws };
}

/// The next frame starts.
pub struct Advance;

impl Play<(), View> for Advance {
    ghost use Rattle.hold_table.specs.Views.{Advances};

    ghost then = { Advances };
}

/// A place is asked.
pub struct Ask;

impl Play<(), View> for Ask {
    ghost use Rattle.hold_table.specs.Views.{Asks};

    ghost then = { Asks };
}

/// A place becomes live.
pub struct Create;

impl Play<(), View> for Create {
    ghost use Rattle.hold_table.specs.Views.{Creates};

    ghost then = { Creates };
}

/// A place becomes dying.
pub struct Destroy;

impl Play<(), View> for Destroy {
    ghost use Rattle.hold_table.specs.Views.{Destroys};

    ghost then = { Destroys };
}

/// A place becomes free.
pub struct Reclaim;

impl Play<(), View> for Reclaim {
    ghost use Rattle.hold_table.specs.Views.{Reclaims};

    ghost then = { Reclaims };
}

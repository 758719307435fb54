// What each end knows, and the kinds of step.
use crate::content::Content;
use atomic_table::{Join, Play, Split, TableRule};
use std::marker::Model;

/// What a seat knows. Contracts see it as a `SwapView`; no value of it is made.
pub struct View {
    nothing: (),
}

impl Model for View {
    ghost use Rattle.frame_swap.specs.Views.{SwapView, spent_view};

    ghost Value = { SwapView };

    ghost view = { λ v. spent_view };
}

/// The rule of the table. Its key is the latency.
pub struct Law;

impl TableRule<Option<Content>, View, u8> for Law {
    ghost use Rattle.frame_swap.specs.Rule.{IsHeld};
    ghost use Rattle.frame_swap.specs.Views.{first_view};

    ghost holds = { IsHeld };

    ghost first = { λ latency. first_view };
}

/// The API end takes a slot, when the table is new.
pub struct Claim;

impl Play<Option<Content>, View> for Claim {
    ghost use Rattle.frame_swap.specs.Views.{Claims};

    ghost then = { Claims };
}

/// A frame is given.
pub struct Give;

impl Play<Option<Content>, View> for Give {
    ghost use Rattle.frame_swap.specs.Views.{Gives};

    ghost then = { Gives };
}

/// A frame is taken, or the stop is seen.
pub struct Take;

impl Play<Option<Content>, View> for Take {
    ghost use Rattle.frame_swap.specs.Views.{Takes};

    ghost then = { Takes };
}

/// A frame is given back.
pub struct Return;

impl Play<Option<Content>, View> for Return {
    ghost use Rattle.frame_swap.specs.Views.{Returns};

    ghost then = { Returns };
}

/// A frame comes back.
pub struct TakeBack;

impl Play<Option<Content>, View> for TakeBack {
    ghost use Rattle.frame_swap.specs.Views.{TakesBack};

    ghost then = { TakesBack };
}

/// No frame comes any more.
pub struct Stop;

impl Play<Option<Content>, View> for Stop {
    ghost use Rattle.frame_swap.specs.Views.{Stops};

    ghost then = { Stops };
}

/// The render end is made, and joined again.
pub struct Part;

impl Split<View> for Part {
    ghost use Rattle.frame_swap.specs.Views.{parted, render_view};

    ghost left = { parted };

    ghost right = { render_view };
}

impl Join<View> for Part {
    ghost use Rattle.frame_swap.specs.Views.{united, spent_view};

    ghost both = { united };

    ghost spent = { spent_view };
}

/// What both ends know together.
pub struct Learn;

impl Play<Option<Content>, View> for Learn {
    ghost use Rattle.frame_swap.specs.Views.{Learns};

    ghost then = { Learns };
}

/// A frame is taken by the one seat that has the whole.
pub struct TakeHere;

impl Play<Option<Content>, View> for TakeHere {
    ghost use Rattle.frame_swap.specs.Views.{TakesHere};

    ghost then = { TakesHere };
}

/// A frame comes back to the one seat that has the whole.
pub struct BackHere;

impl Play<Option<Content>, View> for BackHere {
    ghost use Rattle.frame_swap.specs.Views.{ComesHere};

    ghost then = { ComesHere };
}

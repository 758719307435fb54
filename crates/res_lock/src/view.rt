// What each seat of the history's table knows, and the kinds of step.
use atomic_table::{Join, Play, Split, TableRule};
use std::marker::{Brand, Model, PhantomData};

/// What a seat knows. Contracts see it as a `PassView`; no value of it is made.
pub struct View {
    nothing: (),
}

impl Model for View {
    ghost use Rattle.res_lock.specs.Views.{PassView, no_view};

    ghost Value = { PassView };

    ghost view = { λ v. no_view };
}

/// The rule of the table: there is one history, which the word counts; each pass has seen a beginning of it, with all of its own calls.
pub struct Law;

impl TableRule<(), View, ()> for Law {
    ghost use Rattle.res_lock.specs.Rule.{IsHeld};
    ghost use Rattle.res_lock.specs.Views.{opening_view};

    ghost holds = { IsHeld };

    ghost first = { λ key. opening_view };
}

/// A pass of the next caller is split off.
pub struct SplitOff;

impl Split<View> for SplitOff {
    ghost use Rattle.res_lock.specs.Views.{split_from, split_off};

    ghost left = { split_from };

    ghost right = { split_off };
}

/// The first pass looks before it splits off the pass of the next caller.
pub struct Look;

impl Play<(), View> for Look {
    ghost use Rattle.res_lock.specs.Views.{Looks};

    ghost then = { Looks };
}

/// Another pass is joined.
pub struct Hear;

impl Join<View> for Hear {
    ghost use Rattle.res_lock.specs.Views.{hears, no_view};

    ghost both = { hears };

    ghost spent = { no_view };
}

/// What the joined pass has seen is learnt.
pub struct Learn;

impl Play<(), View> for Learn {
    ghost use Rattle.res_lock.specs.Views.{Learns};

    ghost then = { Learns };
}

/// The right to append is taken over.
pub struct TakePen;

impl Join<View> for TakePen {
    ghost use Rattle.res_lock.specs.Views.{with_pen, no_view};

    ghost both = { with_pen };

    ghost spent = { no_view };
}

/// The right to append is given up.
pub struct GivePen;

impl Split<View> for GivePen {
    ghost use Rattle.res_lock.specs.Views.{without_pen, pen_of};

    ghost left = { without_pen };

    ghost right = { pen_of };
}

/// The entry that is appended, which the caller picks.
pub trait Written {
    ghost use Rattle.res_lock.specs.Histories.{LockEntry};

    ghost entry: { LockEntry };
}

impl Written for Brand {
    ghost use Rattle.res_lock.specs.Histories.{no_entry};

    ghost entry = { no_entry };
}

/// An entry is appended.
pub struct Append<W> {
    marker: PhantomData<W>,
}

impl<W: Written> Play<(), View> for Append<W> {
    ghost use Rattle.res_lock.specs.Views.{Appends};

    ghost then = { Appends W.entry };
}

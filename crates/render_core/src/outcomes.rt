// The outcomes of a renderer's frames.
ghost use Rattle.std.specs.Prelude.{◌≡◌, ◌<◌, ◌||◌, [], ◌∷◌, ◌++◌, length, not, option_map, true};
ghost use Rattle.render_core.specs.Counted.{shown_after, end_after, new_end, one_skipped};
ghost use Rattle.render_core.specs.Outcomes.{has_ended, is_shown, is_skipped};

use frame_record::Outcome;
use std::marker::Model;

/// Why a frame was not shown, where no earlier one was not.
#[derive(Clone, Copy, Drop, PartialEq, Eq, Debug)]
pub(crate) enum Fault {
    Picture,
    Memory,
}

/// The first frame that was not shown, and how many were skipped after it.
#[derive(Clone, Copy, Drop, PartialEq, Eq, Debug)]
pub(crate) struct End {
    fault: Fault,
    skipped: u64,
}

impl End {
    /// No frame was skipped yet.
    fn new(fault: Fault) -> End
        ensures { result ≡ new_end fault }
    {
        End { fault, skipped: 0 }
    }
}

/// The outcomes of a renderer's frames in order, as numbers: how many were shown, and then the first that was not with
/// those that were skipped after it. A number that stands at the last value of its type stays there.
#[derive(Drop)]
pub(crate) struct Outcomes {
    shown: u64,
    end: Option<End>,
}

impl Model for Outcomes {
    ghost use Rattle.std.specs.Prelude.{List};
    ghost use Rattle.frame_record.specs.declared.frame.Outcome.{Outcome};
    ghost use Rattle.render_core.specs.Counted.{outcomes_in};

    ghost Value = { List Outcome };

    ghost view = { λ s. outcomes_in s.shown s.end };
}

impl Outcomes {
    /// No frame yet.
    pub(crate) fn new() -> Outcomes
        ensures { result ≡ [] }
    {
        Outcomes {
            shown: 0,
            end: None,
        }
    }

    /// Whether a frame was not shown.
    pub(crate) fn has_ended(&self) -> bool
        ensures { result ≡ has_ended self.now }
    {
        self.end.is_some()
    }

    /// No frame is rendered any more.
    pub(crate) fn close(&mut self)
        ensures { has_ended self.new ≡ true }
    {
        self.end = Some(End::new(Fault::Memory));
    }

    /// One frame more. It was skipped exactly where an earlier one was not shown.
    pub(crate) fn add(&mut self, outcome: Outcome)
        requires { is_skipped outcome ≡ has_ended self.old }
        ensures added { length self.old < 18446744073709551615 → self.new ≡ self.old ++ outcome ∷ [] }
        ensures ended { has_ended self.new ≡ (has_ended self.old || not (is_shown outcome)) }
    {
        self.shown = shown_with(self.shown, outcome);
        self.end = end_with(self.end, outcome);
    }
}

fn shown_with(shown: u64, outcome: Outcome) -> u64
    ensures { result ≡ shown_after shown outcome }
{
    match outcome {
        Outcome::Shown => shown.saturating_add(1),
        _ => shown,
    }
}

fn end_with(end: Option<End>, outcome: Outcome) -> Option<End>
    ensures { result ≡ end_after end outcome }
{
    match outcome {
        Outcome::Shown => end,
        Outcome::PictureFault => Some(End::new(Fault::Picture)),
        Outcome::OutOfMemory => Some(End::new(Fault::Memory)),
        Outcome::Skipped => one_more(end),
    }
}

/// One frame more was skipped.
fn one_more(end: Option<End>) -> Option<End>
    ensures { result ≡ option_map one_skipped end }
{
    match end {
        Some(end) => Some(End {
            fault: end.fault,
            skipped: end.skipped.saturating_add(1),
        }),
        None => None,
    }
}

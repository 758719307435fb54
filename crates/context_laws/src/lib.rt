//! What the calls of a context and of its core are to the schedule: each is a run of events, allowed one after the other, where both
//! tables stand for one state before it and after it.
#![tactic(auto)]

ghost use Rattle.context_laws.specs.Runs.{OfCores, LendIs, GiveUpIs, GatherIs, MakeIs, DieIs, GiveIs, AdvanceIs, ReclaimIs, BackIs, HandIs, NewIs};
ghost use Rattle.context_laws.specs.Contexts.{CallsOfCores};

use frame_swap::laws as swap;
use hold_table::laws as hold;

/// Where the hold table, whose API seat knows what the core knows, and the table of the frames stand for one state of the schedule,
/// and a call of the core makes a step of one of them, the step is the event of its kind, which is allowed there, and both stand for
/// the state after it.
///
/// So each premise of the laws `steps_are_events` of both tables that is no seat's to know is met by the clauses of the calls: whether
/// the frame was given, how many encoders were begun, that a place is free, live or long dead, that no encoder is off where a frame is
/// given, and that what it names is in its place. A new core stands for the opening state.
pub fn context_laws()
    ensures new { NewIs }
    ensures lend { OfCores LendIs }
    ensures give_up { OfCores GiveUpIs }
    ensures gather { OfCores GatherIs }
    ensures make { OfCores MakeIs }
    ensures die { OfCores DieIs }
    ensures give { OfCores GiveIs }
    ensures advance { OfCores AdvanceIs }
    ensures reclaim { ReclaimIs }
    ensures take_back { OfCores BackIs }
    ensures hand { OfCores HandIs }
{
    hold::steps_are_events();
    swap::steps_are_events();
}

/// A context's calls on things, its begin and its gathering are those of its core, of which the frame is not given.
pub fn context_calls<L>()
    ensures { CallsOfCores L }
{}

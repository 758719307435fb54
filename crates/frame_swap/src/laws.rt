// Laws of the schedule, and what the steps of the table are to it.
ghost use Rattle.schedule_model.specs.Held.{EveryRunHolds};
ghost use Rattle.frame_swap.specs.Events.{OfSteps, NewIsOpening, GiveIs, TakeIs, ReturnIs, BackIs, TakeHereIs, BackHereIs, SplitIs, JoinIs, LearnIs, ClaimIs, StopIs, EachStands, AllArePlayed, RuleKeepsParts};

/// The law of the schedule: after every list of allowed events from the opening state, the invariant holds, for every latency.
pub fn held_law()
    ensures { EveryRunHolds }
{}

/// Each step of the table is the event of the schedule that its kind stands for, or none. A table of which the rule holds stands for
/// a state of the schedule: the frames given, taken, returned and back, with their numbers and outcomes. After a step the table stands
/// for the state after the event, which is allowed there: whether a frame may be given as far as recorders and places go, the context
/// knows; that fewer than the latency are out, the rule says.
pub fn steps_are_events()
    ensures each { EachStands }
    ensures new_table { NewIsOpening }
    ensures give { OfSteps GiveIs }
    ensures take { OfSteps TakeIs }
    ensures give_back { OfSteps ReturnIs }
    ensures take_back { OfSteps BackIs }
    ensures take_here { OfSteps TakeHereIs }
    ensures back_here { OfSteps BackHereIs }
    ensures split { OfSteps SplitIs }
    ensures join { OfSteps JoinIs }
    ensures learn { OfSteps LearnIs }
    ensures claim { OfSteps ClaimIs }
    ensures stop { OfSteps StopIs }
    ensures played { AllArePlayed }
{}

/// Of a state of the schedule that a table stands for, the rule of the table says this part of what always holds: what is back is a
/// prefix of what was returned, that of what was taken, and that of what was given; and at most as many frames as the latency are out.
pub fn rule_keeps_parts()
    ensures { RuleKeepsParts }
{}

// What the steps of the table are to the schedule.
ghost use Rattle.hold_table.specs.Events.{OfSteps, SplitIs, JoinIs, UnbegunIs, LearnIs, DrawIs, AdvanceIs, AskIs, CreateIs, DestroyIs, ReclaimIs, OfTables, EndIs, CollectIs, HandoverIs, NewIsOpening, AllArePlayed, EachStands, RuleKeepsParts};

/// Each step of the table is the event of the schedule that its kind stands for, or none. A table of which the rule holds
/// stands for a state of the schedule: the frame, its first number, the next number, the places, the greatest serial, the numbers
/// gathered, and a recorder for each seat that is not joined. After a step the table stands for the state after the event,
/// which is allowed there. The queue's events and those of the handover change nothing that the table knows.
pub fn steps_are_events()
    ensures each { EachStands }
    ensures new_table { NewIsOpening }
    ensures split { OfSteps SplitIs }
    ensures join { OfSteps JoinIs }
    ensures unbegun { OfSteps UnbegunIs }
    ensures learn { OfSteps LearnIs }
    ensures draw { OfSteps DrawIs }
    ensures advance { OfSteps AdvanceIs }
    ensures ask { OfSteps AskIs }
    ensures create { OfSteps CreateIs }
    ensures destroy { OfSteps DestroyIs }
    ensures reclaim { OfSteps ReclaimIs }
    ensures end { OfTables EndIs }
    ensures collect { OfTables CollectIs }
    ensures handover { OfTables HandoverIs }
    ensures played { AllArePlayed }
{}

/// Of a state of the schedule that a table stands for, the rule of the table says these parts of what always holds: each number from
/// the frame's first to below the next stands once, and no other; recorders and bundles are of the frame; places follow from those at
/// their beginning; and what they named stands.
pub fn rule_keeps_parts()
    ensures { RuleKeepsParts }
{}

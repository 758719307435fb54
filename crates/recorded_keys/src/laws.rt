//! A law over the definitions alone: a function without parameters and with an empty body, whose contract is the law.
ghost use Rattle.recorded_keys.specs.Laws.{PlannedLaw};

/// Where each encoder of a frame has one recording, of the items that the frame's plan has of it, the recordings are those of which
/// `recorded_views` finds the views of the plan.
pub fn planned_law()
    ensures { PlannedLaw }
{}

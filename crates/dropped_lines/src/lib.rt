//! Which lines of a scene are dropped, and why: definitions, and their laws.
#![tactic(auto)]

ghost use Rattle.dropped_lines.specs.Laws.{NumberLaw, StepLaw, CountLaw, SilentLaw};

/// The numbered lines of a text that is a scene are the scene's lines, one for one, and each has a verdict.
pub fn number_law()
    ensures { NumberLaw }
{}

/// A line has a reason exactly where the folds of a scene's lines, by which plays are judged, count it as dropped.
pub fn step_law()
    ensures { StepLaw }
{}

/// As many lines of a frame are listed as its note says that it dropped.
pub fn count_law()
    ensures { CountLaw }
{}

/// None is listed exactly where each note says that no line was dropped.
pub fn silent_law()
    ensures { SilentLaw }
{}

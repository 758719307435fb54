//! Laws over the definitions alone: functions without parameters, each with an empty body, whose contracts are the laws.
ghost use Rattle.shared_keys.specs.Laws.{ThereLaw, MarksLaw, JournalMarksLaw, NoLineLaw, FreeLaw};

/// Each accepted item of a scene is of a view that is there, and what a draw draws with is a program.
pub fn there_law()
    ensures { ThereLaw }
{}

/// Marks that are just those of a frame's items, in any order, are of its views and encoders, and tell the same views and pairs as the
/// definition. So are the marks of the items in the order of a lawful journal.
pub fn marks_law()
    ensures tell { MarksLaw }
    ensures by_journal { JournalMarksLaw }
{}

/// There is no line exactly where no two encoders of the scene share a key.
pub fn no_line_law()
    ensures { NoLineLaw }
{}

/// Where there is no line, any two lawful journals of the scene give the same pictures.
pub fn free_law()
    ensures { FreeLaw }
{}

// Which items a frame has, in the order of their numbers.

use crate::sequence::Sequence;
use gfx_words::JournalEntry;
use std::alloc::{AllocError, AllocFailed};

/// The items of each frame, in the order of the numbers that they were given.
#[derive(Debug, Drop)]
pub struct Journal {
    pub frames: Sequence<Sequence<JournalEntry>>,
}

/// Why a text is no journal: how many entries stand wholly before its first fault, or want of memory.
///
/// A fault is a byte that does not fit, a line that is no `j` line, a missing last newline, and a missing or surplus
/// line.
#[derive(Clone, Copy, Debug, PartialEq, Eq, Drop)]
pub enum JournalFault {
    At { place: u32 },
    OutOfMemory,
}

impl From<AllocError> for JournalFault {
    ghost use Rattle.std.specs.Prelude.{◌≡◌};
    ghost use Rattle.scene_text.specs.declared.journal.JournalFault.TheVariants as faults;

    ghost from_gives = { λ _ e. e ≡ faults.OutOfMemory };

    fn from(_: AllocError) -> Self {
        JournalFault::OutOfMemory
    }
}

impl<T: Drop> From<AllocFailed<T>> for JournalFault {
    ghost use Rattle.std.specs.Prelude.{◌≡◌};
    ghost use Rattle.scene_text.specs.declared.journal.JournalFault.TheVariants as faults;

    ghost from_gives = { λ _ e. e ≡ faults.OutOfMemory };

    fn from(_: AllocFailed<T>) -> Self {
        JournalFault::OutOfMemory
    }
}

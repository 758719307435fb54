// Why a text is no scene.
ghost use Rattle.std.specs.Prelude.{◌≡◌};
ghost use Rattle.scene_text.specs.Gives.{number_of};

use std::alloc::{AllocError, AllocFailed};

/// What is wrong with a line.
#[derive(Clone, Copy, Debug, PartialEq, Eq, Drop)]
pub enum Cause {
    BadByte,
    EndsEarly,
    UnknownWord,
    MisplacedWord,
    WrongFieldCount,
    NoNumber,
    OutOfRange,
    NoName,
    NameIsBound,
    NameIsNotBound,
    Misspelt,
    UnknownVersion,
}

impl Cause {
    pub fn number(self) -> u8
        ensures { result ≡ number_of self }
    {
        match self {
            Cause::BadByte => 1,
            Cause::EndsEarly => 2,
            Cause::UnknownWord => 3,
            Cause::MisplacedWord => 4,
            Cause::WrongFieldCount => 5,
            Cause::NoNumber => 6,
            Cause::OutOfRange => 7,
            Cause::NoName => 8,
            Cause::NameIsBound => 9,
            Cause::NameIsNotBound => 10,
            Cause::Misspelt => 11,
            Cause::UnknownVersion => 12,
        }
    }
}

/// Why a line is not read.
#[derive(Clone, Copy, Debug, Drop)]
pub enum LineFault {
    Bad(Cause),
    OutOfMemory,
}

/// Why a text is not read: the number of the first line that fails, from 1, and its cause, or want of memory.
///
/// The causes: 1 a byte that is not 32 to 126; 2 the text ends before `done`, or a line has no newline; 3 an unknown
/// first word; 4 a word that can't stand here; 5 a wrong number of fields, or an empty field; 6 no number; 7 a number out
/// of its range; 8 no name; 9 a name that is bound; 10 a name that is not bound; 11 a misspelt word, part, bytes or colour;
/// 12 another version.
#[derive(Clone, Copy, Debug, PartialEq, Eq, Drop)]
pub enum SceneFault {
    At { line: u32, cause: u8 },
    OutOfMemory,
}

impl From<Cause> for LineFault {
    ghost use Rattle.std.specs.Prelude.{◌≡◌};
    ghost use Rattle.scene_text.specs.declared.fault.LineFault.TheVariants.{Bad};

    ghost from_gives = { λ cause e. e ≡ Bad cause };

    fn from(cause: Cause) -> Self {
        LineFault::Bad(cause)
    }
}

impl From<AllocError> for LineFault {
    ghost use Rattle.std.specs.Prelude.{◌≡◌};
    ghost use Rattle.scene_text.specs.declared.fault.LineFault.TheVariants.{OutOfMemory};

    ghost from_gives = { λ _ e. e ≡ OutOfMemory };

    fn from(_: AllocError) -> Self {
        LineFault::OutOfMemory
    }
}

impl<T: Drop> From<AllocFailed<T>> for LineFault {
    ghost use Rattle.std.specs.Prelude.{◌≡◌};
    ghost use Rattle.scene_text.specs.declared.fault.LineFault.TheVariants.{OutOfMemory};

    ghost from_gives = { λ _ e. e ≡ OutOfMemory };

    fn from(_: AllocFailed<T>) -> Self {
        LineFault::OutOfMemory
    }
}

impl From<AllocError> for SceneFault {
    ghost use Rattle.std.specs.Prelude.{◌≡◌};
    ghost use Rattle.scene_text.specs.declared.fault.SceneFault.TheVariants as wholes;

    ghost from_gives = { λ _ e. e ≡ wholes.OutOfMemory };

    fn from(_: AllocError) -> Self {
        SceneFault::OutOfMemory
    }
}

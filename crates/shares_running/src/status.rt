// How a run ends.
ghost use Rattle.std.specs.Prelude.{◌≡◌};
ghost use Rattle.shares_running.specs.Numbers.{status_number};

/// The end of a run.
#[derive(Clone, Copy, Debug, PartialEq, Eq, Drop)]
pub enum SharesStatus {
    /// The lines were written; the source was read to its end.
    Done,
    /// The words are refused.
    Usage,
    /// The bytes are no scene: the first line that fails, counted from 1, and its cause by the scene's grammar.
    Scene { line: u32, cause: u8 },
    /// A read failed.
    ReadFault,
    /// A write of the lines failed.
    NoteFault,
    /// The source gave more than 16,777,216 bytes.
    TooLong,
    /// Memory ran out.
    OutOfMemory,
}

impl SharesStatus {
    /// The number with which the program ends: 0, 1, 2, 3, 5, 6 or 8.
    pub fn number(self) -> u8
        ensures { result ≡ status_number self }
    {
        match self {
            SharesStatus::Done => 0,
            SharesStatus::Usage => 1,
            SharesStatus::Scene { .. } => 2,
            SharesStatus::ReadFault => 3,
            SharesStatus::NoteFault => 5,
            SharesStatus::TooLong => 6,
            SharesStatus::OutOfMemory => 8,
        }
    }
}

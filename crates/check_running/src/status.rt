// How a run ends.
ghost use Rattle.std.specs.Prelude.{◌≡◌};
ghost use Rattle.check_running.specs.Numbers.{status_number};

/// The end of a run.
#[derive(Clone, Copy, Debug, PartialEq, Eq, Drop)]
pub enum CheckStatus {
    /// The lines were written; the source was read to its end.
    Done,
    /// The bytes are no scene: the first line that fails, counted from 1, and its cause by the scene's grammar.
    Scene { line: u32, cause: u8 },
    /// A read failed.
    ReadFault,
    /// A write of the lines failed.
    LineFault,
    /// A write of the notes failed.
    NoteFault,
    /// The source gave more than 16,777,216 bytes.
    TooLong,
    /// Memory ran out.
    OutOfMemory,
}

impl CheckStatus {
    /// The number with which the program ends: 0, 2, 3, 4, 5, 6 or 8.
    pub fn number(self) -> u8
        ensures { result ≡ status_number self }
    {
        match self {
            CheckStatus::Done => 0,
            CheckStatus::Scene { .. } => 2,
            CheckStatus::ReadFault => 3,
            CheckStatus::LineFault => 4,
            CheckStatus::NoteFault => 5,
            CheckStatus::TooLong => 6,
            CheckStatus::OutOfMemory => 8,
        }
    }
}

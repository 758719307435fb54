// How a load ends.
ghost use Rattle.std.specs.Prelude.{◌≡◌};
ghost use Rattle.load_running.specs.Numbers.{status_number};

/// How a load ends.
#[derive(Clone, Copy, Debug, PartialEq, Eq, Drop)]
pub enum LoadStatus {
    /// The notes were written; the source was read to its end.
    Done,
    /// The bytes are no load: the first line that fails, counted from 1. A text that ends too early fails at the number of its newlines
    /// plus 1.
    Text { line: u32 },
    /// A read failed.
    ReadFault,
    /// A write of the notes failed.
    NoteFault,
    /// The source gave more than 16,777,216 bytes.
    TooLong,
    /// Memory ran out.
    OutOfMemory,
}

impl LoadStatus {
    /// The number with which the program ends: 0, 2, 3, 5, 6 or 8.
    pub fn number(self) -> u8
        ensures { result ≡ status_number self }
    {
        match self {
            LoadStatus::Done => 0,
            LoadStatus::Text { .. } => 2,
            LoadStatus::ReadFault => 3,
            LoadStatus::NoteFault => 5,
            LoadStatus::TooLong => 6,
            LoadStatus::OutOfMemory => 8,
        }
    }
}

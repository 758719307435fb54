// How a run ends.
ghost use Rattle.std.specs.Prelude.{◌≡◌};
ghost use Rattle.gfx_query.specs.Numbers.{status_number};

/// The end of a run.
#[derive(Clone, Copy, Debug, PartialEq, Eq, Drop)]
pub enum QueryStatus {
    /// The notes were written; the source was read to its end.
    Done,
    /// The bytes are no script: the first line that fails, counted from 1. A text that ends too early fails at the number of its newlines
    /// plus 1.
    Text { line: u32 },
    /// A read failed.
    ReadFault,
    /// A write of the notes failed.
    NoteFault,
    /// The source gave more than 16,777,216 bytes.
    TooLong,
    /// Memory ran out.
    OutOfMemory,
}

impl QueryStatus {
    /// The number with which the program ends: 0, 2, 3, 5, 6 or 8.
    pub fn number(self) -> u8
        ensures { result ≡ status_number self }
    {
        match self {
            QueryStatus::Done => 0,
            QueryStatus::Text { .. } => 2,
            QueryStatus::ReadFault => 3,
            QueryStatus::NoteFault => 5,
            QueryStatus::TooLong => 6,
            QueryStatus::OutOfMemory => 8,
        }
    }
}

// How a run ends.
ghost use Rattle.std.specs.Prelude.{◌≡◌};
ghost use Rattle.diff_running.specs.Numbers.{status_number};

/// The end of a run.
#[derive(Clone, Copy, Debug, PartialEq, Eq, Drop)]
pub enum DiffStatus {
    /// No pixel differs; the lines were written.
    Same,
    /// Some pixel differs; the lines were written.
    Different,
    /// So many whole pictures stand at the front of the input, up to this byte, and what follows begins with none.
    NoPicture { pictures: usize, at: usize },
    /// So many pictures are no two streams of equally many.
    Count { pictures: usize },
    /// The pictures of this frame, counted from 0, have other sides.
    Sides { frame: usize },
    /// A read failed.
    ReadFault,
    /// A write of the lines failed.
    LineFault,
    /// A write of the notes failed.
    NoteFault,
    /// The source gave more than 4,294,967,296 bytes.
    TooLong,
    /// Memory ran out.
    OutOfMemory,
    /// The words are refused.
    Usage,
}

impl DiffStatus {
    /// The number with which the program ends: 0 to 6, 8 or 64.
    pub fn number(self) -> u8
        ensures { result ≡ status_number self }
    {
        match self {
            DiffStatus::Same => 0,
            DiffStatus::Different => 1,
            DiffStatus::NoPicture { .. } => 2,
            DiffStatus::Count { .. } => 2,
            DiffStatus::Sides { .. } => 2,
            DiffStatus::ReadFault => 3,
            DiffStatus::LineFault => 4,
            DiffStatus::NoteFault => 5,
            DiffStatus::TooLong => 6,
            DiffStatus::OutOfMemory => 8,
            DiffStatus::Usage => 64,
        }
    }
}

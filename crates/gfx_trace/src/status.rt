// How a run ends.
ghost use Rattle.std.specs.Prelude.{◌≡◌};
ghost use Rattle.gfx_trace.specs.Numbers.{status_number};

/// The end of a run.
#[derive(Clone, Copy, Debug, PartialEq, Eq, Drop)]
pub enum TraceStatus {
    /// What was asked for was written; the source was read to its end.
    Done,
    /// The words are refused.
    Usage,
    /// The bytes are no scene, and none stands in front of them: the first line that fails, counted from 1, and its cause, 1 to 12.
    Scene { line: u32, cause: u8 },
    /// A read failed.
    ReadFault,
    /// A write of the history, of the pictures of the steps, or of the picture of the deeds failed.
    PictureFault,
    /// A write of the lines of the steps failed.
    NoteFault,
    /// The source gave more than 16,777,216 bytes.
    TooLong,
    /// The journal behind the scene is refused: how many entries stand before its first fault.
    Journal { place: u32 },
    /// Memory ran out.
    OutOfMemory,
    /// The scene has no such frame.
    NoFrame,
    /// The scene's pictures have no such pixel.
    NoPixel,
}

impl TraceStatus {
    /// The number with which the program ends: 0 to 10.
    pub fn number(self) -> u8
        ensures { result ≡ status_number self }
    {
        match self {
            TraceStatus::Done => 0,
            TraceStatus::Usage => 1,
            TraceStatus::Scene { .. } => 2,
            TraceStatus::ReadFault => 3,
            TraceStatus::PictureFault => 4,
            TraceStatus::NoteFault => 5,
            TraceStatus::TooLong => 6,
            TraceStatus::Journal { .. } => 7,
            TraceStatus::OutOfMemory => 8,
            TraceStatus::NoFrame => 9,
            TraceStatus::NoPixel => 10,
        }
    }
}

/// How a run ended, and the sink that it put into.
#[derive(Drop)]
pub struct Traced<P: Drop> {
    pub status: TraceStatus,
    pub sink: P,
}

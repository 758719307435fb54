// How a run ends.
ghost use Rattle.std.specs.Prelude.{◌≡◌};
ghost use Rattle.capture_running.specs.Numbers.{status_number};

/// The end of a run.
#[derive(Clone, Copy, Debug, PartialEq, Eq, Drop)]
pub enum CaptureStatus {
    /// Everything was written, and the source was read to its end.
    Done,
    /// The words are refused.
    Usage,
    /// In `record` alone: the bytes are no scene: the first line that fails, counted from 1, and its cause, 1 to 12.
    Scene { line: u32, cause: u8 },
    /// A read failed.
    ReadFault,
    /// A write to the sink failed; in `record` after all notes.
    PictureFault,
    /// In `record` alone: a write of the notes failed, before the capture was written.
    NoteFault,
    /// The source gave more than 16,777,216 bytes (`record`) or 201,326,592 (`show`).
    TooLong,
    /// Memory ran out.
    OutOfMemory,
    /// In `record` alone: the scene's picture texts have more than 134,217,728 bytes.
    TooLarge,
    /// In `show` alone: the bytes are no capture: how many frames stand whole before the first field that can't stand, and its cause,
    /// 1 to 6.
    Capture { frame: u32, cause: u8 },
}

impl CaptureStatus {
    /// The number with which the program ends, 0 to 10.
    pub fn number(self) -> u8
        ensures { result ≡ status_number self }
    {
        match self {
            CaptureStatus::Done => 0,
            CaptureStatus::Usage => 1,
            CaptureStatus::Scene { .. } => 2,
            CaptureStatus::ReadFault => 3,
            CaptureStatus::PictureFault => 4,
            CaptureStatus::NoteFault => 5,
            CaptureStatus::TooLong => 6,
            CaptureStatus::OutOfMemory => 8,
            CaptureStatus::TooLarge => 9,
            CaptureStatus::Capture { .. } => 10,
        }
    }
}

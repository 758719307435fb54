// Shows a capture.
ghost use Rattle.std.specs.Prelude.{◌≡◌, ◌≤◌};
ghost use Rattle.io_whole.specs.Runs.{putting, reading};
ghost use Rattle.capture_running.specs.Ended.{EndsShow};

use crate::status::CaptureStatus;
use frame_capture::{CaptureFault, decode};
use io_edge::{Sink, Source};
use io_whole::{InputError, put_all, read_all};
use std::alloc::Global;

/// The longest capture that is read.
const LONGEST_CAPTURE: usize = 201_326_592;

/// Reads a capture to its end, at most 201,326,592 bytes, and puts the joined picture texts that it stands for.
///
/// The status says how it ended. `TooLong` and `Capture` come exactly by the bytes, `ReadFault` and `PictureFault` only where that
/// object's count of faults rose in this call; `OutOfMemory` is free, and the other statuses do not come. After `PictureFault` a front of
/// the texts was put; after the others but `Done` nothing. On `Done`, `PictureFault` and `Capture` the source was read to its end.
pub fn show<S: Source, P: Sink>(alloc: Global, source: &mut S, sink: &mut P) -> CaptureStatus
    // What was read and put after each status, and its cause.
    ensures ends { EndsShow result (reading (S.left source.old) (S.left source.new) (S.faults source.old) (S.faults source.new))
        (putting (P.held sink.old) (P.held sink.new) (P.faults sink.old) (P.faults sink.new)) }
    // The sink keeps its sure length, and no count of faults falls.
    ensures sure { P.sure sink.new ≡ P.sure sink.old }
    ensures no_fewer { (S.faults source.old ≤ S.faults source.new) × (P.faults sink.old ≤ P.faults sink.new) }
{
    let bytes = match read_all(alloc, source, LONGEST_CAPTURE) {
        Ok(bytes) => bytes,
        Err(InputError::Fault) => return CaptureStatus::ReadFault,
        Err(InputError::TooLong) => return CaptureStatus::TooLong,
        Err(InputError::OutOfMemory) => return CaptureStatus::OutOfMemory,
    };
    let texts = match decode(alloc, &bytes) {
        Ok(texts) => texts,
        Err(CaptureFault::At { frame, cause }) => return CaptureStatus::Capture { frame, cause },
        Err(CaptureFault::OutOfMemory) => return CaptureStatus::OutOfMemory,
    };
    match put_all(sink, &texts) {
        Ok(()) => CaptureStatus::Done,
        Err(_) => CaptureStatus::PictureFault,
    }
}

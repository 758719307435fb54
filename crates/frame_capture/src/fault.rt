// Why bytes are no capture.
ghost use Rattle.std.specs.Prelude.{◌≡◌};
ghost use Rattle.frame_capture.specs.Gives.{behind};

use std::alloc::AllocError;

/// Why nothing is shown.
#[derive(Clone, Copy, Debug, PartialEq, Eq, Drop)]
pub enum CaptureFault {
    /// The bytes are no capture: how many frames stand whole before the first field that can't stand, and its cause.
    ///
    /// The causes: 1 another mark; 2 a side or a number of frames out of range, or more frames than fit into 134,217,728 bytes of
    /// picture texts; 3 a field that is cut off or missing; 4 a frame's number that is not its place; 5 a run that can't stand; 6 a
    /// byte behind the last frame.
    At { frame: u32, cause: u8 },
    /// Memory ran out.
    OutOfMemory,
}

/// Why a field is not read.
#[derive(Clone, Copy, Debug, Drop)]
pub(crate) enum FieldFault {
    Bad(u8),
    OutOfMemory,
}

impl FieldFault {
    pub(crate) const OTHER_MARK: FieldFault = FieldFault::Bad(1);

    pub(crate) const OUT_OF_RANGE: FieldFault = FieldFault::Bad(2);

    pub(crate) const CUT_OFF: FieldFault = FieldFault::Bad(3);

    pub(crate) const MISPLACED: FieldFault = FieldFault::Bad(4);

    pub(crate) const CANNOT_STAND: FieldFault = FieldFault::Bad(5);

    /// The fault behind so many whole frames.
    pub(crate) fn behind(self, frame: u32) -> CaptureFault
        ensures { result ≡ behind frame self }
    {
        match self {
            FieldFault::Bad(cause) => CaptureFault::At { frame, cause },
            FieldFault::OutOfMemory => CaptureFault::OutOfMemory,
        }
    }
}

impl From<AllocError> for FieldFault {
    ghost use Rattle.std.specs.Prelude.{◌≡◌};
    ghost use Rattle.frame_capture.specs.declared.fault.FieldFault.TheVariants as fields;

    ghost from_gives = { λ _ e. e ≡ fields.OutOfMemory };

    fn from(_: AllocError) -> Self {
        FieldFault::OutOfMemory
    }
}

impl From<AllocError> for CaptureFault {
    ghost use Rattle.std.specs.Prelude.{◌≡◌};
    ghost use Rattle.frame_capture.specs.declared.fault.CaptureFault.TheVariants as wholes;

    ghost from_gives = { λ _ e. e ≡ wholes.OutOfMemory };

    fn from(_: AllocError) -> Self {
        CaptureFault::OutOfMemory
    }
}

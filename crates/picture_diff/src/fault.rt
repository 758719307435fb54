// Why nothing is told.

use std::alloc::{AllocError, AllocFailed};

/// Why bytes are no two streams of pictures.
#[derive(Clone, Copy, Debug, PartialEq, Eq, Drop)]
pub enum PictureFault {
    /// So many whole pictures stand at the front, up to this byte, and what follows begins with none.
    NoPicture { pictures: usize, at: usize },
    /// So many pictures are no two streams of equally many: there are none, an odd number, or not twice as many as were asked for.
    Count { pictures: usize },
    /// The two pictures of this frame, counted from 0, have other sides; those before have the same.
    Sides { frame: usize },
    /// Memory ran out.
    OutOfMemory,
}

impl From<AllocError> for PictureFault {
    ghost use Rattle.std.specs.Prelude.{◌≡◌};
    ghost use Rattle.picture_diff.specs.declared.fault.PictureFault.TheVariants as faults;

    ghost from_gives = { λ _ e. e ≡ faults.OutOfMemory };

    fn from(_: AllocError) -> Self {
        PictureFault::OutOfMemory
    }
}

impl<T: Drop> From<AllocFailed<T>> for PictureFault {
    ghost use Rattle.std.specs.Prelude.{◌≡◌};
    ghost use Rattle.picture_diff.specs.declared.fault.PictureFault.TheVariants as faults;

    ghost from_gives = { λ _ e. e ≡ faults.OutOfMemory };

    fn from(_: AllocFailed<T>) -> Self {
        PictureFault::OutOfMemory
    }
}

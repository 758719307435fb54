// What a run leaves.
ghost use Rattle.std.specs.Prelude.{◌≡◌, []};
ghost use Rattle.scene_text.specs.Seen.{journal_seen};

use crate::status::CaptureStatus;
use scene_text::{Journal, Sequence};
use std::alloc::Global;

/// What a run leaves: how it ended, and the items of each frame that ended, in a lawful order. Where no scene was played, no frame ended.
#[derive(Drop)]
pub struct Captured {
    pub status: CaptureStatus,
    pub journal: Journal,
}

/// A run in which no frame ended.
pub(crate) fn blank(alloc: Global, status: CaptureStatus) -> Captured
    ensures status { result.status ≡ status }
    ensures journal { journal_seen result.journal ≡ [] }
{
    Captured {
        status,
        journal: Journal {
            frames: Sequence::new(alloc),
        },
    }
}

// Whether the bands of a fork begin in time, and what follows where they do not.
use std::sync::atomic::{AtomicU32, Ordering};

/// Counts the bands of a fork as they begin, and keeps whether all had begun when the forking thread's own had ended. No clause speaks of
/// it, for any number of bands is right.
#[derive(Drop)]
pub(crate) struct Watch {
    started: u32,
    begun: AtomicU32,
    late: AtomicU32,
}

impl Watch {
    /// Of a fork of so many bands: the last is the forking thread's, and each other that of a thread that is started.
    pub(crate) fn new(bands: u32) -> Watch {
        Watch {
            started: bands.saturating_sub(1),
            begun: AtomicU32::new(0),
            late: AtomicU32::new(0),
        }
    }

    /// A band of a started thread begins.
    pub(crate) fn begin(&self) {
        self.begun.fetch_add(1, Ordering::SeqCst);
    }

    /// The forking thread's own band has ended.
    pub(crate) fn look(&self) {
        if self.begun.load(Ordering::SeqCst) < self.started {
            self.late.store(1, Ordering::SeqCst);
        }
    }

    /// Whether a band had not begun then.
    pub(crate) fn was_late(&self) -> bool {
        self.late.load(Ordering::SeqCst) == 1
    }
}

// How many forks the first pause takes, and how many each takes at most.
const SHORTEST: u32 = 1;

const LONGEST: u32 = 512;

/// After a fork in which a band began late, so many forks that were worth several bands are made as one; the next pause is twice as long,
/// and half as long for each fork without a late band.
#[derive(Drop)]
pub(crate) struct Pause {
    left: u32,
    length: u32,
}

impl Pause {
    /// None yet.
    pub(crate) fn new() -> Pause {
        Pause {
            left: 0,
            length: SHORTEST,
        }
    }

    /// How many bands the next fork has whose work is worth so many.
    pub(crate) fn allowed(&mut self, worth: u32) -> u32 {
        if worth < 2 || self.left == 0 {
            return worth;
        }
        self.left -= 1;
        1
    }

    /// Begins a pause where a band of a fork of so many began late.
    pub(crate) fn heed(&mut self, bands: u32, late: bool) {
        if late {
            self.left = self.length;
            self.length = self.length.saturating_mul(2).min(LONGEST);
        } else if bands > 1 {
            self.length = (self.length / 2).max(SHORTEST);
        }
    }
}

// A gate that holds threads where a case says it, or where a seed draws it.
use io_edge::Gate;
use std::alloc::{AllocError, Global};
use std::sync::atomic::{AtomicU32, Ordering};

/// A place of a thread: whose it is, and the item or the frame.
pub(crate) type Place = (u8, u32);

/// Holds a thread at its place until another one came to its own so often.
#[derive(Clone, Copy, Drop)]
pub(crate) struct Hold {
    pub held: Place,
    pub awaited: Place,
    pub times: u32,
}

// A hold, how often the awaited thread came, and whether the held one saw it.
#[derive(Drop)]
struct Holding {
    hold: Hold,
    came: AtomicU32,
    met: AtomicU32,
}

// How often a held thread looks at most where it waits for another one, and where a seed holds it: some tenths of a millisecond then.
const LOOKS: u32 = 2_000_000_000;

const SEEDED_LOOKS: u32 = 200_000;

// Whether a count comes to a number within so many looks.
fn comes_to(count: &AtomicU32, number: u32, looks: u32) -> bool {
    for _ in 0..looks {
        if count.load(Ordering::SeqCst) >= number {
            return true;
        }
    }
    false
}

impl Holding {
    fn new(hold: Hold) -> Holding {
        Holding {
            hold,
            came: AtomicU32::new(0),
            met: AtomicU32::new(0),
        }
    }

    fn at(&self, place: Place) {
        if place == self.hold.awaited {
            self.came.fetch_add(1, Ordering::SeqCst);
        }
        if place == self.hold.held && comes_to(&self.came, self.hold.times, LOOKS) {
            self.met.store(1, Ordering::SeqCst);
        }
    }

    fn has_met(&self) -> bool {
        self.met.load(Ordering::SeqCst) == 1
    }
}

/// A gate of some holds. With a seed it holds each thread at one place of two, until some more places were passed by others or for a while.
#[derive(Drop)]
pub(crate) struct CaseGate {
    holds: Vec<Holding>,
    seed: Option<u32>,
    passed: AtomicU32,
    items: AtomicU32,
}

impl CaseGate {
    pub fn new(alloc: Global, holds: &[Hold], seed: Option<u32>) -> Result<CaseGate, AllocError> {
        let mut all = Vec::new(alloc);
        for hold in holds {
            all.push(Holding::new(*hold))?;
        }
        Ok(CaseGate {
            holds: all,
            seed,
            passed: AtomicU32::new(0),
            items: AtomicU32::new(0),
        })
    }

    /// Whether each held thread saw the other one come, and so many items came, where that is asked.
    pub fn has_held(&self, items: Option<u32>) -> bool {
        let came = self.items.load(Ordering::SeqCst);
        self.holds.iter().all(|holding| holding.has_met()) && items.unwrap_or(came) == came
    }
}

impl Gate for CaseGate {
    fn at(&self, who: u8, item: u32) {
        if who != 255 {
            self.items.fetch_add(1, Ordering::SeqCst);
        }
        for holding in &self.holds {
            holding.at((who, item));
        }
        let passed = self.passed.fetch_add(1, Ordering::SeqCst);
        if let Some(seed) = self.seed {
            let drawn = mixed(seed, who, item);
            if drawn % 2 == 1 {
                let number = passed.wrapping_add(2).wrapping_add(drawn / 2 % 7);
                comes_to(&self.passed, number, SEEDED_LOOKS);
            }
        }
    }
}

// A number of sixteen bits, drawn from the seed for each place.
fn mixed(seed: u32, who: u8, item: u32) -> u32 {
    let place = u32::from(who).wrapping_mul(40_503).wrapping_add(item);
    let sum = seed
        .wrapping_mul(2_654_435_769)
        .wrapping_add(place.wrapping_mul(2_246_822_519));
    (sum ^ (sum >> 15)).wrapping_mul(3_266_489_917) >> 16
}

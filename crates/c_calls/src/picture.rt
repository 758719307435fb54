// The sink in which a renderer leaves its picture.
ghost use Rattle.std.specs.Prelude.{◌≡◌, ◌≤◌, ◌<◌, [], ◌-◌, min, length, vec_len, vec_capacity, Some, None, IfOk};
ghost use Rattle.io_edge.specs.Edge.{Rose};

use io_edge::{Failed, Sink};
use std::alloc::{AllocError, Global};

/// Keeps the text of one picture, in room that is made once. It fails only where the room is used up.
#[derive(Drop)]
pub struct PictureSink {
    text: Vec<u8>,
    capacity: usize,
    faults: u64,
    ghost room: { capacity ≤ vec_capacity text },
    ghost within: { vec_len text ≤ capacity },
    ghost never_short: { length text.items < capacity → faults ≡ 0 },
}

impl PictureSink {
    /// An empty sink for a text of at most so many bytes.
    pub(crate) fn new(alloc: Global, capacity: usize) -> Result<PictureSink, AllocError>
        ensures { IfOk result (λ s. (s.text.items ≡ []) × (s.capacity ≡ capacity) × (s.faults ≡ 0)) }
    {
        Ok(PictureSink {
            text: Vec::with_capacity(alloc, capacity)?,
            capacity,
            faults: 0,
        })
    }

    /// How many bytes a text has at most.
    pub(crate) fn capacity(&self) -> usize
        ensures { result ≡ self.now.capacity }
    {
        self.capacity
    }

    /// The text.
    pub(crate) fn text(&self) -> &[u8]
        ensures same { result.now ≡ self.now.text.items }
        ensures most { length result.now ≤ self.now.capacity }
    {
        &self.text
    }

    /// Makes it as new.
    pub(crate) fn clear(&mut self)
        ensures { (self.new.text.items ≡ []) × (self.new.capacity ≡ self.old.capacity) × (self.new.faults ≡ 0) }
    {
        self.text.clear();
        self.faults = 0;
    }
}

impl Sink for PictureSink {
    ghost held = { λ s. Some s.text.items };

    ghost tally = { λ _. None };

    ghost sure = { λ s. Some s.capacity };

    ghost faults = { λ s. s.faults };

    ghost never_short = { λ s short. s.never_short short };

    fn put(&mut self, piece: &[u8]) -> Result<usize, Failed> {
        let room = self.capacity - self.text.len();
        if room == 0 {
            self.faults = self.faults.saturating_add(1);
            return Err(Failed);
        }
        let n = piece.len().min(room);
        self.text.extend_from_slice(&piece[..n]).unwrap();
        Ok(n)
    }
}

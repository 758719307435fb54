// A sink that only counts.
ghost use Rattle.std.specs.Prelude.{◌≡◌, ◌≤◌, ◌<◌, ◌+◌, ◌%◌, ◌^◌, length, sum, take, None, Some, IfOk, OnErr, IsOk};
ghost use Rattle.io_edge.specs.Edge.{counted};

use crate::{Failed, Sink, sum_of};

/// Counts what is put and never fails. It keeps the number of bytes and their sum alone.
#[derive(Clone, Copy, Debug, Drop)]
pub struct SureSink {
    count: u64,
    sum: u32,
}

impl SureSink {
    /// A sink that has counted nothing.
    pub fn new() -> SureSink
        ensures count { result.count ≡ 0 }
        ensures sum { result.sum ≡ 0 }
    {
        SureSink { count: 0, sum: 0 }
    }

    /// How many bytes were put, modulo 2^64.
    pub fn count(&self) -> u64
        ensures { result ≡ self.now.count }
    {
        self.count
    }

    /// The sum of the bytes that were put, modulo 2^32.
    pub fn sum(&self) -> u32
        ensures { result ≡ self.now.sum }
    {
        self.sum
    }
}

impl Sink for SureSink {
    ghost held = { λ _. None };

    ghost tally = { λ s. Some (s.count, s.sum) };

    ghost sure = { λ _. None };

    ghost faults = { λ _. 0 };

    ghost never_short = { λ s short. absurd short };

    fn put(&mut self, piece: &[u8]) -> Result<usize, Failed> {
        self.put_summed(piece, sum_of(piece))
    }

    fn wants_sum(&self) -> bool {
        true
    }

    fn put_summed(&mut self, piece: &[u8], total: u32) -> Result<usize, Failed> {
        self.count = self.count.wrapping_add(piece.len() as u64);
        self.sum = self.sum.wrapping_add(total);
        Ok(piece.len())
    }
}

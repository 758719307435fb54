// What a source and a sink promise. Each counts its faults, and a fault comes only where the count rose.
ghost use Rattle.std.specs.Prelude.{◌≡◌, ◌<◌, ◌≤◌, ◌%◌, ◌^◌, List, ℕ, Option, length, sum, take, IfOk, OnErr};
ghost use Rattle.io_edge.specs.Edge.{with_front, with_back, counted, IsShort, IsSpent, Rose};

/// A source or a sink gave up. Its count of faults rose.
#[derive(Clone, Copy, Debug, PartialEq, Eq, Drop)]
pub struct Failed;

/// Where bytes come from.
pub trait Source {
    /// The bytes left, where they are told.
    ghost left: { Self → Option (List ℕ) };

    /// How often the source has failed. It never falls.
    ghost faults: { Self → ℕ };

    /// Puts the first bytes left at the front of `room`, which is not empty, and takes them away.
    /// It answers their number, which is 0 only where no byte is left.
    ///
    /// # Errors
    ///
    /// `Failed` only where the count of faults rose. The bytes left stay.
    fn take(&mut self, room: &mut [u8]) -> Result<usize, Failed>
        requires { 0 < length room.old }
        ensures fits { IfOk result (λ n. n ≤ length room.old) }
        ensures taken { IfOk result (λ n. left self.old ≡ with_front (take n room.new) (left self.new)) }
        ensures ended { IfOk result (λ n. n ≡ 0 → IsSpent (left self.old)) }
        ensures stays { OnErr result (left self.new ≡ left self.old) }
        ensures no_fewer { faults self.old ≤ faults self.new }
        ensures failed { OnErr result (Rose (faults self.old) (faults self.new)) };
}

/// Where bytes go.
pub trait Sink {
    /// The bytes held, where they are told.
    ghost held: { Self → Option (List ℕ) };

    /// How many bytes were taken modulo 2^64, and their sum modulo 2^32, where they are told.
    ghost tally: { Self → Option (ℕ × ℕ) };

    /// A number of bytes below which the sink does not fail, where it is told. No call changes it.
    ghost sure: { Self → Option ℕ };

    /// How often the sink has failed. It never falls.
    ghost faults: { Self → ℕ };

    /// Appends the first bytes of `piece`, which is not empty. It answers their number, which is
    /// from 1 to the length of `piece`.
    ///
    /// # Errors
    ///
    /// `Failed` only where the count of faults rose. Nothing was appended.
    fn put(&mut self, piece: &[u8]) -> Result<usize, Failed>
        requires { 0 < length piece.now }
        ensures some { IfOk result (λ n. 0 < n) }
        ensures fits { IfOk result (λ n. n ≤ length piece.now) }
        ensures held { IfOk result (λ n. held self.new ≡ with_back (held self.old) (take n piece.now)) }
        ensures tally { IfOk result (λ n. tally self.new ≡ counted (tally self.old) (take n piece.now)) }
        ensures sure { sure self.new ≡ sure self.old }
        ensures stays { OnErr result (held self.new ≡ held self.old) }
        ensures tally_stays { OnErr result (tally self.new ≡ tally self.old) }
        ensures no_fewer { faults self.old ≤ faults self.new }
        ensures failed { OnErr result (Rose (faults self.old) (faults self.new)) };

    /// Whether the sink keeps a sum of what is put, so that a sum that is told spares it the work.
    fn wants_sum(&self) -> bool {
        false
    }

    /// The same as `put` of a piece whose sum modulo 2^32 is told.
    ///
    /// # Errors
    ///
    /// As those of `put`.
    fn put_summed(&mut self, piece: &[u8], total: u32) -> Result<usize, Failed>
        requires some { 0 < length piece.now }
        requires total { total ≡ sum piece.now % 2 ^ 32 }
        ensures some { IfOk result (λ n. 0 < n) }
        ensures fits { IfOk result (λ n. n ≤ length piece.now) }
        ensures held { IfOk result (λ n. held self.new ≡ with_back (held self.old) (take n piece.now)) }
        ensures tally { IfOk result (λ n. tally self.new ≡ counted (tally self.old) (take n piece.now)) }
        ensures sure { sure self.new ≡ sure self.old }
        ensures stays { OnErr result (held self.new ≡ held self.old) }
        ensures tally_stays { OnErr result (tally self.new ≡ tally self.old) }
        ensures no_fewer { faults self.old ≤ faults self.new }
        ensures failed { OnErr result (Rose (faults self.old) (faults self.new)) }
    {
        let _ = total;
        self.put(piece)
    }

    /// While fewer bytes are held than the sure length, there was no fault.
    ghost never_short: { (s : Self) → IsShort (held s) (sure s) → faults s ≡ 0 };
}

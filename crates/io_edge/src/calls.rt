// The calls of a source or a sink in memory: how many there were, which of them fail, and the faults.
ghost use Rattle.std.specs.Prelude.{◌≡◌, ◌≤◌, ◌==◌, ◌+◌, min};
ghost use Rattle.io_edge.specs.Edge.{Rose};
ghost use Rattle.io_edge.specs.Calls.{is_listed, IsNew};

use crate::Failed;

// Counts calls from 0, and their faults. Those whose numbers are listed are to fail.
#[derive(Drop)]
pub(crate) struct Calls {
    pub(crate) fails: Vec<u32>,
    pub(crate) made: u64,
    pub(crate) faults: u64,
}

impl Calls {
    // No call and no fault yet.
    pub(crate) fn new(fails: Vec<u32>) -> Calls
        ensures { IsNew result fails.items }
    {
        Calls {
            fails,
            made: 0,
            faults: 0,
        }
    }

    // One call more: whether its number is listed.
    pub(crate) fn next_is_listed(&mut self) -> bool
        ensures listed { result ≡ is_listed self.old.fails.items self.old.made }
        ensures stays { self.new ≡ record self.old { made = self.new.made } }
        ensures made { self.new.made ≡ min (self.old.made + 1) 18446744073709551615 }
    {
        let call = self.made;
        self.made = call.saturating_add(1);
        self.fails.iter().any(|n| u64::from(*n) == call)
    }

    // One fault more.
    pub(crate) fn failed(&mut self) -> Failed
        ensures stays { self.new ≡ record self.old { faults = self.new.faults } }
        ensures no_fewer { self.old.faults ≤ self.new.faults }
        ensures rose { Rose self.old.faults self.new.faults }
    {
        self.faults = self.faults.saturating_add(1);
        Failed
    }
}

//! The law as a contract.
ghost use Rattle.shared_items.specs.Laws.{PairsLaw};

/// Each view of a frame in which two encoders share a key has its least pair of items, and no other view has one.
pub fn pairs_law()
    ensures { PairsLaw }
{}

//! The laws as contracts.
ghost use Rattle.frame_steps.specs.Doing.{DoneLaw};

/// The doers of a frame do its deeds, one each, in their order.
pub fn done_law()
    ensures { DoneLaw }
{}

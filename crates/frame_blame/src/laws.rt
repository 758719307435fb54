//! The laws as contracts.
ghost use Rattle.frame_blame.specs.Laws.{BlameLaw};

/// Where a frame by index is traced as the definition's, the deed that gave a pixel its colour last is the definition's.
pub fn blame_law()
    ensures { BlameLaw }
{}

//! The laws as contracts.
ghost use Rattle.target_laws.specs.Laws.{SceneTargetLaw, TargetHistoryLaw, TargetIndexedLaw, TargetLastLaw};

/// A pixel of a frame buffer after its history is the pixel after the frame step.
pub fn target_history_law()
    ensures { TargetHistoryLaw }
{}

/// What a frame leaves in the colour texture of a frame buffer at a pixel is the colour with which the pixel's history ends.
pub fn target_last_law()
    ensures { TargetLastLaw }
{}

/// Where stores stand for a world, and a frame by index says what the definition's frame has, the histories of a frame buffer's pixels are
/// the definition's.
pub fn target_indexed_law()
    ensures { TargetIndexedLaw }
{}

/// The same of each frame buffer on which a view of a frame of a scene draws, by whatever journal.
pub fn scene_target_law()
    ensures { SceneTargetLaw }
{}

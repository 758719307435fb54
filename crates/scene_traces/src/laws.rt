//! The laws as contracts.
ghost use Rattle.scene_traces.specs.Traced.{GatheredDoersLaw, SceneLinesLaw, SceneTracedLaw};

/// Each frame of a scene by index, on the stores that the frames before it leave, has the deeds, the pictures of the steps and the histories
/// of pixels of the definition's frame, by whatever journal.
pub fn scene_traced_law()
    ensures { SceneTracedLaw }
{}

/// Where recordings are gathered of a frame's encoders, the doers of their items are those of the frame.
pub fn gathered_doers_law()
    ensures { GatheredDoersLaw }
{}

/// The lines of a pixel of a scene's frame by index are the definition's.
pub fn scene_lines_law()
    ensures { SceneLinesLaw }
{}

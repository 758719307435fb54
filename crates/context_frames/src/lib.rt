//! A context's frames as a scene's: what a frame's encoders recorded and what its calls wrote, by the scene's definitions.
//!
//! The laws are functions without parameters: each has an empty body or calls other laws, and its contract is the law.
#![tactic(auto)]

ghost use Rattle.context_frames.specs.Laws.{RecordedLaw, GivenFrameLaw};

use scene_laws::gathered_law;

/// Where the recordings of a frame are of exactly the scene's encoders, and each has just what the scene's block gives, the journal of the
/// recordings is lawful for the frame, and there are as many items and dropped lines as the frame's plan has.
pub fn recorded_law()
    ensures { RecordedLaw }
{
    gathered_law();
}

/// Where a context's calls wrote what the lines of a scene's frame write, and its encoders recorded what the scene's blocks give, the frame
/// that is made of them is the scene's frame by index, by the journal of the recordings. `L` is the context's link.
pub fn frame_law<L>()
    ensures { GivenFrameLaw L }
{
    gathered_law();
}

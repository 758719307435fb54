// What frames leave that were played and rendered.

use frame_record::Outcome;
use render_core::Renderer;
use scene_playing::FrameNote;
use scene_text::Journal;

/// What the frames of a scene leave that were played and rendered, when all that were given came back.
#[derive(Drop)]
pub(crate) struct Rendered<P: Drop> {
    /// The renderer behind the frames that were given.
    pub(crate) renderer: Renderer<P>,
    /// The items of each frame that ended, in the order of their numbers.
    pub(crate) journal: Journal,
    /// What each frame that ended notes.
    pub(crate) notes: Vec<FrameNote>,
    /// The outcome of the first frame that was not shown; `Shown` where each that was given was.
    pub(crate) outcome: Outcome,
    /// Whether each frame of the scene was given.
    pub(crate) is_whole: bool,
}

// What the frames of a scene leave.
use frame_record::Outcome;
use scene_text::Journal;

/// What a frame notes: how many items its encoders recorded, and how many lines were dropped in it.
#[derive(Clone, Copy, Drop, PartialEq, Eq, Debug)]
pub struct FrameNote {
    pub items: u64,
    pub dropped: u128,
}

/// What the frames of a scene leave, when all that were given came back.
#[derive(Drop)]
pub struct Played<L: Drop> {
    /// The link, at which no frame is out.
    pub link: L,
    /// The items of each frame that ended, in the order in which they were numbered, which is lawful for the scene.
    pub journal: Journal,
    /// What each frame that ended notes.
    pub notes: Vec<FrameNote>,
    /// The outcome of the first frame that was not shown; `Shown` where each that was given was.
    pub outcome: Outcome,
    /// Whether each frame of the scene was given, both ways. Where not, a frame was not shown, or memory was wanting.
    pub is_whole: bool,
}

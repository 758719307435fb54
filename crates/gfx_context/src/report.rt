// What the end of a frame and the end of a context tell.
use frame_record::{JournalEntry, Outcome};
use hold_table::ApiSeat;

/// A frame that came back: its number, and how its render went.
#[derive(Clone, Copy, Drop, PartialEq, Eq, Debug)]
pub struct BackNote {
    pub number: u32,
    pub outcome: Outcome,
}

/// What a frame that ended tells.
#[derive(Debug, Drop, PartialEq, Eq)]
pub struct FrameReport {
    /// The number of the frame.
    pub number: u32,
    /// The items of all encoders of the frame, in the order of their numbers.
    pub journal: Vec<JournalEntry>,
    /// The sum of the numbers that the encoders ended with.
    pub dropped: u64,
    /// The frame that came back; none exactly where fewer were out than may be.
    pub back: Option<BackNote>,
    /// Whether the frame was given; it was not exactly where the frame that came back was not shown.
    pub given: bool,
}

/// What is left of a context.
#[derive(Drop)]
pub struct Closed<L: Drop> {
    pub link: L,
    pub seat: ApiSeat,
    /// The frames that came back when it was shut down, the oldest first: one note for each that was out, and none in the other places.
    pub backs: [Option<BackNote>; 3],
}

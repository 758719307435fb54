// The history of a pixel.

use frame_tracing::Made;
use pixel_ops::Pixel;
use trace_lines::Doer;

/// A pixel of the back buffer in a frame: the frame's number from 0, the column from the left and the row from the top.
#[derive(Clone, Copy, Drop, Debug)]
pub struct Spot {
    pub frame: u32,
    pub x: u16,
    pub y: u16,
}

/// What a pixel goes through in a frame.
#[derive(Drop)]
pub struct History {
    /// The pixel as the frames before left it.
    pub before: Pixel,
    /// What the frame's deeds do to it, in order, each with the number of its deed.
    pub made: Vec<Made>,
    /// Whose each deed of the frame is.
    pub doers: Vec<Doer>,
}

// What is asked of a play.

use crate::history::Spot;

/// A pixel of a frame, of pictures with these sides.
#[derive(Clone, Copy, Drop)]
pub struct Asked {
    pub width: u16,
    pub height: u16,
    pub spot: Spot,
}

/// The steps of a frame, of pictures with these sides.
#[derive(Clone, Copy, Drop)]
pub struct AskedFrame {
    pub width: u16,
    pub height: u16,
    pub frame: u32,
}

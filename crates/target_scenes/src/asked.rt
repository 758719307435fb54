// What is asked of a play.
use target_tracing::TargetSpot;

/// A pixel of a frame buffer in a frame, of pictures with these sides.
#[derive(Clone, Copy, Drop)]
pub struct AskedTarget {
    pub width: u16,
    pub height: u16,
    pub frame: u32,
    pub spot: TargetSpot,
}

// What was found of a frame.
use target_tracing::TargetHistory;

/// What a pixel of a frame buffer goes through; none where the frame buffer is not there, or has no such pixel.
#[derive(Drop)]
pub struct Found {
    pub history: Option<TargetHistory>,
}

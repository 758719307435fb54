//! What a pixel of a frame buffer goes through: a frame's deeds done one after another on a renderer's stores, with what each does to the pixel.
#![tactic(auto)]

mod made;
mod pixels;
mod strokes;
mod surfaces;
mod tracing;

pub use made::{TargetHistory, TargetMade, TargetStroke};
pub use tracing::{TargetSpot, trace_target};

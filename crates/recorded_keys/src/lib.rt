//! The views of one frame in which two encoders share a key, from what the encoders recorded.
#![tactic(auto)]

mod frames;
mod keys;
pub mod laws;
mod marking;
mod pairs;

pub use frames::{recorded_marks, recorded_views};
pub use marking::mark;
pub use pairs::recorded_pairs;

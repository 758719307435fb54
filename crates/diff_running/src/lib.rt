//! Compares two streams of P6 pictures that stand behind each other, and tells of each frame where they differ.
#![tactic(auto)]

mod diffing;
mod notes;
mod status;
mod words;

pub use diffing::diff;
pub use status::DiffStatus;

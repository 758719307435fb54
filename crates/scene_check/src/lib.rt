//! The lines of a scene that are dropped, found without playing it.
#![tactic(auto)]

mod check;
mod found;
mod frames;
mod lines;
mod meter;
mod numbers;

pub use check::Checker;
pub use found::DroppedLine;
pub use numbers::line_numbers;
pub use scene_lines::Reason;

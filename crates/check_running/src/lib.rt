//! Tells which lines of a scene a play drops, and why.
#![tactic(auto)]

mod checking;
mod lines;
mod putting;
mod status;

pub use checking::check;
pub use status::CheckStatus;

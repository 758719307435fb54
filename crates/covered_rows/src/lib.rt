//! Runs of columns that are covered, and whether those of two encoders meet.
#![tactic(auto)]

mod runs;
mod sweep;
mod triangles;

pub use runs::Run;
pub use sweep::are_apart;
pub use triangles::{Coverer, push_triangle};

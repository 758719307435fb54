//! The steps of a frame: its deeds done one after another on a renderer's stores, and the picture after each.
#![tactic(auto)]

mod doing;
pub mod laws;
mod picture;
mod steps;

pub use doing::do_deed;
pub use picture::write_picture;
pub use steps::{StepFault, put_steps};

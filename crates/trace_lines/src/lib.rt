//! Whose each deed of a frame is, and the lines of what a pixel goes through and of a frame's steps.
#![tactic(auto)]

mod doers;
mod lines;
mod steps;
mod text;

pub use doers::{Doer, doers_of};
pub use lines::put_line;
pub use steps::put_step;
pub use text::{put_doer, put_line_number, put_number, put_pixel};

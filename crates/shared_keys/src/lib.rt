//! Shared keys: the views of a scene's frames in which the order of two encoders' items can matter.
#![tactic(auto)]

pub mod laws;
mod least;
mod lines;
mod marks;

pub use least::shared_views;
pub use lines::push_lines;
pub use marks::{Mark, SharedView};

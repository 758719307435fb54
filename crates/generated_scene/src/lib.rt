//! The generated scene: 640 by 480, four encoders, and in each frame 1,200 squares of 16 by 16 pixels.
#![tactic(auto)]

mod frames;
pub mod laws;
mod squares;

pub use frames::make_scene;

//! The frame buffer that a name stands for in a frame of a scene, found without playing the scene.
#![tactic(auto)]

mod frames;
mod names;
mod target;

pub use target::target_named;

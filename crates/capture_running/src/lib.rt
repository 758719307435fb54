//! Records the pictures that a scene leaves as a capture, and shows captures: what the words of `gfx_capture` ask for.
#![tactic(auto)]

mod captured;
mod given;
pub mod laws;
mod recording;
mod run;
mod showing;
mod size;
mod status;
mod words;

pub use captured::Captured;
pub use run::capture;
pub use status::CaptureStatus;

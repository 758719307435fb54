//! Pixels read out of a renderer's stores, between frames: of the back buffer or of a texture, in a format, into a caller's buffer with a
//! stride.
#![tactic(auto)]

mod formats;
mod reading;

pub use formats::{Pixels, pixels_of};
pub use reading::read_pixels;

//! Frames to pictures: each frame's commands and views drawn on the renderer's stores, and its picture put into a sink.
#![tactic(auto)]

mod beginning;
mod begun_frames;
mod desks;
mod finishing;
mod held_passes;
mod in_place;
pub mod laws;
mod lists;
mod next_views;
mod outcomes;
mod picture;
mod renderer;
mod running;
mod stages;
mod views;

pub use begun_frames::{BegunFrame, LentFrame};
pub use in_place::InPlaceLink;
pub use int_raster::{BandRasterizer, Rasterizer, SerialRasterizer};
pub use pass_bands::Band;
pub use renderer::Renderer;

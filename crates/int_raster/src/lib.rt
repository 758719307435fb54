//! Draws on a surface.
#![tactic(auto)]

mod bands;
mod colors;
mod columns;
mod covering;
mod cuts;
mod deep;
mod deep_spans;
mod drawing;
mod flat;
mod fours;
mod gradients;
mod lanes;
mod listed;
mod lists;
mod opaque;
mod overlays;
mod painters;
mod painting;
mod pairs;
mod pieces;
mod rasterizer;
mod reaches;
mod repainted;
mod rows;
mod samplers;
mod sampling;
mod spans;
mod stores;
mod surfaces;
mod texts;
mod textured;
mod tiles;
mod watch;
mod wipe;
mod wipes;

pub use cuts::{draw_cut, view_rect};
pub use drawing::{draw_bands, draw_view};
pub use lists::{DrawList, DrawRoom, Paint, Prepared};
pub use rasterizer::{BandRasterizer, Rasterizer, SerialRasterizer};
pub use repainted::{draw_deep_as, draw_flat_as};
pub use rows::Rows;
pub use surfaces::Surface;
pub use wipe::Wipe;
pub use wipes::wipe_surface;

//! Points, rectangles, transforms and texels, in whole numbers and fixed point.
#![tactic(auto)]

mod geometry;
mod numbers;
mod picture;
mod telling;

pub use geometry::{Affine, Point, Rect};
pub use numbers::{clamp_i32, div_floor};
pub use picture::{TexelList, Texels};
pub use telling::tell_texels;

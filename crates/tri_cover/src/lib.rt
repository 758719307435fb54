//! Which pixels a triangle covers, and what it has there.
#![tactic(auto)]

mod averages;
mod bounds;
mod corners;
mod edges;
mod inverses;
mod numbers;
mod placing;
mod quads;
mod ramps;
mod rows;
mod shorts;
mod sides;
mod stepping;
mod steps;
mod triangles;
mod wide;

pub use corners::{Fragment, ScreenVertex};
pub use placing::{place, place_still};
pub use ramps::{Ramp, WideRamp};
pub use sides::Sides;
pub use stepping::{Quotient, advanced};
pub use steps::Steps;
pub use triangles::Setup;

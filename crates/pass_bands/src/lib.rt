//! A pass in bands of rows, each of which may be drawn by a thread of its own.
#![tactic(auto)]

mod bands;
mod cutting;
mod drawing;
mod ends;
mod paints;
mod passes;
mod pieces;
mod planning;
mod plans;
mod shared;
mod sharing;
mod works;

pub use bands::Band;
pub use paints::PlannedPaint;
pub use passes::Pass;
pub use plans::Plan;
pub use works::{Task, Work};

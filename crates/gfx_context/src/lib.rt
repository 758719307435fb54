//! The calls of the one thread that makes and destroys things, sets views, begins encoders and ends frames.
#![tactic(auto)]

mod begin;
mod calls;
mod closing;
mod context;
mod creates;
mod ending;
mod gathering;
mod report;
mod updates;
mod views;

pub use context::Context;
pub use context_core::{Start, TexSource, attached_law, items_law, stays_law, targets_law};
pub use draw_encoder::{Encoder, Naming, Room, Shared};
pub use report::{BackNote, Closed, FrameReport};

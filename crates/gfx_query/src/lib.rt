//! Occlusion queries: how many fragments of draws pass their tests, and draws that depend on it.
#![tactic(auto)]

mod counting;
mod fields;
mod forms;
mod fragments;
mod frames;
mod notes;
mod placing;
mod reading;
mod run;
mod script;
mod shapes;
mod sides;
mod spans;
mod stages;
mod status;
mod text;

pub use counting::{DrawWords, InstanceRoom, count_draw};
pub use run::run_queries;
pub use sides::TargetSides;
pub use status::QueryStatus;

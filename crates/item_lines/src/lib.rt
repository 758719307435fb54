//! Which line of a scene's text records which item.
#![tactic(auto)]

mod accepted;
mod items;
mod judged;
pub mod laws;
mod places;

pub use items::item_lines;

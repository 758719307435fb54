//! The least pair of items of two encoders that share a key in a view.
#![tactic(auto)]

pub mod laws;
mod least;
mod lines;
mod pairs;

pub use least::shared_items;
pub use lines::push_pair_lines;
pub use pairs::ItemPair;

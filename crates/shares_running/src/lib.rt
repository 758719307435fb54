//! Tells in which views of which frames of a scene two encoders share a key: what the words of `gfx_shares` ask for.
#![tactic(auto)]

mod harmless;
mod leaving;
mod lines;
mod listing;
mod pairing;
mod pairs;
mod sharing;
mod status;
mod views;
mod words;

pub use sharing::shares;
pub use status::SharesStatus;
pub use words::Job;

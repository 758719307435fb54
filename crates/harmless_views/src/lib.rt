//! The views of a frame in which two encoders share a key, without those of which no pixel of the back buffer cares.
#![tactic(auto)]

mod bare;
mod clashing;
mod covering;
mod judging;
mod scope;

pub use bare::BareFrames;

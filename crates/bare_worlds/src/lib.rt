//! The worlds in which nothing is drawn of a scene's frames, and the stores that stand for them.
#![tactic(auto)]

pub mod laws;

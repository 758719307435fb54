//! What each pixel of a frame buffer goes through in a frame: the laws of its history.
#![tactic(auto)]

pub mod laws;

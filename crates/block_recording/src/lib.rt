//! Recorder threads that live for a whole play: jobs of an encoder and its block, the desk where they wait, and how a line is recorded.
//! A play on one thread records a job line by line in their place.
#![tactic(auto)]

mod desk;
mod job;
pub mod laws;
mod lines;
mod rest;
mod steps;
mod threads;

pub use desk::Desk;
pub use job::{Job, block_lines};
pub use lines::record_line;
pub use steps::Steps;
pub use threads::{help, serve, start_all};

//! Runs a load: each caller's calls in a thread of its own on one context behind a lock, and the history of the calls put as notes.
#![tactic(auto)]

mod block_lock;
mod blocks;
mod callers;
mod calls;
mod loading;
mod notes;
mod running;
mod status;

pub use loading::load;
pub use status::LoadStatus;

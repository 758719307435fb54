//! Runs the program: from its words and the bytes that it reads to the bytes of its pictures and notes.
#![tactic(auto)]

pub mod laws;
mod notes;
mod noting;
mod played;
mod run;
mod showing;
mod status;
mod words;

pub use played::Played;
pub use run::play;
pub use showing::play_bytes_here;
pub use status::Status;

//! Whole inputs and whole outputs: a source read to its end within a limit, and a text put until a sink has taken all of it.
#![tactic(auto)]

mod putting;
mod reading;

pub use putting::{put_all, put_told};
pub use reading::{InputError, LONGEST_INPUT, read_all};

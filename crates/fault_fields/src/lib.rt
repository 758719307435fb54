//! The field at which a text that is no scene fails, beside its line and cause.
#![tactic(auto)]

mod forms;
mod kind;
mod kinds;
mod lines;
mod names;
mod place;
mod spelled;
mod words;

pub use place::fault_field;

//! What calls from C say and are answered: faults with their numbers, handles by their words, and parts of layouts, formats, programs, kinds
//! and modes by numbers.
#![tactic(auto)]

mod faults;
mod given;
mod layouts;
mod numbers;

pub use faults::{Fault, NO_OBJECT, status, told};
pub use given::Things;
pub use layouts::{Part, layout_of};
pub use numbers::{format_of, mode_of, program_of, uniform_kind_of};

//! The fields of a line of text: lines and fields split at a separator, and what is spelled as a number or a name.
#![tactic(auto)]

mod fields;
mod names;
mod numbers;
mod splitting;

pub use fields::{field, is};
pub use names::is_name;
pub use numbers::{is_digit, is_numeral, value_to};
pub use splitting::{find, split_fields};

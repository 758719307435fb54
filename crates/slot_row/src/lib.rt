//! Rows of things by index.
#![tactic(auto)]

mod row;

pub use row::Row;

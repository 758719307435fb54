//! The hold table: draw numbers by one counter, the words of the places of things, and who holds and names what.
#![tactic(auto)]

pub mod laws;
mod table;
mod view;

pub use table::{ApiSeat, EncSeat, HoldTable};

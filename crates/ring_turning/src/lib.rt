//! A ring of sixteen small triangles that turns, without scene text, as an engine draws it.
#![tactic(auto)]

mod recording;
mod ring;
mod spinning;
mod things;
mod turning;

pub use spinning::{End, SIDE, Spun, spin};

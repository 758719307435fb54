//! To which deed of a frame each pixel of its picture is due.
#![tactic(auto)]

mod blaming;
mod brushes;
mod deeds;
pub mod laws;
mod marks;
mod painting;
mod strokes;
mod text;

pub use blaming::blame;
pub use text::numbers_text;

//! Captures: the pictures of some frames as runs of one colour, in bytes that have one spelling for each list of pictures.
#![tactic(auto)]

mod decoding;
mod encoding;
mod fault;
mod fields;
pub mod laws;
mod run;

pub use decoding::decode;
pub use encoding::encode;
pub use fault::CaptureFault;

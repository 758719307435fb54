//! Differences of pictures: two streams of P6 pictures, one behind the other, are compared frame by frame.
#![tactic(auto)]

mod comparing;
mod difference;
mod fault;
mod found;
mod laws;
mod lines;
mod numbers;
mod picture;
mod reading;
mod streams;

pub use difference::{Difference, Place, Spread};
pub use fault::PictureFault;
pub use laws::{all_near_law, near_law, one_reading};
pub use lines::lines_of;
pub use numbers::number;
pub use streams::differences;

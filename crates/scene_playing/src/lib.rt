//! The frames of a scene, played one after another over a context, with recorder threads that live for the whole play, or on one
//! thread.
//!
//! For each frame the API thread plays the lines before the blocks, begins one encoder for each number, hands all but encoder 0 to
//! the recorders, records encoder 0, plays the lines beside the blocks, records what no recorder took, and ends the frame. Where
//! there is one thread, it records all encoders, one after another or in the order of a journal.
#![tactic(auto)]

mod beginning;
mod frame;
mod frames;
mod here;
mod ordered;
mod played;
mod recorders;
mod threads;

pub use here::play_here;
pub use played::{FrameNote, Played};
pub use threads::play_frames;

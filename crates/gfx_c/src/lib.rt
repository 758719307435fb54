//! The front end for C: contexts, encoders that C's own threads use at once, frames and their pictures, and scenes as text. C links this
//! one library.
//!
//! A handle of C is a `Slot`: null, or an object. Each export's contract is that of the call that it stands for, on the values of
//! its handles, and each answers 0 or the number of a `Fault`. What C owes is written in docs/use/from-c.md.
#![tactic(auto)]

mod c_context;
mod c_creates;
mod c_encoder;
mod c_frame;
mod c_passes;
mod c_pixels;
mod c_play;
mod c_recording;
mod c_updates;
mod c_version;
mod c_views;
#[cfg(test)]
mod drawn_tests;
#[cfg(test)]
mod pass_tests;
#[cfg(test)]
mod pixel_tests;
#[cfg(test)]
mod play_tests;
#[cfg(test)]
mod tests;

//! A scene's text, played on the calling thread, whose pictures and report are handed out in a caller's buffers.
#![tactic(auto)]

mod playing;

pub use playing::{PlayEnd, Played, TextSink, play_text};

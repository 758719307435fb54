//! Frames as they are handed over: what encoders recorded, its journal, the order in which it is drawn, and the link to the renderer.
#![tactic(auto)]

mod collecting;
mod frame;
mod link;
mod merging;
mod ordering;
mod placing;

pub use collecting::collect;
pub use frame::{Frame, MOST_ITEMS, Outcome, RenderedFrame};
pub use gfx_words::JournalEntry;
pub use link::FrameLink;
pub use ordering::{OrderedItem, end_of_run};
pub use placing::{PlacedBlit, end_of_blits};

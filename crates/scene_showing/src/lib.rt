//! A scene shown: its frames played, and rendered by a thread of its own, or in place where none can be started or none is to be; their
//! pictures go into a sink.
#![tactic(auto)]

mod beside;
mod counting;
mod here;
mod in_place;
mod rendered;
mod replaying;
mod showing;

pub use counting::item_counts;
pub use here::show_here;
pub use replaying::replay_scene;
pub use showing::{End, Showing, show_scene};

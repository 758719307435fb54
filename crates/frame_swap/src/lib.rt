//! The hand-over of frames between the thread that gives them and the thread that renders them: as many frames may be out at once as
//! the latency says, and none is copied.
//!
//! A frame that is given goes by the word and the slot of its number among all given frames, modulo the latency. Each step is one
//! atomic operation; the rule of the table says what holds between any two of them.
#![tactic(auto)]

mod content;
mod ends;
mod here;
pub mod laws;
mod view;
mod waiting;

pub use content::Content;
pub use ends::{ApiEnd, FrameTable, Nothing, RenderEnd, claim_all, swap_pair};
pub use here::{back_here, give_here, return_here};
pub use view::{
    BackHere, Claim, Give, Law, Learn, Part, Return, Stop, Take, TakeBack, TakeHere, View,
};
pub use waiting::WaitingEnd;

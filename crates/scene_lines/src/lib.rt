//! The lines of the API thread as calls on things and views: what names stand for, and which lines are dropped.
#![tactic(auto)]

mod creating;
mod layouts;
mod naming;
mod playing;
mod reasons;
mod setting;
mod updating;

ghost use Rattle.scene_lines.specs.Names.{PlacesLaw};

pub use playing::{play_line, play_lines};
pub use reasons::Reason;

/// Each name that a line of a readable scene binds has its place in the list of the scene's names.
pub fn places_law()
    ensures { PlacesLaw }
{}

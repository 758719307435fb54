//! What a pixel of a frame buffer goes through in a frame of a scene: the frames before it are rendered, and it is done one deed after another.
#![tactic(auto)]

mod asked;
mod found;
mod lines;
mod playing;
mod target_text;
mod targeter;
mod targeting_link;
mod told;

pub use asked::AskedTarget;
pub use found::Found;
pub use lines::target_history_lines;
pub use playing::scene_target;
pub use target_text::{TargetPlace, target_lines};
pub use told::TargetText;

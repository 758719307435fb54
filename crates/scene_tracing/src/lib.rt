//! What a pixel goes through in a frame of a scene, the frame's steps, and to which of its deeds each pixel is due: the frames before it are
//! rendered, and it is done one deed after another.
#![tactic(auto)]

mod asked;
mod blamed;
mod blamer;
mod blaming_link;
mod history;
mod lines;
mod link;
mod pixel;
mod scene_blaming;
mod scene_steps;
mod stepped;
mod stepper;
mod stepping_link;
mod steps;
mod text;
mod tracer;

pub use frame_steps::StepFault;
pub use history::{History, Spot};
pub use lines::history_lines;
pub use pixel::trace_pixel;
pub use scene_blaming::scene_blame;
pub use scene_steps::{put_scene_steps, scene_step_lines};
pub use stepped::{Stepped, StepsEnd};
pub use steps::step_lines;
pub use text::pixel_lines;

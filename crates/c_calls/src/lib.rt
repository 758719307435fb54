//! What the exports of the library for C call: handles, and behind them contexts, whose frames are rendered in place, and encoders that
//! threads of C use at once.
//!
//! A handle of C is a `Slot`: null, or an object. The contract of a call of an object is that of the call that it stands for, on what
//! contracts see of the object.
#![tactic(auto)]

mod bands;
mod begin;
mod context;
mod creates;
mod encoder;
mod ends;
mod frame;
mod held;
mod objects;
mod on_contexts;
mod on_creates;
mod on_encoders;
mod on_passes;
mod on_updates;
mod on_views;
mod open_frames;
mod opening;
mod parts;
mod passes;
mod picture;
mod pixels;
mod recording;
mod slot;
mod standing;
mod transform;
mod updates;
mod views;

pub use context::Context;
pub use encoder::Encoder;
pub use ends::{drop_encoder, end_encoder, shut_down};
pub use frame::Framed;
pub use objects::Object;
pub use on_contexts::{collect, end_frame, frame_number, read_pixels};
pub use on_creates::{
    create_filled_texture, create_frame_buffer, create_index_buffer, create_layout, create_program,
    create_texture, create_uniform, create_vertex_buffer,
};
pub use on_encoders::{
    encoder_blit, encoder_discard, encoder_set_indices, encoder_set_int, encoder_set_scissor,
    encoder_set_state, encoder_set_stencil, encoder_set_texture, encoder_set_transform,
    encoder_set_transient_indices, encoder_set_transient_vertices, encoder_set_vec4,
    encoder_set_vertices, encoder_submit, encoder_touch,
};
pub use on_passes::{begin_frame, close_frame, draw_band, end_pass, next_pass};
pub use on_updates::{destroy, update_buffer, update_texture};
pub use on_views::{
    reset_view, set_view_clear, set_view_mode, set_view_order, set_view_rect, set_view_scissor,
    set_view_target, set_view_transform,
};
pub use open_frames::{OpenFrame, Place};
pub use opening::{begin_into, open_into};
pub use picture::PictureSink;
pub use slot::Slot;
pub use standing::Standing;
pub use transform::Transform;

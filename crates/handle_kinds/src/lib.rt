//! What the calls of encoders ask of a handle: its kind, a texture's format, and the kind of a uniform's values. Whoever records such a call
//! and whoever only judges it ask the same.
#![tactic(auto)]

mod asked;

pub use asked::{
    differ_in_format, is_no_blit_destination, is_no_color_texture, is_no_uniform_for, is_not_of,
};

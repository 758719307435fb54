//! Textures and frame buffers by index.
#![tactic(auto)]

mod pictures;
mod rows;
mod source;
mod store;
mod targets;
mod texture;
mod textures;

pub use gfx_words::TexSource;
pub use source::{BlitBox, TexelSource};
pub use store::TextureStore;

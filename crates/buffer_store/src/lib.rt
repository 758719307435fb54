//! Layouts, vertex buffers, index buffers and uniforms by index.
#![tactic(auto)]

mod bytes;
mod store;
mod uniform;
mod vertices;

pub use store::BufferStore;

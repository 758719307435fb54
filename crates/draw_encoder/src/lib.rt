//! Recording: encoders, what they record, and the bundles that wait to be collected.
#![tactic(auto)]

mod bundle;
mod encoder;
mod items;
pub mod laws;
mod lists;
mod naming;
mod posting;
mod recorder;
mod shared;
mod states;
mod tape;

pub use bundle::Bundle;
pub use encoder::Encoder;
pub use gfx_words::Room;
pub use items::{
    BlitCall, BlitItem, DrawItem, IndexSet, Item, Recording, TouchItem, UniformSet, VertexSet,
};
pub use lists::{Bytes, Items, UniformSets};
pub use naming::Naming;
pub use recorder::Recorder;
pub use shared::Shared;

// The laws by which an engine says what its pictures are.

pub use render_core::laws::{kept_law, texts_law};

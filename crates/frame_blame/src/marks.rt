// Marks: what is kept of each pixel while deeds are done.

/// What is kept of a pixel.
#[derive(Clone, Copy, Drop)]
pub(crate) struct Mark {
    /// Its depth and stencil, where it has them.
    pub(crate) depth: Option<u32>,
    /// The deed that gave it its colour last, counted from 1; 0 where none did.
    pub(crate) deed: u32,
}

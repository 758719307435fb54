// What is told.

/// What is told of a pixel of the frame buffer of a name.
#[derive(Drop)]
pub enum TargetText {
    /// The lines of what it goes through.
    Lines(Vec<u8>),
    /// The name stands for nothing in the frame, or no view of the frame draws on what it stands for.
    NoTarget,
    /// The frame buffer has no such pixel.
    NoPixel,
}

// To which deeds the pixels of a frame are due.

/// Of each pixel of a frame's picture, row by row from the top, the number of the deed that gave it its colour last, counted from 1; 0 where
/// none did.
#[derive(Drop)]
pub struct Blamed {
    pub width: u16,
    pub height: u16,
    pub numbers: Vec<u32>,
}

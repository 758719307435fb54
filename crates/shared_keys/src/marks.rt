// Marks of items, and the pairs of encoders that they tell.

/// What tells with which other items of its view an item clashes.
#[derive(Clone, Copy, Drop, PartialEq, Eq, Debug)]
pub struct Mark {
    /// The item's view.
    pub view: u16,
    /// Whether it is a blit: a blit clashes with each other blit of its view.
    pub is_blit: bool,
    /// The item's sort key with number 0. It is 0 where it tells no items apart: for a blit, and in a view whose mode is Sequential.
    pub key: u64,
    /// The encoder that recorded the item.
    pub encoder: u8,
}

/// A view in which two encoders share a key, and the least pair of such encoders.
#[derive(Clone, Copy, Drop, PartialEq, Eq, Debug)]
pub struct SharedView {
    pub view: u16,
    /// The lesser encoder of the pair.
    pub first: u8,
    pub second: u8,
}

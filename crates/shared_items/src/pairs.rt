// Pairs of items.

/// Two items of two encoders that share a key in a view. An item is told by its place among those of its encoder in the frame, from 0, as in a
/// journal.
#[derive(Clone, Copy, Drop, PartialEq, Eq, Debug)]
pub struct ItemPair {
    pub view: u16,
    /// The lesser encoder of the two.
    pub first: u8,
    /// The place of its item.
    pub first_item: usize,
    pub second: u8,
    pub second_item: usize,
}

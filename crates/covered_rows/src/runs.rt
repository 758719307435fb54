// Runs of covered columns.

/// Columns of a row, beside each other, that an item covers: those from `first` on, and before `after`.
#[derive(Clone, Copy, Drop, PartialEq, Eq, Debug)]
pub struct Run {
    /// The key by which the item clashes.
    pub key: u64,
    /// The encoder that recorded it.
    pub encoder: u8,
    pub row: u16,
    pub first: u16,
    pub after: u16,
}

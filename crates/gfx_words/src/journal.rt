// Entries of a frame's journal.

/// An item of a frame: the number of the encoder that recorded it, and its place among that encoder's accepted items, from 0.
#[derive(Clone, Copy, Drop, PartialEq, Eq, Debug)]
pub struct JournalEntry {
    pub encoder: u8,
    pub ordinal: u32,
}

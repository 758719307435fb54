//! Texels written into a caller's buffer: row by row from the top, with a stride, in the order of bytes that the caller wants.
#![tactic(auto)]

mod rows;

pub use rows::{ByteOrder, has_room, write_rows};

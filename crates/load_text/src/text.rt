// Whole texts.
ghost use Rattle.std.specs.Prelude.{◌≡◌, ◌≤◌, length};
ghost use Rattle.load_text.specs.Text as text;
ghost use Rattle.load_text.specs.Seen.{ReadsLoad};
ghost use Rattle.load_text.specs.SeenReading.{reading_seen};
ghost use Rattle.load_text.specs.declared.text.LoadFault.TheVariants.{OutOfMemory};

use crate::load::Block;
use crate::stages::{Reading, Stage};
use std::alloc::{AllocError, Global};
use text_fields::find;

/// Why bytes are no load.
#[derive(Clone, Copy, Debug, PartialEq, Eq, Drop)]
pub enum LoadFault {
    /// The first line that fails, counted from 1. A text that ends too early fails at the number of its newlines plus 1.
    Line(u32),
    /// There was no memory.
    OutOfMemory,
}

impl From<AllocError> for LoadFault {
    ghost from_gives = { λ _ e. e ≡ OutOfMemory };

    fn from(_: AllocError) -> Self {
        LoadFault::OutOfMemory
    }
}

/// What no newline ends is no line, so nothing stands there where a text ends behind `done`.
fn at_last_piece(line: u32, reading: Reading, rest: &[u8]) -> Result<Vec<Block>, LoadFault>
    ensures { ReadsLoad result (text.at_last_piece line (reading_seen reading) rest.now) }
{
    match rest {
        [] => {
            if reading.stage == Stage::End {
                Ok(reading.blocks)
            } else {
                Err(LoadFault::Line(line))
            }
        }
        [_, ..] => Err(LoadFault::Line(line)),
    }
}

/// The blocks that the bytes say, at most 16,777,216 bytes: the lines `load 1` and `callers N` with N from 1 to 8, then for each caller
/// that has calls a line `caller C`, ascending and below N, followed by its lines, then `done`.
///
/// # Errors
///
/// `Line` exactly where the bytes are no such text, with the first line that fails; `OutOfMemory` for want of memory alone.
pub fn read_load(alloc: Global, bytes: &[u8]) -> Result<Vec<Block>, LoadFault>
    requires { length bytes.now ≤ 16777216 }
    ensures { ReadsLoad result (text.load_of bytes.now) }
{
    let mut reading = Reading::new(alloc);
    let mut fields = Vec::new(alloc);
    let mut rest = bytes;
    let mut line: u32 = 1;
    while let Some(n) = find(rest, b'\n') {
        let stands = reading.after_line(alloc, &rest[..n], &mut fields)?;
        if !stands {
            return Err(LoadFault::Line(line));
        }
        rest = &rest[n + 1..];
        line += 1;
    }
    at_last_piece(line, reading, rest)
}

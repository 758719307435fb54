// Whole texts.
ghost use Rattle.std.specs.Prelude.{◌≡◌, ◌≤◌, length};
ghost use Rattle.gfx_query.specs.Text as text;
ghost use Rattle.gfx_query.specs.SeenReading.{reading_seen, ReadsScript};
ghost use Rattle.gfx_query.specs.declared.text.TextFault.TheVariants.{OutOfMemory};

use crate::script::Script;
use crate::stages::{Reading, Stage};
use std::alloc::{AllocError, Global};
use text_fields::find;

/// Why bytes are no script: the first line that fails, counted from 1, or want of memory.
#[derive(Clone, Copy, Debug, PartialEq, Eq, Drop)]
pub(crate) enum TextFault {
    Line(u32),
    OutOfMemory,
}

impl From<AllocError> for TextFault {
    ghost from_gives = { λ _ e. e ≡ OutOfMemory };

    fn from(_: AllocError) -> Self {
        TextFault::OutOfMemory
    }
}

/// What no newline ends is no line, so nothing stands there where a text ends behind `done`.
fn at_last_piece(line: u32, reading: Reading, rest: &[u8]) -> Result<Script, TextFault>
    ensures { ReadsScript result (text.at_last_piece line (reading_seen reading) rest.now) }
{
    match rest {
        [] => {
            if reading.stage == Stage::End {
                Ok(Script {
                    sides: reading.sides,
                    frames: reading.frames,
                })
            } else {
                Err(TextFault::Line(line))
            }
        }
        [_, ..] => Err(TextFault::Line(line)),
    }
}

/// The script that the bytes are, or the first line that fails, counted from 1.
pub(crate) fn read_script(alloc: Global, bytes: &[u8]) -> Result<Script, TextFault>
    requires { length bytes.now ≤ 16777216 }
    ensures { ReadsScript result (text.script_of bytes.now) }
{
    let mut reading = Reading::new(alloc);
    let mut fields = Vec::new(alloc);
    let mut rest = bytes;
    let mut line: u32 = 1;
    while let Some(n) = find(rest, b'\n') {
        let stands = reading.after_line(alloc, &rest[..n], &mut fields)?;
        if !stands {
            return Err(TextFault::Line(line));
        }
        rest = &rest[n + 1..];
        line += 1;
    }
    at_last_piece(line, reading, rest)
}

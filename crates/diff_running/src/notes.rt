// The notes of what is refused.
ghost use Rattle.std.specs.Prelude.{◌≡◌, IfOk};
ghost use Rattle.diff_running.specs.Notes.{count_note, picture_note, sides_note};

use std::alloc::{AllocError, Global};

pub(crate) const USAGE: &[u8] = b"usage: gfx_diff [--near N] [--frames K]\n";

pub(crate) const LENGTH: &[u8] = b"input is longer than 4294967296 bytes\n";

/// `picture N refused at byte B`
pub(crate) fn picture_note(alloc: Global, pictures: usize, at: usize) -> Result<Vec<u8>, AllocError>
    ensures { IfOk result (λ text. text.items ≡ picture_note pictures at) }
{
    let text = format!(in alloc; "picture {pictures} refused at byte {at}\n")?;
    let bytes = text.as_bytes().to_vec(alloc)?;
    Ok(bytes)
}

/// `streams refused: N pictures in all`
pub(crate) fn count_note(alloc: Global, pictures: usize) -> Result<Vec<u8>, AllocError>
    ensures { IfOk result (λ text. text.items ≡ count_note pictures) }
{
    let text = format!(in alloc; "streams refused: {pictures} pictures in all\n")?;
    let bytes = text.as_bytes().to_vec(alloc)?;
    Ok(bytes)
}

/// `frame N refused: sides differ`
pub(crate) fn sides_note(alloc: Global, frame: usize) -> Result<Vec<u8>, AllocError>
    ensures { IfOk result (λ text. text.items ≡ sides_note frame) }
{
    let text = format!(in alloc; "frame {frame} refused: sides differ\n")?;
    let bytes = text.as_bytes().to_vec(alloc)?;
    Ok(bytes)
}

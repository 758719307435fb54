// The lines of a text, and the fields of a line.
ghost use Rattle.std.specs.Prelude.{◌≡◌, ◌<◌, ◌≤◌, ◌+◌, ◌-◌, [], ◌∷◌, length, take, drop};
ghost use Rattle.scene_model.specs.Field.{split_at};
ghost use Rattle.scene_model.specs.Grammar.{field};
ghost use Rattle.fault_fields.specs.Fields.{line_at};

use text_fields::find;

/// The first part of bytes that are split at a separator.
fn first_part(bytes: &[u8], separator: u8) -> &[u8]
    ensures is { result.now ≡ field (split_at separator bytes.now) 0 }
    ensures few { length result.now ≤ length bytes.now }
{
    match find(bytes, separator) {
        Some(n) => &bytes[..n],
        None => bytes,
    }
}

/// The part at a place, or no bytes.
pub(crate) fn part(bytes: &[u8], separator: u8, place: u32) -> &[u8]
    ensures is { result.now ≡ field (split_at separator bytes.now) place }
    ensures few { length result.now ≤ length bytes.now }
{
    let mut rest = bytes;
    for _ in 0..place {
        match find(rest, separator) {
            Some(n) => rest = &rest[n + 1..],
            None => return &[],
        }
    }
    first_part(rest, separator)
}

/// A line of a text, counted from 1.
pub(crate) fn line_at(bytes: &[u8], line: u32) -> &[u8]
    ensures is { result.now ≡ line_at bytes.now line }
    ensures few { length result.now ≤ length bytes.now }
{
    part(bytes, b'\n', line.saturating_sub(1))
}

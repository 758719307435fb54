// Splits lines at their newlines, and lines into their fields.
ghost use Rattle.std.specs.Prelude.{◌≡◌, ◌<◌, ◌≤◌, ◌+◌, ◌^◌, [], ◌∷◌, true, length, take, drop, MatchOption, IfOk, IfSome};
ghost use Rattle.scene_model.specs.Field.{split_at};
ghost use Rattle.scene_text.specs.Cuts.{IsOpen, IsLine, IsStep, IsSplit};
ghost use Rattle.text_fields.specs.Fields.{texts};

use crate::marks::{lowest, marks_from, without};
use std::alloc::AllocError;
use text_fields::find;

/// What a step over 32 bytes comes to.
#[derive(Drop)]
enum Step {
    /// Nothing but fields and blanks: the last field begins at this place, and is open.
    Open(usize),
    /// A newline at this place.
    Line(usize),
    /// Another byte that is no text byte.
    Other,
}

/// Goes on with a line over 32 bytes more, whose last field is open.
#[inline(always)]
fn go_on<'a>(
    bytes: &'a [u8],
    from: usize,
    start: usize,
    fields: &mut Vec<&'a [u8]>,
) -> Result<Step, AllocError>
    requires inside { from + 32 ≤ length bytes.now }
    requires begun { IsOpen bytes.now start from (texts fields.old.items) }
    ensures { IfOk result (IsStep bytes.now (from + 32) (texts fields.new.items)) }
{
    let mut start = start;
    let mut marks = marks_from(bytes, from);
    while marks != 0 {
        let bit = lowest(marks);
        let place = from + bit;
        fields.push(&bytes[start..place])?;
        if bytes[place] == b'\n' {
            return Ok(Step::Line(place));
        }
        if bytes[place] != b' ' {
            return Ok(Step::Other);
        }
        start = place + 1;
        marks = without(marks, bit);
    }
    Ok(Step::Open(start))
}

/// The end of the first line and its fields, in one pass. It gives up where a byte is no text byte, and near the end of the
/// bytes; the list has no meaning then.
fn text_line<'a>(bytes: &'a [u8], fields: &mut Vec<&'a [u8]>) -> Result<Option<usize>, AllocError>
    ensures { IfOk result (λ found. IfSome found (λ end. IsLine bytes.now end (texts fields.new.items))) }
{
    fields.clear();
    let mut start = 0;
    let mut from = 0;
    while bytes.len() - from >= 32 {
        match go_on(bytes, from, start, fields)? {
            Step::Open(place) => start = place,
            Step::Line(end) => return Ok(Some(end)),
            Step::Other => return Ok(None),
        }
        from += 32;
    }
    Ok(None)
}

/// A line without its newline.
#[derive(Clone, Copy, Drop)]
pub struct LineEnd {
    /// The place of the newline.
    pub end: usize,
    /// Whether the line has text bytes alone, and its fields are known.
    pub is_split: bool,
}

/// The end of the first line that a newline ends. Most lines are split into their fields on the way.
pub fn next_line<'a>(
    bytes: &'a [u8],
    fields: &mut Vec<&'a [u8]>,
) -> Result<Option<LineEnd>, AllocError>
    ensures cases { IfOk result (λ found. MatchOption found
        (split_at 10 bytes.now ≡ bytes.now ∷ [])
        (λ l. (l.end < length bytes.now) × (split_at 10 bytes.now ≡ take l.end bytes.now ∷ split_at 10 (drop (l.end + 1) bytes.now)))) }
    ensures split { IfOk result (λ found. IfSome found (λ l. l.is_split ≡ true → IsSplit (take l.end bytes.now) (texts fields.new.items))) }
    ensures small { IfOk result (λ found. IfSome found (λ l. l.end < 2 ^ 63)) }
{
    if let Some(end) = text_line(bytes, fields)? {
        return Ok(Some(LineEnd {
            end,
            is_split: true,
        }));
    }
    match find(bytes, b'\n') {
        Some(end) => Ok(Some(LineEnd {
            end,
            is_split: false,
        })),
        None => Ok(None),
    }
}

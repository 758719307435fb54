// The call.
ghost use Rattle.std.specs.Prelude.{◌≡◌, ◌≤◌, length};
ghost use Rattle.scene_model.specs.Field.{split_at};
ghost use Rattle.fault_fields.specs.Fields.{kinds_for, misplaced_field, field_of, lines_before, fault_field};

use crate::forms::line_kinds;
use crate::kind::Kind;
use crate::kinds::first_wrong;
use crate::lines::{line_at, part};
use crate::names::opens_before;
use text_fields::is;

const BAD_BYTE: u8 = 1;

const ENDS_EARLY: u8 = 2;

const UNKNOWN_WORD: u8 = 3;

const MISPLACED_WORD: u8 = 4;

const WRONG_FIELD_COUNT: u8 = 5;

/// The field of a word that can't stand.
fn misplaced_field(bytes: &[u8], line: u32, fields: &[u8]) -> u32
    ensures { result ≡ misplaced_field (lines_before bytes.now line) (split_at 32 fields.now) }
{
    if !is(b"encoder", part(fields, b' ', 0)) {
        return 1;
    }
    if opens_before(bytes, line) { 2 } else { 1 }
}

/// What the fields of a line must be that fails for a cause.
fn kinds_for(cause: u8, fields: &[u8]) -> &'static [Kind]
    ensures { result.now ≡ kinds_for cause (split_at 32 fields.now) }
{
    if cause == BAD_BYTE {
        return &[Kind::Text];
    }
    if cause == WRONG_FIELD_COUNT {
        return &[Kind::Filled];
    }
    line_kinds(part(fields, b' ', 0), part(fields, b' ', 2))
}

/// The number of the field at which a line fails for a cause.
fn field_of(bytes: &[u8], line: u32, fields: &[u8], cause: u8) -> u32
    requires few { length fields.now ≤ 4294967294 }
    ensures { result ≡ field_of (lines_before bytes.now line) (split_at 32 fields.now) cause }
{
    if cause == UNKNOWN_WORD {
        return 1;
    }
    if cause == MISPLACED_WORD {
        return misplaced_field(bytes, line, fields);
    }
    match first_wrong(bytes, line, kinds_for(cause, fields), fields) {
        Some(number) => number,
        None => 1,
    }
}

/// The number, counted from 1, of the field at which a text that is no scene fails, given the line and the cause that `scene_text::read`
/// told of it; `None` where the text ends early. It takes no memory, and reads the text at most three times.
pub fn fault_field(bytes: &[u8], line: u32, cause: u8) -> Option<u32>
    requires few { length bytes.now ≤ 4294967294 }
    ensures exact { result ≡ fault_field bytes.now line cause }
{
    if cause == ENDS_EARLY {
        return None;
    }
    Some(field_of(bytes, line, line_at(bytes, line), cause))
}

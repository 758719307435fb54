// Fields against what they must be.
ghost use Rattle.std.specs.Prelude.{◌≡◌, ◌≤◌, ◌+◌, ◌&&◌, not, length};
ghost use Rattle.scene_model.specs.Field.{is_name};
ghost use Rattle.fault_fields.specs.Names.{is_made};
ghost use Rattle.scene_model.specs.Field.{split_at};
ghost use Rattle.fault_fields.specs.Kinds.{is_right, first_kind, later_kinds, first_wrong};
ghost use Rattle.fault_fields.specs.Fields.{lines_before};

use crate::kind::Kind;
use crate::names::is_made;
use crate::spelled::{
    is_color, is_empty, is_hex, is_integer, is_number, is_part, is_source, is_text,
};
use crate::words::{is_destination, is_format, is_mode, is_program, is_setting, is_uniform};
use text_fields::{find, is, is_name};

/// A name that a line before makes.
fn is_made_name(bytes: &[u8], line: u32, field: &[u8]) -> bool
    ensures { result ≡ is_right (lines_before bytes.now line) Kind.Name field.now }
{
    is_name(field) && is_made(true, bytes, line, field)
}

/// A name that no line before makes, or none but `uniform` lines.
fn is_new_name(uniforms: bool, bytes: &[u8], line: u32, field: &[u8]) -> bool
    ensures { result ≡ (is_name field.now && not (is_made uniforms (lines_before bytes.now line) field.now)) }
{
    is_name(field) && !is_made(uniforms, bytes, line, field)
}

/// Whether a field is what it must be, in a line of a text.
fn is_right(bytes: &[u8], line: u32, kind: Kind, field: &[u8]) -> bool
    ensures { result ≡ is_right (lines_before bytes.now line) kind field.now }
{
    match kind {
        Kind::Any => true,
        Kind::Text => is_text(field),
        Kind::Filled => !is_empty(field),
        Kind::NewName => is_new_name(true, bytes, line, field),
        Kind::NewUniform => is_new_name(false, bytes, line, field),
        Kind::Name => is_made_name(bytes, line, field),
        Kind::NameOrNone => is(field, b"-") || is_made_name(bytes, line, field),
        Kind::Number { low, high } => is_number(field, low, high),
        Kind::Integer => is_integer(field),
        Kind::Format => is_format(field),
        Kind::Destination => is_destination(field),
        Kind::Program => is_program(field),
        Kind::Uniform => is_uniform(field),
        Kind::Setting => is_setting(field),
        Kind::Mode => is_mode(field),
        Kind::Hex => is_hex(field),
        Kind::Color => is_color(field),
        Kind::Source => is_source(field),
        Kind::Part => is_part(field),
    }
}

/// What the next field must be.
fn first_kind(kinds: &[Kind]) -> Kind
    ensures { result ≡ first_kind kinds.now }
{
    match kinds {
        [] => Kind::Any,
        [first, ..] => *first,
    }
}

/// What the fields behind the next one must be.
fn later_kinds(kinds: &[Kind]) -> &[Kind]
    ensures { result.now ≡ later_kinds kinds.now }
{
    match kinds {
        [] => kinds,
        [_] => kinds,
        [_, later @ ..] => later,
    }
}

/// The number, from 1, of the first field of a line that is not what it must be.
pub(crate) fn first_wrong(bytes: &[u8], line: u32, kinds: &[Kind], fields: &[u8]) -> Option<u32>
    requires few { length fields.now ≤ 4294967294 }
    ensures { result ≡ first_wrong (lines_before bytes.now line) 1 kinds.now (split_at 32 fields.now) }
{
    let mut rest = fields;
    let mut left = kinds;
    let mut number: u32 = 1;
    while let Some(n) = find(rest, b' ') {
        if !is_right(bytes, line, first_kind(left), &rest[..n]) {
            return Some(number);
        }
        rest = &rest[n + 1..];
        left = later_kinds(left);
        number += 1;
    }
    if is_right(bytes, line, first_kind(left), rest) {
        None
    } else {
        Some(number)
    }
}

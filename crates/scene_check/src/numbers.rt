// The numbers of the lines of a text that are lines of the API thread or of an encoder.
ghost use Rattle.std.specs.Prelude.{◌≡◌, ◌<◌, ◌≤◌, ◌+◌, ◌++◌, ◌^◌, [], ◌∷◌, bytes_eq, length, take, drop, not, MatchOption, IfOk, IfSome, map};
ghost use Rattle.scene_model.specs.Field.{split_at};
ghost use Rattle.scene_model.specs.Grammar.{field, is_skipped};
ghost use Rattle.dropped_lines.specs.Numbers.{is_order_word, is_numbered, numbers_from, line_numbers};

use std::alloc::{AllocError, Global};
use text_fields::{find, is};

// The first field of a line.
fn first_field(line: &[u8]) -> &[u8]
    ensures { result.now ≡ field (split_at 32 line.now) 0 }
{
    match find(line, b' ') {
        Some(n) => &line[..n],
        None => line,
    }
}

// A word of the order of lines.
fn is_order_word(field: &[u8]) -> bool
    ensures { result ≡ is_order_word field.now }
{
    if is(b"scene", field) {
        return true;
    }
    if is(b"size", field) {
        return true;
    }
    if is(b"encoders", field) {
        return true;
    }
    if is(b"room", field) {
        return true;
    }
    if is(b"latency", field) {
        return true;
    }
    if is(b"frame", field) {
        return true;
    }
    if is(b"encoder", field) {
        return true;
    }
    if is(b"beside", field) {
        return true;
    }
    is(b"done", field)
}

// An empty line, or one that begins with `#`.
fn is_skipped(line: &[u8]) -> bool
    ensures { result ≡ is_skipped line.now }
{
    match line {
        [] => true,
        [first, ..] => *first == b'#',
    }
}

// A line of the API thread or of an encoder.
fn is_numbered(line: &[u8]) -> bool
    ensures { result ≡ is_numbered line.now }
{
    if is_skipped(line) {
        return false;
    }
    !is_order_word(first_field(line))
}

// Notes a line's number, if it is such a line.
fn note(numbers: &mut Vec<u32>, number: u32, line: &[u8]) -> Result<(), AllocError>
    ensures { IfOk result (λ _. numbers.new.items ≡ numbers.old.items ++ numbers_from number (line.now ∷ [])) }
{
    if is_numbered(line) {
        numbers.push(number)?;
    }
    Ok(())
}

/// The numbers of the lines of a text, counted from 1, that are lines of the API thread or of an encoder: those that are not skipped and
/// don't begin with a word of the order of lines.
///
/// # Errors
///
/// For want of memory alone.
pub fn line_numbers(alloc: Global, bytes: &[u8]) -> Result<Vec<u32>, AllocError>
    requires { length bytes.now ≤ 4294967294 }
    ensures { IfOk result (λ numbers. numbers.items ≡ line_numbers bytes.now) }
{
    let mut numbers = Vec::new(alloc);
    let mut rest = bytes;
    let mut line: u32 = 1;
    while let Some(n) = find(rest, b'\n') {
        note(&mut numbers, line, &rest[..n])?;
        rest = &rest[n + 1..];
        line += 1;
    }
    note(&mut numbers, line, rest)?;
    Ok(numbers)
}

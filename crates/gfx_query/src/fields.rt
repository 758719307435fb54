// The fields of a line, and numbers and bytes in them.
ghost use Rattle.std.specs.Prelude.{◌≡◌, ◌≤◌, ◌<◌, length, option_map, IfOk, IfSome};
ghost use Rattle.scene_model.specs.Field as model;
ghost use Rattle.gfx_query.specs.Text.{number, when, is_word, has_count, packed, some_read};
ghost use Rattle.text_fields.specs.Fields.{texts};

use std::alloc::{AllocError, Global};
use text_fields::{field, is, is_digit, is_numeral, value_to};

/// Whether the first field is a word.
pub(crate) fn is_word(word: &[u8], fields: &[&[u8]]) -> bool
    ensures { result ≡ is_word word.now (texts fields.now) }
{
    is(word, field(fields, 0))
}

/// Nothing, where the test holds.
pub(crate) fn when(test: bool) -> Option<bool>
    ensures { result ≡ when test }
{
    if test { Some(true) } else { None }
}

/// There are so many fields.
pub(crate) fn has_count(fields: &[&[u8]], count: usize) -> Option<bool>
    ensures { result ≡ has_count count (texts fields.now) }
{
    when(fields.len() == count)
}

/// A number from `low` to `high`.
#[tactic(auto, unfolding(crate::specs::Text::number))]
pub(crate) fn number(field: &[u8], low: u64, high: u64) -> Option<u64>
    ensures value { result ≡ number low high field.now }
    ensures low { IfSome result (λ n. low ≤ n) }
    ensures high { IfSome result (λ n. n ≤ high) }
{
    if !is_numeral(field) {
        return None;
    }
    match value_to(field, high) {
        Some(n) => { if low <= n { Some(n) } else { None } }
        None => None,
    }
}

/// The value of a digit of sixteen.
#[tactic(auto, unfolding(scene_model::specs::Field::hex_value))]
fn hex_value(byte: u8) -> Option<u8>
    ensures value { result ≡ model.hex_value byte }
    ensures few { IfSome result (λ n. n ≤ 15) }
{
    if is_digit(byte) {
        return Some(byte - b'0');
    }
    if byte >= b'a' && byte <= b'f' {
        return Some(byte - 87);
    }
    None
}

/// The byte of a pair of digits.
#[tactic(auto, unfolding(scene_model::specs::Field::hex_byte))]
fn hex_byte(a: u8, b: u8) -> Option<u8>
    ensures { result ≡ some_read (model.hex_byte a b) }
{
    match (hex_value(a), hex_value(b)) {
        (Some(a), Some(b)) => Some(a * 16 + b),
        _ => None,
    }
}

/// The bytes of pairs of digits.
fn hex_pairs(alloc: Global, digits: &[u8]) -> Result<Option<Vec<u8>>, AllocError>
    ensures bytes { IfOk result (λ o. option_map (λ v. v.items) o ≡ some_read (model.hex_pairs digits.now)) }
    ensures few { IfOk result (λ o. IfSome o (λ v. length v.items ≤ length digits.now)) }
{
    let mut bytes = Vec::with_capacity(alloc, digits.len() / 2)?;
    let mut rest = digits;
    while let [a, b, after @ ..] = rest {
        match hex_byte(*a, *b) {
            Some(byte) => bytes.push(byte)?,
            None => return Ok(None),
        }
        rest = after;
    }
    if rest.is_empty() {
        Ok(Some(bytes))
    } else {
        Ok(None)
    }
}

/// At least one pair of digits, or `-` for no bytes.
fn hex_bytes(alloc: Global, field: &[u8]) -> Result<Option<Vec<u8>>, AllocError>
    ensures bytes { IfOk result (λ o. option_map (λ v. v.items) o ≡ some_read (model.hex_bytes field.now)) }
    ensures few { IfOk result (λ o. IfSome o (λ v. length v.items ≤ length field.now)) }
{
    if is(field, b"-") {
        return Ok(Some(Vec::new(alloc)));
    }
    if field.is_empty() {
        return Ok(None);
    }
    let bytes = hex_pairs(alloc, field)?;
    Ok(bytes)
}

/// Pairs of digits that are whole units of so many bytes, or `-` for no bytes.
#[tactic(auto, unfolding(crate::specs::Text::packed))]
pub(crate) fn packed(
    alloc: Global,
    field: &[u8],
    unit: usize,
) -> Result<Option<Vec<u8>>, AllocError>
    requires { 0 < unit }
    ensures bytes { IfOk result (λ o. option_map (λ v. v.items) o ≡ packed unit field.now) }
    ensures few { IfOk result (λ o. IfSome o (λ v. length v.items ≤ length field.now)) }
{
    match hex_bytes(alloc, field)? {
        Some(bytes) => {
            if bytes.len() % unit == 0 {
                Ok(Some(bytes))
            } else {
                Ok(None)
            }
        }
        None => Ok(None),
    }
}

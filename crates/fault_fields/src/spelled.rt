// How fields are spelled.
ghost use Rattle.std.specs.Prelude.{◌≡◌, ◌<◌, [], ◌∷◌, nat_le, ◌&&◌, MatchOption, length};
ghost use Rattle.std.specs.List.{list_all};
ghost use Rattle.scene_model.specs.Field.{is_digit, is_numeral, is_negative_numeral, is_lower, is_name_byte, is_name, value_onto, split_at};
ghost use Rattle.scene_model.specs.Grammar.{is_empty_field, is_text_byte};
ghost use Rattle.fault_fields.specs.Spelled.{is_number, is_integer, is_hex_digit, is_hex, is_color, is_source, are_of_part, is_part};

use crate::words::{is_attribute, is_component};
use text_fields::{find, is, is_digit, is_numeral, value_to};

pub(crate) fn is_empty(field: &[u8]) -> bool
    ensures { result ≡ is_empty_field field.now }
{
    match field {
        [] => true,
        _ => false,
    }
}

fn is_text_byte(byte: u8) -> bool
    ensures { result ≡ is_text_byte byte }
{
    byte >= 32 && byte <= 126
}

pub(crate) fn is_text(field: &[u8]) -> bool
    ensures { result ≡ list_all is_text_byte field.now }
{
    field.iter().all(|b| is_text_byte(*b))
}

/// The same behind a `-`, but not 0.
fn is_negative_numeral(field: &[u8]) -> bool
    ensures { result ≡ is_negative_numeral field.now }
{
    match field {
        [] => false,
        [first, rest @ ..] => {
            if *first != b'-' {
                return false;
            }
            if !is_numeral(rest) {
                return false;
            }
            rest[0] != b'0'
        }
    }
}

/// Whether the value of digits is at most `high`.
fn is_most(digits: &[u8], high: u64) -> bool
    ensures { result ≡ nat_le (value_onto 0 digits.now) high }
{
    match value_to(digits, high) {
        Some(n) => n <= high,
        None => false,
    }
}

/// Whether the value of digits is from `low` to `high`.
fn is_within(digits: &[u8], low: u64, high: u64) -> bool
    ensures { result ≡ (nat_le low (value_onto 0 digits.now) && nat_le (value_onto 0 digits.now) high) }
{
    match value_to(digits, high) {
        Some(n) => low <= n && n <= high,
        None => false,
    }
}

pub(crate) fn is_number(field: &[u8], low: u64, high: u64) -> bool
    ensures { result ≡ is_number low high field.now }
{
    if !is_numeral(field) {
        return false;
    }
    is_within(field, low, high)
}

pub(crate) fn is_integer(field: &[u8]) -> bool
    ensures { result ≡ is_integer field.now }
{
    if is_numeral(field) {
        return is_most(field, 2_147_483_647);
    }
    if !is_negative_numeral(field) {
        return false;
    }
    is_most(&field[1..], 2_147_483_648)
}

fn is_hex_digit(byte: u8) -> bool
    ensures { result ≡ is_hex_digit byte }
{
    is_digit(byte) || (byte >= b'a' && byte <= b'f')
}

fn are_hex_digits(bytes: &[u8]) -> bool
    ensures { result ≡ list_all is_hex_digit bytes.now }
{
    bytes.iter().all(|b| is_hex_digit(*b))
}

pub(crate) fn is_hex(field: &[u8]) -> bool
    ensures { result ≡ is_hex field.now }
{
    if is(field, b"-") {
        return true;
    }
    if is_empty(field) {
        return false;
    }
    if field.len() % 2 != 0 {
        return false;
    }
    are_hex_digits(field)
}

pub(crate) fn is_color(field: &[u8]) -> bool
    ensures { result ≡ is_color field.now }
{
    if field.len() != 8 {
        return false;
    }
    are_hex_digits(field)
}

pub(crate) fn is_source(field: &[u8]) -> bool
    ensures { result ≡ is_source field.now }
{
    if field.starts_with(b"fill:") {
        return is_color(&field[5..]);
    }
    if !field.starts_with(b"hex:") {
        return false;
    }
    is_hex(&field[4..])
}

fn is_skip(word: &[u8], count: &[u8]) -> bool
    ensures { result ≡ are_of_part (word.now ∷ count.now ∷ []) }
{
    if !is(b"skip", word) {
        return false;
    }
    is_number(count, 1, 255)
}

fn is_attribute_part(attribute: &[u8], component: &[u8], count: &[u8]) -> bool
    ensures { result ≡ are_of_part (attribute.now ∷ component.now ∷ count.now ∷ []) }
{
    if !is_attribute(attribute) {
        return false;
    }
    if !is_component(component) {
        return false;
    }
    is_number(count, 1, 4)
}

/// The pieces of a part from the third on.
fn is_third(first: &[u8], second: &[u8], rest: &[u8]) -> bool
    ensures { result ≡ are_of_part (first.now ∷ second.now ∷ split_at 58 rest.now) }
{
    match find(rest, b':') {
        Some(_) => false,
        None => is_attribute_part(first, second, rest),
    }
}

/// The pieces of a part from the second on.
fn is_second(first: &[u8], rest: &[u8]) -> bool
    ensures { result ≡ are_of_part (first.now ∷ split_at 58 rest.now) }
{
    match find(rest, b':') {
        Some(n) => is_third(first, &rest[..n], &rest[n + 1..]),
        None => is_skip(first, rest),
    }
}

pub(crate) fn is_part(field: &[u8]) -> bool
    ensures { result ≡ is_part field.now }
{
    match find(field, b':') {
        Some(n) => is_second(&field[..n], &field[n + 1..]),
        None => false,
    }
}

// Numbers.
ghost use Rattle.std.specs.Prelude.{◌≡◌, ◌<◌, ◌≤◌, ◌^◌, ◌-◌, MatchOption, IfOk, IfSome, FitsSigned, true};
ghost use Rattle.std.specs.Int.{w32};
ghost use Rattle.std.specs.List.{list_all};
ghost use Rattle.scene_model.specs.Field.{is_digit, is_numeral, value_onto, number_in, u8_number, u16_number, u32_number, i32_number, is_negative_numeral, number_to};
ghost use Rattle.scene_text.specs.Gives.{Gives};

use crate::fault::Cause;
use text_fields::{is_digit, is_numeral};

/// The value of digits, up to `high`.
pub fn value_to(digits: &[u8], high: u32) -> Option<u32>
    ensures { MatchOption result (high < value_onto 0 digits.now) (λ n. (n ≡ value_onto 0 digits.now) × (n ≤ high)) }
{
    let mut value: u64 = 0;
    for digit in digits {
        value = value * 10 + u64::from(digit.saturating_sub(b'0'));
        if value > u64::from(high) {
            return None;
        }
    }
    Some(value as u32)
}

/// The value of a field that is spelled as a number up to `high`, in one pass. Nothing is said of any other field.
fn value_of(field: &[u8], high: u32) -> Option<u32>
    ensures { IfSome result (λ n. (is_numeral field.now ≡ true) × (n ≡ value_onto 0 field.now) × (n ≤ high)) }
{
    let first = *field.first()?;
    if first == b'0' && field.len() != 1 {
        return None;
    }
    let mut value: u64 = 0;
    for digit in field {
        if !is_digit(*digit) {
            return None;
        }
        value = value * 10 + u64::from(digit.saturating_sub(b'0'));
        if value > u64::from(high) {
            return None;
        }
    }
    Some(value as u32)
}

/// A number from `low` to `high`, or the cause why the field is none.
fn spelled_number(field: &[u8], low: u32, high: u32) -> Result<u32, Cause>
    ensures value { Gives (λ n. n) result (number_in low high field.now) }
    ensures most { IfOk result (λ n. n ≤ high) }
{
    if !is_numeral(field) {
        return Err(Cause::NoNumber);
    }
    match value_to(field, high) {
        Some(n) => {
            if low <= n {
                Ok(n)
            } else {
                Err(Cause::OutOfRange)
            }
        }
        None => Err(Cause::OutOfRange),
    }
}

/// A number from `low` to `high`.
pub fn number(field: &[u8], low: u32, high: u32) -> Result<u32, Cause>
    ensures value { Gives (λ n. n) result (number_in low high field.now) }
    ensures most { IfOk result (λ n. n ≤ high) }
{
    match value_of(field, high) {
        Some(n) => {
            if low <= n {
                Ok(n)
            } else {
                Err(Cause::OutOfRange)
            }
        }
        None => spelled_number(field, low, high),
    }
}

pub fn u8_number(field: &[u8]) -> Result<u8, Cause>
    ensures { Gives (λ n. n) result (u8_number field.now) }
{
    let n = number(field, 0, 255)?;
    Ok(n as u8)
}

pub fn u16_number(field: &[u8]) -> Result<u16, Cause>
    ensures { Gives (λ n. n) result (u16_number field.now) }
{
    let n = number(field, 0, 65_535)?;
    Ok(n as u16)
}

pub fn u32_number(field: &[u8]) -> Result<u32, Cause>
    ensures { Gives (λ n. n) result (u32_number field.now) }
{
    let n = number(field, 0, 4_294_967_295)?;
    Ok(n)
}

/// The value of digits, up to `high`, of 64 bits.
fn wide_value_to(digits: &[u8], high: u64) -> Option<u64>
    ensures { MatchOption result (high < value_onto 0 digits.now) (λ n. n ≡ value_onto 0 digits.now) }
{
    let mut value: u128 = 0;
    for digit in digits {
        value = value * 10 + u128::from(digit.saturating_sub(b'0'));
        if value > u128::from(high) {
            return None;
        }
    }
    Some(value as u64)
}

pub fn u64_number(field: &[u8]) -> Result<u64, Cause>
    ensures { Gives (λ n. n) result (number_to (2 ^ 64 - 1) field.now) }
{
    if !is_numeral(field) {
        return Err(Cause::NoNumber);
    }
    match wide_value_to(field, 18_446_744_073_709_551_615) {
        Some(n) => Ok(n),
        None => Err(Cause::OutOfRange),
    }
}

fn is_negative_numeral(field: &[u8]) -> bool
    ensures { result ≡ is_negative_numeral field.now }
{
    match field {
        [] => false,
        [first, rest @ ..] => {
            if *first != b'-' {
                return false;
            }
            if !is_numeral(rest) {
                return false;
            }
            rest[0] != b'0'
        }
    }
}

#[tactic(auto, unfolding(scene_model::specs::Field::i32_number))]
fn spelled_i32(field: &[u8]) -> Result<i32, Cause>
    ensures value { Gives (λ n. n) result (i32_number field.now) }
    ensures fits { IfOk result (λ n. FitsSigned w32 n) }
{
    if is_numeral(field) {
        return match value_to(field, 2_147_483_647) {
            Some(n) => Ok(n as i32),
            None => Err(Cause::OutOfRange),
        };
    }
    if !is_negative_numeral(field) {
        return Err(Cause::NoNumber);
    }
    match value_to(&field[1..], 2_147_483_648) {
        Some(n) => Ok((-i64::from(n)) as i32),
        None => Err(Cause::OutOfRange),
    }
}

#[tactic(auto, unfolding(scene_model::specs::Field::i32_number))]
pub fn i32_number(field: &[u8]) -> Result<i32, Cause>
    ensures value { Gives (λ n. n) result (i32_number field.now) }
    ensures fits { IfOk result (λ n. FitsSigned w32 n) }
{
    match value_of(field, 2_147_483_647) {
        Some(n) => Ok(n as i32),
        None => spelled_i32(field),
    }
}

// Numbers.
ghost use Rattle.std.specs.Prelude.{◌≡◌, ◌<◌, ◌≤◌, MatchOption};
ghost use Rattle.std.specs.List.{list_all};
ghost use Rattle.scene_model.specs.Field.{is_digit, is_numeral, value_onto};

/// Whether a byte is a digit of ten.
pub fn is_digit(byte: u8) -> bool
    ensures { result ≡ is_digit byte }
{
    byte >= b'0' && byte <= b'9'
}

fn all_digits(bytes: &[u8]) -> bool
    ensures { result ≡ list_all is_digit bytes.now }
{
    bytes.iter().all(|b| is_digit(*b))
}

/// Whether a field is spelled as a number: digits without a leading zero.
pub fn is_numeral(field: &[u8]) -> bool
    ensures { result ≡ is_numeral field.now }
{
    match field {
        [] => false,
        [only] => is_digit(*only),
        [first, rest @ ..] => is_digit(*first) && *first != b'0' && all_digits(rest),
    }
}

/// The value of digits, or none where it is greater than `high`.
pub fn value_to(digits: &[u8], high: u64) -> Option<u64>
    ensures { MatchOption result (high < value_onto 0 digits.now) (λ n. (n ≡ value_onto 0 digits.now) × (n ≤ high)) }
{
    let mut value: u128 = 0;
    for digit in digits {
        value = value * 10 + u128::from(digit.saturating_sub(b'0'));
        if value > u128::from(high) {
            return None;
        }
    }
    Some(value as u64)
}

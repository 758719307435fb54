// Numbers that are spelled by decimal digits.
ghost use Rattle.std.specs.Prelude.{◌≡◌, ◌<◌, ◌≤◌, length, IfSome, MatchOption};
ghost use Rattle.std.specs.List.{list_all, prefix_len};
ghost use Rattle.picture_diff.specs.Numbers as model;

fn is_digit(byte: u8) -> bool
    ensures { result ≡ model.is_digit byte }
{
    byte >= b'0' && byte <= b'9'
}

fn all_digits(bytes: &[u8]) -> bool
    ensures { result ≡ list_all model.is_digit bytes.now }
{
    bytes.iter().all(|b| is_digit(*b))
}

/// Whether bytes are decimal digits without a leading zero.
fn is_numeral(bytes: &[u8]) -> bool
    ensures { result ≡ model.is_numeral bytes.now }
{
    match bytes {
        [] => false,
        [only] => is_digit(*only),
        [first, rest @ ..] => is_digit(*first) && *first != b'0' && all_digits(rest),
    }
}

/// The value of digits, up to `most`.
fn value_to(digits: &[u8], most: u32) -> Option<u32>
    ensures { MatchOption result (most < model.value_onto 0 digits.now) (λ n. (n ≡ model.value_onto 0 digits.now) × (n ≤ most)) }
{
    let mut value: u64 = 0;
    for digit in digits {
        value = value * 10 + u64::from(digit.saturating_sub(b'0'));
        if value > u64::from(most) {
            return None;
        }
    }
    Some(value as u32)
}

/// The number that bytes spell: decimal digits without a sign and without a leading zero, of a value up to `most`. Other bytes spell none.
#[tactic(auto, unfolding(crate::specs::Numbers::number))]
pub fn number(bytes: &[u8], most: u32) -> Option<u32>
    ensures value { result ≡ model.number most bytes.now }
    ensures most { IfSome result (λ n. n ≤ most) }
{
    if !is_numeral(bytes) {
        return None;
    }
    value_to(bytes, most)
}

/// How many digits stand at the front.
pub(crate) fn digit_count(bytes: &[u8]) -> usize
    ensures exact { result ≡ prefix_len model.is_digit bytes.now }
    ensures within { result ≤ length bytes.now }
{
    for count in 0..bytes.len() {
        if !is_digit(bytes[count]) {
            return count;
        }
    }
    bytes.len()
}

// The numbers among the words.
ghost use Rattle.std.specs.Prelude.{◌≡◌, ◌<◌, ◌≤◌, MatchOption};
ghost use Rattle.std.specs.List.{list_all};
ghost use Rattle.scene_model.specs.Field as model;
ghost use Rattle.gfx_trace.specs.Words.{number_of};

fn is_digit(byte: u8) -> bool
    ensures { result ≡ model.is_digit byte }
{
    byte >= b'0' && byte <= b'9'
}

fn all_digits(bytes: &[u8]) -> bool
    ensures { result ≡ list_all model.is_digit bytes.now }
{
    bytes.iter().all(|b| is_digit(*b))
}

/// Whether a word is spelled as a number: digits without a leading zero.
fn is_numeral(word: &[u8]) -> bool
    ensures { result ≡ model.is_numeral word.now }
{
    match word {
        [] => false,
        [only] => is_digit(*only),
        [first, rest @ ..] => is_digit(*first) && *first != b'0' && all_digits(rest),
    }
}

/// The value of digits, where a `u32` holds it.
fn value_of(digits: &[u8]) -> Option<u32>
    ensures { MatchOption result (4294967295 < model.value_onto 0 digits.now) (λ n. (n ≡ model.value_onto 0 digits.now) × (n ≤ 4294967295)) }
{
    let mut value: u64 = 0;
    for digit in digits {
        value = value * 10 + u64::from(digit.saturating_sub(b'0'));
        if value > 4_294_967_295 {
            return None;
        }
    }
    Some(value as u32)
}

/// The number that a word is, up to 4,294,967,295.
pub(crate) fn number_of(word: &[u8]) -> Option<u32>
    ensures { result ≡ number_of word.now }
{
    if !is_numeral(word) {
        return None;
    }
    value_of(word)
}

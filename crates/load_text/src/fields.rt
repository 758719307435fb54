// The fields of a line, and numbers in them.
ghost use Rattle.std.specs.Prelude.{◌≡◌, ◌≤◌, IfSome};
ghost use Rattle.load_text.specs.Text.{number, when, is_word, has_count};
ghost use Rattle.text_fields.specs.Fields.{texts};

use text_fields::{field, is, is_numeral, value_to};

/// Whether the first field is a word.
pub(crate) fn is_word(word: &[u8], fields: &[&[u8]]) -> bool
    ensures { result ≡ is_word word.now (texts fields.now) }
{
    is(word, field(fields, 0))
}

/// Nothing, where the test holds.
pub(crate) fn when(test: bool) -> Option<bool>
    ensures { result ≡ when test }
{
    if test { Some(true) } else { None }
}

/// There are so many fields.
pub(crate) fn has_count(fields: &[&[u8]], count: usize) -> Option<bool>
    ensures { result ≡ has_count count (texts fields.now) }
{
    when(fields.len() == count)
}

/// A number from `low` to `high`.
#[tactic(auto, unfolding(crate::specs::Text::number))]
pub(crate) fn number(field: &[u8], low: u64, high: u64) -> Option<u64>
    ensures value { result ≡ number low high field.now }
    ensures low { IfSome result (λ n. low ≤ n) }
    ensures high { IfSome result (λ n. n ≤ high) }
{
    if !is_numeral(field) {
        return None;
    }
    match value_to(field, high) {
        Some(n) => { if low <= n { Some(n) } else { None } }
        None => None,
    }
}

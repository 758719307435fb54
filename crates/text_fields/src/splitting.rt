// Splits bytes at a separator.
ghost use Rattle.std.specs.Prelude.{◌≡◌, ◌<◌, ◌+◌, ◌^◌, [], ◌∷◌, length, take, drop, MatchOption, IfOk, IfSome};
ghost use Rattle.scene_model.specs.Field.{split_at};
ghost use Rattle.text_fields.specs.Fields.{texts};

use memchr::memchr;
use std::alloc::AllocError;

// How many bytes are tested one by one before a search by vectors: most fields are shorter.
const NEAR: usize = 16;

/// The place of the first separator, or none.
pub fn find(bytes: &[u8], separator: u8) -> Option<usize>
    ensures cases { MatchOption result
        (split_at separator bytes.now ≡ bytes.now ∷ [])
        (λ n. (n < length bytes.now) × (split_at separator bytes.now ≡ take n bytes.now ∷ split_at separator (drop (n + 1) bytes.now))) }
    ensures small { IfSome result (λ n. n < 2 ^ 63) }
{
    memchr(separator, bytes)
}

/// The same, for a separator that is likely to be near.
fn find_near(bytes: &[u8], separator: u8) -> Option<usize>
    ensures cases { MatchOption result
        (split_at separator bytes.now ≡ bytes.now ∷ [])
        (λ n. (n < length bytes.now) × (split_at separator bytes.now ≡ take n bytes.now ∷ split_at separator (drop (n + 1) bytes.now))) }
    ensures small { IfSome result (λ n. n < 2 ^ 63) }
{
    let near = bytes.len().min(NEAR);
    for place in 0..near {
        if bytes[place] == separator {
            return Some(place);
        }
    }
    match find(&bytes[near..], separator) {
        Some(n) => Some(near + n),
        None => None,
    }
}

/// The parts between the separators, in place of what the list held.
///
/// # Errors
///
/// For want of memory alone; the list holds some of the parts then.
pub fn split_fields<'a>(
    line: &'a [u8],
    separator: u8,
    fields: &mut Vec<&'a [u8]>,
) -> Result<(), AllocError>
    ensures { IfOk result (λ _. texts fields.new.items ≡ split_at separator line.now) }
{
    fields.clear();
    let mut rest = line;
    while let Some(n) = find_near(rest, separator) {
        fields.push(&rest[..n])?;
        rest = &rest[n + 1..];
    }
    fields.push(rest)?;
    Ok(())
}

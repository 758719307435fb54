// The names that lines make, and where blocks can begin.
ghost use Rattle.std.specs.Prelude.{◌≡◌, false, ◌&&◌, ◌||◌, bytes_eq, codes};
ghost use Rattle.fault_fields.specs.Spelled.{is_one_of};
ghost use Rattle.fault_fields.specs.Names.{create_words, makes, is_made, opens_behind, opens_after};
ghost use Rattle.fault_fields.specs.Fields.{lines_before};

use crate::lines::part;
use crate::words::is_create_word;
use text_fields::{find, is};

/// Whether a line with this word makes a name.
fn is_making(uniforms: bool, word: &[u8]) -> bool
    ensures { result ≡ (is_one_of create_words word.now || (uniforms && bytes_eq (codes "uniform") word.now)) }
{
    if is_create_word(word) {
        return true;
    }
    uniforms && is(b"uniform", word)
}

/// Whether a line makes a name, with uniforms or without them.
fn makes(uniforms: bool, name: &[u8], line: &[u8]) -> bool
    ensures { result ≡ makes uniforms name.now line.now }
{
    if !is_making(uniforms, part(line, b' ', 0)) {
        return false;
    }
    is(name, part(line, b' ', 1))
}

/// Whether one of the lines before a line makes a name.
pub(crate) fn is_made(uniforms: bool, bytes: &[u8], line: u32, name: &[u8]) -> bool
    ensures { result ≡ is_made uniforms (lines_before bytes.now line) name.now }
{
    let mut rest = bytes;
    for _ in 1..line {
        match find(rest, b'\n') {
            Some(n) => {
                if makes(uniforms, name, &rest[..n]) {
                    return true;
                }
                rest = &rest[n + 1..];
            }
            None => return makes(uniforms, name, rest),
        }
    }
    false
}

/// Whether an encoder's block can begin behind a line.
fn opens_behind(opens: bool, line: &[u8]) -> bool
    ensures { result ≡ opens_behind opens line.now }
{
    let word = part(line, b' ', 0);
    if is(b"frame", word) {
        return true;
    }
    if is(b"encoder", word) {
        return true;
    }
    if is(b"beside", word) {
        return false;
    }
    if is(b"done", word) {
        return false;
    }
    opens
}

/// Whether an encoder's block can begin before a line.
pub(crate) fn opens_before(bytes: &[u8], line: u32) -> bool
    ensures { result ≡ opens_after false (lines_before bytes.now line) }
{
    let mut rest = bytes;
    let mut opens = false;
    for _ in 1..line {
        match find(rest, b'\n') {
            Some(n) => {
                opens = opens_behind(opens, &rest[..n]);
                rest = &rest[n + 1..];
            }
            None => return opens_behind(opens, rest),
        }
    }
    opens
}

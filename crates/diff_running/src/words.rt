// The words of the command line.
ghost use Rattle.std.specs.Prelude.{◌≡◌, map, string_bytes};
ghost use Rattle.diff_running.specs.Words as model;

use picture_diff::number;

const MOST_COUNT: u32 = 4_294_967_295;

/// What is let pass, and how many frames are asked for.
#[derive(Clone, Copy, Debug, PartialEq, Eq, Drop)]
pub struct Asked {
    /// The greatest difference of a channel that is let pass.
    pub near: u8,
    /// How many pictures each stream has to have, if the words say so.
    pub frames: Option<u32>,
}

/// What is let pass, by a word.
fn near_of(word: &str) -> Option<u8>
    ensures { result ≡ model.near_of word.now }
{
    let near = number(word.as_bytes(), 255)?;
    Some(near as u8)
}

/// How many frames are asked for, by a word.
fn count_of(word: &str) -> Option<u32>
    ensures { result ≡ model.count_of word.now }
{
    number(word.as_bytes(), MOST_COUNT)
}

fn both(near: &str, frames: &str) -> Option<Asked>
    ensures { result ≡ model.both near.now frames.now }
{
    let near = near_of(near)?;
    let frames = count_of(frames)?;
    Some(Asked {
        near,
        frames: Some(frames),
    })
}

fn one(name: &str, value: &str) -> Option<Asked>
    ensures { result ≡ model.one name.now value.now }
{
    if name == "--near" {
        let near = near_of(value)?;
        return Some(Asked { near, frames: None });
    }
    if name == "--frames" {
        let frames = count_of(value)?;
        return Some(Asked {
            near: 0,
            frames: Some(frames),
        });
    }
    None
}

fn two(first: &str, value: &str, second: &str, other: &str) -> Option<Asked>
    ensures { result ≡ model.two first.now value.now second.now other.now }
{
    if first == "--near" {
        return if second == "--frames" {
            both(value, other)
        } else {
            None
        };
    }
    if first == "--frames" {
        return if second == "--near" {
            both(other, value)
        } else {
            None
        };
    }
    None
}

/// What the words ask for: `--near N` and `--frames K`, each once or not at all, in either order.
pub(crate) fn asked_by(words: &[String]) -> Option<Asked>
    ensures { result ≡ model.asked_by (map string_bytes words.now) }
{
    match words {
        [] => Some(Asked {
            near: 0,
            frames: None,
        }),
        [name, value] => one(name.as_str(), value.as_str()),
        [first, value, second, other] => two(
            first.as_str(),
            value.as_str(),
            second.as_str(),
            other.as_str(),
        ),
        _ => None,
    }
}

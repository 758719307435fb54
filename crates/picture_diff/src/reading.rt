// Reads pictures.
ghost use Rattle.std.specs.Prelude.{◌≡◌, ◌≤◌, ◌*◌, IfSome, length, map, option_map};
ghost use Rattle.picture_diff.specs.Reading as model;
ghost use Rattle.picture_diff.specs.Told.{Read, picture_seen};

use crate::fault::PictureFault;
use crate::numbers::{digit_count, number};
use crate::picture::Picture;
use std::alloc::Global;

const MOST_SIDE: u32 = 65_535;

/// The bytes behind these, which stand at the front.
#[tactic(auto, unfolding(crate::specs::Reading::behind))]
fn behind<'a>(word: &[u8], bytes: &'a [u8]) -> Option<&'a [u8]>
    ensures { option_map (λ r. r.now) result ≡ model.behind word.now bytes.now }
{
    if bytes.len() < word.len() {
        return None;
    }
    let (front, rest) = bytes.split_at(word.len());
    if front == word { Some(rest) } else { None }
}

/// A side, and the bytes behind it and behind the byte that ends it.
#[tactic(auto, unfolding(crate::specs::Reading::side_at))]
fn side_at<'a>(end: &[u8], bytes: &'a [u8]) -> Option<(u32, &'a [u8])>
    ensures value { option_map (λ x. (x.0, x.1.now)) result ≡ model.side_at end.now bytes.now }
    ensures most { IfSome result (λ x. x.0 ≤ 65535) }
{
    let (digits, rest) = bytes.split_at(digit_count(bytes));
    let rest = behind(end, rest)?;
    let side = number(digits, MOST_SIDE)?;
    if 1 <= side { Some((side, rest)) } else { None }
}

/// The sides of a picture, and the bytes behind its head.
#[derive(Drop)]
struct Head<'a> {
    width: u32,
    height: u32,
    rest: &'a [u8],
}

#[tactic(auto, unfolding(crate::specs::Reading::head_at))]
fn head_at(bytes: &[u8]) -> Option<Head<'_>>
    ensures value { option_map (λ h. record { width = h.width; height = h.height; rest = h.rest.now }) result ≡ model.head_at bytes.now }
    ensures most { IfSome result (λ h. (h.width ≤ 65535) × (h.height ≤ 65535)) }
{
    let sides = behind(b"P6\n", bytes)?;
    let (width, after) = side_at(b" ", sides)?;
    let (height, after) = side_at(b"\n", after)?;
    let rest = behind(b"255\n", after)?;
    Some(Head {
        width,
        height,
        rest,
    })
}

/// The picture at the front, and the bytes behind it.
#[tactic(auto, unfolding(crate::specs::Reading::picture_at))]
fn picture_at(bytes: &[u8]) -> Option<(Picture<'_>, &[u8])>
    ensures { option_map (λ x. (picture_seen x.0, x.1.now)) result ≡ model.picture_at bytes.now }
{
    let Head {
        width,
        height,
        rest,
    } = head_at(bytes)?;
    let len = 3 * (width as usize * height as usize);
    if rest.len() < len {
        return None;
    }
    let (bytes, after) = rest.split_at(len);
    let picture = Picture {
        width,
        height,
        bytes,
    };
    Some((picture, after))
}

/// All pictures that the bytes are.
pub(crate) fn read_pictures(alloc: Global, bytes: &[u8]) -> Result<Vec<Picture<'_>>, PictureFault>
    ensures { Read bytes.now (λ v. map picture_seen v.items) result }
{
    let mut pictures = Vec::new(alloc);
    let mut rest = bytes;
    while !rest.is_empty() {
        match picture_at(rest) {
            Some((picture, after)) => {
                pictures.push(picture)?;
                rest = after;
            }
            None => {
                return Err(PictureFault::NoPicture {
                    pictures: pictures.len(),
                    at: bytes.len() - rest.len(),
                });
            }
        }
    }
    Ok(pictures)
}

// Compares two pictures of the same sides.
ghost use Rattle.std.specs.Prelude.{◌≡◌, ◌<◌, ◌≤◌, ◌+◌, ◌*◌, ◌++◌, [], List, length, filter};
ghost use Rattle.picture_diff.specs.Picture.{IsPicture};
ghost use Rattle.picture_diff.specs.Difference.{difference, differs_at, most_apart, pixels_apart, places, row};
ghost use Rattle.picture_diff.specs.Told.{found_of, picture_seen};
ghost use Rattle.picture_diff.specs.declared.difference.Place.{Place};

use crate::difference::{Difference, Place};
use crate::found::Found;
use crate::picture::Picture;

/// The greatest difference of two bytes at one place.
#[inline(always)]
fn most_apart(one: &[u8], other: &[u8]) -> u8
    requires { length one.now ≡ length other.now }
    ensures { result ≡ most_apart one.now other.now }
{
    let mut most = 0;
    for at in 0..one.len() {
        most = one[at].abs_diff(other[at]).max(most);
    }
    most
}

/// How far the pixels of three bytes from a place on are apart.
#[inline(always)]
fn pixels_apart(one: &[u8], other: &[u8], at: usize) -> u8
    requires one { at + 3 ≤ length one.now }
    requires other { at + 3 ≤ length other.now }
    ensures { result ≡ pixels_apart one.now other.now at }
{
    let red = one[at].abs_diff(other[at]);
    let green = one[at + 1].abs_diff(other[at + 1]);
    let blue = one[at + 2].abs_diff(other[at + 2]);
    red.max(green.max(blue))
}

/// The bytes of two pictures of the same sides, how wide they are, and what is let pass.
#[derive(Clone, Copy, Drop)]
struct Pair<'a> {
    one: &'a [u8],
    other: &'a [u8],
    width: u32,
    near: u8,
}

/// The differing pixels of a row, of which so many pixels stand before it, behind those that were found above it.
fn find_in_row(pair: &Pair<'_>, y: u32, start: usize, found: Found) -> Found
    requires start { start ≡ y * pair.now.width }
    requires one { 3 * (start + pair.now.width) ≤ length pair.now.one.now }
    requires other { 3 * (start + pair.now.width) ≤ length pair.now.other.now }
    requires few { found.differ + pair.now.width ≤ 4294967295 }
    ensures many { result.differ ≤ found.differ + pair.now.width }
    ensures found { (ps : List Place) → found ≡ found_of ps → result ≡ found_of (ps ++ filter (differs_at pair.now.near pair.now.width pair.now.one.now pair.now.other.now) (row pair.now.width y)) }
{
    let mut found = found;
    for x in 0..pair.width {
        let apart = pixels_apart(pair.one, pair.other, 3 * (start + x as usize));
        found = found.with_if(apart > pair.near, Place { x, y });
    }
    found
}

/// The same. A row without a differing pixel is passed over at once.
fn find_in_any_row(pair: &Pair<'_>, y: u32, start: usize, found: Found) -> Found
    requires start { start ≡ y * pair.now.width }
    requires one { 3 * (start + pair.now.width) ≤ length pair.now.one.now }
    requires other { 3 * (start + pair.now.width) ≤ length pair.now.other.now }
    requires few { found.differ + pair.now.width ≤ 4294967295 }
    ensures many { result.differ ≤ found.differ + pair.now.width }
    ensures found { (ps : List Place) → found ≡ found_of ps → result ≡ found_of (ps ++ filter (differs_at pair.now.near pair.now.width pair.now.one.now pair.now.other.now) (row pair.now.width y)) }
{
    let from = 3 * start;
    let end = from + 3 * pair.width as usize;
    if most_apart(&pair.one[from..end], &pair.other[from..end]) <= pair.near {
        return found;
    }
    find_in_row(pair, y, start, found)
}

/// The differing pixels, row by row.
fn find(pair: &Pair<'_>, height: u32) -> Found
    requires one { length pair.now.one.now ≡ 3 * (pair.now.width * height) }
    requires other { length pair.now.other.now ≡ 3 * (pair.now.width * height) }
    requires few { pair.now.width * height ≤ 4294967295 }
    ensures { result ≡ found_of (filter (differs_at pair.now.near pair.now.width pair.now.one.now pair.now.other.now) (places pair.now.width height)) }
{
    let mut found = Found::none();
    let mut start = 0;
    for y in 0..height {
        found = find_in_any_row(pair, y, start, found);
        start += pair.width as usize;
    }
    found
}

/// The differing pixels. Pictures without one are passed over at once.
fn find_in_any(pair: &Pair<'_>, height: u32, most: u8) -> Found
    requires one { length pair.now.one.now ≡ 3 * (pair.now.width * height) }
    requires other { length pair.now.other.now ≡ 3 * (pair.now.width * height) }
    requires few { pair.now.width * height ≤ 4294967295 }
    requires most { most ≡ most_apart pair.now.one.now pair.now.other.now }
    ensures { result ≡ found_of (filter (differs_at pair.now.near pair.now.width pair.now.one.now pair.now.other.now) (places pair.now.width height)) }
{
    if most <= pair.near {
        return Found::none();
    }
    find(pair, height)
}

/// How two pictures of the same sides differ.
pub(crate) fn difference(one: &Picture<'_>, other: &Picture<'_>, near: u8) -> Difference
    requires one { IsPicture (picture_seen one.now) }
    requires other { IsPicture (picture_seen other.now) }
    requires wide { one.now.width ≡ other.now.width }
    requires high { one.now.height ≡ other.now.height }
    ensures { result ≡ difference near (picture_seen one.now) (picture_seen other.now) }
{
    let pair = Pair {
        one: one.bytes,
        other: other.bytes,
        width: one.width,
        near,
    };
    let pixels = one.width * one.height;
    let most = most_apart(one.bytes, other.bytes);
    let found = find_in_any(&pair, one.height, most);
    Difference {
        pixels,
        differ: found.differ,
        most,
        spread: found.spread,
    }
}

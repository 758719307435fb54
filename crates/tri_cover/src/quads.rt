// The columns of four rows at a time, by bounds in 32 bits.
ghost use Rattle.std.specs.Prelude.{◌≡◌, ◌≤◌, ◌<◌, ◌^◌, ◌+◌, ◌-◌, ◌*◌, ◌/◌, ◌%◌, ◌==◌, ℕ, false, min, max, length, slice_index, slice_index_or};
ghost use Rattle.tri_cover.specs.Shortened.{short_at, short_span, left_end, right_end, AreFours, AreByFour};

use crate::shorts::{Short, Shorts};
use std::simd::prelude::*;

/// The bounds of four rows.
#[derive(Clone, Copy)]
pub(crate) struct Fours {
    pub left: u32x4,
    pub other_left: u32x4,
    pub right: u32x4,
    pub other_right: u32x4,
}

/// A bound in the first four rows.
#[inline(always)]
fn four(short: &Short) -> u32x4
    ensures { (j : ℕ) → j < 4 → slice_index result j ≡ short_at short.now j }
{
    u32x4::splat(short.at) + u32x4::splat(short.step) * u32x4::from_array([0, 1, 2, 3])
}

/// What a bound gains in four rows.
#[inline(always)]
fn by_four(short: &Short) -> u32x4
    ensures { (j : ℕ) → j < 4 → slice_index result j ≡ short.now.step * 4 % 2 ^ 32 }
{
    u32x4::splat(short.step) * u32x4::splat(4)
}

/// The sums of words, lane by lane.
#[inline(always)]
fn sums(a: u32x4, b: u32x4) -> u32x4
    ensures { (j : ℕ) → j < 4 → slice_index result j ≡ (slice_index a j + slice_index b j) % 2 ^ 32 }
{
    a + b
}

/// The lesser ones of two, lane by lane.
#[inline(always)]
fn lesser(a: u32x4, b: u32x4) -> u32x4
    ensures { (j : ℕ) → j < 4 → slice_index result j ≡ min (slice_index a j) (slice_index b j) }
{
    a.simd_min(b)
}

/// The larger ones of two, lane by lane.
#[inline(always)]
fn larger(a: u32x4, b: u32x4) -> u32x4
    ensures { (j : ℕ) → j < 4 → slice_index result j ≡ max (slice_index a j) (slice_index b j) }
{
    a.simd_max(b)
}

/// The words that are at most a number, and it for the others.
#[inline(always)]
fn at_most(words: u32x4, n: u32) -> u32x4
    ensures { (j : ℕ) → j < 4 → slice_index result j ≡ min (slice_index words j) n }
{
    words.simd_min(u32x4::splat(n))
}

/// The words that are at least a number, and it for the others.
#[inline(always)]
fn at_least(words: u32x4, n: u32) -> u32x4
    ensures { (j : ℕ) → j < 4 → slice_index result j ≡ max (slice_index words j) n }
{
    words.simd_max(u32x4::splat(n))
}

/// The whole columns of bounds.
#[inline(always)]
fn whole_columns(words: u32x4) -> u32x4
    ensures whole { (j : ℕ) → j < 4 → slice_index result j ≡ slice_index words j / 2 ^ 20 }
    ensures few { (j : ℕ) → j < 4 → slice_index result j < 4096 }
{
    words >> u32x4::splat(20)
}

/// How far words lie under a number.
#[inline(always)]
fn under(n: u32, words: u32x4) -> u32x4
    requires { (j : ℕ) → j < 4 → slice_index words j ≤ n }
    ensures { (j : ℕ) → j < 4 → slice_index result j ≡ n - slice_index words j }
{
    u32x4::splat(n) - words
}

/// How far words lie over a number.
#[inline(always)]
fn over(words: u32x4, n: u32) -> u32x4
    requires low { (j : ℕ) → j < 4 → n ≤ slice_index words j }
    requires high { (j : ℕ) → j < 4 → slice_index words j < 65536 }
    ensures { (j : ℕ) → j < 4 → slice_index result j ≡ slice_index words j - n }
{
    words - u32x4::splat(n)
}

/// The first columns of four rows between two left bounds and two limits.
#[inline(always)]
fn left_ends(left: u32x4, other: u32x4, first: u16, after: u16) -> u32x4
    ensures { (j : ℕ) → j < 4 → slice_index result j ≡ left_end (slice_index left j) (slice_index other j) first after }
{
    let nearer = lesser(left, other);
    let columns = whole_columns(nearer);
    let floor = at_most(columns, 2048);
    let start = under(2048, floor);
    let from = at_least(start, first as u32);
    at_most(from, after as u32)
}

/// The columns behind the last ones of four rows, by two right bounds, the first ones and a limit.
#[inline(always)]
fn right_ends(right: u32x4, other: u32x4, from: u32x4, after: u16) -> u32x4
    ensures { (j : ℕ) → j < 4 → slice_index result j ≡ right_end (slice_index right j) (slice_index other j) (slice_index from j) after }
{
    let nearer = lesser(right, other);
    let columns = whole_columns(nearer);
    let floor = at_least(columns, 2047);
    let end = over(floor, 2047);
    let to = at_most(end, after as u32);
    larger(to, from)
}

/// Two columns in a word, the first in its low half.
#[inline(always)]
fn pairs(from: u32x4, to: u32x4) -> u32x4
    requires from { (j : ℕ) → j < 4 → slice_index from j < 65536 }
    requires to { (j : ℕ) → j < 4 → slice_index to j < 65536 }
    ensures { (j : ℕ) → j < 4 → slice_index result j ≡ slice_index from j + 65536 * slice_index to j }
{
    from + to * u32x4::splat(65536)
}

/// Puts the two columns of a word.
#[inline(always)]
fn put_pair(spans: &mut [(u16, u16)], at: usize, word: u32)
    requires { at < length spans.old }
    ensures same { length spans.new ≡ length spans.old }
    ensures here { slice_index_or spans.new at (0, 0) ≡ (word % 65536, word / 65536) }
    ensures others { (i : ℕ) → (i == at) ≡ false → slice_index_or spans.new i (0, 0) ≡ slice_index_or spans.old i (0, 0) }
{
    spans[at] = ((word & 0xffff) as u16, (word >> 16) as u16);
}

/// Puts the columns of four rows from a place on.
#[inline(always)]
fn put_four(spans: &mut [(u16, u16)], at: usize, from: u32x4, to: u32x4)
    requires inside { at + 4 ≤ length spans.old }
    requires from { (j : ℕ) → j < 4 → slice_index from j < 65536 }
    requires to { (j : ℕ) → j < 4 → slice_index to j < 65536 }
    ensures same { length spans.new ≡ length spans.old }
    ensures here { (j : ℕ) → j < 4 → slice_index_or spans.new (at + j) (0, 0) ≡ (slice_index from j, slice_index to j) }
    ensures before { (i : ℕ) → i < at → slice_index_or spans.new i (0, 0) ≡ slice_index_or spans.old i (0, 0) }
{
    let words = pairs(from, to).to_array();
    put_pair(spans, at, words[0]);
    put_pair(spans, at + 1, words[1]);
    put_pair(spans, at + 2, words[2]);
    put_pair(spans, at + 3, words[3]);
}

/// The bounds in the first four rows.
#[inline(always)]
fn first_fours(shorts: &Shorts) -> Fours
    ensures { AreFours result shorts.now 0 }
{
    Fours {
        left: four(&shorts.left),
        other_left: four(&shorts.other_left),
        right: four(&shorts.right),
        other_right: four(&shorts.other_right),
    }
}

/// What bounds gain in four rows.
#[inline(always)]
fn fours_by(shorts: &Shorts) -> Fours
    ensures { AreByFour result shorts.now }
{
    Fours {
        left: by_four(&shorts.left),
        other_left: by_four(&shorts.other_left),
        right: by_four(&shorts.right),
        other_right: by_four(&shorts.other_right),
    }
}

/// The bounds four rows on.
#[inline(always)]
fn next_fours(here: &Fours, by: &Fours, shorts: &Shorts, k: u16) -> Fours
    requires here { AreFours here.now shorts.now k }
    requires by { AreByFour by.now shorts.now }
    ensures { AreFours result shorts.now (k + 4) }
{
    Fours {
        left: sums(here.left, by.left),
        other_left: sums(here.other_left, by.other_left),
        right: sums(here.right, by.right),
        other_right: sums(here.other_right, by.other_right),
    }
}

/// Puts the columns of four rows, which bounds let pass.
#[inline(always)]
fn put_fours(
    spans: &mut [(u16, u16)],
    here: &Fours,
    shorts: &Shorts,
    k: u16,
    first: u16,
    after: u16,
)
    requires room { k + 4 ≤ length spans.old }
    requires here { AreFours here.now shorts.now k }
    ensures same { length spans.new ≡ length spans.old }
    ensures here { (j : ℕ) → j < 4 → slice_index_or spans.new (k + j) (0, 0) ≡ short_span shorts.now first after (k + j) }
    ensures before { (i : ℕ) → i < k → slice_index_or spans.new i (0, 0) ≡ slice_index_or spans.old i (0, 0) }
{
    let from = left_ends(here.left, here.other_left, first, after);
    let to = right_ends(here.right, here.other_right, from, after);
    put_four(spans, k as usize, from, to);
}

/// The columns of so many rows from first up to after that bounds let pass, into a list of 32 places or more.
#[inline(always)]
pub(crate) fn short_spans(
    spans: &mut [(u16, u16)],
    shorts: &Shorts,
    count: u16,
    first: u16,
    after: u16,
)
    requires room { 32 ≤ length spans.old }
    requires few { count ≤ 32 }
    ensures same { length spans.new ≡ length spans.old }
    ensures spans { (k : ℕ) → k < count → slice_index_or spans.new k (0, 0) ≡ short_span shorts.now first after k }
{
    let by = fours_by(shorts);
    let mut here = first_fours(shorts);
    let mut k = 0;
    while k < count {
        put_fours(spans, &here, shorts, k, first, after);
        here = next_fours(&here, &by, shorts, k);
        k += 4;
    }
}

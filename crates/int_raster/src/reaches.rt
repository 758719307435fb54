// A depth test by the distance from a new depth to the stored one.
ghost use Rattle.std.specs.Prelude.{◌≡◌, ◌≤◌, ◌<◌, ◌+◌, ◌*◌, ◌/◌, ◌%◌, ◌^◌, ℕ, if◌then◌else◌};
ghost use Rattle.int_raster.specs.Tiled.{deep_of, is_within};
ghost use Rattle.int_raster.specs.Rules.{by_order, IsReach};

use crate::opaque::Rule;

/// The least distance, around 2^32, by which a stored depth that passes lies behind a new one, and how many more distances pass; the bits of
/// a depth word that stay, and those of a new depth that come to them.
#[derive(Clone, Copy)]
pub(crate) struct Reach {
    pub least: u32,
    pub more: u32,
    pub bits: u32,
    pub taken: u32,
}

/// The least distance that passes, and how many more there are.
fn distances(rule: &Rule) -> (u32, u32)
    ensures { (new stored : ℕ) → new ≤ 16777215 → stored < 16777216 → by_order rule.now new stored ≡ is_within result.0 result.1 new stored }
{
    match (rule.less, rule.equal, rule.greater) {
        (false, false, false) => (0x0100_0000, 0),
        (false, false, true) => (0xff00_0001, 0x00ff_fffe),
        (false, true, false) => (0, 0),
        (false, true, true) => (0xff00_0001, 0x00ff_ffff),
        (true, false, false) => (1, 0x00ff_fffe),
        (true, false, true) => (1, 0xffff_fffe),
        (true, true, false) => (0, 0x00ff_ffff),
        (true, true, true) => (0xff00_0001, 0x01ff_fffe),
    }
}

/// The bits of a depth word that stay, and those of a new depth that come to them.
fn stored_bits(writes: bool) -> (u32, u32)
    ensures { (new word : ℕ) → new ≤ 16777215 → word < 2 ^ 32 → deep_of result.0 result.1 new word ≡ (if writes then new else word % 2 ^ 24) + 2 ^ 24 * (word / 2 ^ 24) }
{
    if writes {
        (0xff00_0000, 0x00ff_ffff)
    } else {
        (0xffff_ffff, 0)
    }
}

/// A rule's depth test and what it stores.
pub(crate) fn reach_of(rule: &Rule) -> Reach
    ensures { IsReach result rule.now }
{
    let (least, more) = distances(rule);
    let (bits, taken) = stored_bits(rule.writes);
    Reach {
        least,
        more,
        bits,
        taken,
    }
}

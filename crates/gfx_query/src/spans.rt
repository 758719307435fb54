// The fragments of one triangle.
ghost use Rattle.std.specs.Prelude.{◌≡◌, ◌≤◌, ◌<◌, ◌+◌, ◌-◌, ◌*◌, ℕ, List, length, true, if◌then◌else◌};
ghost use Rattle.gfx_model.specs.Raster.{covers, fragment_at};
ghost use Rattle.gfx_model.proofs.PartlyMapped.{partly};
ghost use Rattle.gfx_model.specs.Number.{map_from};
ghost use Rattle.tri_cover.specs.Shown.{setup_seen};
ghost use Rattle.tri_cover.specs.Widened.{wide_at, wide_whole};
ghost use Rattle.gfx_query.specs.Counting.{Counted};
ghost use Rattle.gfx_query.specs.Standing.{Stand, facing_with, place_change};

use crate::fragments::{Tests, after_fragment};
use crate::sides::TargetSides;
use tri_cover::{Setup, WideRamp};

/// The value of a ramp at a column and a row.
fn value_at(ramp: &WideRamp, x: u16, y: u16) -> u128
    ensures { result ≡ wide_at ramp.now x y }
{
    ramp.start
        .wrapping_add((x as u128).wrapping_mul(ramp.right))
        .wrapping_add((y as u128).wrapping_mul(ramp.down))
}

/// 1 where a test holds, and else 0.
#[inline(always)]
fn one_if(test: bool) -> u32
    ensures value { result ≡ (if test then 1 else 0) }
    ensures few { result ≤ 1 }
{
    if test { 1 } else { 0 }
}

/// Tests the fragments of covered columns of a row, from the first up to another, and counts those that pass.
fn count_span(
    words: &mut [u32],
    sides: &TargetSides,
    y: u16,
    first: u16,
    after: u16,
    depth: &WideRamp,
    tests: &Tests,
    setup: &Setup,
) -> u32
    requires order { first ≤ after }
    requires columns { after ≤ sides.now.width }
    requires inside { y * sides.now.width + after ≤ length words.old }
    requires covered { (x : ℕ) → first ≤ x → x < after → covers (setup_seen setup.now).triangle x y ≡ true }
    requires depths { (x : ℕ) → first ≤ x → x < after → wide_whole depth.now x y ≡ (fragment_at (setup_seen setup.now).triangle x y).depth }
    ensures few { result ≤ after - first }
    ensures counted { (n : ℕ) (ps : List Counted) →
        Stand words.old n (partly (place_change sides.now.width tests.now.state (facing_with tests.now.stencil setup.now)) 0 (y * sides.now.width + first) ps) →
        Stand words.new (n + result) (partly (place_change sides.now.width tests.now.state (facing_with tests.now.stencil setup.now)) 0 (y * sides.now.width + after) ps) }
{
    let tests = *tests;
    let right = depth.right;
    let start = y as usize * sides.width as usize;
    let mut new = value_at(depth, first, y);
    let mut passed = 0;
    for x in first..after {
        let pixel = after_fragment(words[start + x as usize], (new >> 104) as u32, &tests);
        words[start + x as usize] = pixel.word;
        passed += one_if(pixel.passes);
        new = new.wrapping_add(right);
    }
    passed
}

/// Tests a triangle's fragments at the pixels of a target, and counts those that pass.
pub(crate) fn count_triangle(
    words: &mut [u32],
    sides: &TargetSides,
    setup: &Setup,
    tests: &Tests,
) -> u32
    requires { length words.old ≡ sides.now.width * sides.now.height }
    ensures few { result ≤ 4194304 }
    ensures counted { (n : ℕ) (ps : List Counted) → Stand words.old n ps →
        Stand words.new (n + result) (map_from (place_change sides.now.width tests.now.state (facing_with tests.now.stencil setup.now)) 0 ps) }
{
    let depth = setup.wide_depth();
    let (top, bottom) = setup.rows(sides.height);
    let mut edges = setup.sides(top);
    let mut passed = 0;
    for y in top..bottom {
        let (first, after) = setup.columns_of(&edges, y, sides.width);
        passed += count_span(words, sides, y, first, after, &depth, tests, setup);
        edges = setup.next_sides(edges, y);
    }
    passed
}

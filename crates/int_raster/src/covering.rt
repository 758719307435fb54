// About how many pixels triangles cover.

use fix_math::Rect;
use tri_cover::Setup;

/// How far one place lies behind another, in 1/256 pixel.
fn distance(from: i32, to: i32) -> i64 {
    i64::from(to).wrapping_sub(i64::from(from))
}

/// About how many pixels a triangle covers: its area, at most a number.
fn covered(triangle: &Setup, most: u64) -> u64 {
    let (a, b, c) = (&triangle.a, &triangle.b, &triangle.c);
    let first = distance(a.x, b.x).wrapping_mul(distance(a.y, c.y));
    let second = distance(a.x, c.x).wrapping_mul(distance(a.y, b.y));
    (first.wrapping_sub(second).unsigned_abs() / 131_072).min(most)
}

/// About how many pixels triangles cover within a cut, each counted as often as it is covered.
pub(crate) fn covered_by(triangles: &[Setup], cut: &Rect) -> u64 {
    let most = u64::from(cut.w) * u64::from(cut.h);
    let mut pixels = 0u64;
    for triangle in triangles {
        pixels = pixels.saturating_add(covered(triangle, most));
    }
    pixels
}

// Placing a vertex on the target.
ghost use Rattle.std.specs.Prelude.{◌≡◌, ◌≤◌, ◌<◌, ◌^◌, ◌*◌, ◌/◌, pos, negsuc, ◌+ℤ◌, ◌-ℤ◌, ◌*ℤ◌, ◌≤ℤ◌, unsigned_abs, option_map, IsTrue};
ghost use Rattle.gfx_model.specs.Number.{floor_div, at_least_zero};
ghost use Rattle.gfx_model.specs.Raster as raster;
ghost use Rattle.fix_math.specs.Seen.{affine_seen, point_seen, rect_seen};
ghost use Rattle.vertex_layout.specs.Seen.{vertex_seen};
ghost use Rattle.tri_cover.specs.Seen.{screen_seen, IsInGuardRange};
ghost use Rattle.tri_cover.specs.Placed.{point_of, placed_at};

use crate::corners::ScreenVertex;
use fix_math::{Affine, Point, Rect};
use vertex_layout::Vertex;

/// Whether a transformed point lies within eight units of the middle, and its depth within one unit.
fn is_in_guard_range(p: &Point) -> bool
    ensures test { result ≡ raster.is_in_guard_range (point_seen p.now) }
    ensures bounds { IsTrue result → IsInGuardRange p.now }
{
    -524288 <= p.x && p.x <= 524288 && -524288 <= p.y && p.y <= 524288 && 0 <= p.z && p.z <= 65536
}

/// The part of a side that a distance in 1/65536 of half of it is, in units of 1/256 pixel.
fn share(distance: i32, side: u16) -> i32
    requires low { negsuc 458751 ≤ℤ distance }
    requires high { distance ≤ℤ pos 589824 }
    ensures value { result ≡ floor_div (distance *ℤ pos side) 512 }
    ensures near { unsigned_abs result ≤ 75497472 }
{
    (distance as i64 * side as i64).div_euclid(512) as i32
}

/// A place behind the left or upper end of a pixel.
fn behind(start: u16, share: i32) -> i32
    requires { unsigned_abs share ≤ 75497472 }
    ensures place { result ≡ pos (256 * start) +ℤ share }
    ensures near { unsigned_abs result ≤ 2 ^ 27 }
{
    256 * start as i32 + share
}

/// The depth of a height from 0 to 65536.
fn depth_of(z: i32) -> u32
    requires low { pos 0 ≤ℤ z }
    requires high { z ≤ℤ pos 65536 }
    ensures depth { result ≡ at_least_zero z * 16777215 / 65536 }
    ensures deep { result ≤ 16777215 }
{
    (z as u64 * 16777215 / 65536) as u32
}

fn across(x: i32, start: u16, side: u16) -> i32
    requires low { negsuc 524287 ≤ℤ x }
    requires high { x ≤ℤ pos 524288 }
    ensures place { result ≡ pos (256 * start) +ℤ floor_div ((x +ℤ pos 65536) *ℤ pos side) 512 }
    ensures near { unsigned_abs result ≤ 2 ^ 27 }
{
    behind(start, share(x + 65536, side))
}

fn down(y: i32, start: u16, side: u16) -> i32
    requires low { negsuc 524287 ≤ℤ y }
    requires high { y ≤ℤ pos 524288 }
    ensures place { result ≡ pos (256 * start) +ℤ floor_div ((pos 65536 -ℤ y) *ℤ pos side) 512 }
    ensures near { unsigned_abs result ≤ 2 ^ 27 }
{
    behind(start, share(65536 - y, side))
}

fn on_screen(vertex: &Vertex, p: &Point, rect: Rect) -> ScreenVertex
    requires { IsInGuardRange p.now }
    ensures { screen_seen result ≡ raster.on_screen (vertex_seen vertex.now) (point_seen p.now) (rect_seen rect) }
{
    ScreenVertex {
        x: across(p.x, rect.x, rect.w),
        y: down(p.y, rect.y, rect.h),
        depth: depth_of(p.z),
        color: vertex.color,
        texcoord: vertex.texcoord,
    }
}

/// A vertex that transforms brought to a point, on a rectangle of the target.
fn placed(vertex: &Vertex, p: &Point, rect: Rect) -> Option<ScreenVertex>
    ensures { option_map screen_seen result ≡ placed_at (vertex_seen vertex.now) (point_seen p.now) (rect_seen rect) }
{
    if is_in_guard_range(p) {
        Some(on_screen(vertex, p, rect))
    } else {
        None
    }
}

/// A vertex on the rectangle of a view, by the model transform first and the view's next. `None` exactly where the
/// transformed point leaves the guard range: x and y from -524288 to 524288, z from 0 to 65536.
pub fn place(vertex: &Vertex, model: &Affine, view: &Affine, rect: Rect) -> Option<ScreenVertex>
    ensures { option_map screen_seen result ≡ raster.place (affine_seen model.now) (affine_seen view.now) (rect_seen rect) (vertex_seen vertex.now) }
{
    let p = view.apply(model.apply(vertex.position));
    placed(vertex, &p, rect)
}

/// Does nothing. It tells that the transform that moves no point leaves this one where it is.
fn tell_still(x: i32, y: i32, z: i32)
    ensures { raster.apply raster.identity (point_of x y z) ≡ point_of x y z }
{}

/// A vertex on the rectangle of a view, where neither the model transform nor the view's moves it. `None` exactly where it
/// lies outside the guard range. It is `place` without the sums of the two transforms, which are most of its work.
pub fn place_still(vertex: &Vertex, rect: Rect) -> Option<ScreenVertex>
    ensures { option_map screen_seen result ≡ raster.place raster.identity raster.identity (rect_seen rect) (vertex_seen vertex.now) }
{
    let p = vertex.position;
    tell_still(p.x, p.y, p.z);
    placed(vertex, &p, rect)
}

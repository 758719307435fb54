// Points, rectangles and transforms.
ghost use Rattle.std.specs.Prelude.{◌≡◌, ◌<◌, ◌^◌, pos, ◌+ℤ◌, ◌*ℤ◌, unsigned_abs};
ghost use Rattle.gfx_model.specs.Number.{floor_div, clamp_i32 as clamped};
ghost use Rattle.gfx_model.specs.Raster as model;
ghost use Rattle.fix_math.specs.Seen.{affine_seen, point_seen};

use crate::numbers::{clamp_i32, div_floor};

/// A point or a direction, in units of 1/65536.
#[derive(Clone, Copy, PartialEq, Eq, Debug)]
pub struct Point {
    pub x: i32,
    pub y: i32,
    pub z: i32,
}

/// A rectangle of pixels: its left column, its top row and its sides.
#[derive(Clone, Copy, PartialEq, Eq, Debug)]
pub struct Rect {
    pub x: u16,
    pub y: u16,
    pub w: u16,
    pub h: u16,
}

/// Three rows of four numbers of 1/65536. The fourth number of a row is added to the sum.
#[derive(Clone, Copy, PartialEq, Eq, Debug)]
pub struct Affine {
    pub m: [i32; 12],
}

fn product(a: i32, b: i32) -> i128
    ensures value { result ≡ a *ℤ b }
    ensures near { unsigned_abs result < 2 ^ 66 }
{
    a as i128 * b as i128
}

fn sum_of(a: i128, b: i128, c: i128, d: i128) -> i128
    requires a { unsigned_abs a < 2 ^ 66 }
    requires b { unsigned_abs b < 2 ^ 66 }
    requires c { unsigned_abs c < 2 ^ 66 }
    requires d { unsigned_abs d < 2 ^ 66 }
    ensures { result ≡ a +ℤ b +ℤ c +ℤ d }
{
    a + b + c + d
}

/// The floor of the sum of four products by 65536, cut to `i32`.
fn row(a: i32, b: i32, c: i32, d: i32, p: &Point) -> i32
    ensures { result ≡ clamped (floor_div (a *ℤ p.now.x +ℤ b *ℤ p.now.y +ℤ c *ℤ p.now.z +ℤ d *ℤ pos 65536) 65536) }
{
    let sum = sum_of(
        product(a, p.x),
        product(b, p.y),
        product(c, p.z),
        product(d, 65536),
    );
    clamp_i32(div_floor(sum, 65536))
}

impl Affine {
    /// The transform that leaves each point as it is.
    pub fn identity() -> Affine
        ensures { affine_seen result ≡ model.identity }
    {
        Affine {
            m: [65536, 0, 0, 0, 0, 65536, 0, 0, 0, 0, 65536, 0],
        }
    }

    /// The transformed point. Each number is the floor of the row's sum, cut to `i32`.
    pub fn apply(&self, p: Point) -> Point
        ensures { point_seen result ≡ model.apply (affine_seen self.now) (point_seen p) }
    {
        let m = &self.m;
        Point {
            x: row(m[0], m[1], m[2], m[3], &p),
            y: row(m[4], m[5], m[6], m[7], &p),
            z: row(m[8], m[9], m[10], m[11], &p),
        }
    }
}

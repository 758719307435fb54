// The colour of a fragment, and its step on a pixel.
ghost use Rattle.std.specs.Prelude.{◌≡◌, ◌≤◌, true, ◌||◌, ◌==◌, if◌then◌else◌};
ghost use Rattle.gfx_model.specs.World as world;
ghost use Rattle.gfx_model.specs.Number.{zip_with, byte_product};
ghost use Rattle.gfx_model.specs.Pixel.{pixel_step as model_step};
ghost use Rattle.gfx_model.specs.Raster.{covers};
ghost use Rattle.tri_cover.specs.Seen.{fragment_seen};
ghost use Rattle.tri_cover.specs.Shown.{setup_seen};
ghost use Rattle.pixel_ops.specs.Seen.{pixel_seen};
ghost use Rattle.int_raster.specs.Seen.{paint_seen, facing_seen, step_seen};

use crate::lists::{Paint, Prepared};
use gfx_words::StencilWord;
use pixel_ops::{Pixel, Shaded, multiply, pixel_step};
use tri_cover::{Fragment, Setup};

pub(crate) fn product(a: [u8; 4], b: [u8; 4]) -> [u8; 4]
    ensures { result ≡ zip_with byte_product a b }
{
    [
        multiply(a[0], b[0]),
        multiply(a[1], b[1]),
        multiply(a[2], b[2]),
        multiply(a[3], b[3]),
    ]
}

/// The colour of a fragment.
fn painted(paint: &Paint, fragment: &Fragment) -> [u8; 4]
    ensures { result ≡ world.painted (paint_seen paint.now) (fragment_seen fragment.now) }
{
    let [u, v] = fragment.texcoord;
    match *paint {
        Paint::Solid(color) => color,
        Paint::Vertex => fragment.color,
        Paint::Texture(texels) => texels.sample(u, v),
        Paint::TexColor(texels) => product(texels.sample(u, v), fragment.color),
        Paint::Nothing => [0, 0, 0, 0],
        Paint::NothingColor => product([0, 0, 0, 0], fragment.color),
    }
}

/// The stencil word of the side that a triangle shows.
pub(crate) fn stencil_of(draw: &Prepared, setup: &Setup) -> StencilWord
    ensures { result ≡ (facing_seen draw.now setup.now).stencil }
{
    if setup.front() || draw.back.word() == 0 {
        draw.front
    } else {
        draw.back
    }
}

/// A covered pixel after a triangle.
pub(crate) fn stepped(before: Pixel, setup: &Setup, x: u16, y: u16, draw: &Prepared) -> Pixel
    requires { covers (setup_seen setup.now).triangle x y ≡ true }
    ensures { pixel_seen result ≡ step_seen draw.now setup.now x y (pixel_seen before) }
{
    let fragment = setup.at(x, y);
    let shaded = Shaded {
        color: painted(&draw.paint, &fragment),
        depth: fragment.depth,
    };
    pixel_step(before, &shaded, &draw.state, stencil_of(draw, setup))
}

/// A pixel after a fragment of a draw, by the stencil word of the side that it shows.
pub(crate) fn stepped_by(
    before: Pixel,
    color: [u8; 4],
    depth: u32,
    stencil: StencilWord,
    draw: &Prepared,
) -> Pixel
    requires { depth ≤ 16777215 }
    ensures { pixel_seen result ≡ model_step (pixel_seen before) (record { color = color; depth = depth }) draw.now.state stencil }
{
    let shaded = Shaded { color, depth };
    pixel_step(before, &shaded, &draw.state, stencil)
}

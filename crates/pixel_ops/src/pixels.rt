// Pixels, and one fragment's step on one pixel.
ghost use Rattle.std.specs.Prelude.{◌≡◌, ◌<◌, ◌≤◌, ◌+◌, ◌*◌, ◌^◌};
ghost use Rattle.gfx_model.specs.Pixel as model;
ghost use Rattle.pixel_ops.specs.Seen.{pixel_seen, shaded_seen};
ghost use Rattle.pixel_ops.specs.Tests.{passes_tests};

use crate::blending::stored_color;
use crate::depths::{depth_test, passes_stencil, stencil_by};
use gfx_words::{StateWord, StencilWord};

/// A pixel of a target. The depth word is the depth plus 2^24 times the stencil; `None` on a target without depth.
#[derive(Clone, Copy, Drop, PartialEq, Eq, Debug)]
pub struct Pixel {
    pub color: [u8; 4],
    pub depth: Option<u32>,
}

/// A fragment that has its colour.
#[derive(Clone, Copy, Drop, PartialEq, Eq, Debug)]
pub struct Shaded {
    pub color: [u8; 4],
    pub depth: u32,
}

fn joined(depth: u32, stencil: u8) -> u32
    requires { depth < 2 ^ 24 }
    ensures { result ≡ depth + 2 ^ 24 * stencil }
{
    depth + ((stencil as u32) << 24)
}

/// The pixel of a target with depth, by the stored depth and stencil.
fn step_with_depth(
    color: [u8; 4],
    depth: u32,
    stencil: u8,
    fragment: &Shaded,
    state: &StateWord,
    word: &StencilWord,
) -> Pixel
    requires stored { depth < 2 ^ 24 }
    requires fragment { fragment.now.depth < 2 ^ 24 }
    ensures { pixel_seen result ≡ model.step_with_depth color depth stencil (shaded_seen fragment.now) state.now word.now }
{
    if !passes_stencil(word, stencil) {
        let failed = stencil_by(word, word.on_stencil_fail(), stencil);
        return Pixel {
            color,
            depth: Some(joined(depth, failed)),
        };
    }
    if !depth_test(state.depth_test(), fragment.depth, depth) {
        let behind = stencil_by(word, word.on_depth_fail(), stencil);
        return Pixel {
            color,
            depth: Some(joined(depth, behind)),
        };
    }
    let kept = if state.writes_depth() {
        fragment.depth
    } else {
        depth
    };
    Pixel {
        color: stored_color(state, fragment.color, color),
        depth: Some(joined(kept, stencil_by(word, word.on_pass(), stencil))),
    }
}

/// Whether a fragment comes to the stores of a pixel: it passes the stencil test, and then the depth test. On a target
/// without depth each fragment does.
pub fn is_stored(pixel: &Pixel, fragment: &Shaded, state: &StateWord, stencil: &StencilWord) -> bool
    ensures { result ≡ passes_tests pixel.now.depth fragment.now.depth state.now stencil.now }
{
    match pixel.depth {
        None => true,
        Some(stored) => {
            passes_stencil(stencil, (stored >> 24) as u8)
                && depth_test(state.depth_test(), fragment.depth, stored & 0xff_ffff)
        }
    }
}

/// The pixel after a fragment of a depth of at most 16,777,215.
pub fn pixel_step(pixel: Pixel, fragment: &Shaded, state: &StateWord, stencil: StencilWord) -> Pixel
    requires { fragment.now.depth ≤ 16777215 }
    ensures { pixel_seen result ≡ model.pixel_step (pixel_seen pixel) (shaded_seen fragment.now) state.now stencil }
{
    match pixel.depth {
        None => Pixel {
            color: stored_color(state, fragment.color, pixel.color),
            depth: None,
        },
        Some(stored) => step_with_depth(
            pixel.color,
            stored & 0xff_ffff,
            (stored >> 24) as u8,
            fragment,
            state,
            &stencil,
        ),
    }
}

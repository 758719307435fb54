// Textures that are sampled at many places.
ghost use Rattle.std.specs.Prelude.{◌≡◌, ◌≤◌, ◌*◌, length};

use std::simd::prelude::*;

/// The sides of a texture and its texels, at hand for many pixels.
#[derive(Clone, Copy)]
pub(crate) struct Sampler<'x> {
    pub width: u32,
    pub height: u32,
    pub texels: &'x [[u8; 4]],
    pub ghost wide: { 1 ≤ width },
    pub ghost high: { 1 ≤ height },
    pub ghost narrow: { width ≤ 2048 },
    pub ghost low: { height ≤ 2048 },
    pub ghost whole: { length texels.now ≡ width * height },
}

/// A texture's sides, in lanes: its width and its height by turns, and its width alone.
#[derive(Clone, Copy)]
pub(crate) struct Sides {
    pub both: u16x8,
    pub width: u32x4,
}

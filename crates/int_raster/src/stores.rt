// How painted colours are stored over old ones: as they are, laid over by their alpha, or by a state word's parts.
ghost use Rattle.std.specs.Prelude.{◌≡◌, ◌<◌, ℕ, slice_index};
ghost use Rattle.gfx_model.specs.Pixel.{stored_color};
ghost use Rattle.pixel_ops.specs.Blended.{IsBlending, LaysOver};
ghost use Rattle.int_raster.specs.Painted.{IsOpaque};
ghost use Rattle.int_raster.specs.Tiled.{word_bytes};

use crate::lanes::{texel_of, word_of};
use crate::overlays::four_over;
use crate::painters::whole;
use pixel_ops::{Blending, lay_over};
use std::simd::prelude::*;

/// What is chosen once for many pixels, so that their loop does not ask again.
pub(crate) trait Store {
    /// Whether it stores as a state word says.
    ghost meets: { Self → ℕ → Type 0 };

    /// The colour that is stored of a new one and an old one.
    fn stored_over(&self, new: [u8; 4], old: [u8; 4]) -> [u8; 4]
        ensures { (state : ℕ) → meets self.now state → result ≡ stored_color state new old };

    /// The words of the colours that are stored of four new ones and four old ones.
    fn four_over(&self, new: u32x4, old: u32x4) -> u32x4
        ensures { (state j : ℕ) → meets self.now state → j < 4 → word_bytes (slice_index result j) ≡ stored_color state (word_bytes (slice_index new j)) (word_bytes (slice_index old j)) };
}

/// Colours are stored as they are.
#[derive(Clone, Copy)]
pub(crate) struct Opaque;

impl Store for Opaque {
    ghost meets = { λ _ state. IsOpaque state };

    #[inline(always)]
    fn stored_over(&self, new: [u8; 4], _old: [u8; 4]) -> [u8; 4] {
        whole(new)
    }

    #[inline(always)]
    fn four_over(&self, new: u32x4, _old: u32x4) -> u32x4 {
        new
    }
}

/// Colours are laid over the old ones by their alpha.
#[derive(Clone, Copy)]
pub(crate) struct Laid;

impl Store for Laid {
    ghost meets = { λ _ state. LaysOver state };

    #[inline(always)]
    fn stored_over(&self, new: [u8; 4], old: [u8; 4]) -> [u8; 4] {
        lay_over(new, old)
    }

    #[inline(always)]
    fn four_over(&self, new: u32x4, old: u32x4) -> u32x4 {
        four_over(new, old)
    }
}

impl Store for Blending {
    ghost meets = { IsBlending };

    #[inline(always)]
    fn stored_over(&self, new: [u8; 4], old: [u8; 4]) -> [u8; 4] {
        self.stored(new, old)
    }

    fn four_over(&self, new: u32x4, old: u32x4) -> u32x4 {
        let (new, old) = (new.to_array(), old.to_array());
        u32x4::from_array([
            word_of(self.stored(texel_of(new[0]), texel_of(old[0]))),
            word_of(self.stored(texel_of(new[1]), texel_of(old[1]))),
            word_of(self.stored(texel_of(new[2]), texel_of(old[2]))),
            word_of(self.stored(texel_of(new[3]), texel_of(old[3]))),
        ])
    }
}

// One texture: its format, and its texels as long as they are not taken out.
ghost use Rattle.std.specs.Prelude.{◌≡◌, ◌+◌, ◌*◌, ◌≤◌, length, true, option_map, IfSome, IsOk, MatchResult};
ghost use Rattle.gfx_model.specs.World.{with_texels_in};
ghost use Rattle.gfx_words.specs.Seen.{format_seen};
ghost use Rattle.fix_math.specs.Seen.{rect_seen, texels_seen};
ghost use Rattle.store_model.specs.Textures.{new_texture, slot_texels, slot_out, slot_with, slot_sides, with_texels_here, copied_region};
ghost use Rattle.texture_store.specs.Seen.{region_seen};
ghost use Rattle.texture_store.specs.Cut.{writes_nothing};

use crate::pictures::{copy_texels, copy_within, write_texels};
use crate::source::BlitBox;
use fix_math::{Rect, Texels};
use gfx_words::Format;
use std::alloc::{AllocError, Global};
use std::marker::Model;
use std::mem;

#[derive(Drop)]
enum Held {
    Here(Texels),
    Taken { width: u16, height: u16 },
}

/// A texture. While its texels are taken out it keeps their sides.
#[derive(Drop)]
pub(crate) struct Texture {
    format: Format,
    held: Held,
}

impl Model for Texture {
    ghost use Rattle.store_model.specs.Textures.{TextureSlot};

    ghost Value = { TextureSlot };

    ghost use Rattle.gfx_words.specs.Seen.{format_seen};
    ghost use Rattle.texture_store.specs.Held.{held_seen};

    ghost view = { λ s. record { format = format_seen s.format; held = held_seen s.held } };
}

impl Texture {
    pub(crate) fn new(format: Format, texels: Texels) -> Texture
        ensures { result ≡ new_texture (format_seen format) (texels_seen texels) }
    {
        Texture {
            format,
            held: Held::Here(texels),
        }
    }

    /// The texels. None exactly where they are taken out.
    pub(crate) fn texels(&self) -> Option<&Texels>
        ensures { option_map (λ t. texels_seen t.now) result ≡ slot_texels self.now }
    {
        match &self.held {
            Held::Here(texels) => Some(texels),
            Held::Taken { .. } => None,
        }
    }

    /// The sides of the texels, here or not. None exactly where the format is another.
    pub(crate) fn sides(&self, format: Format) -> Option<(u16, u16)>
        ensures { result ≡ slot_sides (format_seen format) self.now }
    {
        if self.format != format {
            return None;
        }
        match &self.held {
            Held::Here(texels) => Some((texels.width, texels.height)),
            Held::Taken { width, height } => Some((*width, *height)),
        }
    }

    /// Takes the texels out. None exactly where they are out.
    pub(crate) fn take(&mut self) -> Option<Texels>
        ensures taken { option_map texels_seen result ≡ slot_texels self.old }
        ensures left { self.new ≡ slot_out self.old }
    {
        let (width, height) = match &self.held {
            Held::Here(texels) => (texels.width, texels.height),
            Held::Taken { width, height } => (*width, *height),
        };
        match mem::replace(&mut self.held, Held::Taken { width, height }) {
            Held::Here(texels) => Some(texels),
            Held::Taken { .. } => None,
        }
    }

    /// Puts texels back.
    pub(crate) fn put(&mut self, texels: Texels)
        ensures { self.new ≡ slot_with (texels_seen texels) self.old }
    {
        self.held = Held::Here(texels);
    }

    /// Replaces the texels of a rectangle that passes no side.
    pub(crate) fn update(&mut self, rect: &Rect, bytes: &[u8])
        requires fits { IfSome (slot_texels self.old) (λ t. (rect.now.x + rect.now.w ≤ t.width) × (rect.now.y + rect.now.h ≤ t.height)) }
        requires enough { length bytes.now ≡ 4 * (rect.now.w * rect.now.h) }
        ensures { self.new ≡ with_texels_here (with_texels_in (rect_seen rect.now) bytes.now) self.old }
    {
        match &mut self.held {
            Held::Here(texels) => write_texels(texels, rect, bytes),
            Held::Taken { .. } => {}
        }
    }

    /// Copies a region of other texels.
    pub(crate) fn copy_from(&mut self, source: &Texels, copy: &BlitBox)
        ensures { self.new ≡ with_texels_here (copied_region (region_seen copy.now) (texels_seen source.now)) self.old }
    {
        match &mut self.held {
            Held::Here(texels) => copy_texels(texels, source, copy),
            Held::Taken { .. } => {}
        }
    }

    /// Copies a region of its own texels, which are read as they were.
    pub(crate) fn copy_within(&mut self, alloc: Global, copy: &BlitBox) -> Result<(), AllocError>
        ensures copied { MatchResult result (λ _. self.new ≡ with_texels_here (λ t. copied_region (region_seen copy.now) t t) self.old) (λ _. self.new ≡ self.old) }
        ensures nothing { writes_nothing (region_seen copy.now) (slot_texels self.old) ≡ true → IsOk result }
    {
        match &mut self.held {
            Held::Here(texels) => copy_within(alloc, texels, copy),
            Held::Taken { .. } => Ok(()),
        }
    }
}

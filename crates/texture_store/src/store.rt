// The store.
ghost use Rattle.std.specs.Prelude.{◌≡◌, ◌≢◌, ◌+◌, ◌*◌, ◌<◌, ◌≤◌, true, false, length, map, Some, None, IfOk, IfSome, IsOk, IsSome, MatchOption, MatchResult, option_map, is_some};
ghost use Rattle.std.specs.Option.{option_and_then};
ghost use Rattle.gfx_model.specs.Raster as raster;
ghost use Rattle.gfx_model.specs.Words.{texture_kind, frame_buffer_kind, greatest};
ghost use Rattle.gfx_model.specs.Resources.{first_refusal, wrong_kind, texels_from};
ghost use Rattle.gfx_model.specs.World.{with_texels_in};
ghost use Rattle.gfx_words.specs.Seen.{format_seen, refusal_seen, IsFirstRefusal};
ghost use Rattle.fix_math.specs.Seen.{rect_seen, texels_seen};
ghost use Rattle.store_model.specs.Slots.{at, filled_at, emptied_at, changed_at};
ghost use Rattle.store_model.specs.Textures.{no_textures, texels_at as texels_in_store, new_texture, create_refusals, update_refusals, changed_texels, copied_region, can_attach_at, destroyed, attached_texels, target_texels, target_out, target_back, IsTextures, IsOutAt};
ghost use Rattle.texture_store.specs.Seen.{source_seen, region_seen, target_seen, sides_seen};
ghost use Rattle.texture_store.specs.Cut.{writes_nothing};

use crate::pictures::made;
use crate::source::{BlitBox, TexelSource};
use crate::targets::{Target, detach_holders};
use crate::texture::Texture;
use crate::textures::{
    are_here, can_attach, check_rect, copy_apart, copy_over, put_attached, take_attached,
    texels_at, update_at,
};
use fix_math::{Rect, Texels};
use gfx_words::{Format, Kind, Refusal};
use slot_row::Row;
use std::alloc::{AllocError, Global};
use std::marker::Model;

/// Textures and frame buffers by index. It keeps the allocator that `new` was given.
#[derive(Drop)]
pub struct TextureStore {
    alloc: Global,
    textures: Row<Texture>,
    targets: Row<Target>,
}

impl Model for TextureStore {
    ghost use Rattle.store_model.specs.Textures.{Textures};

    ghost Value = { Textures };

    ghost use Rattle.texture_store.specs.Inside.{view_of, IsInside};

    ghost view = { view_of };

    ghost invariant = { IsInside };
}

impl TextureStore {
    /// Makes the room for all indices.
    pub fn new(alloc: Global) -> Result<TextureStore, AllocError>
        ensures { IfOk result (λ store. store ≡ no_textures) }
    {
        let textures = Row::new(alloc, Kind::Texture.greatest())?;
        let targets = Row::new(alloc, Kind::FrameBuffer.greatest())?;
        Ok(TextureStore {
            alloc,
            textures,
            targets,
        })
    }

    /// Does nothing. It tells what holds of each store: how many slots its rows have, and that the textures of each
    /// frame buffer are there, with their formats and one size.
    pub fn tell_facts(&self)
        ensures { IsTextures self.now }
    {
        let _ = &self.textures;
    }

    /// Makes a texture. The index is below 1,024 and has no texture. `BadSize` exactly where a side is 0 or over
    /// 2,048, or bytes are not four per texel; then only want of memory refuses.
    pub fn create(
        &mut self,
        index: u16,
        width: u16,
        height: u16,
        format: Format,
        source: TexelSource<'_>,
    ) -> Result<(), Refusal>
        requires below { index < greatest texture_kind }
        requires free { at self.old.textures index ≡ None }
        ensures { let refusal = first_refusal (create_refusals width height (source_seen source.entry)) in
            MatchResult result
            (λ _. (refusal ≡ None) × (self.new ≡ record self.old { textures = filled_at index (new_texture (format_seen format) (texels_from width height (source_seen source.entry))) self.old.textures }))
            (λ r. (refusal_seen r ≡ refusal) × (self.new ≡ self.old)) }
    {
        let texels = made(self.alloc, width, height, source)?;
        self.textures.put(index, Texture::new(format, texels));
        Ok(())
    }

    /// Replaces the texels of a rectangle of a texture that is there. `BadRange` exactly where the rectangle passes
    /// a side; then `BadSize` exactly where the bytes are not four per texel.
    pub fn update(&mut self, index: u16, rect: Rect, bytes: &[u8]) -> Result<(), Refusal>
        requires { IsSome (texels_in_store self.old index) }
        ensures { IfSome (texels_in_store self.old index) (λ texels.
            let refusal = first_refusal (update_refusals texels (rect_seen rect) bytes.now) in
            MatchResult result
            (λ _. (refusal ≡ None) × (self.new ≡ changed_texels (with_texels_in (rect_seen rect) bytes.now) index self.old))
            (λ r. IsFirstRefusal refusal r × (self.new ≡ self.old))) }
    {
        self.check_update(index, &rect, bytes)?;
        update_at(&mut self.textures, index, &rect, bytes);
        Ok(())
    }

    fn check_update(&self, index: u16, rect: &Rect, bytes: &[u8]) -> Result<(), Refusal>
        ensures { IfSome (texels_in_store self.now index) (λ texels.
            let refusal = first_refusal (update_refusals texels (rect_seen rect.now) bytes.now) in
            MatchResult result (λ _. refusal ≡ None) (λ r. IsFirstRefusal refusal r)) }
    {
        match texels_at(&self.textures, index) {
            Some(texels) => check_rect(texels, rect, bytes),
            None => Ok(()),
        }
    }

    /// Makes a frame buffer. The index is below 128 and has no frame buffer. `WrongKind` exactly where `color` is no
    /// RGBA8 texture, `depth` is no D24S8 texture, or their sizes differ.
    pub fn attach(&mut self, index: u16, color: u16, depth: Option<u16>) -> Result<(), Refusal>
        requires below { index < greatest frame_buffer_kind }
        requires free { at self.old.targets index ≡ None }
        ensures { MatchResult result
            (λ _. (can_attach_at self.old.textures color depth ≡ true) × (self.new ≡ record self.old { targets = filled_at index (record { color = color; depth = depth }) self.old.targets }))
            (λ r. (can_attach_at self.old.textures color depth ≡ false) × (refusal_seen r ≡ Some wrong_kind) × (self.new ≡ self.old)) }
    {
        if !can_attach(&self.textures, color, depth) {
            return Err(Refusal::WrongKind);
        }
        self.targets.put(index, Target::new(color, depth));
        Ok(())
    }

    /// Takes a frame buffer out. Where it is not there, nothing changes.
    pub fn detach(&mut self, index: u16)
        ensures taken { self.new ≡ record self.old { targets = emptied_at index self.old.targets } }
        ensures nothing { at self.old.targets index ≡ None → self.new ≡ self.old }
    {
        let _ = self.targets.take(index);
    }

    /// Takes a texture out, and the frame buffers that hold it. Where it is not there, nothing changes.
    pub fn destroy(&mut self, index: u16)
        ensures taken { self.new ≡ destroyed index self.old }
        ensures nothing { at self.old.textures index ≡ None → self.new ≡ self.old }
    {
        let _ = self.textures.take(index);
        detach_holders(&mut self.targets, index);
    }

    /// Whether an index has a texture, here or taken out.
    pub fn has_texture(&self, index: u16) -> bool
        ensures { result ≡ is_some (at self.now.textures index) }
    {
        match self.textures.get(index) {
            Some(_) => true,
            None => false,
        }
    }

    /// Whether an index has a frame buffer.
    pub fn has_target(&self, index: u16) -> bool
        ensures { result ≡ is_some (at self.now.targets index) }
    {
        match self.targets.get(index) {
            Some(_) => true,
            None => false,
        }
    }

    /// The texels of a texture. None exactly where it is not there or they are taken out.
    pub fn texels_of(&self, index: u16) -> Option<&Texels>
        ensures { option_map (λ texels. texels_seen texels.now) result ≡ texels_in_store self.now index }
    {
        texels_at(&self.textures, index)
    }

    /// Takes out the texels of a frame buffer's textures. None exactly where the frame buffer is not there or texels of
    /// it are taken out; then nothing changes. The texels have one size, with which they can be put back.
    pub fn take_target(&mut self, index: u16) -> Option<(Texels, Option<Texels>)>
        ensures taken { option_map target_seen result ≡ target_texels self.old index }
        ensures left { self.new ≡ target_out index self.old }
        ensures sides { IfSome result (λ p. IfSome p.1 (λ depth. (depth.width ≡ p.0.width) × (depth.height ≡ p.0.height))) }
        ensures there { IsSome result → IsSome (at self.new.targets index) }
        ensures back { IfSome result (λ p. IsOutAt self.new index (sides_seen p.0) (option_map sides_seen p.1)) }
    {
        match self.attached(index) {
            Some((color, depth)) => take_attached(&mut self.textures, color, depth),
            None => None,
        }
    }

    // The textures of a frame buffer, where the texels of all of them are here.
    fn attached(&self, index: u16) -> Option<(u16, Option<u16>)>
        ensures { MatchOption result (target_texels self.now index ≡ None) (λ p. (at self.now.targets index ≡ Some (record { color = p.0; depth = p.1 })) × IsSome (attached_texels self.now.textures p.0 p.1)) }
    {
        match self.targets.get(index) {
            Some(target) => {
                if are_here(&self.textures, target.color(), target.depth()) {
                    Some((target.color(), target.depth()))
                } else {
                    None
                }
            }
            None => None,
        }
    }

    /// Puts texels back into the textures of a frame buffer that is there, which are taken out. `depth` is given exactly
    /// where the frame buffer has a depth texture, and the sizes are those of the texels that were taken.
    pub fn put_target(&mut self, index: u16, color: Texels, depth: Option<Texels>)
        requires there { IsSome (at self.old.targets index) }
        requires out { IsOutAt self.old index (sides_seen color) (option_map sides_seen depth) }
        ensures { self.new ≡ target_back index (texels_seen color) (option_map texels_seen depth) self.old }
    {
        if let Some(target) = self.targets.get(index) {
            put_attached(
                &mut self.textures,
                target.color(),
                target.depth(),
                color,
                depth,
            );
        }
    }

    /// Copies a region between two textures, cut to both. Within one texture the texels are read as they were; that
    /// alone takes memory, for the cut region, and none where nothing is left of it. Where the source is not there or
    /// is taken out, nothing changes and it succeeds.
    pub fn blit(&mut self, copy: BlitBox) -> Result<(), AllocError>
        ensures copied { MatchOption (texels_in_store self.old copy.src) (self.new ≡ self.old) (λ source.
            MatchResult result (λ _. self.new ≡ changed_texels (copied_region (region_seen copy) source) copy.dst self.old) (λ _. self.new ≡ self.old)) }
        ensures apart { copy.src ≢ copy.dst → IsOk result }
        ensures nothing { writes_nothing (region_seen copy) (texels_in_store self.old copy.src) ≡ true → IsOk result }
    {
        if copy.src == copy.dst {
            copy_over(&mut self.textures, self.alloc, &copy)
        } else {
            copy_apart(&mut self.textures, &copy);
            Ok(())
        }
    }

    /// The texel of a texture at a texture position, in units of 1/65536 of each side; 0, 0, 0, 0 where the texture is
    /// not there.
    pub fn sample(&self, index: u16, u: i32, v: i32) -> [u8; 4]
        ensures { MatchOption (texels_in_store self.now index) (result ≡ raster.no_color) (λ texels. result ≡ raster.sample texels u v) }
    {
        match texels_at(&self.textures, index) {
            Some(texels) => texels.sample(u, v),
            None => [0; 4],
        }
    }
}

// The surface of a frame buffer, taken out and put back.
ghost use Rattle.std.specs.Prelude.{◌≡◌, ℕ, option_map, IsSome, IfSome};
ghost use Rattle.fix_math.specs.Seen.{sides_seen};
ghost use Rattle.int_raster.specs.Seen.{surface_seen};
ghost use Rattle.pixel_ops.specs.Seen.{pixel_seen};
ghost use Rattle.store_model.specs.Slots.{at};
ghost use Rattle.store_model.specs.Textures.{IsOutAt, target_back, target_out, target_texels};
ghost use Rattle.target_laws.specs.Targets as model;
ghost use Rattle.target_tracing.specs.Surfaces.{surface_in};

use crate::pixels::{has_pixel, texel_pixel};
use int_raster::Surface;
use pixel_ops::Pixel;
use store_model::put_back_law;
use texture_store::TextureStore;

/// Takes out the surface of a frame buffer, where it is there.
pub(crate) fn take_surface(textures: &mut TextureStore, index: u16) -> Option<Surface>
    ensures taken { option_map surface_seen result ≡ surface_in textures.old index }
    ensures left { textures.new ≡ target_out index textures.old }
    ensures there { IsSome result → IsSome (at textures.new.targets index) }
    ensures back { IfSome result (λ s. IsOutAt textures.new index (sides_seen s.color) (option_map sides_seen s.depth)) }
{
    match textures.take_target(index) {
        Some((color, depth)) => Some(Surface::new(color, depth)),
        None => None,
    }
}

/// Puts a surface back that was taken out.
pub(crate) fn put_surface(textures: &mut TextureStore, index: u16, surface: Surface)
    requires there { IsSome (at textures.old.targets index) }
    requires out { IsOutAt textures.old index (sides_seen surface.color) (option_map sides_seen surface.depth) }
    ensures { textures.new ≡ target_back index (surface_seen surface).color (surface_seen surface).depth textures.old }
{
    textures.put_target(index, surface.color, surface.depth);
}

/// The pixel of a frame buffer; a pixel of zeros where it is not there.
pub(crate) fn target_pixel(textures: &mut TextureStore, index: u16, x: u16, y: u16) -> Pixel
    ensures pixel { pixel_seen result ≡ model.pixel_on (surface_in textures.old index) x y }
    ensures same { textures.new ≡ textures.old }
{
    put_back_law();
    textures.tell_facts();
    match take_surface(textures, index) {
        Some(surface) => {
            let pixel = texel_pixel(&surface, x, y);
            put_surface(textures, index, surface);
            pixel
        }
        None => Pixel {
            color: [0; 4],
            depth: None,
        },
    }
}

/// Whether a frame buffer is there and has a pixel.
pub(crate) fn has_target_pixel(textures: &mut TextureStore, index: u16, x: u32, y: u32) -> bool
    ensures has { result ≡ model.has_pixel (surface_in textures.old index) x y }
    ensures same { textures.new ≡ textures.old }
{
    put_back_law();
    textures.tell_facts();
    match take_surface(textures, index) {
        Some(surface) => {
            let has = has_pixel(&surface, x, y);
            put_surface(textures, index, surface);
            has
        }
        None => false,
    }
}

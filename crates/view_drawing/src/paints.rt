// What a draw paints with.
ghost use Rattle.std.specs.Prelude.{◌≡◌, ℕ, List, Some, option_map};
ghost use Rattle.gfx_model.specs.World.{bound_handle};
ghost use Rattle.gfx_words.specs.Seen.{program_seen};
ghost use Rattle.fix_math.specs.Seen.{texels_seen};
ghost use Rattle.int_raster.specs.Seen.{paint_seen};
ghost use Rattle.store_laws.specs.ByIndex.{paint_at, sampled_at};
ghost use Rattle.draw_encoder.specs.declared.items.UniformSet.{UniformSet};
ghost use Rattle.draw_encoder.specs.Seen.{draw_seen};
ghost use Rattle.view_drawing.specs.Sampled.{sampled_in};

use crate::uniforms::{sampled_stage, solid_color};
use buffer_store::BufferStore;
use draw_encoder::DrawItem;
use fix_math::Texels;
use gfx_words::{Handle, ProgramKind};
use int_raster::Paint;
use texture_store::TextureStore;

/// The texture that is bound to a stage, if there is such a stage and it is not empty.
pub(crate) fn bound(textures: &[Option<Handle>; 2], stage: i32) -> Option<Handle>
    ensures { result ≡ bound_handle textures.now stage }
{
    match stage {
        0 => textures[0],
        1 => textures[1],
        _ => None,
    }
}

/// The texels of a bound texture, if one is bound and is not taken out.
fn texels_of(textures: &TextureStore, bound: Option<Handle>) -> Option<&Texels>
    ensures { option_map (λ texels. texels_seen texels.now) result ≡ sampled_at textures.now bound }
{
    match bound {
        Some(texture) => textures.texels_of(texture.index()),
        None => None,
    }
}

/// The texels that a textured draw samples.
fn sampled<'x>(
    buffers: &BufferStore,
    textures: &'x TextureStore,
    stages: &[Option<Handle>; 2],
) -> Option<&'x Texels>
    ensures { option_map (λ texels. texels_seen texels.now) result ≡ sampled_in buffers.now textures.now stages.now }
{
    texels_of(textures, bound(stages, sampled_stage(buffers)))
}

/// What a draw with a program paints with.
fn program_paint<'x>(
    buffers: &BufferStore,
    textures: &'x TextureStore,
    draw: &DrawItem,
    program: ProgramKind,
) -> Paint<'x>
    ensures { (bytes : List ℕ) (sets : List UniformSet) → Some (paint_seen result) ≡ paint_at buffers.now textures.now (draw_seen bytes sets draw.now) (Some (program_seen program)) }
{
    match program {
        ProgramKind::Solid => Paint::Solid(solid_color(buffers)),
        ProgramKind::Color => Paint::Vertex,
        ProgramKind::Texture => match sampled(buffers, textures, &draw.textures) {
            Some(texels) => Paint::Texture(texels),
            None => Paint::Nothing,
        },
        ProgramKind::TexColor => match sampled(buffers, textures, &draw.textures) {
            Some(texels) => Paint::TexColor(texels),
            None => Paint::NothingColor,
        },
    }
}

/// What a draw paints with, if its program is there. The textures are those while the target is taken out.
pub(crate) fn paint_of<'x>(
    buffers: &BufferStore,
    textures: &'x TextureStore,
    draw: &DrawItem,
    program: Option<ProgramKind>,
) -> Option<Paint<'x>>
    ensures { (bytes : List ℕ) (sets : List UniformSet) → option_map paint_seen result ≡ paint_at buffers.now textures.now (draw_seen bytes sets draw.now) (option_map program_seen program) }
{
    match program {
        Some(program) => Some(program_paint(buffers, textures, draw, program)),
        None => None,
    }
}

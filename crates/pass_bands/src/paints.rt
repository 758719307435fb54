// Paints that name their texture.
ghost use Rattle.std.specs.Prelude.{◌≡◌, option_map};
ghost use Rattle.fix_math.specs.Seen.{texels_seen};
ghost use Rattle.int_raster.specs.Seen.{paint_seen};
ghost use Rattle.gfx_model.specs.World.{paint_sample, paint_product};
ghost use Rattle.pass_bands.specs.Named.{named_texels};

use fix_math::Texels;
use int_raster::Paint;
use texture_store::TextureStore;

/// What a draw paints with: one colour, the colour of the vertices, the sample of a texture, or the product of sample and vertex
/// colour. A texture is named by its index; where it is not there or is taken out, its samples are 0, 0, 0, 0, and so are those of none.
#[derive(Clone, Copy, Drop)]
pub enum PlannedPaint {
    Solid([u8; 4]),
    Vertex,
    Texture(Option<u16>),
    TexColor(Option<u16>),
}

/// The texels of a texture, if one is named and is not taken out.
fn texels_of(textures: &TextureStore, index: Option<u16>) -> Option<&Texels>
    ensures { option_map (λ texels. texels_seen texels.now) result ≡ named_texels textures.now index }
{
    match index {
        Some(index) => textures.texels_of(index),
        None => None,
    }
}

/// A sample of a texture.
fn sample_of(textures: &TextureStore, index: Option<u16>) -> Paint<'_>
    ensures { paint_seen result ≡ paint_sample (named_texels textures.now index) }
{
    match texels_of(textures, index) {
        Some(texels) => Paint::Texture(texels),
        None => Paint::Nothing,
    }
}

/// The product of a sample and the vertex colour.
fn product_of(textures: &TextureStore, index: Option<u16>) -> Paint<'_>
    ensures { paint_seen result ≡ paint_product (named_texels textures.now index) }
{
    match texels_of(textures, index) {
        Some(texels) => Paint::TexColor(texels),
        None => Paint::NothingColor,
    }
}

impl PlannedPaint {
    ghost use Rattle.pass_bands.specs.Planned.{planned_seen};

    /// The paint, with textures that it may sample.
    pub fn with<'x>(&self, textures: &'x TextureStore) -> Paint<'x>
        ensures { paint_seen result ≡ planned_seen textures.now self.now }
    {
        match *self {
            PlannedPaint::Solid(color) => Paint::Solid(color),
            PlannedPaint::Vertex => Paint::Vertex,
            PlannedPaint::Texture(index) => sample_of(textures, index),
            PlannedPaint::TexColor(index) => product_of(textures, index),
        }
    }
}

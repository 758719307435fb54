// The create of textures.
ghost use Rattle.gfx_model.specs.Number.{u32_at as u32_of};
ghost use Rattle.gfx_model.specs.Resources as model;
ghost use Rattle.gfx_model.specs.Vertex.{Color};
ghost use Rattle.gfx_model.specs.Words.{texture_kind, texture_info};
ghost use Rattle.gfx_model.specs.World.{texture_content};
ghost use Rattle.gfx_words.specs.Kinds.{format_seen};
ghost use Rattle.resource_laws.specs.Bare.{bare_of};
ghost use Rattle.resource_laws.specs.Laws.{Gives};
ghost use Rattle.resource_laws.specs.Lawful.{IsLawful};
ghost use Rattle.resource_book.specs.Answered.{Creates};
ghost use Rattle.resource_book.specs.Shelves.{resources_of, HasLimits};
ghost use Rattle.resource_book.specs.Written.{flag_number};
ghost use Rattle.std.specs.Prelude.{◌≡◌, ◌≤◌, ◌+◌, ◌*◌, ◌&&◌, nat_lt, List, [], Some, None, false, IfOk};
ghost use Rattle.texture_store.specs.Seen.{own_source_seen};

use crate::book::Book;
use crate::creates::reserve;
use crate::rows::Fact;
use crate::shelf::Shelf;
use cmd_buffer::Command;
use gfx_words::{Format, Handle, Info, Kind, Refusal};
use texture_store::TexSource;

// the longest side of a texture
const MOST_SIDE: u16 = 2048;

// how many texels all textures that live or wait can have
const MOST_TEXELS: u64 = 33_554_432;

fn is_size(side: u16) -> bool
    ensures { result ≡ model.is_size side }
{
    side >= 1 && side <= MOST_SIDE
}

fn source_fits(width: u16, height: u16, source: &TexSource) -> bool
    ensures { result ≡ model.source_fits width height (own_source_seen source.now) }
{
    match source {
        TexSource::Fill(_) => true,
        TexSource::Bytes(bytes) => bytes.len() as u64 == 4 * (width as u64 * height as u64),
    }
}

fn is_texture(width: u16, height: u16, source: &TexSource) -> bool
    ensures { result ≡ (model.is_size width && model.is_size height && model.source_fits width height (own_source_seen source.now)) }
{
    is_size(width) && is_size(height) && source_fits(width, height, source)
}

fn passes_texels(texels: u64, width: u16, height: u16) -> bool
    ensures { result ≡ nat_lt model.greatest_texels (texels + width * height) }
{
    let more = width as u64 * height as u64;
    if more > MOST_TEXELS {
        return true;
    }
    texels > MOST_TEXELS - more
}

fn flag(b: bool) -> u8
    ensures { result ≡ flag_number b }
{
    if b { 1 } else { 0 }
}

fn color_word(color: [u8; 4]) -> u32
    ensures { result ≡ u32_of color 0 }
{
    let low = color[0] as u32 + 256 * color[1] as u32;
    let high = color[2] as u32 + 256 * color[3] as u32;
    low + 65_536 * high
}

// Makes the thing of a texture; there is room.
fn make_texture(
    shelf: &mut Shelf,
    width: u16,
    height: u16,
    format: Format,
    blit_dst: bool,
) -> Handle
    requires limits { HasLimits shelf.old }
    requires lawful { IsLawful (resources_of shelf.old) }
    requires index { (model.lacks_index (resources_of shelf.old) texture_kind).0 ≡ false }
    requires serial { (model.lacks_serial (resources_of shelf.old)).0 ≡ false }
    requires room { 1 ≤ shelf.old.table.spare }
    ensures limits { HasLimits shelf.new }
    ensures made { Some result ≡ (model.make texture_kind (texture_info (format_seen format) blit_dst width height) (texture_content (format_seen format) (record { width = width; height = height; texels = [] })) (resources_of shelf.old)).made }
    ensures after { (texels : List Color) → resources_of shelf.new ≡ bare_of (model.make texture_kind (texture_info (format_seen format) blit_dst width height) (texture_content (format_seen format) (record { width = width; height = height; texels = texels })) (resources_of shelf.old)).after }
{
    let info = Info::Texture {
        format,
        blit_dst,
        width,
        height,
    };
    let fact = Fact::Texture {
        format,
        width,
        height,
    };
    shelf.make(Kind::Texture, info, fact, None)
}

impl Book {
    /// Makes a texture. `BadSize` exactly where a side is not 1 to 2,048 or there are not four bytes a texel; then `Full`
    /// (1,024); then `TexelsFull` exactly where all live and waiting textures and this one have more than 33,554,432 texels;
    /// then `SerialsSpent`.
    pub fn create_texture(
        &mut self,
        width: u16,
        height: u16,
        format: Format,
        blit_dst: bool,
        source: TexSource,
    ) -> Result<Handle, Refusal>
        ensures answer { Creates result (model.create_texture width height (format_seen format) blit_dst (own_source_seen source)) self.old self.new }
        ensures free { IfOk result (λ h. Gives self.old.resources (model.create_texture width height (format_seen format) blit_dst (own_source_seen source)) h) }
    {
        if !is_texture(width, height, &source) {
            return Err(Refusal::BadSize);
        }
        if self.shelf.lacks_index(Kind::Texture) {
            return Err(Refusal::Full);
        }
        if passes_texels(self.shelf.table.texels(), width, height) {
            return Err(Refusal::TexelsFull);
        }
        if self.shelf.lacks_serial() {
            return Err(Refusal::SerialsSpent);
        }
        match source {
            TexSource::Fill(color) => self.new_filled(width, height, format, blit_dst, color),
            TexSource::Bytes(bytes) => self.new_sent(width, height, format, blit_dst, bytes),
        }
    }

    fn new_filled(
        &mut self,
        width: u16,
        height: u16,
        format: Format,
        blit_dst: bool,
        color: [u8; 4],
    ) -> Result<Handle, Refusal>
        requires index { (model.lacks_index self.old.resources texture_kind).0 ≡ false }
        requires serial { (model.lacks_serial self.old.resources).0 ≡ false }
        requires passes { model.refusal_of self.old.resources (model.create_texture width height (format_seen format) blit_dst (model.fill_source color)) ≡ None }
        ensures { Creates result (model.create_texture width height (format_seen format) blit_dst (model.fill_source color)) self.old self.new }
    {
        reserve(&mut self.shelf, &mut self.orders, 14)?;
        let handle = make_texture(&mut self.shelf, width, height, format, blit_dst);
        self.orders.write(Command::CreateTexture {
            index: handle.index(),
            width,
            height,
            format: format.number(),
            blit_dst: flag(blit_dst),
            source: 0,
            value: color_word(color),
        });
        Ok(handle)
    }

    fn new_sent(
        &mut self,
        width: u16,
        height: u16,
        format: Format,
        blit_dst: bool,
        bytes: Vec<u8>,
    ) -> Result<Handle, Refusal>
        requires index { (model.lacks_index self.old.resources texture_kind).0 ≡ false }
        requires serial { (model.lacks_serial self.old.resources).0 ≡ false }
        requires passes { model.refusal_of self.old.resources (model.create_texture width height (format_seen format) blit_dst (model.bytes_source bytes.items)) ≡ None }
        ensures { Creates result (model.create_texture width height (format_seen format) blit_dst (model.bytes_source bytes.items)) self.old self.new }
    {
        reserve(&mut self.shelf, &mut self.orders, 14)?;
        let payload = self.orders.next_payload();
        let handle = make_texture(&mut self.shelf, width, height, format, blit_dst);
        let index = handle.index();
        self.orders.send(
            Command::CreateTexture {
                index,
                width,
                height,
                format: format.number(),
                blit_dst: flag(blit_dst),
                source: 1,
                value: payload,
            },
            bytes,
        );
        Ok(handle)
    }
}

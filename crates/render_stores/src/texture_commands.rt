// What commands do to textures and frame buffers; each passes over what cannot be.
ghost use Rattle.std.specs.Prelude.{◌≡◌, ◌≢◌, Some, OnOk, OnErr, option_map, slice_get, is_none};
ghost use Rattle.gfx_words.specs.Seen.{format_seen, refusal_seen};
ghost use Rattle.fix_math.specs.Seen.{rect_seen};
ghost use Rattle.texture_store.specs.Seen.{source_seen};
ghost use Rattle.store_laws.specs.ByIndex.{source_of, texture_made, index_of_depth, target_made, texture_updated};
ghost use Rattle.render_stores.specs.Payloads.{payloads_seen};

use crate::free::{is_target_free, is_texture_free};
use crate::payloads::payload_at;
use fix_math::Rect;
use gfx_words::{Format, Refusal};
use std::alloc::AllocError;
use texture_store::{TexelSource, TextureStore};

/// The texels' source by its number: 0 a colour in four bytes, 1 a payload.
pub(crate) fn texel_source(payloads: &[Vec<u8>], source: u8, value: u32) -> Option<TexelSource<'_>>
    ensures { option_map source_seen result ≡ source_of (payloads_seen payloads.now) source value }
{
    if source == 0 {
        return Some(TexelSource::Fill(value.to_le_bytes()));
    }
    if source != 1 {
        return None;
    }
    match payload_at(payloads, value) {
        Some(bytes) => Some(TexelSource::Bytes(bytes)),
        None => None,
    }
}

fn is_want_of_memory(refusal: &Refusal) -> bool
    ensures { result ≡ is_none (refusal_seen refusal.now) }
{
    match refusal {
        Refusal::OutOfMemory => true,
        _ => false,
    }
}

fn put_texture(
    textures: &mut TextureStore,
    index: u16,
    width: u16,
    height: u16,
    format: Format,
    source: TexelSource<'_>,
) -> Result<(), AllocError>
    ensures made { OnOk result (textures.new ≡ texture_made index width height (Some (format_seen format)) (Some (source_seen source.entry)) textures.old) }
    ensures kept { OnErr result (textures.new ≡ textures.old) }
    ensures changes { OnErr result (texture_made index width height (Some (format_seen format)) (Some (source_seen source.entry)) textures.old ≢ textures.old) }
{
    if !is_texture_free(textures, index) {
        return Ok(());
    }
    match textures.create(index, width, height, format, source) {
        Ok(_) => Ok(()),
        Err(refusal) => {
            if is_want_of_memory(&refusal) {
                Err(AllocError)
            } else {
                Ok(())
            }
        }
    }
}

/// Makes a texture.
pub(crate) fn make_texture(
    textures: &mut TextureStore,
    index: u16,
    width: u16,
    height: u16,
    format: Option<Format>,
    source: Option<TexelSource<'_>>,
) -> Result<(), AllocError>
    ensures made { OnOk result (textures.new ≡ texture_made index width height (option_map format_seen format) (option_map source_seen source.entry) textures.old) }
    ensures kept { OnErr result (textures.new ≡ textures.old) }
    ensures changes { OnErr result (texture_made index width height (option_map format_seen format) (option_map source_seen source.entry) textures.old ≢ textures.old) }
{
    match (format, source) {
        (Some(format), Some(source)) => {
            put_texture(textures, index, width, height, format, source)?;
            Ok(())
        }
        _ => Ok(()),
    }
}

/// The depth texture's index, if a command names one.
pub(crate) fn depth_index(depth: u16) -> Option<u16>
    ensures { result ≡ index_of_depth depth }
{
    if depth == 65_535 { None } else { Some(depth) }
}

/// Makes a frame buffer.
pub(crate) fn make_target(textures: &mut TextureStore, index: u16, color: u16, depth: Option<u16>)
    ensures { textures.new ≡ target_made index color depth textures.old }
{
    if is_target_free(textures, index) {
        let _ = textures.attach(index, color, depth);
    }
}

fn write_texels(textures: &mut TextureStore, index: u16, rect: Rect, bytes: &[u8])
    ensures { textures.new ≡ texture_updated index (rect_seen rect) (Some bytes.now) textures.old }
{
    if textures.texels_of(index).is_some() {
        let _ = textures.update(index, rect, bytes);
    }
}

/// Replaces the texels of a rectangle by a payload.
pub(crate) fn update_texture(
    textures: &mut TextureStore,
    payloads: &[Vec<u8>],
    index: u16,
    rect: Rect,
    payload: u32,
)
    ensures { textures.new ≡ texture_updated index (rect_seen rect) (slice_get (payloads_seen payloads.now) payload) textures.old }
{
    match payload_at(payloads, payload) {
        Some(bytes) => write_texels(textures, index, rect, bytes),
        None => {}
    }
}

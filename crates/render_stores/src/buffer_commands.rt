// What commands do to layouts, buffers and uniforms; each passes over what cannot be.
ghost use Rattle.std.specs.Prelude.{◌≡◌, ◌≢◌, Some, OnOk, OnErr, IsSome, length, option_map, slice_get, is_some};
ghost use Rattle.gfx_words.specs.Seen.{kind_seen, uniform_seen};
ghost use Rattle.store_model.specs.Slots.{at};
ghost use Rattle.store_model.specs.Buffers.{bytes_at};
ghost use Rattle.store_laws.specs.ByIndex.{layout_made, vertices_made, indices_made, uniform_made, buffer_updated, fits_in};
ghost use Rattle.render_stores.specs.Payloads.{payloads_seen};

use crate::free::{is_index_buffer_free, is_layout_free, is_uniform_free, is_vertex_buffer_free};
use crate::payloads::payload_at;
use buffer_store::BufferStore;
use gfx_words::{Kind, UniformKind};
use std::alloc::{AllocError, Global};
use vertex_layout::VertexLayout;

/// Makes a layout.
pub(crate) fn make_layout(buffers: &mut BufferStore, index: u16, layout: VertexLayout)
    ensures { buffers.new ≡ layout_made index layout buffers.old }
{
    if is_layout_free(buffers, index) {
        buffers.create_layout(index, layout);
    }
}

fn put_vertices(
    alloc: Global,
    buffers: &mut BufferStore,
    index: u16,
    layout: u16,
    bytes: &[u8],
) -> Result<(), AllocError>
    ensures made { OnOk result (buffers.new ≡ vertices_made index (at buffers.old.layouts layout) (Some bytes.now) buffers.old) }
    ensures kept { OnErr result (buffers.new ≡ buffers.old) }
    ensures changes { OnErr result (vertices_made index (at buffers.old.layouts layout) (Some bytes.now) buffers.old ≢ buffers.old) }
{
    if buffers.layout_of(Kind::Layout, layout).is_none() {
        return Ok(());
    }
    if is_vertex_buffer_free(buffers, index) {
        let bytes = bytes.to_vec(alloc)?;
        buffers.create_vertices(index, layout, bytes);
    }
    Ok(())
}

/// Makes a vertex buffer of a payload.
pub(crate) fn make_vertices(
    alloc: Global,
    buffers: &mut BufferStore,
    payloads: &[Vec<u8>],
    index: u16,
    layout: u16,
    payload: u32,
) -> Result<(), AllocError>
    ensures made { OnOk result (buffers.new ≡ vertices_made index (at buffers.old.layouts layout) (slice_get (payloads_seen payloads.now) payload) buffers.old) }
    ensures kept { OnErr result (buffers.new ≡ buffers.old) }
    ensures changes { OnErr result (vertices_made index (at buffers.old.layouts layout) (slice_get (payloads_seen payloads.now) payload) buffers.old ≢ buffers.old) }
{
    match payload_at(payloads, payload) {
        Some(bytes) => {
            put_vertices(alloc, buffers, index, layout, bytes)?;
            Ok(())
        }
        None => Ok(()),
    }
}

fn put_indices(
    alloc: Global,
    buffers: &mut BufferStore,
    index: u16,
    bytes: &[u8],
) -> Result<(), AllocError>
    ensures made { OnOk result (buffers.new ≡ indices_made index (Some bytes.now) buffers.old) }
    ensures kept { OnErr result (buffers.new ≡ buffers.old) }
    ensures changes { OnErr result (indices_made index (Some bytes.now) buffers.old ≢ buffers.old) }
{
    if is_index_buffer_free(buffers, index) {
        let bytes = bytes.to_vec(alloc)?;
        buffers.create_indices(index, bytes);
    }
    Ok(())
}

/// Makes an index buffer of a payload.
pub(crate) fn make_indices(
    alloc: Global,
    buffers: &mut BufferStore,
    payloads: &[Vec<u8>],
    index: u16,
    payload: u32,
) -> Result<(), AllocError>
    ensures made { OnOk result (buffers.new ≡ indices_made index (slice_get (payloads_seen payloads.now) payload) buffers.old) }
    ensures kept { OnErr result (buffers.new ≡ buffers.old) }
    ensures changes { OnErr result (indices_made index (slice_get (payloads_seen payloads.now) payload) buffers.old ≢ buffers.old) }
{
    match payload_at(payloads, payload) {
        Some(bytes) => {
            put_indices(alloc, buffers, index, bytes)?;
            Ok(())
        }
        None => Ok(()),
    }
}

fn put_uniform(
    alloc: Global,
    buffers: &mut BufferStore,
    index: u16,
    serial: u32,
    kind: UniformKind,
    name: &[u8],
) -> Result<(), AllocError>
    ensures made { OnOk result (buffers.new ≡ uniform_made index serial (Some (uniform_seen kind)) (Some name.now) buffers.old) }
    ensures kept { OnErr result (buffers.new ≡ buffers.old) }
    ensures changes { OnErr result (uniform_made index serial (Some (uniform_seen kind)) (Some name.now) buffers.old ≢ buffers.old) }
{
    if is_uniform_free(buffers, index) {
        let name = name.to_vec(alloc)?;
        buffers.create_uniform(index, serial, kind, name);
    }
    Ok(())
}

/// Makes a uniform whose name is a payload.
pub(crate) fn make_uniform(
    alloc: Global,
    buffers: &mut BufferStore,
    payloads: &[Vec<u8>],
    index: u16,
    serial: u32,
    kind: Option<UniformKind>,
    payload: u32,
) -> Result<(), AllocError>
    ensures made { OnOk result (buffers.new ≡ uniform_made index serial (option_map uniform_seen kind) (slice_get (payloads_seen payloads.now) payload) buffers.old) }
    ensures kept { OnErr result (buffers.new ≡ buffers.old) }
    ensures changes { OnErr result (uniform_made index serial (option_map uniform_seen kind) (slice_get (payloads_seen payloads.now) payload) buffers.old ≢ buffers.old) }
{
    match (kind, payload_at(payloads, payload)) {
        (Some(kind), Some(name)) => {
            put_uniform(alloc, buffers, index, serial, kind, name)?;
            Ok(())
        }
        _ => Ok(()),
    }
}

/// Whether bytes from an offset on lie within a buffer that is there.
fn fits(buffers: &BufferStore, kind: Kind, index: u16, offset: u32, bytes: &[u8]) -> bool
    ensures { result ≡ fits_in offset bytes.now (bytes_at buffers.now (kind_seen kind) index) }
{
    match buffers.bytes_of(kind, index) {
        Some(held) => offset as usize + bytes.len() <= held.len(),
        None => false,
    }
}

fn write_bytes(buffers: &mut BufferStore, kind: Kind, index: u16, offset: u32, bytes: &[u8])
    ensures { buffers.new ≡ buffer_updated (Some (kind_seen kind)) index offset (Some bytes.now) buffers.old }
{
    if fits(buffers, kind, index, offset, bytes) {
        let _ = buffers.update(kind, index, offset, bytes);
    }
}

/// Replaces bytes of a buffer by a payload.
pub(crate) fn update_buffer(
    buffers: &mut BufferStore,
    payloads: &[Vec<u8>],
    kind: Option<Kind>,
    index: u16,
    offset: u32,
    payload: u32,
)
    ensures { buffers.new ≡ buffer_updated (option_map kind_seen kind) index offset (slice_get (payloads_seen payloads.now) payload) buffers.old }
{
    match (kind, payload_at(payloads, payload)) {
        (Some(kind), Some(bytes)) => write_bytes(buffers, kind, index, offset, bytes),
        _ => {}
    }
}

// The vertices and indices that a draw reads.
ghost use Rattle.std.specs.Prelude.{◌≡◌, ◌≤◌, ◌+◌, ◌/◌, [], length, option_map, unwrap_or};
ghost use Rattle.gfx_model.specs.Vertex.{fetch, index_at};
ghost use Rattle.vertex_layout.specs.Seen.{vertex_seen};
ghost use Rattle.store_model.specs.Slots.{at};
ghost use Rattle.store_laws.specs.ByIndex.{vertices_at, indices_at, stored_at, transient_by};
ghost use Rattle.draw_encoder.specs.Seen.{part, vertices_seen, indices_seen};
ghost use Rattle.view_drawing.specs.Ranges.{vertex_range_seen, index_range_seen};

use buffer_store::BufferStore;
use draw_encoder::{IndexSet, VertexSet};
use gfx_words::Kind;
use vertex_layout::{Vertex, VertexLayout};

/// As many vertices of the bytes from a first one on.
#[derive(Clone, Copy)]
pub(crate) struct VertexRange<'x> {
    pub(crate) layout: &'x VertexLayout,
    pub(crate) bytes: &'x [u8],
    pub(crate) first: u32,
    pub(crate) count: u32,
}

/// As many indices of the bytes, two bytes each, from a first one on.
#[derive(Clone, Copy)]
pub(crate) struct IndexRange<'x> {
    pub(crate) bytes: &'x [u8],
    pub(crate) first: u32,
    pub(crate) count: u32,
}

/// A part of the bytes: as many as there are from a place on, up to a number.
fn part_of(bytes: &[u8], at: u32, count: u32) -> &[u8]
    ensures part { result.now ≡ part bytes.now at count }
    ensures few { length result.now ≤ 4294967295 }
{
    let rest = &bytes[(at as usize).min(bytes.len())..];
    &rest[..(count as usize).min(rest.len())]
}

/// How many vertices of a layout the bytes hold.
fn vertex_count(layout: &VertexLayout, bytes: &[u8]) -> u32
    requires { length bytes.now ≤ 4294967295 }
    ensures { result ≡ length bytes.now / layout.now.stride }
{
    let _attributes = layout.attributes();
    (bytes.len() / usize::from(layout.stride())) as u32
}

fn stored_vertices(
    buffers: &BufferStore,
    index: u16,
    first: u32,
    count: u32,
) -> Option<VertexRange<'_>>
    ensures { option_map vertex_range_seen result ≡ option_map (stored_at first count) (at buffers.now.vertices index) }
{
    match (
        buffers.layout_of(Kind::VertexBuffer, index),
        buffers.bytes_of(Kind::VertexBuffer, index),
    ) {
        (Some(layout), Some(bytes)) => Some(VertexRange {
            layout,
            bytes,
            first,
            count,
        }),
        _ => None,
    }
}

fn transient_vertices<'x>(
    buffers: &'x BufferStore,
    layout: u16,
    bytes: &'x [u8],
) -> Option<VertexRange<'x>>
    requires { length bytes.now ≤ 4294967295 }
    ensures { option_map vertex_range_seen result ≡ option_map (transient_by bytes.now) (at buffers.now.layouts layout) }
{
    match buffers.layout_of(Kind::Layout, layout) {
        Some(layout) => Some(VertexRange {
            layout,
            bytes,
            first: 0,
            count: vertex_count(layout, bytes),
        }),
        None => None,
    }
}

/// The vertices that a draw reads, where they are there. The bytes are those of its recording.
pub(crate) fn vertices_of<'x>(
    buffers: &'x BufferStore,
    recorded: &'x [u8],
    vertices: &VertexSet,
) -> Option<VertexRange<'x>>
    ensures { option_map vertex_range_seen result ≡ vertices_at buffers.now (vertices_seen recorded.now vertices.now) }
{
    match *vertices {
        VertexSet::Unset => None,
        VertexSet::Buffer {
            buffer,
            first,
            count,
        } => stored_vertices(buffers, buffer.index(), first, count),
        VertexSet::Transient { layout, at, length } => {
            transient_vertices(buffers, layout.index(), part_of(recorded, at, length))
        }
    }
}

/// The bytes of an index buffer; none where it is not there.
fn index_bytes(buffers: &BufferStore, index: u16) -> &[u8]
    ensures { result.now ≡ unwrap_or (at buffers.now.indices index) [] }
{
    match buffers.bytes_of(Kind::IndexBuffer, index) {
        Some(bytes) => bytes,
        None => &[],
    }
}

fn transient_indices(bytes: &[u8]) -> IndexRange<'_>
    requires { length bytes.now ≤ 4294967295 }
    ensures { index_range_seen result ≡ record { bytes = bytes.now; first = 0; count = length bytes.now / 2 } }
{
    IndexRange {
        bytes,
        first: 0,
        count: (bytes.len() / 2) as u32,
    }
}

/// The indices that a draw reads, if it reads any. The bytes are those of its recording.
pub(crate) fn indices_of<'x>(
    buffers: &'x BufferStore,
    recorded: &'x [u8],
    indices: &IndexSet,
) -> Option<IndexRange<'x>>
    ensures { option_map index_range_seen result ≡ indices_at buffers.now (indices_seen recorded.now indices.now) }
{
    match *indices {
        IndexSet::Unset => None,
        IndexSet::Buffer {
            buffer,
            first,
            count,
        } => Some(IndexRange {
            bytes: index_bytes(buffers, buffer.index()),
            first,
            count,
        }),
        IndexSet::Transient { at, length } => {
            Some(transient_indices(part_of(recorded, at, length)))
        }
    }
}

/// The vertex that is so many behind another. None exactly where its last byte lies past the end of the bytes.
fn vertex_behind(layout: &VertexLayout, bytes: &[u8], first: u32, number: u32) -> Option<Vertex>
    ensures { option_map vertex_seen result ≡ fetch layout.now bytes.now (first + number) }
{
    let from = first as usize * layout.stride() as usize;
    if from > bytes.len() {
        return None;
    }
    layout.fetch(&bytes[from..], number)
}

/// The vertex of a range for a number, counted from its first one.
pub(crate) fn vertex_of(range: &VertexRange<'_>, number: u32) -> Option<Vertex>
    ensures { option_map vertex_seen result ≡ fetch range.now.layout.now range.now.bytes.now (range.now.first + number) }
{
    vertex_behind(range.layout, range.bytes, range.first, number)
}

/// The index at a place of the bytes. None exactly where its last byte lies past their end.
pub(crate) fn index_in(bytes: &[u8], first: u32, number: u32) -> Option<u32>
    ensures { result ≡ index_at bytes.now (first + number) }
{
    let at = 2 * (first as usize + number as usize);
    if at + 2 > bytes.len() {
        return None;
    }
    Some(bytes[at] as u32 + 256 * bytes[at + 1] as u32)
}

// A vertex buffer.
ghost use Rattle.std.specs.Prelude.{◌≡◌, ◌+◌, ◌≤◌, length, IfSome};
ghost use Rattle.store_model.specs.Slots.{at, changed_at};
ghost use Rattle.store_model.specs.Buffers.{new_vertices, with_new_bytes};

use crate::bytes::Bytes;
use slot_row::Row;
use std::marker::Model;
use vertex_layout::VertexLayout;

/// Bytes and a copy of the layout that they were made for.
#[derive(Drop)]
pub(crate) struct VertexBuffer {
    layout: VertexLayout,
    bytes: Bytes,
}

impl Model for VertexBuffer {
    ghost use Rattle.store_model.specs.Buffers.{VertexSlot};

    ghost Value = { VertexSlot };

    ghost view = { λ s. record { layout = s.layout; bytes = s.bytes } };
}

impl VertexBuffer {
    pub(crate) fn new(layout: VertexLayout, bytes: Vec<u8>) -> VertexBuffer
        ensures { result ≡ new_vertices layout bytes.items }
    {
        VertexBuffer {
            layout,
            bytes: Bytes::from_vec(bytes),
        }
    }

    pub(crate) fn layout(&self) -> &VertexLayout
        ensures { result.now ≡ self.now.layout }
    {
        &self.layout
    }

    pub(crate) fn as_slice(&self) -> &[u8]
        ensures { result.now ≡ self.now.bytes }
    {
        self.bytes.as_slice()
    }

    pub(crate) fn write(&mut self, offset: usize, new: &[u8])
        requires { offset + length new.now ≤ length self.old.bytes }
        ensures { self.new ≡ with_new_bytes offset new.now self.old }
    {
        self.bytes.write(offset, new);
    }
}

/// Replaces some of the bytes of the vertex buffer at an index, from a place on.
pub(crate) fn write_vertices(
    vertices: &mut Row<VertexBuffer>,
    index: u16,
    offset: usize,
    new: &[u8],
)
    requires { IfSome (at vertices.old index) (λ slot. offset + length new.now ≤ length slot.bytes) }
    ensures { vertices.new ≡ changed_at (with_new_bytes offset new.now) index vertices.old }
{
    if let Some(mut buffer) = vertices.take(index) {
        buffer.write(offset, new);
        vertices.put(index, buffer);
    }
}

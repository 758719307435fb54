// The store.
ghost use Rattle.std.specs.Prelude.{◌≡◌, ◌+◌, ◌<◌, ◌≤◌, length, false, Some, None, IfOk, IfSome, IsSome, nat_lt, MatchOption, MatchResult, option_map};
ghost use Rattle.gfx_model.specs.Words.{layout_kind, vertex_buffer_kind, index_buffer_kind, uniform_kind, greatest};
ghost use Rattle.gfx_model.specs.Resources.{bad_range};
ghost use Rattle.gfx_words.specs.Seen.{kind_seen, uniform_seen, value_seen, refusal_seen};
ghost use Rattle.store_model.specs.Slots.{at, filled_at, changed_at};
ghost use Rattle.store_model.specs.Buffers.{no_buffers, bytes_at, layout_at, updated as updated_by, destroyed, new_vertices, new_uniform, with_slot_value, IsBuffers, IsNewest, HasNoneNamed, has_thing};

use crate::bytes::{Bytes, write_indices};
use crate::uniform::{Uniform, Uniforms};
use crate::vertices::{VertexBuffer, write_vertices};
use gfx_words::{Kind, Refusal, UniformKind, UniformValue};
use slot_row::Row;
use std::alloc::{AllocError, Global};
use std::marker::Model;
use vertex_layout::VertexLayout;

/// Layouts, vertex buffers, index buffers and uniforms by index. Only `new` takes memory.
#[derive(Drop)]
pub struct BufferStore {
    layouts: Row<VertexLayout>,
    vertices: Row<VertexBuffer>,
    indices: Row<Bytes>,
    uniforms: Uniforms,
}

impl Model for BufferStore {
    ghost use Rattle.store_model.specs.Buffers.{Buffers};

    ghost Value = { Buffers };

    ghost use Rattle.buffer_store.specs.Inside.{view_of, IsInside};

    ghost view = { view_of };

    ghost invariant = { IsInside };
}

impl BufferStore {
    /// Makes the room for all indices.
    pub fn new(alloc: Global) -> Result<BufferStore, AllocError>
        ensures { IfOk result (λ store. store ≡ no_buffers) }
    {
        Ok(BufferStore {
            layouts: Row::new(alloc, Kind::Layout.greatest())?,
            vertices: Row::new(alloc, Kind::VertexBuffer.greatest())?,
            indices: Row::new(alloc, Kind::IndexBuffer.greatest())?,
            uniforms: Uniforms::new(alloc)?,
        })
    }

    /// Does nothing. It tells how many slots the store has for each kind.
    pub fn tell_facts(&self)
        ensures { IsBuffers self.now }
    {
        let _ = &self.layouts;
    }

    /// Makes a layout. The index is below 64 and has no layout.
    pub fn create_layout(&mut self, index: u16, layout: VertexLayout)
        requires below { index < greatest layout_kind }
        requires free { at self.old.layouts index ≡ None }
        ensures { self.new ≡ record self.old { layouts = filled_at index layout self.old.layouts } }
    {
        self.layouts.put(index, layout);
    }

    /// Makes a vertex buffer, which keeps a copy of its layout. The index is below 1,024 and has no vertex buffer;
    /// the layout is there.
    pub fn create_vertices(&mut self, index: u16, layout: u16, bytes: Vec<u8>)
        requires below { index < greatest vertex_buffer_kind }
        requires free { at self.old.vertices index ≡ None }
        requires there { IsSome (at self.old.layouts layout) }
        ensures { IfSome (at self.old.layouts layout) (λ l. self.new ≡ record self.old { vertices = filled_at index (new_vertices l bytes.items) self.old.vertices }) }
    {
        if let Some(layout) = self.layouts.get(layout) {
            let buffer = VertexBuffer::new(*layout, bytes);
            self.vertices.put(index, buffer);
        }
    }

    /// Makes an index buffer. The index is below 1,024 and has no index buffer.
    pub fn create_indices(&mut self, index: u16, bytes: Vec<u8>)
        requires below { index < greatest index_buffer_kind }
        requires free { at self.old.indices index ≡ None }
        ensures { self.new ≡ record self.old { indices = filled_at index bytes.items self.old.indices } }
    {
        self.indices.put(index, Bytes::from_vec(bytes));
    }

    /// Makes a uniform with zeros. The index is below 256 and has no uniform.
    pub fn create_uniform(&mut self, index: u16, serial: u32, kind: UniformKind, name: Vec<u8>)
        requires below { index < greatest uniform_kind }
        requires free { at self.old.uniforms index ≡ None }
        ensures { self.new ≡ record self.old { uniforms = filled_at index (new_uniform serial (uniform_seen kind) name.items) self.old.uniforms } }
    {
        self.uniforms.put(index, Uniform::new(serial, kind, name));
    }

    /// Replaces bytes of a buffer that is there. `BadRange` exactly where the offset plus the length passes the
    /// buffer's end.
    pub fn update(
        &mut self,
        kind: Kind,
        index: u16,
        offset: u32,
        bytes: &[u8],
    ) -> Result<(), Refusal>
        requires { IsSome (bytes_at self.old (kind_seen kind) index) }
        ensures { IfSome (bytes_at self.old (kind_seen kind) index) (λ held. MatchResult result
            (λ _. (offset + length bytes.now ≤ length held) × (self.new ≡ updated_by (kind_seen kind) index offset bytes.now self.old))
            (λ refusal. (length held < offset + length bytes.now) × (refusal_seen refusal ≡ Some bad_range) × (self.new ≡ self.old))) }
    {
        if self.passes_end(kind, index, offset, bytes) {
            return Err(Refusal::BadRange);
        }
        self.write(kind, index, offset, bytes);
        Ok(())
    }

    fn passes_end(&self, kind: Kind, index: u16, offset: u32, bytes: &[u8]) -> bool
        ensures { IfSome (bytes_at self.now (kind_seen kind) index) (λ held. result ≡ nat_lt (length held) (offset + length bytes.now)) }
    {
        match self.bytes_of(kind, index) {
            Some(held) => held.len() < offset as usize + bytes.len(),
            None => true,
        }
    }

    fn write(&mut self, kind: Kind, index: u16, offset: u32, bytes: &[u8])
        requires { IfSome (bytes_at self.old (kind_seen kind) index) (λ held. offset + length bytes.now ≤ length held) }
        ensures { self.new ≡ updated_by (kind_seen kind) index offset bytes.now self.old }
    {
        match kind {
            Kind::VertexBuffer => write_vertices(&mut self.vertices, index, offset as usize, bytes),
            Kind::IndexBuffer => write_indices(&mut self.indices, index, offset as usize, bytes),
            _ => {}
        }
    }

    /// Takes a thing out. Where it is not there, nothing changes.
    pub fn destroy(&mut self, kind: Kind, index: u16)
        ensures taken { self.new ≡ destroyed (kind_seen kind) index self.old }
        ensures nothing { has_thing (kind_seen kind) index self.old ≡ false → self.new ≡ self.old }
    {
        self.take(kind, index);
    }

    fn take(&mut self, kind: Kind, index: u16)
        ensures { self.new ≡ destroyed (kind_seen kind) index self.old }
    {
        match kind {
            Kind::Layout => {
                let _ = self.layouts.take(index);
            }
            Kind::VertexBuffer => {
                let _ = self.vertices.take(index);
            }
            Kind::IndexBuffer => {
                let _ = self.indices.take(index);
            }
            Kind::Uniform => {
                self.uniforms.remove(index);
            }
            _ => {}
        }
    }

    /// The bytes of a buffer. None exactly where it is not there, and for kinds that are no buffers.
    pub fn bytes_of(&self, kind: Kind, index: u16) -> Option<&[u8]>
        ensures { option_map (λ bytes. bytes.now) result ≡ bytes_at self.now (kind_seen kind) index }
    {
        match kind {
            Kind::VertexBuffer => match self.vertices.get(index) {
                Some(buffer) => Some(buffer.as_slice()),
                None => None,
            },
            Kind::IndexBuffer => match self.indices.get(index) {
                Some(buffer) => Some(buffer.as_slice()),
                None => None,
            },
            _ => None,
        }
    }

    /// A layout, or the copy that a vertex buffer keeps. None exactly where the thing is not there, and for other kinds.
    pub fn layout_of(&self, kind: Kind, index: u16) -> Option<&VertexLayout>
        ensures { option_map (λ layout. layout.now) result ≡ layout_at self.now (kind_seen kind) index }
    {
        match kind {
            Kind::Layout => self.layouts.get(index),
            Kind::VertexBuffer => match self.vertices.get(index) {
                Some(buffer) => Some(buffer.layout()),
                None => None,
            },
            _ => None,
        }
    }

    /// Gives a uniform a value. Where it is not there, nothing changes.
    pub fn set_uniform(&mut self, index: u16, value: UniformValue)
        ensures set { self.new ≡ record self.old { uniforms = changed_at (with_slot_value (value_seen value)) index self.old.uniforms } }
        ensures nothing { at self.old.uniforms index ≡ None → self.new ≡ self.old }
    {
        self.uniforms.set(index, value);
    }

    /// The value of a uniform. None exactly where it is not there.
    pub fn value_of(&self, index: u16) -> Option<UniformValue>
        ensures { option_map value_seen result ≡ option_map (λ slot. slot.value) (at self.now.uniforms index) }
    {
        match self.uniforms.get(index) {
            Some(uniform) => Some(uniform.value()),
            None => None,
        }
    }

    /// The uniform of a name and a kind with the greatest serial; where two have one serial, the one with the greater
    /// index. None exactly where no uniform has that name and that kind.
    pub fn newest_named(&self, name: &[u8], kind: UniformKind) -> Option<u16>
        ensures { MatchOption result (HasNoneNamed name.now (uniform_seen kind) self.now.uniforms) (λ index. IsNewest name.now (uniform_seen kind) self.now.uniforms index) }
    {
        self.uniforms.newest(name, kind)
    }
}

// What an encoder records, as plain data.
use crate::lists::{Bytes, Items, UniformSets};
use fix_math::{Affine, Rect};
use gfx_words::{Handle, StateWord, StencilWord, UniformValue};

/// The vertices of a draw: none, some of a vertex buffer, or a range of the recording's transient bytes.
#[derive(Clone, Copy, Drop, PartialEq, Eq, Debug)]
pub enum VertexSet {
    Unset,
    Buffer {
        buffer: Handle,
        first: u32,
        count: u32,
    },
    Transient {
        layout: Handle,
        at: u32,
        length: u32,
    },
}

/// The indices of a draw: none, some of an index buffer, or a range of the recording's transient bytes.
#[derive(Clone, Copy, Drop, PartialEq, Eq, Debug)]
pub enum IndexSet {
    Unset,
    Buffer {
        buffer: Handle,
        first: u32,
        count: u32,
    },
    Transient {
        at: u32,
        length: u32,
    },
}

/// A value for a uniform.
#[derive(Clone, Copy, Drop, PartialEq, Eq, Debug)]
pub struct UniformSet {
    pub uniform: Handle,
    pub value: UniformValue,
}

/// A draw with all its state. Its uniform values are a range of the recording's.
#[derive(Clone, Copy, Drop, PartialEq, Eq, Debug)]
pub struct DrawItem {
    pub view: u16,
    pub number: u64,
    pub program: Handle,
    pub depth: u32,
    pub state: StateWord,
    pub front: StencilWord,
    pub back: StencilWord,
    pub scissor: Rect,
    pub model: Affine,
    pub vertices: VertexSet,
    pub indices: IndexSet,
    pub textures: [Option<Handle>; 2],
    pub values_at: u32,
    pub values: u32,
}

/// An empty primitive, which enters its view. Its uniform values are a range of the recording's.
#[derive(Clone, Copy, Drop, PartialEq, Eq, Debug)]
pub struct TouchItem {
    pub view: u16,
    pub number: u64,
    pub values_at: u32,
    pub values: u32,
}

/// A region to be copied from a texture to a place of another, in texels.
#[derive(Clone, Copy, Drop, PartialEq, Eq, Debug)]
pub struct BlitCall {
    pub dst: Handle,
    pub dx: u16,
    pub dy: u16,
    pub src: Handle,
    pub sx: u16,
    pub sy: u16,
    pub w: u16,
    pub h: u16,
}

/// A copy between textures.
#[derive(Clone, Copy, Drop, PartialEq, Eq, Debug)]
pub struct BlitItem {
    pub view: u16,
    pub number: u64,
    pub copy: BlitCall,
}

/// What an encoder put down.
#[derive(Clone, Copy, Drop, PartialEq, Eq, Debug)]
pub enum Item {
    Draw(DrawItem),
    Touch(TouchItem),
    Blit(BlitItem),
}

/// What one encoder recorded in a frame: its items in order, its transient bytes, its uniform values,
/// and the number that was handed to `end`.
#[derive(Drop)]
pub struct Recording {
    pub encoder: u8,
    pub frame: u32,
    pub items: Items,
    pub bytes: Bytes,
    pub uniforms: UniformSets,
    pub dropped: u32,
}

// Stores of layouts, buffers and uniforms, with values from outside.
use buffer_store::BufferStore;
use gfx_words::{Kind, Refusal, UniformKind, UniformValue};
use std::alloc::{AllocError, Global};
use std::test::Fail;
use vertex_layout::{Attr, AttrType, LayoutBuilder, VertexLayout};

fn bytes(alloc: Global, count: usize, byte: u8) -> Result<Vec<u8>, AllocError> {
    vec![in alloc; byte; count]
}

fn layout(count: u8) -> Option<VertexLayout> {
    let mut builder = LayoutBuilder::new();
    builder.add(Attr::Position, AttrType::Fixed, count);
    match builder.end() {
        Ok(it) => Some(it),
        Err(_) => None,
    }
}

fn stride_of(store: &BufferStore, kind: Kind, index: u16) -> Option<u8> {
    let layout = store.layout_of(kind, index)?;
    Some(layout.stride())
}

// Each call where its conditions hold; the answer tells whether they did.
fn put_layout(store: &mut BufferStore, index: u16, layout: VertexLayout) -> bool {
    if index >= 64 || store.layout_of(Kind::Layout, index).is_some() {
        return false;
    }
    store.create_layout(index, layout);
    true
}

fn put_vertices(store: &mut BufferStore, index: u16, layout: u16, bytes: Vec<u8>) -> bool {
    if index >= 1024 || store.layout_of(Kind::VertexBuffer, index).is_some() {
        return false;
    }
    if store.layout_of(Kind::Layout, layout).is_none() {
        return false;
    }
    store.create_vertices(index, layout, bytes);
    true
}

fn put_indices(store: &mut BufferStore, index: u16, bytes: Vec<u8>) -> bool {
    if index >= 1024 || store.bytes_of(Kind::IndexBuffer, index).is_some() {
        return false;
    }
    store.create_indices(index, bytes);
    true
}

fn put_uniform(
    store: &mut BufferStore,
    index: u16,
    serial: u32,
    kind: UniformKind,
    name: Vec<u8>,
) -> bool {
    if index >= 256 || store.value_of(index).is_some() {
        return false;
    }
    store.create_uniform(index, serial, kind, name);
    true
}

fn update(
    store: &mut BufferStore,
    kind: Kind,
    index: u16,
    offset: u32,
    bytes: &[u8],
) -> Option<Refusal> {
    if store.bytes_of(kind, index).is_none() {
        return Some(Refusal::Full);
    }
    match store.update(kind, index, offset, bytes) {
        Ok(()) => None,
        Err(refusal) => Some(refusal),
    }
}

fn holds(store: &BufferStore, kind: Kind, index: u16, bytes: &[u8]) -> bool {
    match store.bytes_of(kind, index) {
        Some(held) => held == bytes,
        None => false,
    }
}

// A layout, where there is one, and a vertex buffer of it are made: whether they are, and the layout's stride.
fn layout_and_buffer(store: &mut BufferStore, held: Vec<u8>) -> ([bool; 2], Option<u8>) {
    let made = match layout(2) {
        Some(layout) => put_layout(store, 63, layout),
        None => true,
    };
    let stride = stride_of(store, Kind::Layout, 63);
    ([made, put_vertices(store, 1023, 63, held)], stride)
}

// The layout is destroyed: the strides of the layout, of the vertex buffer and of an index buffer; whether the vertex buffer has its bytes,
// and a uniform none; and its stride when it is destroyed too.
fn layout_gone(store: &mut BufferStore) -> ([Option<u8>; 3], [bool; 2], Option<u8>) {
    store.destroy(Kind::Layout, 63);
    let strides = [
        stride_of(store, Kind::Layout, 63),
        stride_of(store, Kind::VertexBuffer, 1023),
        stride_of(store, Kind::IndexBuffer, 1023),
    ];
    let held = holds(store, Kind::VertexBuffer, 1023, &[7; 24]);
    let none = store.bytes_of(Kind::Uniform, 255).is_none();
    store.destroy(Kind::VertexBuffer, 1023);
    (
        strides,
        [held, none],
        stride_of(store, Kind::VertexBuffer, 1023),
    )
}

#[test]
fn a_vertex_buffer_keeps_its_layout(rt: HostRuntime) -> Result<(), Fail> {
    let held = bytes(rt.alloc(), 24, 7)?;
    let mut store = BufferStore::new(rt.alloc())?;
    let made = layout_and_buffer(&mut store, held);
    let left = layout_gone(&mut store);
    drop(store);
    assert!(rt; made == ([true; 2], Some(8)));
    assert!(rt; left == ([None, Some(8), None], [true; 2], None));
    Ok(())
}

// Whether an index buffer of zeros is made and has them, and what updates answer: of all but one byte past the end, of the last byte, far
// past the end, of none at the end, and of all.
type Largest = ([bool; 2], [Option<Refusal>; 5]);

fn largest(alloc: Global, store: &mut BufferStore) -> Result<Largest, AllocError> {
    let held = bytes(alloc, 524_288, 0)?;
    let zeros = bytes(alloc, 524_288, 0)?;
    let ones = bytes(alloc, 524_288, 1)?;
    let made = put_indices(store, 5, held);
    let zero = holds(store, Kind::IndexBuffer, 5, &zeros);
    let answers = [
        update(store, Kind::IndexBuffer, 5, 1, &ones),
        update(store, Kind::IndexBuffer, 5, 524_287, &[1]),
        update(store, Kind::IndexBuffer, 5, u32::MAX, &[]),
        update(store, Kind::IndexBuffer, 5, 524_288, &[]),
        update(store, Kind::IndexBuffer, 5, 0, &ones),
    ];
    Ok(([made, zero], answers))
}

#[test]
fn updates_at_the_greatest_size(rt: HostRuntime) -> Result<(), Fail> {
    let mut store = BufferStore::new(rt.alloc())?;
    let told = largest(rt.alloc(), &mut store);
    drop(store);
    let bad_range = Some(Refusal::BadRange);
    assert!(rt; told? == ([true; 2], [bad_range, None, bad_range, None, None]));
    Ok(())
}

// Whether an index buffer is made, what two updates answer, and whether it has the bytes of the first one behind each.
fn replaced(store: &mut BufferStore, held: Vec<u8>) -> (bool, [Option<Refusal>; 2], [bool; 2]) {
    let made = put_indices(store, 0, held);
    let within = update(store, Kind::IndexBuffer, 0, 2, &[1, 2, 3]);
    let written = holds(store, Kind::IndexBuffer, 0, &[9, 9, 1, 2, 3, 9]);
    let past = update(store, Kind::IndexBuffer, 0, 4, &[1, 2, 3]);
    let kept = holds(store, Kind::IndexBuffer, 0, &[9, 9, 1, 2, 3, 9]);
    (made, [within, past], [written, kept])
}

#[test]
fn some_bytes_replaced(rt: HostRuntime) -> Result<(), Fail> {
    let held = bytes(rt.alloc(), 6, 9)?;
    let mut store = BufferStore::new(rt.alloc())?;
    let told = replaced(&mut store, held);
    drop(store);
    assert!(rt; told == (true, [None, Some(Refusal::BadRange)], [true; 2]));
    Ok(())
}

fn name(alloc: Global, text: &[u8]) -> Result<Vec<u8>, AllocError> {
    let mut bytes = Vec::new(alloc);
    bytes.extend_from_slice(text)?;
    Ok(bytes)
}

// A vector of a name is made: whether it is.
fn vector(
    alloc: Global,
    store: &mut BufferStore,
    index: u16,
    serial: u32,
    text: &[u8],
) -> Result<bool, AllocError> {
    let name = name(alloc, text)?;
    Ok(put_uniform(store, index, serial, UniformKind::Vec4, name))
}

// Three vectors and a number: whether each is made.
fn named(alloc: Global, store: &mut BufferStore) -> Result<[bool; 4], AllocError> {
    let first = vector(alloc, store, 7, 30, b"u_color")?;
    let second = vector(alloc, store, 200, 20, b"u_color")?;
    let third = vector(alloc, store, 3, 40, b"u_colour")?;
    let number = name(alloc, b"u_color")?;
    let fourth = put_uniform(store, 255, 50, UniformKind::Int, number);
    Ok([first, second, third, fourth])
}

// The index of the newest vector of a name, and of the newest number of it.
fn newest(store: &BufferStore) -> [Option<u16>; 2] {
    [
        store.newest_named(b"u_color", UniformKind::Vec4),
        store.newest_named(b"u_color", UniformKind::Int),
    ]
}

// The values of the number, of the first vector when it is set, and when it is destroyed; and the newest vector then.
fn values(store: &mut BufferStore) -> ([Option<UniformValue>; 3], Option<u16>) {
    let number = store.value_of(255);
    store.set_uniform(7, UniformValue::Vec4([1, -2, 3, -4]));
    let set = store.value_of(7);
    store.destroy(Kind::Uniform, 7);
    ([number, set, store.value_of(7)], newest(store)[0])
}

#[test]
fn the_newest_of_a_name_and_a_kind(rt: HostRuntime) -> Result<(), Fail> {
    let mut store = BufferStore::new(rt.alloc())?;
    let before = newest(&store)[0];
    let made = named(rt.alloc(), &mut store);
    let found = newest(&store);
    let left = values(&mut store);
    drop(store);
    let number = Some(UniformValue::Int(0));
    let set = Some(UniformValue::Vec4([1, -2, 3, -4]));
    assert!(rt; (before, found) == (None, [Some(7), Some(255)]) && made? == [true; 4]);
    assert!(rt; left == ([number, set, None], Some(200)));
    Ok(())
}

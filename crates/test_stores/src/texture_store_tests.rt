// Textures, frame buffers and blits with values from outside.
use fix_math::{Rect, Texels};
use gfx_words::{Format, Refusal, TexSource};
use std::alloc::{AllocError, Global};
use std::test::Fail;
use texture_store::{BlitBox, TexelSource, TextureStore};

// Each call where its conditions hold; the answer tells what it was refused for.
fn put(
    store: &mut TextureStore,
    index: u16,
    width: u16,
    height: u16,
    format: Format,
    source: TexSource,
) -> Option<Refusal> {
    let lent = match &source {
        TexSource::Fill(color) => TexelSource::Fill(*color),
        TexSource::Bytes(bytes) => TexelSource::Bytes(bytes),
    };
    put_lent(store, index, width, height, format, lent)
}

fn put_lent(
    store: &mut TextureStore,
    index: u16,
    width: u16,
    height: u16,
    format: Format,
    source: TexelSource<'_>,
) -> Option<Refusal> {
    if index >= 1024 || store.has_texture(index) {
        return Some(Refusal::Full);
    }
    match store.create(index, width, height, format, source) {
        Ok(()) => None,
        Err(refusal) => Some(refusal),
    }
}

fn attach(store: &mut TextureStore, index: u16, color: u16, depth: Option<u16>) -> Option<Refusal> {
    if index >= 128 || store.has_target(index) {
        return Some(Refusal::Full);
    }
    match store.attach(index, color, depth) {
        Ok(()) => None,
        Err(refusal) => Some(refusal),
    }
}

fn update(store: &mut TextureStore, index: u16, rect: Rect, bytes: &[u8]) -> Option<Refusal> {
    if store.texels_of(index).is_none() {
        return Some(Refusal::Full);
    }
    match store.update(index, rect, bytes) {
        Ok(()) => None,
        Err(refusal) => Some(refusal),
    }
}

// Takes a target out and puts it back.
fn through(store: &mut TextureStore, index: u16) -> Option<u16> {
    let (color, depth) = store.take_target(index)?;
    let width = color.width;
    let missing = store.take_target(index).is_none();
    if missing {
        store.put_target(index, color, depth);
    }
    Some(width)
}

// Whether the first bytes of a texture's texels are these.
fn reds(store: &TextureStore, index: u16, reds: &[u8]) -> bool {
    match store.texels_of(index) {
        Some(texels) => same_reds(texels, reds),
        None => false,
    }
}

fn same_reds(texels: &Texels, reds: &[u8]) -> bool {
    let list = texels.texels.as_slice();
    if list.len() != reds.len() {
        return false;
    }
    for i in 0..list.len() {
        if list[i][0] != reds[i] {
            return false;
        }
    }
    true
}

// Texels whose first bytes are 1, 2 and so on.
fn counted(alloc: Global, count: u8) -> Result<Vec<u8>, AllocError> {
    let mut bytes = Vec::new(alloc);
    for i in 0..count {
        bytes.extend_from_slice(&[i, 0, 0, 255])?;
    }
    Ok(bytes)
}

// A texture of 3 by 3 texels with the first bytes 0 to 8, and a copy within it, from a place to a place: whether the first bytes are these then.
fn within(
    alloc: Global,
    to: (u16, u16),
    from: (u16, u16),
    expected: &[u8],
) -> Result<bool, AllocError> {
    let bytes = counted(alloc, 9)?;
    let mut store = TextureStore::new(alloc)?;
    let made = put(&mut store, 7, 3, 3, Format::Rgba8, TexSource::Bytes(bytes)).is_none();
    let copied = store.blit(BlitBox {
        dst: 7,
        dx: to.0,
        dy: to.1,
        src: 7,
        sx: from.0,
        sy: from.1,
        w: 9,
        h: 9,
    });
    let same = reds(&store, 7, expected);
    drop(store);
    copied?;
    Ok(made && same)
}

#[test]
fn blits_over_themselves(rt: HostRuntime) -> Result<(), Fail> {
    for (to, from, expected) in [
        ((1, 0), (0, 0), [0, 0, 1, 3, 3, 4, 6, 6, 7]),
        ((0, 0), (1, 0), [1, 2, 2, 4, 5, 5, 7, 8, 8]),
        ((0, 1), (0, 0), [0, 1, 2, 0, 1, 2, 3, 4, 5]),
        ((0, 0), (0, 1), [3, 4, 5, 6, 7, 8, 6, 7, 8]),
        ((3, 0), (0, 0), [0, 1, 2, 3, 4, 5, 6, 7, 8]),
    ] {
        assert!(rt; within(rt.alloc(), to, from, &expected)?, "{to:?} {from:?}");
    }
    Ok(())
}

// What the creates of two textures answer, and whether both have their texels behind a copy from one to the other.
type Copied = ([Option<Refusal>; 2], [bool; 2]);

fn between(alloc: Global, store: &mut TextureStore) -> Result<Copied, AllocError> {
    let bytes = counted(alloc, 9)?;
    let lent = TexelSource::Bytes(&bytes);
    let first = put_lent(store, 0, 3, 3, Format::Rgba8, lent);
    let second = put(store, 1, 2, 2, Format::Rgba8, TexSource::Fill([9; 4]));
    store.blit(BlitBox {
        dst: 1,
        dx: 1,
        dy: 0,
        src: 0,
        sx: 1,
        sy: 1,
        w: 5,
        h: 5,
    })?;
    let copied = reds(store, 1, &[9, 4, 9, 7]);
    let kept = reds(store, 0, &[0, 1, 2, 3, 4, 5, 6, 7, 8]);
    Ok(([first, second], [copied, kept]))
}

#[test]
fn blits_between_two(rt: HostRuntime) -> Result<(), Fail> {
    let mut store = TextureStore::new(rt.alloc())?;
    let told = between(rt.alloc(), &mut store);
    drop(store);
    assert!(rt; told? == ([None; 2], [true; 2]));
    Ok(())
}

// What creates answer of sides that are too long and none, of too few bytes, and of the longest sides; and two samples.
type Made = ([Option<Refusal>; 4], [[u8; 4]; 2]);

fn created(alloc: Global, store: &mut TextureStore) -> Result<Made, AllocError> {
    let three = counted(alloc, 3)?;
    let black = TexSource::Fill([0; 4]);
    let long = put(store, 0, 2049, 1, Format::Rgba8, black);
    let none = put(store, 0, 1, 0, Format::Rgba8, TexSource::Fill([0; 4]));
    let few = put(store, 0, 2, 2, Format::Rgba8, TexSource::Bytes(three));
    let red = TexSource::Fill([9, 0, 0, 255]);
    let longest = put(store, 1023, 2048, 2048, Format::Rgba8, red);
    let samples = [store.sample(1023, -1, 65536), store.sample(0, 0, 0)];
    Ok(([long, none, few, longest], samples))
}

#[test]
fn creates_and_their_limits(rt: HostRuntime) -> Result<(), Fail> {
    let mut store = TextureStore::new(rt.alloc())?;
    let told = created(rt.alloc(), &mut store);
    drop(store);
    let bad_size = Some(Refusal::BadSize);
    let answers = [bad_size, bad_size, bad_size, None];
    assert!(rt; told? == (answers, [[9, 0, 0, 255], [0; 4]]));
    Ok(())
}

fn rect(x: u16, y: u16, w: u16, h: u16) -> Rect {
    Rect { x, y, w, h }
}

// What a create answers, and updates of a rectangle, of two that pass the end, of another number of bytes and of no texel; and whether the
// texels are those of the first one behind it and behind all.
type Updated = ([Option<Refusal>; 6], [bool; 2]);

fn updated(alloc: Global, store: &mut TextureStore) -> Result<Updated, AllocError> {
    let bytes = counted(alloc, 4)?;
    let fill = TexSource::Fill([9, 9, 9, 9]);
    let made = put(store, 3, 3, 2, Format::Rgba8, fill);
    let whole = update(store, 3, rect(1, 0, 2, 2), &bytes);
    let written = reds(store, 3, &[9, 0, 1, 9, 2, 3]);
    let right = update(store, 3, rect(2, 0, 2, 2), &bytes);
    let below = update(store, 3, rect(0, 1, 2, 2), &bytes);
    let few = update(store, 3, rect(0, 0, 3, 2), &bytes);
    let none = update(store, 3, rect(3, 2, 0, 0), &[]);
    let kept = reds(store, 3, &[9, 0, 1, 9, 2, 3]);
    Ok(([made, whole, right, below, few, none], [written, kept]))
}

#[test]
fn updates_of_rectangles(rt: HostRuntime) -> Result<(), Fail> {
    let mut store = TextureStore::new(rt.alloc())?;
    let told = updated(rt.alloc(), &mut store);
    drop(store);
    let bad_range = Some(Refusal::BadRange);
    let answers = [
        None,
        None,
        bad_range,
        bad_range,
        Some(Refusal::BadSize),
        None,
    ];
    assert!(rt; told? == (answers, [true; 2]));
    Ok(())
}

// What the creates of a colour and of depths of two sizes answer.
fn three_made(store: &mut TextureStore) -> [Option<Refusal>; 3] {
    let fill = TexSource::Fill([5, 0, 0, 255]);
    let depths = TexSource::Fill([7, 0, 0, 0]);
    let large = TexSource::Fill([0; 4]);
    [
        put(store, 1, 2, 1, Format::Rgba8, fill),
        put(store, 2, 2, 1, Format::D24S8, depths),
        put(store, 3, 2, 2, Format::D24S8, large),
    ]
}

// What the creates of targets answer with depths of another size, of depths alone, of both, and of the colour alone.
fn four_attached(store: &mut TextureStore) -> [Option<Refusal>; 4] {
    [
        attach(store, 0, 1, Some(3)),
        attach(store, 0, 2, None),
        attach(store, 0, 1, Some(2)),
        attach(store, 127, 1, None),
    ]
}

// The width of the first target, which is taken out and put back; whether its texels are as before; whether both targets are gone with
// their colour; and the width of the second one then.
fn out_and_back(store: &mut TextureStore) -> (Option<u16>, [bool; 4], Option<u16>) {
    let width = through(store, 0);
    let (colors, depths) = (reds(store, 1, &[5, 5]), reds(store, 2, &[7, 7]));
    store.destroy(1);
    let gone = (!store.has_target(0), !store.has_target(127));
    (width, [colors, depths, gone.0, gone.1], through(store, 127))
}

#[test]
fn targets_out_and_back(rt: HostRuntime) -> Result<(), Fail> {
    let mut store = TextureStore::new(rt.alloc())?;
    let made = three_made(&mut store);
    let attached = four_attached(&mut store);
    let out = out_and_back(&mut store);
    drop(store);
    let wrong_kind = Some(Refusal::WrongKind);
    let answers = ([None; 3], [wrong_kind, wrong_kind, None, None]);
    assert!(rt; (made, attached) == answers && out == (Some(2), [true; 4], None));
    Ok(())
}

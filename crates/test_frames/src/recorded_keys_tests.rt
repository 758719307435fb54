// The shared views of one frame's recordings, and their lines. The expected values are worked by hand.
use draw_encoder::{
    BlitCall, BlitItem, Bytes, DrawItem, IndexSet, Item, Items, Recording, TouchItem, UniformSet,
    UniformSets, VertexSet,
};
use fix_math::{Affine, Rect};
use gfx_words::{Handle, Info, Kind, StateWord, StencilWord, UniformKind, UniformValue, ViewMode};
use recorded_keys::recorded_views;
use shared_keys::{SharedView, push_lines};
use std::alloc::{AllocError, Global};
use std::test::Fail;
use view_table::ViewTable;

// The types that an item is made of.
type Parts = (
    DrawItem,
    VertexSet,
    IndexSet,
    Option<Handle>,
    TouchItem,
    BlitItem,
    BlitCall,
);

fn put(items: &mut Vec<Item>, item: Item) -> Result<(), AllocError> {
    // The check asks that the types of an item's parts are seen where it is stored.
    let _parts: Option<Parts> = None;
    items.push(item)?;
    Ok(())
}

fn draw(words: &Words, view: u16, depth: u32) -> Item {
    Item::Draw(DrawItem {
        view,
        number: 0,
        program: Handle::of(Kind::Program, 3, 1, Info::Plain),
        depth,
        state: words.state,
        front: words.stencil,
        back: words.stencil,
        scissor: Rect {
            x: 0,
            y: 0,
            w: 0,
            h: 0,
        },
        model: Affine::identity(),
        vertices: VertexSet::Unset,
        indices: IndexSet::Unset,
        textures: [None, None],
        values_at: 0,
        values: 0,
    })
}

fn touch(view: u16, values: u32) -> Item {
    Item::Touch(TouchItem {
        view,
        number: 0,
        values_at: 0,
        values,
    })
}

fn blit(view: u16) -> Item {
    let texture = Handle::of(Kind::Texture, 3, 2, Info::Plain);
    Item::Blit(BlitItem {
        view,
        number: 0,
        copy: BlitCall {
            dst: texture,
            dx: 0,
            dy: 0,
            src: texture,
            sx: 0,
            sy: 0,
            w: 1,
            h: 1,
        },
    })
}

fn recording(alloc: Global, encoder: u8, items: Vec<Item>) -> Result<Recording, AllocError> {
    let mut sets = Vec::new(alloc);
    let uniform = Handle::of(Kind::Uniform, 0, 3, Info::Uniform(UniformKind::Int));
    sets.push(UniformSet {
        uniform,
        value: UniformValue::Int(7),
    })?;
    Ok(Recording {
        encoder,
        frame: 0,
        items: Items::from_vec(items),
        bytes: Bytes::from_vec(Vec::new(alloc)),
        uniforms: UniformSets::from_vec(sets),
        dropped: 0,
    })
}

// A recording of these items.
fn recorded(alloc: Global, encoder: u8, items: &[Item]) -> Result<Recording, AllocError> {
    let mut all = Vec::new(alloc);
    for item in items {
        put(&mut all, *item)?;
    }
    recording(alloc, encoder, all)
}

// What each draw has.
#[derive(Clone, Copy, Drop)]
struct Words {
    state: StateWord,
    stencil: StencilWord,
}

// The recordings of three encoders.
fn three(alloc: Global, words: &Words) -> Result<Vec<Recording>, AllocError> {
    let first = [draw(words, 7, 5), touch(4, 0), draw(words, 9, 5)];
    let second = [draw(words, 3, 9), touch(4, 0), blit(0), draw(words, 9, 6)];
    let third = [blit(0), touch(3, 1), draw(words, 7, 5)];
    let mut recordings = Vec::new(alloc);
    recordings.push(recorded(alloc, 2, &third)?)?;
    recordings.push(recorded(alloc, 0, &first)?)?;
    recordings.push(recorded(alloc, 1, &second)?)?;
    Ok(recordings)
}

// Views of which the one of number 3 is Sequential.
fn views(alloc: Global) -> Result<ViewTable, Fail> {
    let mut views = ViewTable::new(alloc, 256)?;
    views.set_mode(3, ViewMode::Sequential).map_err(|_| "mode")?;
    Ok(views)
}

fn plain_words() -> Result<Words, Fail> {
    let state = StateWord::read(15).map_err(|_| "state")?;
    let stencil = StencilWord::read(0).map_err(|_| "stencil")?;
    Ok(Words { state, stencil })
}

// The shared views of the recordings.
fn shared(alloc: Global, words: &Words) -> Result<Vec<SharedView>, Fail> {
    let views = views(alloc)?;
    let recordings = three(alloc, words)?;
    let found = recorded_views(alloc, &views, &recordings);
    Ok(found?)
}

// View 3 is Sequential. In view 7 two draws have depth 5; in view 4 the touches carry nothing; in view 9 the depths differ.
#[test]
fn views_of_three_encoders(rt: HostRuntime) -> Result<(), Fail> {
    let wanted = [
        SharedView {
            view: 0,
            first: 1,
            second: 2,
        },
        SharedView {
            view: 3,
            first: 1,
            second: 2,
        },
        SharedView {
            view: 7,
            first: 0,
            second: 2,
        },
    ];
    let words = plain_words()?;
    let found = shared(rt.alloc(), &words)?;
    let mut lines = Vec::new(rt.alloc());
    push_lines(rt.alloc(), &mut lines, 12, found.as_slice())?;
    assert!(rt; found.as_slice() == wanted.as_slice());
    assert_eq!(rt;
        lines.as_slice(),
        b"frame 12 view 0 encoders 1 2\nframe 12 view 3 encoders 1 2\nframe 12 view 7 encoders 0 2\n".as_slice()
    );
    Ok(())
}

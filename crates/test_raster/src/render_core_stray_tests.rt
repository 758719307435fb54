// Frames that no context makes.
ghost use Rattle.std.specs.Prelude.{◌≡◌, ◌≤◌, ◌<◌};

use crate::render_core_tests::{framed, render, rest_of};
use cmd_buffer::Command;
use draw_encoder::{BlitCall, BlitItem, DrawItem, IndexSet, Item, VertexSet};
use fix_math::{Affine, Rect};
use frame_record::{Frame, Outcome};
use gfx_words::{Handle, Info, Kind, StateWord, StencilWord};
use io_edge::MemSink;
use render_core::Renderer;
use std::alloc::{AllocError, Global};
use std::test::Fail;
use vertex_layout::{Attr, AttrType, LayoutBuilder, VertexLayout};

// How many bytes a picture of four by two has before its pixels, and in all.
const HEADER: usize = 11;

const PICTURE: usize = 35;

fn next(seed: u64) -> u64 {
    seed.wrapping_mul(6_364_136_223_846_793_005)
        .wrapping_add(1_442_695_040_888_963_407)
}

// A number below another one, from some of the bits.
fn pick(seed: u64, shift: u32, below: u16) -> u16
    requires some { 1 ≤ below }
    requires bits { shift < 64 }
    ensures { result < below }
{
    ((seed >> shift) % below as u64) as u16
}

// A number below 4, from some of the bits.
fn small(seed: u64, shift: u32) -> u16
    requires bits { shift < 64 }
    ensures { result < 4 }
{
    pick(seed, shift, 4)
}

// Positions of two numbers.
pub(crate) fn positions() -> Result<VertexLayout, Fail> {
    let mut builder = LayoutBuilder::new();
    builder.add(Attr::Position, AttrType::Fixed, 2);
    builder.end().map_err(|_| "layout".into())
}

// A create at a random place; the things that it names may be missing, and sizes, formats, kinds and payloads be none.
fn stray_create(seed: u64, layout: VertexLayout) -> Command {
    let index = small(seed, 50);
    let other = small(seed, 40);
    let payload = small(seed, 32) as u32;
    match pick(seed, 60, 8) {
        0 | 1 => Command::CreateLayout { index, layout },
        2 => Command::CreateVertexBuffer {
            index,
            layout: other,
            payload,
        },
        3 => Command::CreateIndexBuffer { index, payload },
        4 => Command::CreateTexture {
            index,
            width: other,
            height: 4,
            format: pick(seed, 28, 3) as u8,
            blit_dst: 1,
            source: pick(seed, 26, 3) as u8,
            value: payload + pick(seed, 10, 2) as u32 * 4_280_295_456,
        },
        5 => Command::CreateFrameBuffer {
            index,
            color: other,
            depth: payload as u16 + pick(seed, 22, 2) * 65_532,
        },
        6 => Command::CreateProgram {
            index,
            kind: other as u8 + pick(seed, 24, 2) as u8,
        },
        _ => Command::CreateUniform {
            index,
            serial: 1,
            kind: other as u8,
            payload,
        },
    }
}

// An update or a destroy of what may be missing.
fn stray_change(seed: u64) -> Command {
    let index = small(seed, 50);
    let other = small(seed, 40);
    let payload = small(seed, 32) as u32;
    match pick(seed, 60, 4) {
        0 => Command::UpdateBuffer {
            kind: other as u8,
            index,
            offset: pick(seed, 20, 4) as u32 * 10,
            payload,
        },
        1 | 2 => Command::UpdateTexture {
            index,
            x: 0,
            y: other,
            w: 1,
            h: 1,
            payload,
        },
        _ => Command::Destroy {
            kind: pick(seed, 36, 8) as u8,
            index,
        },
    }
}

fn stray_command(seed: u64, layout: VertexLayout) -> Command {
    if pick(seed, 56, 4) == 0 {
        stray_change(next(seed))
    } else {
        stray_create(next(seed), layout)
    }
}

// A blit between textures that may be missing, in a view that may be missing.
fn stray_blit(seed: u64) -> Item {
    let dst = pick(seed, 50, 4);
    let src = pick(seed, 40, 4);
    Item::Blit(BlitItem {
        view: pick(seed, 30, 300),
        number: 1,
        copy: BlitCall {
            dst: Handle::of(Kind::Texture, dst, 1, Info::Plain),
            dx: dst,
            dy: 0,
            src: Handle::of(Kind::Texture, src, 1, Info::Plain),
            sx: 0,
            sy: src,
            w: 3,
            h: 2,
        },
    })
}

// Vertices of a buffer that may be missing: the three that a whole one has, or as many as a number can say.
fn stray_vertices(seed: u64, index: u16) -> VertexSet
    requires { index < 4 }
{
    let buffer = Handle::of(Kind::VertexBuffer, index, 1, Info::Plain);
    let (first, count) = if pick(seed, 16, 4) == 0 {
        (4_294_967_295, 4_294_967_295)
    } else {
        (0, 3)
    };
    VertexSet::Buffer {
        buffer,
        first,
        count,
    }
}

fn stray_indices(seed: u64) -> IndexSet {
    if pick(seed, 12, 4) == 0 {
        IndexSet::Transient { at: 9, length: 99 }
    } else {
        IndexSet::Unset
    }
}

fn stray_draw(seed: u64, words: (StateWord, StencilWord)) -> Item {
    let texture = Handle::of(Kind::Texture, small(seed, 44), 1, Info::Plain);
    Item::Draw(DrawItem {
        view: pick(seed, 30, 3),
        number: 2,
        program: Handle::of(Kind::Program, small(seed, 48), 1, Info::Plain),
        depth: 5,
        state: words.0,
        front: words.1,
        back: words.1,
        scissor: Rect {
            x: pick(seed, 8, 2),
            y: pick(seed, 6, 2),
            w: 65_535,
            h: 65_535,
        },
        model: Affine::identity(),
        vertices: stray_vertices(seed, small(seed, 52)),
        indices: stray_indices(seed),
        textures: [Some(texture), None],
        values_at: 4,
        values: 4_294_967_295,
    })
}

fn stray_item(seed: u64, words: (StateWord, StencilWord)) -> Item {
    if pick(seed, 58, 4) == 0 {
        stray_blit(seed)
    } else {
        stray_draw(seed, words)
    }
}

// Three commands before and one after a draw or a blit, in views of which one has a target that may be missing.
fn stray_frame(alloc: Global, seed: u64, words: (StateWord, StencilWord)) -> Result<Frame, Fail> {
    let layout = positions()?;
    let two = next(seed);
    let three = next(two);
    let pre = [
        stray_command(seed, layout),
        stray_command(two, layout),
        stray_command(three, layout),
    ];
    let post = [stray_change(next(three))];
    let target = Handle::of(Kind::FrameBuffer, small(seed, 20), 1, Info::Plain);
    let mut rest = rest_of(alloc, 0, &pre, &post)?;
    rest.views
        .set_target(1, Some(target))
        .map_err(|_| "target")?;
    Ok(framed(alloc, rest, stray_item(three, words))?)
}

fn words() -> Result<(StateWord, StencilWord), Fail> {
    let state = StateWord::read(15).map_err(|_| "state")?;
    let stencil = StencilWord::read(0).map_err(|_| "stencil")?;
    Ok((state, stencil))
}

// The commands that destroy all things of four indices.
fn destroys(alloc: Global) -> Result<Vec<Command>, AllocError> {
    let mut commands = Vec::new(alloc);
    for kind in 0..7u8 {
        for index in 0..4u16 {
            commands.push(Command::Destroy { kind, index })?;
        }
    }
    Ok(commands)
}

// They, and the creates of a layout, a triangle, a texture of one texel and a program.
fn last_commands(alloc: Global, layout: VertexLayout) -> Result<Vec<Command>, AllocError> {
    let mut commands = destroys(alloc)?;
    commands.extend_from_slice(&[
        Command::CreateLayout { index: 0, layout },
        Command::CreateVertexBuffer {
            index: 0,
            layout: 0,
            payload: 0,
        },
        Command::CreateTexture {
            index: 0,
            width: 1,
            height: 1,
            format: 0,
            blit_dst: 0,
            source: 1,
            value: 1,
        },
        Command::CreateProgram { index: 0, kind: 2 },
    ])?;
    Ok(commands)
}

// A frame that a context could make at the end: all is destroyed, and a texture of one texel is drawn over the whole picture.
fn last_frame(alloc: Global, words: (StateWord, StencilWord)) -> Result<Frame, Fail> {
    let layout = positions()?;
    let pre = last_commands(alloc, layout)?;
    let rest = rest_of(alloc, 0, &pre, &[])?;
    let draw = stray_draw((1 << 16) | (1 << 12), words);
    Ok(framed(alloc, rest, draw)?)
}

// How many of the first thousand pictures have a pixel that is not black.
fn pictures_with_color(bytes: &[u8]) -> usize {
    bytes
        .chunks(PICTURE)
        .take(1_000)
        .filter(|picture| picture.iter().skip(HEADER).any(|byte| *byte != 0))
        .count()
}

// A thousand frames, and one behind them: whether all were shown.
fn all_shown(
    alloc: Global,
    renderer: &mut Renderer<MemSink>,
    words: (StateWord, StencilWord),
) -> Result<bool, Fail> {
    let mut all = true;
    let mut seed = 1;
    for _ in 0..1_000 {
        seed = next(seed);
        let (outcome, _) = render(renderer, stray_frame(alloc, seed, words)?);
        all = all && outcome == Outcome::Shown;
    }
    let (last, _) = render(renderer, last_frame(alloc, words)?);
    Ok(all && last == Outcome::Shown)
}

// Whether all are shown, and what was put.
fn all_put(alloc: Global, words: (StateWord, StencilWord)) -> Result<(bool, MemSink), Fail> {
    let sink = MemSink::new(alloc, 100_000, 100_000, Vec::new(alloc))?;
    let mut renderer = Renderer::new(alloc, 4, 2, sink).map_err(|_| "memory")?;
    let all = all_shown(alloc, &mut renderer, words);
    let sink = renderer.into_sink();
    Ok((all?, sink))
}

const LAST: &[u8] = b"P6\n4 2\n255\n000000000000000000000000";

// How many bytes there are, whether more than 50 pictures have something in them, and whether the last one is as it would be without the others.
fn told_of(bytes: &[u8]) -> (usize, bool, bool) {
    let last = match bytes.chunks(PICTURE).last() {
        Some(picture) => picture == LAST,
        None => false,
    };
    (bytes.len(), pictures_with_color(bytes) > 50, last)
}

fn told(alloc: Global) -> Result<(bool, (usize, bool, bool)), Fail> {
    let words = words()?;
    let (all, sink) = all_put(alloc, words)?;
    Ok((all, told_of(sink.bytes())))
}

// All are shown, many with something in them, and the frame behind them is as it would be without them.
#[test]
fn frames_of_no_context(rt: HostRuntime) -> Result<(), Fail> {
    assert_eq!(rt; told(rt.alloc())?, (true, (35_035, true, true)));
    Ok(())
}

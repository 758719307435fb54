// Pictures that were worked out by hand, as lists of prepared draws.
ghost use Rattle.std.specs.Prelude.{◌≤◌};

use fix_math::{Affine, Point, Rect, Texels};
use gfx_words::{StateWord, StencilWord};
use int_raster::{
    BandRasterizer, DrawList, Paint, Prepared, Rasterizer, SerialRasterizer, Surface, draw_bands,
    draw_view,
};
use std::alloc::{AllocError, Global};
use std::process::Abort;
use std::test::Fail;
use std::thread::Threads;
use tri_cover::{Setup, place};
use vertex_layout::Vertex;

// A white vertex; positions are in 1/65536 of half a side.
fn vertex(x: i32, y: i32) -> Vertex {
    Vertex {
        position: Point { x, y, z: 0 },
        color: [255; 4],
        texcoord: [0, 0],
    }
}

// The triangles of a list of vertices.
fn setups(alloc: Global, vertices: &[Vertex], target: Rect, cull: u8) -> Result<Vec<Setup>, Fail> {
    let id = Affine::identity();
    let mut items = Vec::new(alloc);
    for three in vertices.chunks_exact(3) {
        let [a, b, c] = three else { continue };
        let (a, b, c) = (
            place(a, &id, &id, target),
            place(b, &id, &id, target),
            place(c, &id, &id, target),
        );
        if let (Some(a), Some(b), Some(c)) = (a, b, c) {
            if let Some(setup) = Setup::new(a, b, c, cull) {
                items.push(setup)?;
            }
        }
    }
    Ok(items)
}

fn solid(alloc: Global, corners: &[(i32, i32)], target: Rect) -> Result<Vec<Setup>, Fail> {
    let mut vertices = Vec::new(alloc);
    for (x, y) in corners {
        vertices.push(vertex(*x, *y))?;
    }
    setups(alloc, &vertices, target, 0)
}

fn state<R: Abort>(rt: &R, word: u64) -> StateWord {
    match StateWord::read(word) {
        Ok(state) => state,
        Err(_) => panic!(rt; "no state word: {word}"),
    }
}

fn stencil<R: Abort>(rt: &R, word: u32) -> StencilWord {
    match StencilWord::read(word) {
        Ok(stencil) => stencil,
        Err(_) => panic!(rt; "no stencil word: {word}"),
    }
}

fn blank(alloc: Global, target: Rect, depth: [u8; 4]) -> Result<Surface, Fail>
    requires wide { 1 ≤ target.w }
    requires high { 1 ≤ target.h }
    requires narrow { target.w ≤ 2048 }
    requires low { target.h ≤ 2048 }
{
    let color = Texels::filled(alloc, target.w, target.h, [0, 0, 0, 0])?;
    let depth = Texels::filled(alloc, target.w, target.h, depth)?;
    Ok(Surface::new(color, Some(depth)))
}

fn reds(alloc: Global, surface: &Surface) -> Result<Vec<u8>, Fail> {
    let mut reds = Vec::new(alloc);
    for color in surface.color.texels.as_slice() {
        reds.push(color[0])?;
    }
    Ok(reds)
}

const FOUR: Rect = Rect {
    x: 0,
    y: 0,
    w: 4,
    h: 4,
};

// The factors one and one, added: what is drawn twice is twice as bright.
const ADDS: u64 = 35790863;

// Draws a list on what nothing is cleared of.
fn draw_whole(surface: &mut Surface, list: &DrawList<'_>) {
    draw_view(surface, &[], list);
}

// The same in bands.
fn draw_in_bands<R: Threads>(rt: &R, surface: &mut Surface, list: &DrawList<'_>, bands: u32)
    requires { 1 ≤ bands }
{
    draw_bands(rt, surface, &[], list, bands);
}

// The reds of a picture of four by four, drawn in one go and in bands.
fn drawn_once<R: Threads + Abort>(
    rt: &R,
    alloc: Global,
    corners: &[(i32, i32)],
    word: u64,
) -> Result<Vec<u8>, Fail> {
    let mut surface = blank(alloc, FOUR, [0, 0, 0, 0])?;
    let mut list = DrawList::new(alloc);
    let triangles = solid(alloc, corners, FOUR)?;
    let draw = Prepared {
        cut: FOUR,
        state: state(rt, word),
        front: stencil(rt, 0),
        back: stencil(rt, 0),
        paint: Paint::Solid([16, 16, 16, 255]),
    };
    list.push(draw, &triangles)?;
    draw_whole(&mut surface, &list);
    let reds_in_one = reds(alloc, &surface)?;
    for bands in [1u32, 3, 1000] {
        let mut surface = blank(alloc, FOUR, [0, 0, 0, 0])?;
        draw_in_bands(rt, &mut surface, &list, bands);
        assert_eq!(rt;
            reds(alloc, &surface)?.as_slice(),
            reds_in_one.as_slice(),
            "{bands} bands"
        );
    }
    Ok(reds_in_one)
}

#[test]
fn two_triangles_share_a_diagonal(rt: HostRuntime) -> Result<(), Fail> {
    let one = 65536;
    let corners = [
        (-one, one),
        (one, one),
        (one, -one),
        (-one, one),
        (one, -one),
        (-one, -one),
    ];
    let reds = drawn_once(&rt, rt.alloc(), &corners, ADDS)?;
    assert_eq!(rt; reds.as_slice(), [16; 16].as_slice());
    Ok(())
}

#[test]
fn a_cleared_list_draws_nothing(rt: HostRuntime) -> Result<(), Fail> {
    let alloc = rt.alloc();
    let mut list = DrawList::new(alloc);
    let triangles = solid(
        alloc,
        &[(-65536, 65536), (65536, 65536), (65536, -65536)],
        FOUR,
    )?;
    let draw = Prepared {
        cut: FOUR,
        state: state(&rt, 15),
        front: stencil(&rt, 0),
        back: stencil(&rt, 0),
        paint: Paint::Solid([16, 16, 16, 255]),
    };
    list.push(draw, &triangles)?;
    assert_eq!(rt; list.len(), 1);
    list.clear();
    assert!(rt; list.is_empty());
    let mut surface = blank(alloc, FOUR, [0, 0, 0, 0])?;
    draw_whole(&mut surface, &list);
    assert_eq!(rt; reds(alloc, &surface)?.as_slice(), [0; 16].as_slice());
    Ok(())
}

// The sum of the text of 200,000 equal colours, and whether the text has the colour each time.
fn written<D: Rasterizer>(
    alloc: Global,
    rasterizer: &mut D,
) -> Result<(Option<u32>, bool), AllocError> {
    let colors = vec![in alloc; [1u8, 2, 3, 4]; 200_000]?;
    let mut room = vec![in alloc; 0u8; 600_000]?;
    let told = rasterizer.write_text(&mut room, &colors, true);
    Ok((
        told,
        room.chunks_exact(3).all(|it| it == [1, 2, 3].as_slice()),
    ))
}

#[test]
fn a_text_by_one_thread_and_by_several(rt: HostRuntime) {
    let one = written(rt.alloc(), &mut SerialRasterizer).expect(&rt, "memory");
    let several = written(rt.alloc(), &mut BandRasterizer::new(&rt)).expect(&rt, "memory");
    assert_eq!(rt;
        (one, several),
        ((Some(1_200_000), true), (Some(1_200_000), true))
    );
}

// The calls from outside: handles, refusals, references and holders.
ghost use Rattle.std.specs.Prelude.{◌≤◌, ◌<◌};

use fix_math::Rect;
use gfx_words::{Format, Handle, Info, Kind, ProgramKind, Refusal, UniformKind};
use resource_book::{Book, Start, Work};
use std::alloc::{AllocError, Global};
use texture_store::TexSource;
use vertex_layout::{Attr, AttrType, LayoutBuilder, VertexLayout};

fn book(alloc: Global, serial: u32) -> Result<Book, AllocError>
    requires { 1 ≤ serial }
{
    Book::new(
        alloc,
        Start {
            frame: 0,
            serial,
            views: 256,
            latency: 1,
        },
    )
}

// What a create answers, a change, and a destroy.
type Made = Result<Handle, Refusal>;

type Changed = Result<(), Refusal>;

type Destroyed = Result<bool, Refusal>;

fn program(index: u16, serial: u32) -> Handle
    requires { index < 256 }
{
    Handle::of(Kind::Program, index, serial, Info::Plain)
}

// Three programs are made, and the first is destroyed twice before the third.
fn three_programs(book: &mut Book) -> ([Made; 3], [Destroyed; 2]) {
    let one = book.create_program(ProgramKind::Solid);
    let two = book.create_program(ProgramKind::Color);
    let gone = book.destroy(program(0, 1));
    let again = book.destroy(program(0, 1));
    let three = book.create_program(ProgramKind::Solid);
    ([one, two, three], [gone, again])
}

// The index of the first one is not given again in its frame.
#[test]
fn indices_and_serials_ascend(rt: HostRuntime) -> Result<(), AllocError> {
    let mut book = book(rt.alloc(), 1)?;
    let told = three_programs(&mut book);
    drop(book);
    let made = [Ok(program(0, 1)), Ok(program(1, 2)), Ok(program(2, 3))];
    assert!(rt; told == (made, [Ok(true), Err(Refusal::Stale { word: 6 })]));
    Ok(())
}

// Whether an index buffer is made, and what the creates of another one and of one of no whole number answer.
fn index_buffers(book: &mut Book) -> (bool, [Made; 2]) {
    let first = book.create_index_buffer(&[0, 0]);
    let second = book.create_index_buffer(&[0, 0]);
    let odd = book.create_index_buffer(&[0]);
    (first.is_ok(), [second, odd])
}

#[test]
fn the_greatest_serial(rt: HostRuntime) -> Result<(), AllocError> {
    let mut book = book(rt.alloc(), 4_294_967_295)?;
    let told = index_buffers(&mut book);
    drop(book);
    let refused = [Err(Refusal::SerialsSpent), Err(Refusal::BadSize)];
    assert!(rt; told == (true, refused));
    Ok(())
}

fn tint() -> Handle {
    Handle::of(Kind::Uniform, 0, 1, Info::Uniform(UniformKind::Vec4))
}

// A uniform is made twice, once more of another kind, and one without a name; it is destroyed twice; and whether its name is free then.
fn uniforms(book: &mut Book) -> ([Made; 4], [Destroyed; 2], bool) {
    let made = [
        book.create_uniform(b"tint", UniformKind::Vec4),
        book.create_uniform(b"tint", UniformKind::Vec4),
        book.create_uniform(b"tint", UniformKind::Int),
        book.create_uniform(b"", UniformKind::Int),
    ];
    let gone = [book.destroy(tint()), book.destroy(tint())];
    let free = book.create_uniform(b"tint", UniformKind::Int).is_ok();
    (made, gone, free)
}

// Its name is free at once.
#[test]
fn a_uniform_dies_with_its_last_reference(rt: HostRuntime) -> Result<(), AllocError> {
    let mut book = book(rt.alloc(), 1)?;
    let told = uniforms(&mut book);
    drop(book);
    let refused = (Err(Refusal::WrongKind), Err(Refusal::BadSize));
    let made = [Ok(tint()), Ok(tint()), refused.0, refused.1];
    assert!(rt; told == (made, [Ok(false), Ok(true)], true));
    Ok(())
}

// Updates of an index buffer up to its end and past it, an update of it as of a texture, and rectangles of the last view and of one more.
fn at_the_ends(book: &mut Book) -> Option<[Changed; 5]> {
    let Ok(indices) = book.create_index_buffer(&[1, 2, 3, 4]) else {
        return None;
    };
    let rect = Rect {
        x: 0,
        y: 0,
        w: 1,
        h: 1,
    };
    Some([
        book.update_buffer(indices, 2, &[9, 9]),
        book.update_buffer(indices, 3, &[9, 9]),
        book.update_texture(indices, rect, &[0; 4]),
        book.set_view_rect(255, rect),
        book.set_view_rect(256, rect),
    ])
}

#[test]
fn buffers_at_their_ends(rt: HostRuntime) -> Result<(), AllocError> {
    let mut book = book(rt.alloc(), 1)?;
    let told = at_the_ends(&mut book);
    drop(book);
    let wanted = [
        Ok(()),
        Err(Refusal::BadRange),
        Err(Refusal::WrongKind),
        Ok(()),
        Err(Refusal::BadView),
    ];
    assert!(rt; told == Some(wanted));
    Ok(())
}

// takes what was written and starts the next frame
fn next_frame(book: &mut Book) -> Result<Work, AllocError> {
    let work = book.take_work()?;
    let frame = book.frame();
    if frame < 1_073_741_823 {
        book.start_frame(frame + 1);
    }
    Ok(work)
}

// How many payloads were written, and how many bytes of commands behind the frame.
fn written(book: &mut Book) -> Result<(usize, usize), AllocError> {
    let work = next_frame(book)?;
    Ok((work.payloads.len(), work.post.as_slice().len()))
}

// A layout, a vertex buffer of it and one of no bytes: whether the first is made, and whether the second is refused for its size.
fn vertex_buffers(book: &mut Book, layout: VertexLayout) -> Option<[bool; 2]> {
    let Ok(layout) = book.create_layout(layout) else {
        return None;
    };
    let vertices = book.create_vertex_buffer(layout, &[0; 8]).is_ok();
    let none = book.create_vertex_buffer(layout, &[]);
    Some([vertices, none == Err(Refusal::BadSize)])
}

// What the update of the last texel of a new texture answers.
fn texel_updated(book: &mut Book) -> Option<Changed> {
    let fill = TexSource::Fill([0, 0, 0, 255]);
    let Ok(texture) = book.create_texture(4, 4, Format::Rgba8, false, fill) else {
        return None;
    };
    let rect = Rect {
        x: 3,
        y: 3,
        w: 1,
        h: 1,
    };
    Some(book.update_texture(texture, rect, &[9; 4]))
}

// All of it, with an index buffer and a uniform: whether each is made, and what the update answers.
fn all_kinds(
    book: &mut Book,
    layout: VertexLayout,
) -> (Option<[bool; 2]>, [bool; 2], Option<Changed>) {
    let vertices = vertex_buffers(book, layout);
    let indices = book.create_index_buffer(&[0; 6]).is_ok();
    let texel = texel_updated(book);
    let uniform = book.create_uniform(b"tint", UniformKind::Vec4).is_ok();
    (vertices, [indices, uniform], texel)
}

// The payloads are bytes of vertices, bytes of indices, texels and a name.
#[test]
fn layouts_and_buffers(rt: HostRuntime) -> Result<(), AllocError> {
    let mut builder = LayoutBuilder::new();
    builder.add(Attr::Position, AttrType::Fixed, 2);
    let layout = builder.end().expect(&rt, "a layout");
    let mut book = book(rt.alloc(), 1)?;
    let told = all_kinds(&mut book, layout);
    let work = written(&mut book);
    drop(book);
    assert!(rt; told == (Some([true; 2]), [true; 2], Some(Ok(()))));
    assert_eq!(rt; work?, (4, 1));
    Ok(())
}

// Lines on a book, from outside.
ghost use Rattle.std.specs.Prelude.{◌≡◌, ◌≤◌, length};

use fix_math::{Affine, Rect};
use gfx_words::{Format, Handle, Info, Kind, ProgramKind, TexSource, UniformKind, ViewMode};
use resource_book::{Book, Start};
use scene_lines::play_lines;
use scene_text::{LayoutPart, ResLine, SceneName, Sequence};
use std::alloc::{AllocError, Global};
use vertex_layout::{Attr, AttrType};
use view_table::Clear;

fn new_book(alloc: Global) -> Result<Book, AllocError> {
    Book::new(
        alloc,
        Start {
            frame: 0,
            serial: 1,
            views: 256,
            latency: 1,
        },
    )
}

// A program is made, destroyed twice, and made again of another kind, and a uniform whose name has no bytes is made: how many lines are
// dropped, and what the two names stand for.
fn five_lines(alloc: Global, book: &mut Book) -> Result<(u32, [Option<Handle>; 2]), AllocError> {
    let mut handles: [Option<Handle>; 2] = [None; 2];
    let lines = [
        ResLine::Program {
            name: 0,
            kind: ProgramKind::Solid,
        },
        ResLine::Destroy { name: 0 },
        ResLine::Destroy { name: 0 },
        ResLine::Program {
            name: 0,
            kind: ProgramKind::Color,
        },
        ResLine::Uniform {
            name: 1,
            kind: UniformKind::Int,
        },
    ];
    let dropped = play_lines(alloc, book, &mut handles, &[], &lines)?;
    Ok((dropped, handles))
}

// The second destroy is of a dead thing, and the uniform's name has no bytes.
#[test]
fn names_stand_for_what_the_last_accepted_create_made(rt: HostRuntime) -> Result<(), AllocError> {
    let mut book = new_book(rt.alloc())?;
    let told = five_lines(rt.alloc(), &mut book);
    drop(book);
    let program = Some(Handle::of(Kind::Program, 1, 2, Info::Plain));
    assert!(rt; told? == (2, [program, None]));
    Ok(())
}

const ALL: Rect = Rect {
    x: 0,
    y: 0,
    w: 1,
    h: 1,
};

fn zeros(alloc: Global, count: usize) -> Result<Sequence<u8>, AllocError>
    requires { count ≤ 4 }
{
    let bytes = Vec::from_slice(alloc, &[0u8, 0, 0, 0][..count])?;
    Ok(Sequence::from_vec(bytes))
}

// A thing of each kind, the uniform first.
fn creates(
    alloc: Global,
    book: &mut Book,
    handles: &mut [Option<Handle>],
) -> Result<u32, AllocError>
    requires { length handles.old ≡ 7 }
{
    let part = LayoutPart::Attribute {
        attr: Attr::Position,
        kind: AttrType::Fixed,
        count: 1,
    };
    let parts = Vec::from_slice(alloc, &[part])?;
    let text = Vec::from_slice(alloc, b"u")?;
    let (vertices, indices) = (zeros(alloc, 4)?, zeros(alloc, 2)?);
    let names = [SceneName {
        text: Sequence::from_vec(text),
    }];
    let lines = [
        ResLine::Uniform {
            name: 0,
            kind: UniformKind::Vec4,
        },
        ResLine::Layout {
            name: 1,
            parts: Sequence::from_vec(parts),
        },
        ResLine::VertexBuffer {
            name: 2,
            layout: 1,
            bytes: vertices,
        },
        ResLine::IndexBuffer {
            name: 3,
            bytes: indices,
        },
        ResLine::Texture {
            name: 4,
            width: 1,
            height: 1,
            format: Format::Rgba8,
            blit_dst: true,
            source: TexSource::Fill([255, 0, 0, 255]),
        },
        ResLine::FrameBuffer {
            name: 5,
            color: 4,
            depth: None,
        },
        ResLine::Program {
            name: 6,
            kind: ProgramKind::Solid,
        },
    ];
    play_lines(alloc, book, handles, &names, &lines)
}

// Lines that write contents, order views and destroy the program.
fn changes(
    alloc: Global,
    book: &mut Book,
    handles: &mut [Option<Handle>],
) -> Result<u32, AllocError> {
    let views = Vec::from_slice(alloc, &[1u16, 0])?;
    let (vertices, texels) = (zeros(alloc, 4)?, zeros(alloc, 4)?);
    let lines = [
        ResLine::Update {
            name: 2,
            offset: 0,
            bytes: vertices,
        },
        ResLine::TexUpdate {
            name: 4,
            rect: ALL,
            bytes: texels,
        },
        ResLine::Order {
            views: Sequence::from_vec(views),
        },
        ResLine::Destroy { name: 6 },
    ];
    play_lines(alloc, book, handles, &[], &lines)
}

// Lines that set views, one of them to the frame buffer.
fn sets(alloc: Global, book: &mut Book, handles: &mut [Option<Handle>]) -> Result<u32, AllocError> {
    let lines = [
        ResLine::ViewRect { view: 0, rect: ALL },
        ResLine::ViewScissor { view: 0, rect: ALL },
        ResLine::ViewClear {
            view: 0,
            clear: Clear {
                flags: 1,
                color: [255, 0, 0, 255],
                depth: 0,
                stencil: 0,
            },
        },
        ResLine::ViewMode {
            view: 0,
            mode: ViewMode::Sequential,
        },
        ResLine::ViewTarget {
            view: 0,
            target: Some(5),
        },
        ResLine::ViewTransform {
            view: 0,
            transform: Affine::identity(),
        },
        ResLine::ViewReset { view: 0 },
    ];
    play_lines(alloc, book, handles, &[], &lines)
}

// How many lines are dropped: of changes and of sets where no name stands for anything, of creates, of both again, and of changes once more.
fn each_form(alloc: Global, book: &mut Book) -> Result<[u32; 6], AllocError> {
    let mut handles: [Option<Handle>; 7] = [None; 7];
    let changed_none = changes(alloc, book, &mut handles)?;
    let set_none = sets(alloc, book, &mut handles)?;
    let created = creates(alloc, book, &mut handles)?;
    let set = sets(alloc, book, &mut handles)?;
    let changed = changes(alloc, book, &mut handles)?;
    let again = changes(alloc, book, &mut handles)?;
    Ok([changed_none, set_none, created, set, changed, again])
}

// In the end the program was destroyed.
#[test]
fn each_form_of_line_is_played(rt: HostRuntime) -> Result<(), AllocError> {
    let mut book = new_book(rt.alloc())?;
    let told = each_form(rt.alloc(), &mut book);
    drop(book);
    assert_eq!(rt; told?, [3, 1, 0, 0, 0, 1]);
    Ok(())
}

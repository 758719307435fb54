// Layouts and vertices with values from outside.
use fix_math::Point;
use gfx_words::Refusal;
use std::test::Fail;
use vertex_layout::{Attr, AttrType, LayoutBuilder, Vertex, VertexLayout};

const BYTES: [u8; 7] = [0x00, 0x40, 0x00, 0xc0, 0xff, 0x80, 0x00];

fn halves() -> Result<VertexLayout, Refusal> {
    let mut builder = LayoutBuilder::new();
    builder.add(Attr::Position, AttrType::I16, 2);
    builder.add(Attr::Color0, AttrType::U8, 3);
    builder.end()
}

#[test]
fn halves_and_bytes(rt: HostRuntime) -> Result<(), Fail> {
    let layout = halves()?;
    let offsets = [
        layout.offset_of(Attr::Position),
        layout.offset_of(Attr::Color0),
        layout.offset_of(Attr::Normal),
    ];
    assert_eq!(rt; (layout.stride(), offsets), (7, [Some(0), Some(4), None]));
    let vertex = Vertex {
        position: Point {
            x: 32768,
            y: -32768,
            z: 0,
        },
        color: [255, 128, 0, 255],
        texcoord: [0, 0],
    };
    let fetched = [
        layout.fetch(&BYTES, 0),
        layout.fetch(&BYTES, 1),
        layout.fetch(&BYTES, u32::MAX),
    ];
    assert!(rt; fetched == [Some(vertex), None, None]);
    Ok(())
}

#[test]
fn texcoords_behind_a_gap(rt: HostRuntime) -> Result<(), Fail> {
    let mut builder = LayoutBuilder::new();
    builder.skip(2);
    builder.add(Attr::Texcoord0, AttrType::Fixed, 1);
    builder.add(Attr::Color0, AttrType::U8, 4);
    builder.skip(1);
    let layout = builder.end()?;
    let bytes = [9, 9, 0xff, 0xff, 0xff, 0xff, 1, 2, 3, 4, 9];
    assert_eq!(rt; layout.stride(), 11);
    assert_eq!(rt; layout.offset_of(Attr::Texcoord0), Some(2));
    let vertex = Vertex {
        position: Point { x: 0, y: 0, z: 0 },
        color: [1, 2, 3, 4],
        texcoord: [-1, 0],
    };
    assert_eq!(rt; layout.fetch(&bytes, 0), Some(vertex));
    Ok(())
}

#[test]
fn positions_of_one_to_three_numbers(rt: HostRuntime) -> Result<(), Fail> {
    let bytes = [0, 0, 1, 0, 0, 0, 0xff, 0xff, 1, 0, 0, 0];
    for (count, y, z) in [(1, 0, 0), (2, -65536, 0), (3, -65536, 1)] {
        let mut builder = LayoutBuilder::new();
        builder.add(Attr::Position, AttrType::Fixed, count);
        let layout = builder.end()?;
        let vertex = Vertex {
            position: Point { x: 65536, y, z },
            color: [255; 4],
            texcoord: [0; 2],
        };
        assert_eq!(rt; layout.fetch(&bytes, 0), Some(vertex), "of {count}");
    }
    Ok(())
}

fn is_refused(builder: LayoutBuilder) -> bool {
    match builder.end() {
        Ok(_) => false,
        Err(refusal) => refusal == Refusal::BadSize,
    }
}

// Attributes of one kind, and bytes that are skipped before them, if any.
fn of_normals(skipped: u8, counts: &[u8]) -> LayoutBuilder {
    let mut builder = LayoutBuilder::new();
    if skipped > 0 {
        builder.skip(skipped);
    }
    for count in counts {
        builder.add(Attr::Normal, AttrType::U8, *count);
    }
    builder
}

// One attribute of no numbers, and bytes that are skipped behind it.
fn of_none() -> LayoutBuilder {
    let mut builder = LayoutBuilder::new();
    builder.add(Attr::Normal, AttrType::U8, 0);
    builder.skip(4);
    builder
}

#[test]
fn refused_layouts(rt: HostRuntime) {
    let refused = [
        is_refused(LayoutBuilder::new()),
        is_refused(of_normals(0, &[1, 1])),
        is_refused(of_none()),
        is_refused(of_normals(0, &[5])),
        is_refused(of_normals(252, &[4])),
        is_refused(of_normals(251, &[4])),
    ];
    assert_eq!(rt; refused, [true, true, true, true, true, false]);
}

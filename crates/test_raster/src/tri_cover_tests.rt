// Placed vertices and covered columns that were worked out by hand, and ramps beside the exact means.
use fix_math::{Affine, Point, Rect};
use std::process::Abort;
use std::test::Fail;
use tri_cover::{Ramp, ScreenVertex, Setup, place};
use vertex_layout::Vertex;

const SQUARE: Rect = Rect {
    x: 10,
    y: 20,
    w: 4,
    h: 6,
};

fn vertex(x: i32, y: i32, z: i32) -> Vertex {
    Vertex {
        position: Point { x, y, z },
        color: [1, 2, 3, 4],
        texcoord: [5, -6],
    }
}

fn corner(x: i16, y: i16) -> ScreenVertex {
    ScreenVertex {
        x: x as i32,
        y: y as i32,
        depth: (x as i32 & 0xffff) as u32,
        color: [(x & 127) as u8, (y & 127) as u8, 77, ((x ^ y) & 127) as u8],
        texcoord: [x as i32 * 7, y as i32 * -9],
    }
}

#[test]
fn vertices_on_a_rectangle(rt: HostRuntime) {
    let id = Affine::identity();
    for (x, y, z, want) in [
        (0, 0, 0, Some((10 * 256 + 512, 20 * 256 + 768, 0))),
        (-65536, 65536, 65536, Some((10 * 256, 20 * 256, 16777215))),
        (65536, -65536, 1, Some((14 * 256, 26 * 256, 255))),
        (
            -524288,
            524288,
            0,
            Some((10 * 256 - 3584, 20 * 256 - 5376, 0)),
        ),
        (-524289, 0, 0, None),
        (0, 524289, 0, None),
        (0, 0, -1, None),
        (0, 0, 65537, None),
        (i32::MIN, i32::MAX, i32::MIN, None),
    ] {
        let placed = place(&vertex(x, y, z), &id, &id, SQUARE);
        assert_eq!(rt; placed.map(|v| (v.x, v.y, v.depth)), want, "at {x} {y} {z}");
    }
}

#[test]
fn far_rectangles_and_transforms_stay_in_range(rt: HostRuntime) {
    let far = Affine { m: [i32::MAX; 12] };
    let rect = Rect {
        x: 65535,
        y: 65535,
        w: 65535,
        h: 65535,
    };
    assert!(rt; place(&vertex(7, 8, 9), &far, &Affine::identity(), rect).is_none());
    let placed = place(
        &vertex(524288, -524288, 65536),
        &Affine::identity(),
        &Affine::identity(),
        rect,
    );
    assert_eq!(rt; placed.map(|v| (v.x, v.y)), Some((92273280, 92273280)));
}

#[test]
fn culling_and_empty_triangles(rt: HostRuntime) {
    let (a, b, c) = (corner(0, 0), corner(1024, 0), corner(1024, 1024));
    for (cull, front, back) in [(0, true, true), (1, false, true), (2, true, false)] {
        assert_eq!(rt;
            Setup::new(a, b, c, cull).is_some(),
            front,
            "front at {cull}"
        );
        assert_eq!(rt; Setup::new(a, c, b, cull).is_some(), back, "back at {cull}");
        assert!(rt;
            Setup::new(a, b, corner(512, 0), cull).is_none(),
            "flat at {cull}"
        );
    }
}

#[test]
fn columns_of_rows(rt: HostRuntime) {
    // the diagonal passes through pixel centres and is a left edge
    if let Some(setup) = Setup::new(corner(0, 0), corner(1024, 0), corner(1024, 1024), 0) {
        for (row, want) in [(0u16, (0, 4)), (1, (1, 4)), (2, (2, 4)), (3, (3, 4))] {
            assert_eq!(rt; setup.span(row, 4), want, "row {row}");
        }
    }
    // and the other half has what is left of the square
    if let Some(setup) = Setup::new(corner(0, 0), corner(1024, 1024), corner(0, 1024), 0) {
        for (row, want) in [(1u16, (0, 1)), (2, (0, 2)), (3, (0, 3))] {
            assert_eq!(rt; setup.span(row, 4), want, "row {row}");
        }
        let (first, after) = setup.span(0, 4);
        assert_eq!(rt; first, after);
    }
}

// The columns of each row by stepped sides, beside those of the row by itself.
fn step_rows<R: Abort>(rt: &R, setup: &Setup) {
    let (top, bottom) = setup.rows(64);
    let mut sides = setup.sides(top);
    for y in top..bottom {
        assert_eq!(rt;
            setup.columns_of(&sides, y, 64),
            setup.span(y, 64),
            "row {y}"
        );
        sides = setup.next_sides(sides, y);
    }
}

#[test]
fn sides_are_stepped_over_rows(rt: HostRuntime) {
    for (a, b, c) in [
        // a sliver, a level edge, and corners above the first row
        (corner(700, 3), corner(901, 15021), corner(690, 9000)),
        (corner(130, 300), corner(9001, 300), corner(4007, 12345)),
        (
            corner(5000, -7001),
            corner(16001, 4096),
            corner(-3001, 16300),
        ),
    ] {
        if let Some(setup) = Setup::new(a, b, c, 0) {
            step_rows(&rt, &setup);
        }
    }
}

// The columns of rows in lists, beside those of each row by itself.
fn list_rows<R: Abort>(rt: &R, setup: &Setup, first: u16, after: u16) {
    let (top, bottom) = setup.rows(100);
    let mut spans = [(0, 0); 32];
    let mut row = top;
    while row < bottom {
        let count = (bottom - row).min(32);
        setup.spans(&mut spans, row, count, first, after);
        for k in 0..count {
            let (from, to) = setup.span(row + k, after);
            let from = from.max(first);
            let want = if from < to { (from, to) } else { (0, 0) };
            assert_eq!(rt; spans[k as usize], want, "row {row} and {k}");
        }
        row += count;
    }
}

#[test]
fn lists_of_rows_have_their_columns(rt: HostRuntime) {
    for (a, b, c) in [
        // a sliver, level edges, one of them through pixel centres, and corners on all sides of the surface
        (corner(700, 3), corner(901, 25021), corner(690, 9000)),
        (corner(130, 300), corner(9001, 300), corner(4007, 25345)),
        (corner(100, 100), corner(4000, 1408), corner(50, 1408)),
        (
            corner(5000, -7001),
            corner(16001, 4096),
            corner(-3001, 16300),
        ),
        (
            corner(-32000, -31000),
            corner(32001, 1001),
            corner(-1777, 32111),
        ),
    ] {
        if let Some(setup) = Setup::new(a, b, c, 0) {
            list_rows(&rt, &setup, 0, 64);
            list_rows(&rt, &setup, 5, 17);
        }
    }
}

// What a ramp has at a pixel, with its fraction.
fn ramp_at(ramp: &Ramp, x: u16, y: u16) -> u64 {
    ramp.start
        .wrapping_add(ramp.right.wrapping_mul(x as u64))
        .wrapping_add(ramp.down.wrapping_mul(y as u64))
}

#[test]
fn ramps_are_there_and_exact(rt: HostRuntime) -> Result<(), Fail> {
    let setup = Setup::new(corner(13, 5), corner(4000, 900), corner(-700, 4099), 0).expect(
        &rt,
        "a triangle",
    );
    let steps = setup.steps(16, 16).expect(&rt, "steps");
    let (a, b, c) = (&setup.a, &setup.b, &setup.c);
    let depth = steps.depth(a.depth, b.depth, c.depth).expect(&rt, "a ramp");
    let red = steps
        .channel(a.color[0], b.color[0], c.color[0])
        .expect(&rt, "a ramp");
    let u = steps
        .place(a.texcoord[0], b.texcoord[0], c.texcoord[0])
        .expect(&rt, "a ramp");
    let mut count = 0u32;
    let mut same = 0u32;
    for y in 0..16u16 {
        let (first, after) = setup.span(y, 16);
        for x in first..after {
            let exact = setup.at(x, y);
            let place = (exact.texcoord[0] as i64).rem_euclid(65536) as u64;
            let ramps = (
                ramp_at(&depth, x, y) >> 40,
                ramp_at(&red, x, y) >> 56,
                ramp_at(&u, x, y) >> 48,
            );
            if ramps == (exact.depth as u64, exact.color[0] as u64, place) {
                same = same.wrapping_add(1);
            }
            count = count.wrapping_add(1);
        }
    }
    assert!(rt; count > 100 && same == count);
    Ok(())
}

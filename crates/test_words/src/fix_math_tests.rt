// Values from outside: worked transforms, and samples of a small texture.
use fix_math::{Affine, Point, Texels};
use std::alloc::AllocError;

fn one_row(a: i32, b: i32, c: i32, d: i32) -> Affine {
    Affine {
        m: [a, b, c, d, 0, 65536, 0, 0, 0, 0, 65536, 0],
    }
}

#[test]
fn transforms_floor_and_clamp(rt: HostRuntime) {
    let least = i32::MIN;
    let most = i32::MAX;
    for (m, x, want) in [
        (one_row(32768, 0, 0, 0), -1, -1),
        (one_row(32768, 0, 0, 0), 3, 1),
        (one_row(65536, 0, 0, 10), -10, 0),
        (one_row(most, 0, 0, 0), most, most),
        (one_row(least, 0, 0, 0), most, least),
        (one_row(least, least, least, least), least, most),
        (Affine::identity(), least, least),
    ] {
        let moved = m.apply(Point { x, y: 7, z: -8 });
        assert_eq!(rt;
            moved,
            Point {
                x: want,
                y: 7,
                z: -8
            },
            "at {x}"
        );
    }
}

#[test]
fn samples_repeat_the_texture(rt: HostRuntime) -> Result<(), AllocError> {
    let mut texture = Texels::filled(rt.alloc(), 2, 2, [9, 9, 9, 9])?;
    let texels = texture.texels.as_mut_slice();
    for (i, x) in texels.iter_mut().enumerate() {
        *x = [i as u8, 0, 0, 0];
    }
    for (u, v, want) in [
        (0, 0, 0),
        (32767, 0, 0),
        (32768, 0, 1),
        (65535, 65535, 3),
        (65536, 0, 0),
        (-1, 0, 1),
        (0, -1, 2),
        (-65536, 32768, 2),
        (i32::MAX, i32::MIN, 1),
    ] {
        assert_eq!(rt; texture.sample(u, v)[0], want, "at {u} {v}");
    }
    Ok(())
}

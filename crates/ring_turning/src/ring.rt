// The shape, the colours and the turns of the ring. All numbers are in 1/65536.
ghost use Rattle.std.specs.Prelude.{◌≡◌, ◌<◌, ◌≤◌};
ghost use Rattle.gfx.specs.Calls.{value_seen, affine_seen};
ghost use Rattle.ring_turning.specs.Ring as ring;

use gfx::{Affine, UniformValue};

/// How many triangles the ring has.
pub(crate) const TRIANGLES: u8 = 16;

/// The triangle at the top of the ring: x, y and z of its outer corner and of its two inner ones.
pub(crate) const CORNERS: [i32; 9] = [0, 57344, 0, 6144, 36864, 0, -6144, 36864, 0];

/// The cosines of 0 to 15 steps of 22.5 degrees.
const COSINES: [i32; 16] = [
    65536, 60547, 46341, 25080, 0, -25080, -46341, -60547, -65536, -60547, -46341, -25080, 0,
    25080, 46341, 60547,
];

fn cosine(steps: u8) -> i32
    ensures { result ≡ ring.cosine steps }
{
    COSINES[(steps % TRIANGLES) as usize]
}

/// The turn by so many steps with the clock.
pub(crate) fn turn(steps: u8) -> Affine
    requires { steps ≤ 15 }
    ensures { affine_seen result ≡ ring.turn steps }
{
    let cosine_of = cosine(steps);
    let sine_of = cosine(steps + 12);
    let minus_sine_of = cosine(steps + 4);
    Affine {
        m: [
            cosine_of,
            sine_of,
            0,
            0,
            minus_sine_of,
            cosine_of,
            0,
            0,
            0,
            0,
            65536,
            0,
        ],
    }
}

/// The colour of the triangle of a number: from green to red round the ring.
pub(crate) fn color(number: u8) -> UniformValue
    requires { number ≤ 15 }
    ensures { value_seen result ≡ ring.color number }
{
    let red = number as i32 * 4096;
    UniformValue::Vec4([red, 65536 - red, 32768, 65536])
}

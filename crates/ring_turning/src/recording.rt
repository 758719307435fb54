// What one thread records.
ghost use Rattle.std.specs.Prelude.{◌≡◌, ◌≤◌, [], ◌∷◌, OnOk};
ghost use Rattle.ring_turning.specs.Ring.{triangle, triangles, IsPlain, IsReady, Records, TakesParts};

use crate::ring::{TRIANGLES, color, turn};
use crate::things::Things;
use gfx::{Encoder, Naming, Refusal, Room};
use std::sync::Wait;

/// How many triangles one thread records: half of the ring.
const HALF: u8 = TRIANGLES / 2;

/// Room for half of the ring: a draw and a colour for each triangle.
pub(crate) const ROOM: Room = Room {
    items: 8,
    bytes: 0,
    uniforms: 8,
};

/// After a draw the encoder is as at its beginning.
const RESET_ALL: u8 = 255;

/// Draws the triangle of a number, turned by so many steps.
fn draw<C: Naming>(
    encoder: &mut Encoder<'_, C>,
    things: &Things,
    steps: u8,
    number: u8,
) -> Result<(), Refusal>
    requires steps { steps ≤ 15 }
    requires number { number ≤ 15 }
    requires plain { IsPlain encoder.old.recorder }
    ensures one { OnOk result (Records (triangle things.now steps number ∷ []) encoder.old.recorder encoder.new.recorder) }
    ensures same { (encoder.new.seat.encoder ≡ encoder.old.seat.encoder) × (encoder.new.seat.frame ≡ encoder.old.seat.frame) }
{
    encoder.set_transform(turn(steps));
    encoder.set_uniform(things.color, color(number))?;
    encoder.set_vertices(things.corners, 0, 3)?;
    encoder.submit(0, things.paint, 0, RESET_ALL)
}

/// Draws the half of the ring that begins with the triangle of a number, where the ring is turned by so many steps, up to a draw that
/// is refused.
fn draw_half<C: Naming>(
    encoder: &mut Encoder<'_, C>,
    things: &Things,
    steps: u8,
    first: u8,
) -> Result<(), Refusal>
    requires steps { steps ≤ 15 }
    requires first { first ≤ 8 }
    requires plain { IsPlain encoder.old.recorder }
    ensures all { OnOk result (Records (triangles things.now steps first 8) encoder.old.recorder encoder.new.recorder) }
    ensures same { (encoder.new.seat.encoder ≡ encoder.old.seat.encoder) × (encoder.new.seat.frame ≡ encoder.old.seat.frame) }
{
    for i in 0..HALF {
        let number = first + i;
        draw(encoder, things, (steps + number) % TRIANGLES, number)?;
    }
    Ok(())
}

/// Records the first half of the ring by encoder 0, or the second by encoder 1, and ends the encoder, also where a draw is refused: then
/// with the number 1, and else with 0.
pub(crate) fn record<C: Naming, R: Wait>(
    rt: &R,
    encoder: Encoder<'_, C>,
    things: &Things,
    steps: u8,
    half: u8,
)
    requires admits { TakesParts C.admits }
    requires ready { IsReady half steps encoder }
    requires half { half ≤ 1 }
{
    let mut encoder = encoder;
    match draw_half(&mut encoder, things, steps, HALF * half) {
        Ok(()) => encoder.end(rt, 0),
        Err(_) => encoder.end(rt, 1),
    }
}

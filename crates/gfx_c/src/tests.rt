// What the tests share; and that the end of a frame tells of an encoder that was given up.
use crate::c_context::{vgfx_collect, vgfx_encoder_begin, vgfx_init, vgfx_shutdown};
use crate::c_encoder::vgfx_encoder_drop;
use crate::c_frame::vgfx_frame;
use c_calls::{Framed, Slot};
use c_words::Part;
use std::alloc::Global;
use std::test::Fail;

pub(crate) const NOTHING: Framed = Framed {
    number: 0,
    picture: 0,
    dropped: 0,
};

// A triangle that covers each picture, in units of 1/65536, lowest byte first: (-1, 1), (3, 1), (-1, -3).
pub(crate) const COVER: [u8; 24] = [
    0, 0, 255, 255, 0, 0, 1, 0, 0, 0, 3, 0, 0, 0, 1, 0, 0, 0, 255, 255, 0, 0, 253, 255,
];

pub(crate) const CORNER: [Part; 1] = [Part {
    attribute: 0,
    component: 2,
    count: 2,
}];

// What is told of a frame: its number, how many bytes of picture, and the sum of the numbers of its encoders.
pub(crate) type Told = (u32, usize, u64);

pub(crate) fn told(framed: Framed) -> Told {
    (framed.number, framed.picture, framed.dropped)
}

// A context is made, and an encoder begun, given up, and given up once more: the statuses, and how many encoders are off then.
fn given_up(alloc: Global, context: &mut Slot, encoder: &mut Slot) -> ([u32; 5], u32) {
    let mut off = 9;
    let statuses = [
        vgfx_init(alloc, context, 1, 1),
        vgfx_encoder_begin(alloc, context, encoder, 1, 0, 0),
        vgfx_encoder_drop(alloc, encoder),
        vgfx_encoder_drop(alloc, encoder),
        vgfx_collect(alloc, context, &mut off),
    ];
    (statuses, off)
}

// The statuses of a frame with a buffer and one without, of another encoder, and of the end of the context.
fn from_then_on(
    alloc: Global,
    context: &mut Slot,
    encoder: &mut Slot,
    picture: &mut [u8],
) -> [u32; 4] {
    let mut framed = NOTHING;
    [
        vgfx_frame(alloc, context, picture, &mut framed),
        vgfx_frame(alloc, context, &mut [], &mut framed),
        vgfx_encoder_begin(alloc, context, encoder, 1, 0, 0),
        vgfx_shutdown(alloc, context),
    ]
}

// An encoder that is given up: no frame of its context ends from then on, with a buffer or without one, and its number stays off.
#[test]
fn an_encoder_given_up(rt: HostRuntime) -> Result<(), Fail> {
    let alloc = rt.alloc();
    let mut picture = vec![in alloc; 7u8; 20]?;
    let mut context = Slot::none(alloc);
    let mut encoder = Slot::none(alloc);
    let (statuses, off) = given_up(alloc, &mut context, &mut encoder);
    let later = from_then_on(alloc, &mut context, &mut encoder, &mut picture);
    drop(encoder);
    drop(context);
    assert_eq!(rt; (statuses, off), ([0, 0, 0, 100, 0], 1));
    assert_eq!(rt; later, [102, 102, 102, 0]);
    assert_eq!(rt; picture[..3], b"\x07\x07\x07"[..]);
    Ok(())
}

// A frame that is drawn in passes.
use crate::c_context::{vgfx_encoder_begin, vgfx_init};
use crate::c_encoder::vgfx_encoder_end;
use crate::c_frame::vgfx_frame;
use crate::c_passes::{
    vgfx_band_draw, vgfx_frame_begin, vgfx_frame_end, vgfx_pass_end, vgfx_pass_next,
};
use crate::c_recording::vgfx_encoder_touch;
use crate::c_views::vgfx_set_view_clear;
use crate::tests::{NOTHING, Told, told};
use c_calls::Slot;
use std::alloc::Global;
use std::test::Fail;

// A context of one column and two rows, whose view 0 clears them to a colour and is touched.
fn touched(alloc: Global, context: &mut Slot, encoder: &mut Slot) -> [u32; 5] {
    [
        vgfx_init(alloc, context, 1, 2),
        vgfx_set_view_clear(alloc, context, 0, 1, 1, 2, 3, 255, 0, 0),
        vgfx_encoder_begin(alloc, context, encoder, 1, 0, 0),
        vgfx_encoder_touch(alloc, encoder, 0),
        vgfx_encoder_end(alloc, encoder, 5),
    ]
}

// The first of the bands is drawn.
fn draw_first(alloc: Global, bands: &mut [Slot]) -> u32 {
    if bands.is_empty() {
        return 9;
    }
    vgfx_band_draw(alloc, &mut bands[0])
}

// The frame in passes: the statuses, how many bands each of two passes has, and what is told of the frame.
fn drawn(
    alloc: Global,
    context: &mut Slot,
    bands: &mut [Slot],
    picture: &mut [u8],
) -> ([u32; 7], usize, usize, Told) {
    let mut count = 9;
    let mut left = 9;
    let mut framed = NOTHING;
    let statuses = [
        vgfx_frame_begin(alloc, context),
        vgfx_pass_next(alloc, context, bands, &mut count),
        vgfx_frame(alloc, context, picture, &mut framed),
        draw_first(alloc, bands),
        vgfx_pass_end(alloc, context, bands),
        vgfx_pass_next(alloc, context, bands, &mut left),
        vgfx_frame_end(alloc, context, picture, &mut framed),
    ];
    (statuses, count, left, told(framed))
}

// Each row is a band, of which one is drawn by its call and one at the end of the pass. No other call on the context is done meanwhile.
#[test]
fn a_frame_in_passes(rt: HostRuntime) -> Result<(), Fail> {
    let alloc = rt.alloc();
    let mut picture = vec![in alloc; 7u8; 23]?;
    let mut context = Slot::none(alloc);
    let mut encoder = Slot::none(alloc);
    let mut bands = [Slot::none(alloc), Slot::none(alloc)];
    let made = touched(alloc, &mut context, &mut encoder);
    let frame = drawn(alloc, &mut context, &mut bands, &mut picture);
    drop(bands);
    drop(encoder);
    drop(context);
    assert_eq!(rt; made, [0; 5]);
    assert_eq!(rt; frame, ([0, 0, 104, 0, 0, 0, 0], 2, 0, (0, 17, 5)));
    assert_eq!(rt;
        picture[..],
        b"P6\n1 2\n255\n\x01\x02\x03\x01\x02\x03\x07\x07\x07\x07\x07\x07"[..]
    );
    Ok(())
}

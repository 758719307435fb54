// Pixels that are read between frames, and a state that is taken back: that each is done where it can be.
use crate::c_context::{vgfx_encoder_begin, vgfx_init, vgfx_shutdown};
use crate::c_creates::{vgfx_create_layout, vgfx_create_program, vgfx_create_uniform};
use crate::c_encoder::vgfx_encoder_end;
use crate::c_frame::vgfx_frame;
use crate::c_pixels::vgfx_read_pixels;
use crate::c_recording::{
    vgfx_encoder_discard, vgfx_encoder_set_scissor, vgfx_encoder_set_transient_vertices,
    vgfx_encoder_set_vec4, vgfx_encoder_submit,
};
use crate::c_views::vgfx_set_view_clear;
use crate::tests::{CORNER, COVER, NOTHING, Told, told};
use c_calls::Slot;
use std::alloc::Global;
use std::test::Fail;

// What a draw of one colour needs.
#[derive(Clone, Copy, Drop)]
struct Words {
    layout: u64,
    color: u64,
    solid: u64,
}

// A context is made, what the draw needs, and what view 0 clears.
fn make_all(alloc: Global, context: &mut Slot, of: &mut Words) -> [u32; 5] {
    [
        vgfx_init(alloc, context, 2, 1),
        vgfx_create_layout(alloc, context, &CORNER, &mut of.layout),
        vgfx_create_uniform(alloc, context, b"u_color", 0, &mut of.color),
        vgfx_create_program(alloc, context, 0, &mut of.solid),
        vgfx_set_view_clear(alloc, context, 0, 7, 20, 33, 61, 255, 66051, 9),
    ]
}

// An encoder draws without the scissor that it set before, and ends.
fn draw(alloc: Global, context: &mut Slot, encoder: &mut Slot, of: Words) -> [u32; 7] {
    [
        vgfx_encoder_begin(alloc, context, encoder, 1, 24, 1),
        vgfx_encoder_set_scissor(alloc, encoder, 0, 0, 1, 1),
        vgfx_encoder_discard(alloc, encoder, 8),
        vgfx_encoder_set_vec4(alloc, encoder, of.color, 65536, 0, 0, 65536),
        vgfx_encoder_set_transient_vertices(alloc, encoder, of.layout, &COVER),
        vgfx_encoder_submit(alloc, encoder, 0, of.solid, 0, 255),
        vgfx_encoder_end(alloc, encoder, 3),
    ]
}

// A row of pixels with a byte behind it, in the format of a number, and the status.
fn row_read(alloc: Global, context: &mut Slot, format: u32) -> (u32, [u8; 9]) {
    let mut row = [7; 9];
    let status = vgfx_read_pixels(alloc, context, 0, format, &mut row, 8);
    (status, row)
}

// A row that is a byte too short, and the status.
fn short_row_read(alloc: Global, context: &mut Slot) -> (u32, [u8; 7]) {
    let mut row = [7; 7];
    let status = vgfx_read_pixels(alloc, context, 0, 0, &mut row, 8);
    (status, row)
}

// The frame ends without a buffer.
fn framed(alloc: Global, context: &mut Slot) -> (u32, Told) {
    let mut framed = NOTHING;
    let status = vgfx_frame(alloc, context, &mut [], &mut framed);
    (status, told(framed))
}

// A frame of two pixels that is cleared in depth and stencil and drawn in a colour, whose scissor was taken back; its pixels, in each format, in a row
// of nine bytes.
#[test]
fn pixels_of_a_frame(rt: HostRuntime) -> Result<(), Fail> {
    let alloc = rt.alloc();
    let mut of = Words {
        layout: 0,
        color: 0,
        solid: 0,
    };
    let mut context = Slot::none(alloc);
    let mut encoder = Slot::none(alloc);
    let made = make_all(alloc, &mut context, &mut of);
    let drawn = draw(alloc, &mut context, &mut encoder, of);
    let ended = framed(alloc, &mut context);
    let rgba = row_read(alloc, &mut context, 0);
    let bgra = row_read(alloc, &mut context, 2);
    let depths = row_read(alloc, &mut context, 1);
    let short = short_row_read(alloc, &mut context);
    let last = vgfx_shutdown(alloc, &mut context);
    drop(encoder);
    drop(context);
    assert_eq!(rt; (made, drawn, last), ([0; 5], [0; 7], 0));
    assert_eq!(rt; ended, (0, (0, 0, 3)));
    assert_eq!(rt; rgba, (0, [255, 0, 0, 255, 255, 0, 0, 255, 7]));
    assert_eq!(rt; bgra, (0, [0, 0, 255, 255, 0, 0, 255, 255, 7]));
    assert_eq!(rt; depths, (0, [3, 2, 1, 9, 3, 2, 1, 9, 7]));
    assert_eq!(rt; short, (103, [7; 7]));
    Ok(())
}

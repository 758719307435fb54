// Pictures of what exports record, and what no clause says: that each call which takes memory is done where there is some, and that what an
// encoder ended with is found as it was recorded.
use crate::c_context::{vgfx_collect, vgfx_encoder_begin, vgfx_init, vgfx_shutdown};
use crate::c_creates::{
    vgfx_create_filled_texture, vgfx_create_frame_buffer, vgfx_create_index_buffer,
    vgfx_create_layout, vgfx_create_program, vgfx_create_texture, vgfx_create_uniform,
    vgfx_create_vertex_buffer,
};
use crate::c_encoder::vgfx_encoder_end;
use crate::c_frame::vgfx_frame;
use crate::c_recording::{
    vgfx_encoder_blit, vgfx_encoder_set_indices, vgfx_encoder_set_int, vgfx_encoder_set_scissor,
    vgfx_encoder_set_texture, vgfx_encoder_set_transient_vertices, vgfx_encoder_set_vec4,
    vgfx_encoder_set_vertices, vgfx_encoder_submit,
};
use crate::c_updates::{vgfx_update_buffer, vgfx_update_texture};
use crate::tests::{CORNER, COVER, NOTHING, Told, told};
use c_calls::Slot;
use std::alloc::Global;
use std::test::Fail;

// What a draw of one colour needs.
#[derive(Clone, Copy, Drop)]
struct Solid {
    layout: u64,
    color: u64,
    program: u64,
}

// Makes it, and answers 0 where all was done.
fn make_solid(alloc: Global, context: &mut Slot, of: &mut Solid) -> u32 {
    vgfx_create_layout(alloc, context, &CORNER, &mut of.layout)
        | vgfx_create_uniform(alloc, context, b"u_color", 0, &mut of.color)
        | vgfx_create_program(alloc, context, 0, &mut of.program)
}

// Begins an encoder that draws its pixel of a row in a red of its own, and ends it. Answers 0 where all was done.
fn draw_pixel(alloc: Global, context: &mut Slot, of: Solid, number: u8) -> u32 {
    let mut encoder = Slot::none(alloc);
    let red = number as i32 * 8224;
    vgfx_encoder_begin(alloc, context, &mut encoder, 1, 24, 1)
        | vgfx_encoder_set_scissor(alloc, &mut encoder, number as u16, 0, 1, 1)
        | vgfx_encoder_set_vec4(alloc, &mut encoder, of.color, red, 0, 0, 65536)
        | vgfx_encoder_set_transient_vertices(alloc, &mut encoder, of.layout, &COVER)
        | vgfx_encoder_submit(alloc, &mut encoder, 0, of.program, 0, 255)
        | vgfx_encoder_end(alloc, &mut encoder, 5)
}

// Eight encoders draw a pixel each. Answers 0 where all was done.
fn draw_row(alloc: Global, context: &mut Slot, of: Solid) -> u32 {
    let mut statuses = 0;
    for number in 0..8u8 {
        statuses = statuses | draw_pixel(alloc, context, of, number);
    }
    statuses
}

// A context is made, and a first frame of eight encoders: the statuses, how many encoders are off before its end, and what is told of it.
fn first_frame(
    alloc: Global,
    context: &mut Slot,
    of: &mut Solid,
    picture: &mut [u8],
) -> ([u32; 5], u32, Told) {
    let mut off = 9;
    let mut framed = NOTHING;
    let statuses = [
        vgfx_init(alloc, context, 8, 1),
        make_solid(alloc, context, of),
        draw_row(alloc, context, *of),
        vgfx_collect(alloc, context, &mut off),
        vgfx_frame(alloc, context, picture, &mut framed),
    ];
    (statuses, off, told(framed))
}

// The next frame of eight encoders, and the end of the context: the statuses, and what is told of the frame.
fn second_frame(
    alloc: Global,
    context: &mut Slot,
    of: Solid,
    picture: &mut [u8],
) -> ([u32; 3], Told) {
    let mut framed = NOTHING;
    let statuses = [
        draw_row(alloc, context, of),
        vgfx_frame(alloc, context, picture, &mut framed),
        vgfx_shutdown(alloc, context),
    ];
    (statuses, told(framed))
}

// A row of eight reds, and six bytes behind it.
const ROW: &[u8] =
    b"P6\n8 1\n255\n\x00\x00\x00\x20\x00\x00\x40\x00\x00\x60\x00\x00\x80\x00\x00\xa0\x00\x00\xc0\x00\x00\xe0\x00\x00\x07\x07\x07\x07\x07\x07";

// Eight encoders of a frame, each of which draws one pixel, and then eight of the next frame.
#[test]
fn eight_encoders_of_two_frames(rt: HostRuntime) -> Result<(), Fail> {
    let alloc = rt.alloc();
    let mut of = Solid {
        layout: 0,
        color: 0,
        program: 0,
    };
    let mut picture = vec![in alloc; 7u8; 41]?;
    let mut again = vec![in alloc; 7u8; 41]?;
    let mut context = Slot::none(alloc);
    let (statuses, off, first) = first_frame(alloc, &mut context, &mut of, &mut picture);
    let (later, second) = second_frame(alloc, &mut context, of, &mut again);
    drop(context);
    assert_eq!(rt; (statuses, off, later), ([0; 5], 0, [0; 3]));
    assert_eq!(rt; (first, second), ((0, 35, 40), (1, 35, 40)));
    assert!(rt; picture.as_slice() == ROW && again.as_slice() == ROW);
    Ok(())
}

// What a draw needs that samples a texture: the numbers of its vertices, indices, uniform and program, of the textures of a blit, and of a
// frame buffer.
#[derive(Clone, Copy, Drop)]
struct Sampled {
    layout: u64,
    corners: u64,
    indices: u64,
    stage: u64,
    program: u64,
    to: u64,
    from: u64,
    target: u64,
}

const UNMADE: Sampled = Sampled {
    layout: 0,
    corners: 0,
    indices: 0,
    stage: 0,
    program: 0,
    to: 0,
    from: 0,
    target: 0,
};

// A context is made, and what the draw reads.
fn make_read(alloc: Global, context: &mut Slot, of: &mut Sampled) -> [u32; 7] {
    [
        vgfx_init(alloc, context, 1, 1),
        vgfx_create_layout(alloc, context, &CORNER, &mut of.layout),
        vgfx_create_vertex_buffer(alloc, context, of.layout, &[0u8; 24], &mut of.corners),
        vgfx_update_buffer(alloc, context, of.corners, 0, &COVER),
        vgfx_create_index_buffer(alloc, context, &[0u8, 0, 1, 0, 2, 0], &mut of.indices),
        vgfx_create_uniform(alloc, context, b"s_tex", 1, &mut of.stage),
        vgfx_create_program(alloc, context, 2, &mut of.program),
    ]
}

// The textures of the blit are made, and a frame buffer, and the source is updated.
fn make_textures(alloc: Global, context: &mut Slot, of: &mut Sampled) -> [u32; 4] {
    [
        vgfx_create_texture(alloc, context, 1, 1, 0, 1, &[1u8, 2, 3, 4], &mut of.to),
        vgfx_create_filled_texture(alloc, context, 1, 1, 0, 0, 5, 6, 7, 8, &mut of.from),
        vgfx_create_frame_buffer(alloc, context, of.from, 0, &mut of.target),
        vgfx_update_texture(alloc, context, of.from, 0, 0, 1, 1, b"abcd"),
    ]
}

// An encoder of the context blits, draws and ends.
fn draw_sampled(alloc: Global, context: &mut Slot, encoder: &mut Slot, of: Sampled) -> [u32; 8] {
    [
        vgfx_encoder_begin(alloc, context, encoder, 2, 0, 1),
        vgfx_encoder_blit(alloc, encoder, 0, of.to, 0, 0, of.from, 0, 0, 1, 1),
        vgfx_encoder_set_vertices(alloc, encoder, of.corners, 0, 3),
        vgfx_encoder_set_indices(alloc, encoder, of.indices, 0, 3),
        vgfx_encoder_set_texture(alloc, encoder, 1, of.to),
        vgfx_encoder_set_int(alloc, encoder, of.stage, 1),
        vgfx_encoder_submit(alloc, encoder, 0, of.program, 0, 255),
        vgfx_encoder_end(alloc, encoder, 0),
    ]
}

// A draw whose vertices come from an updated buffer and its indices from another, which samples a texture; of it a blit copied the one texel
// out of a texture that was updated. A frame buffer holds the second.
#[test]
fn a_sampled_picture(rt: HostRuntime) -> Result<(), Fail> {
    let alloc = rt.alloc();
    let mut picture = vec![in alloc; 0u8; 20]?;
    let mut of = UNMADE;
    let mut framed = NOTHING;
    let mut context = Slot::none(alloc);
    let mut encoder = Slot::none(alloc);
    let read = make_read(alloc, &mut context, &mut of);
    let textures = make_textures(alloc, &mut context, &mut of);
    let drawn = draw_sampled(alloc, &mut context, &mut encoder, of);
    let status = vgfx_frame(alloc, &mut context, &mut picture, &mut framed);
    drop(encoder);
    drop(context);
    assert_eq!(rt; (read, textures, drawn), ([0; 7], [0; 4], [0; 8]));
    assert_eq!(rt; (status, framed.picture), (0, 14));
    assert_eq!(rt; picture[..14], b"P6\n1 1\n255\nabc"[..]);
    Ok(())
}

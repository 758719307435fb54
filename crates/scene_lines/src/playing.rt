// Lines in their order.
ghost use Rattle.std.specs.Prelude.{◌≡◌, ◌≤◌, length, map, MatchResult};
ghost use Rattle.std.specs.List.{AllByRecursion};
ghost use Rattle.scene_text.specs.Seen.{name_seen, resource_line_seen};
ghost use Rattle.scene_lines.specs.Names.{LineHasPlace};
ghost use Rattle.scene_lines.specs.Played.{LineAnswered, one_if, LinesPlayed, FrontPlayed};

use crate::creating::{
    frame_buffer, index_buffer, layout, program, texture, uniform, vertex_buffer,
};
use crate::reasons::Reason;
use crate::setting::{
    order, view_clear, view_mode, view_rect, view_reset, view_scissor, view_target, view_transform,
};
use crate::updating::{destroy, texel_update, update};
use gfx_words::Handle;
use resource_book::ResourceCalls;
use scene_text::{ResLine, SceneName};
use std::alloc::{AllocError, Global};

/// Plays a line; answers why it is dropped, or none where it is done.
pub fn play_line<B: ResourceCalls>(
    alloc: Global,
    calls: &mut B,
    handles: &mut [Option<Handle>],
    names: &[SceneName],
    line: &ResLine,
) -> Result<Option<Reason>, AllocError>
    requires { LineHasPlace (length handles.old) (resource_line_seen line.now) }
    ensures answer { LineAnswered result (map name_seen names.now) (resource_line_seen line.now) (B.book calls.old) (B.book calls.new) handles.old handles.new }
    ensures rest { B.rest calls.new ≡ B.rest calls.old }
    ensures many { length handles.new ≡ length handles.old }
{
    match line {
        ResLine::Layout { name, parts } => layout(calls, handles, *name, parts.as_slice()),
        ResLine::VertexBuffer {
            name,
            layout,
            bytes,
        } => vertex_buffer(calls, handles, *name, *layout, bytes.as_slice()),
        ResLine::IndexBuffer { name, bytes } => index_buffer(
            calls,
            handles,
            *name,
            bytes.as_slice(),
        ),
        ResLine::Texture {
            name,
            width,
            height,
            format,
            blit_dst,
            source,
        } => texture(
            alloc, calls, handles, *name, *width, *height, *format, *blit_dst, source,
        ),
        ResLine::FrameBuffer { name, color, depth } => {
            frame_buffer(calls, handles, *name, *color, *depth)
        }
        ResLine::Program { name, kind } => program(calls, handles, *name, *kind),
        ResLine::Uniform { name, kind } => uniform(calls, handles, names, *name, *kind),
        ResLine::Update {
            name,
            offset,
            bytes,
        } => update(calls, handles, *name, *offset, bytes.as_slice()),
        ResLine::TexUpdate { name, rect, bytes } => {
            texel_update(calls, handles, *name, *rect, bytes.as_slice())
        }
        ResLine::Destroy { name } => destroy(calls, handles, *name),
        ResLine::ViewRect { view, rect } => view_rect(calls, handles, *view, *rect),
        ResLine::ViewScissor { view, rect } => view_scissor(calls, handles, *view, *rect),
        ResLine::ViewClear { view, clear } => view_clear(calls, handles, *view, *clear),
        ResLine::ViewMode { view, mode } => view_mode(calls, handles, *view, *mode),
        ResLine::ViewTarget { view, target } => view_target(calls, handles, *view, *target),
        ResLine::ViewTransform { view, transform } => view_transform(
            calls, handles, *view, *transform,
        ),
        ResLine::ViewReset { view } => view_reset(calls, handles, *view),
        ResLine::Order { views } => order(calls, handles, views.as_slice()),
    }
}

/// How many lines a line drops.
fn counted(dropped: Option<Reason>) -> u32
    ensures number { result ≡ one_if dropped }
    ensures most { result ≤ 1 }
{
    match dropped {
        Some(_) => 1,
        None => 0,
    }
}

/// Plays lines of the API thread in their order; answers how many were dropped: those whose call was refused, or that name what
/// stands for nothing.
///
/// `handles` has what each name stands for, and each name of the scene has its place there. Where memory is wanting, the lines in
/// front of some line whose call takes memory were played, and no other.
pub fn play_lines<B: ResourceCalls>(
    alloc: Global,
    calls: &mut B,
    handles: &mut [Option<Handle>],
    names: &[SceneName],
    lines: &[ResLine],
) -> Result<u32, AllocError>
    requires places { AllByRecursion (LineHasPlace (length handles.old)) (map resource_line_seen lines.now) }
    requires few { length lines.now ≤ 4294967295 }
    ensures played { MatchResult result
        (λ dropped. LinesPlayed (map name_seen names.now) (map resource_line_seen lines.now) dropped (B.book calls.old) (B.book calls.new) handles.old handles.new)
        (λ _. FrontPlayed (map name_seen names.now) (map resource_line_seen lines.now) (B.book calls.old) (B.book calls.new) handles.old handles.new) }
    ensures rest { B.rest calls.new ≡ B.rest calls.old }
{
    let mut dropped: u32 = 0;
    for line in lines {
        let is_dropped = play_line(alloc, calls, handles, names, line)?;
        dropped += counted(is_dropped);
    }
    Ok(dropped)
}

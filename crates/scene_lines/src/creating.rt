// The lines that make things.
ghost use Rattle.std.specs.Prelude.{◌≡◌, ◌<◌, length, List, [], ℕ, map, Some, IfOk, MatchResult, slice_index_or};
ghost use Rattle.gfx_model.specs.Resources.{create_frame_buffer};
ghost use Rattle.gfx_words.specs.Seen.{format_seen, program_seen, uniform_seen};
ghost use Rattle.scene_model.specs.Scene as model;
ghost use Rattle.scene_text.specs.Seen.{part_seen, name_seen};
ghost use Rattle.gfx_words.specs.Seen.{own_source_seen};
ghost use Rattle.scene_lines.specs.Played.{LineAnswered, IsCalled, IsSame};

use crate::layouts::layout_of;
use crate::naming::{bind, named, option_named};
use crate::reasons::Reason;
use gfx_words::{Format, Handle, ProgramKind, TexSource, UniformKind};
use resource_book::ResourceCalls;
use scene_text::{LayoutPart, SceneName};
use std::alloc::{AllocError, Global};

pub(crate) fn layout<B: ResourceCalls>(
    calls: &mut B,
    handles: &mut [Option<Handle>],
    name: u32,
    parts: &[LayoutPart],
) -> Result<Option<Reason>, AllocError>
    requires { name < length handles.old }
    ensures answer { (names : List (List ℕ)) → LineAnswered result names (model.layout_line name (map part_seen parts.now)) (B.book calls.old) (B.book calls.new) handles.old handles.new }
    ensures rest { B.rest calls.new ≡ B.rest calls.old }
{
    match layout_of(parts) {
        Some(layout) => {
            let answer = calls.create_layout(layout);
            bind(handles, name, answer)
        }
        None => Ok(Some(Reason::NoLayout)),
    }
}

pub(crate) fn vertex_buffer<B: ResourceCalls>(
    calls: &mut B,
    handles: &mut [Option<Handle>],
    name: u32,
    layout: u32,
    bytes: &[u8],
) -> Result<Option<Reason>, AllocError>
    requires { name < length handles.old }
    ensures answer { (names : List (List ℕ)) → LineAnswered result names (model.vertex_buffer_line name layout bytes.now) (B.book calls.old) (B.book calls.new) handles.old handles.new }
    ensures rest { B.rest calls.new ≡ B.rest calls.old }
{
    match named(handles, layout) {
        Some(layout) => {
            let answer = calls.create_vertex_buffer(layout, bytes);
            bind(handles, name, answer)
        }
        None => Ok(Some(Reason::Unnamed)),
    }
}

pub(crate) fn index_buffer<B: ResourceCalls>(
    calls: &mut B,
    handles: &mut [Option<Handle>],
    name: u32,
    bytes: &[u8],
) -> Result<Option<Reason>, AllocError>
    requires { name < length handles.old }
    ensures answer { (names : List (List ℕ)) → LineAnswered result names (model.index_buffer_line name bytes.now) (B.book calls.old) (B.book calls.new) handles.old handles.new }
    ensures rest { B.rest calls.new ≡ B.rest calls.old }
{
    let answer = calls.create_index_buffer(bytes);
    bind(handles, name, answer)
}

/// The same source, with a copy of its bytes.
fn copied(alloc: Global, source: &TexSource) -> Result<TexSource, AllocError>
    ensures { IfOk result (λ s. own_source_seen s ≡ own_source_seen source.now) }
{
    match source {
        TexSource::Fill(color) => Ok(TexSource::Fill(*color)),
        TexSource::Bytes(bytes) => {
            let bytes = Vec::from_slice(alloc, bytes)?;
            Ok(TexSource::Bytes(bytes))
        }
    }
}

pub(crate) fn texture<B: ResourceCalls>(
    alloc: Global,
    calls: &mut B,
    handles: &mut [Option<Handle>],
    name: u32,
    width: u16,
    height: u16,
    format: Format,
    blit_dst: bool,
    source: &TexSource,
) -> Result<Option<Reason>, AllocError>
    requires { name < length handles.old }
    ensures answer { (names : List (List ℕ)) → LineAnswered result names (model.texture_line name width height (format_seen format) blit_dst (own_source_seen source.now)) (B.book calls.old) (B.book calls.new) handles.old handles.new }
    ensures rest { B.rest calls.new ≡ B.rest calls.old }
{
    let source = copied(alloc, source)?;
    let answer = calls.create_texture(width, height, format, blit_dst, source);
    bind(handles, name, answer)
}

/// A frame buffer of a colour texture that is there.
fn target<B: ResourceCalls>(
    calls: &mut B,
    handles: &mut [Option<Handle>],
    name: u32,
    color: Handle,
    depth: Option<Handle>,
) -> Result<Option<Reason>, AllocError>
    requires { name < length handles.old }
    ensures answer { MatchResult result
        (λ dropped. IsCalled dropped (Some (create_frame_buffer color depth)) Reason.Unnamed (Some name) (B.book calls.old) (B.book calls.new) handles.old handles.new)
        (λ _. IsSame (B.book calls.old) (B.book calls.new) handles.old handles.new) }
    ensures rest { B.rest calls.new ≡ B.rest calls.old }
{
    let answer = calls.create_frame_buffer(color, depth);
    bind(handles, name, answer)
}

pub(crate) fn frame_buffer<B: ResourceCalls>(
    calls: &mut B,
    handles: &mut [Option<Handle>],
    name: u32,
    color: u32,
    depth: Option<u32>,
) -> Result<Option<Reason>, AllocError>
    requires { name < length handles.old }
    ensures answer { (names : List (List ℕ)) → LineAnswered result names (model.frame_buffer_line name color depth) (B.book calls.old) (B.book calls.new) handles.old handles.new }
    ensures rest { B.rest calls.new ≡ B.rest calls.old }
{
    let Some(color) = named(handles, color) else {
        return Ok(Some(Reason::Unnamed));
    };
    let Some(depth) = option_named(handles, depth) else {
        return Ok(Some(Reason::Unnamed));
    };
    let done = target(calls, handles, name, color, depth)?;
    Ok(done)
}

pub(crate) fn program<B: ResourceCalls>(
    calls: &mut B,
    handles: &mut [Option<Handle>],
    name: u32,
    kind: ProgramKind,
) -> Result<Option<Reason>, AllocError>
    requires { name < length handles.old }
    ensures answer { (names : List (List ℕ)) → LineAnswered result names (model.program_line name (program_seen kind)) (B.book calls.old) (B.book calls.new) handles.old handles.new }
    ensures rest { B.rest calls.new ≡ B.rest calls.old }
{
    let answer = calls.create_program(kind);
    bind(handles, name, answer)
}

/// The text of a name; none where there is no such name.
fn text_of(names: &[SceneName], name: u32) -> &[u8]
    ensures { result.now ≡ slice_index_or (map name_seen names.now) name [] }
{
    match names.get(name as usize) {
        Some(name) => name.text.as_slice(),
        None => &[],
    }
}

pub(crate) fn uniform<B: ResourceCalls>(
    calls: &mut B,
    handles: &mut [Option<Handle>],
    names: &[SceneName],
    name: u32,
    kind: UniformKind,
) -> Result<Option<Reason>, AllocError>
    requires { name < length handles.old }
    ensures answer { LineAnswered result (map name_seen names.now) (model.uniform_line name (uniform_seen kind)) (B.book calls.old) (B.book calls.new) handles.old handles.new }
    ensures rest { B.rest calls.new ≡ B.rest calls.old }
{
    let answer = calls.create_uniform(text_of(names, name), kind);
    bind(handles, name, answer)
}

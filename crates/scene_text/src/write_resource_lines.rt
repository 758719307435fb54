// How resource and view lines are written.
ghost use Rattle.std.specs.Prelude.{◌≡◌, ◌++◌, ◌∷◌, [], map, codes, IfOk};
ghost use Rattle.fix_math.specs.Seen.{rect_seen};
ghost use Rattle.gfx_words.specs.Kinds.{format_seen};
ghost use Rattle.view_table.specs.Seen.{clear_seen};
ghost use Rattle.scene_model.specs.Scene as model;
ghost use Rattle.spelling_model.specs.FieldSpelling.{source_spelled};
ghost use Rattle.spelling_model.specs.LineSpelling.{resource_fields};
ghost use Rattle.spelling_model.specs.Written.{line_text};
ghost use Rattle.gfx_words.specs.Seen.{own_source_seen};
ghost use Rattle.scene_text.specs.Seen.{name_seen, resource_line_seen};
ghost use Rattle.scene_text.specs.Spelled.{spelled};

use crate::scene::{ResLine, SceneName};
use crate::spelled::{
    Spelled, put_line, put_number_line, put_part_line, put_view_integer_line, put_view_line,
};
use crate::spelled_words::{
    destination_text, format_text, mode_text, name_text, optional_text, program_text, uniform_text,
};
use fix_math::Rect;
use gfx_words::{Format, TexSource};
use std::alloc::AllocError;
use view_table::Clear;

/// What a texture's texels are at first.
fn source_field(source: &TexSource) -> Spelled<'_>
    ensures { spelled result ≡ source_spelled (own_source_seen source.now) }
{
    match source {
        TexSource::Fill(color) => Spelled::Fill(*color),
        TexSource::Bytes(bytes) => Spelled::Texels(bytes),
    }
}

/// `texture NAME W H FORMAT DST SOURCE`
fn put_texture<'a>(
    text: &mut Vec<u8>,
    names: &'a [SceneName],
    name: u32,
    sides: (u16, u16),
    kind: (Format, bool),
    source: &'a TexSource,
) -> Result<(), AllocError>
    ensures { IfOk result (λ _. text.new.items ≡ text.old.items ++ line_text (resource_fields (map name_seen names.now) (model.texture_line name sides.0 sides.1 (format_seen kind.0) kind.1 (own_source_seen source.now)))) }
{
    let fields = [
        Spelled::Text(name_text(names, name)),
        Spelled::Number(u64::from(sides.0)),
        Spelled::Number(u64::from(sides.1)),
        Spelled::Text(format_text(kind.0)),
        Spelled::Text(destination_text(kind.1)),
        source_field(source),
    ];
    put_line(text, b"texture", &fields)
}

/// `texupdate NAME X Y W H HEX`
fn put_texel_update<'a>(
    text: &mut Vec<u8>,
    names: &'a [SceneName],
    name: u32,
    rect: Rect,
    bytes: &'a [u8],
) -> Result<(), AllocError>
    ensures { IfOk result (λ _. text.new.items ≡ text.old.items ++ line_text (resource_fields (map name_seen names.now) (model.texel_update_line name (rect_seen rect) bytes.now))) }
{
    let fields = [
        Spelled::Text(name_text(names, name)),
        Spelled::Number(u64::from(rect.x)),
        Spelled::Number(u64::from(rect.y)),
        Spelled::Number(u64::from(rect.w)),
        Spelled::Number(u64::from(rect.h)),
        Spelled::Hex(bytes),
    ];
    put_line(text, b"texupdate", &fields)
}

/// `view V rect X Y W H`
fn put_rect(text: &mut Vec<u8>, view: u16, rect: Rect) -> Result<(), AllocError>
    ensures { IfOk result (λ _. text.new.items ≡ text.old.items ++ line_text (resource_fields [] (model.rect_line view (rect_seen rect)))) }
{
    let fields = [
        Spelled::Number(u64::from(rect.x)),
        Spelled::Number(u64::from(rect.y)),
        Spelled::Number(u64::from(rect.w)),
        Spelled::Number(u64::from(rect.h)),
    ];
    put_view_line(text, view, b"rect", &fields)
}

/// `view V scissor X Y W H`
fn put_scissor(text: &mut Vec<u8>, view: u16, rect: Rect) -> Result<(), AllocError>
    ensures { IfOk result (λ _. text.new.items ≡ text.old.items ++ line_text (resource_fields [] (model.view_scissor_line view (rect_seen rect)))) }
{
    let fields = [
        Spelled::Number(u64::from(rect.x)),
        Spelled::Number(u64::from(rect.y)),
        Spelled::Number(u64::from(rect.w)),
        Spelled::Number(u64::from(rect.h)),
    ];
    put_view_line(text, view, b"scissor", &fields)
}

/// `view V clear FLAGS COLOR DEPTH STENCIL`
fn put_clear(text: &mut Vec<u8>, view: u16, clear: Clear) -> Result<(), AllocError>
    ensures { IfOk result (λ _. text.new.items ≡ text.old.items ++ line_text (resource_fields [] (model.clear_line view (clear_seen clear)))) }
{
    let fields = [
        Spelled::Number(u64::from(clear.flags)),
        Spelled::Color(clear.color),
        Spelled::Number(u64::from(clear.depth)),
        Spelled::Number(u64::from(clear.stencil)),
    ];
    put_view_line(text, view, b"clear", &fields)
}

/// A resource or view line at the end of a text.
pub fn put_resource_line<'a>(
    text: &mut Vec<u8>,
    names: &'a [SceneName],
    line: &'a ResLine,
) -> Result<(), AllocError>
    ensures { IfOk result (λ _. text.new.items ≡ text.old.items ++ line_text (resource_fields (map name_seen names.now) (resource_line_seen line.now))) }
{
    match line {
        ResLine::Layout { name, parts } => {
            let fields = [Spelled::Text(name_text(names, *name))];
            put_part_line(text, b"layout", &fields, parts.as_slice())
        }
        ResLine::VertexBuffer {
            name,
            layout,
            bytes,
        } => {
            let fields = [
                Spelled::Text(name_text(names, *name)),
                Spelled::Text(name_text(names, *layout)),
                Spelled::Hex(bytes.as_slice()),
            ];
            put_line(text, b"vb", &fields)
        }
        ResLine::IndexBuffer { name, bytes } => {
            let fields = [
                Spelled::Text(name_text(names, *name)),
                Spelled::Hex(bytes.as_slice()),
            ];
            put_line(text, b"ib", &fields)
        }
        ResLine::Texture {
            name,
            width,
            height,
            format,
            blit_dst,
            source,
        } => put_texture(
            text,
            names,
            *name,
            (*width, *height),
            (*format, *blit_dst),
            source,
        ),
        ResLine::FrameBuffer { name, color, depth } => {
            let fields = [
                Spelled::Text(name_text(names, *name)),
                Spelled::Text(name_text(names, *color)),
                Spelled::Text(optional_text(names, *depth)),
            ];
            put_line(text, b"fb", &fields)
        }
        ResLine::Program { name, kind } => {
            let fields = [
                Spelled::Text(name_text(names, *name)),
                Spelled::Text(program_text(*kind)),
            ];
            put_line(text, b"program", &fields)
        }
        ResLine::Uniform { name, kind } => {
            let fields = [
                Spelled::Text(name_text(names, *name)),
                Spelled::Text(uniform_text(*kind)),
            ];
            put_line(text, b"uniform", &fields)
        }
        ResLine::Update {
            name,
            offset,
            bytes,
        } => {
            let fields = [
                Spelled::Text(name_text(names, *name)),
                Spelled::Number(u64::from(*offset)),
                Spelled::Hex(bytes.as_slice()),
            ];
            put_line(text, b"update", &fields)
        }
        ResLine::TexUpdate { name, rect, bytes } => {
            put_texel_update(text, names, *name, *rect, bytes.as_slice())
        }
        ResLine::Destroy { name } => {
            let fields = [Spelled::Text(name_text(names, *name))];
            put_line(text, b"destroy", &fields)
        }
        ResLine::ViewRect { view, rect } => put_rect(text, *view, *rect),
        ResLine::ViewScissor { view, rect } => put_scissor(text, *view, *rect),
        ResLine::ViewClear { view, clear } => put_clear(text, *view, *clear),
        ResLine::ViewMode { view, mode } => {
            let fields = [Spelled::Text(mode_text(*mode))];
            put_view_line(text, *view, b"mode", &fields)
        }
        ResLine::ViewTarget { view, target } => {
            let fields = [Spelled::Text(optional_text(names, *target))];
            put_view_line(text, *view, b"target", &fields)
        }
        ResLine::ViewTransform { view, transform } => {
            put_view_integer_line(text, *view, b"transform", &transform.m)
        }
        ResLine::ViewReset { view } => put_view_line(text, *view, b"reset", &[]),
        ResLine::Order { views } => put_number_line(text, b"order", views.as_slice()),
    }
}

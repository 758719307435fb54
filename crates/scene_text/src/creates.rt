// The forms of lines that bind a name.
ghost use Rattle.scene_model.specs.Grammar.{layout_form, vertex_buffer_form, index_buffer_form, texture_form, frame_buffer_form, program_form, uniform_form};
ghost use Rattle.text_fields.specs.Fields.{texts};
ghost use Rattle.scene_text.specs.Gives.{MayGive};
ghost use Rattle.scene_text.specs.Seen.{resource_line_seen};
ghost use Rattle.scene_model.specs.Grammar.{whole_language};

use crate::bytes::{hex_bytes, source_field};
use crate::fault::LineFault;
use crate::fields::{field, has_count, has_count_from};
use crate::names::Names;
use crate::numbers::u16_number;
use crate::parts::parts;
use crate::scene::ResLine;
use crate::words::{destination_word, format_word, program_word, uniform_word};
use std::alloc::Global;

/// `layout NAME PART ..`
pub fn layout(alloc: Global, names: &mut Names, fields: &[&[u8]]) -> Result<ResLine, LineFault>
    ensures { MayGive (λ l. (resource_line_seen l, names.new)) result (layout_form names.old (texts fields.now)) }
{
    has_count_from(fields, 3, 17)?;
    let name = names.create(alloc, field(fields, 1), false)?;
    let parts = parts(alloc, fields, 2)?;
    Ok(ResLine::Layout { name, parts })
}

/// `vb NAME LAYOUT HEX`; the layout is not the line's own name.
pub fn vertex_buffer(
    alloc: Global,
    names: &mut Names,
    fields: &[&[u8]],
) -> Result<ResLine, LineFault>
    ensures { MayGive (λ l. (resource_line_seen l, names.new)) result (vertex_buffer_form names.old (texts fields.now)) }
{
    has_count(fields, 4)?;
    names.place(field(fields, 1), false)?;
    let layout = names.used(field(fields, 2))?;
    let bytes = hex_bytes(alloc, field(fields, 3))?;
    let name = names.create(alloc, field(fields, 1), false)?;
    Ok(ResLine::VertexBuffer {
        name,
        layout,
        bytes,
    })
}

/// `ib NAME HEX`
pub fn index_buffer(
    alloc: Global,
    names: &mut Names,
    fields: &[&[u8]],
) -> Result<ResLine, LineFault>
    ensures { MayGive (λ l. (resource_line_seen l, names.new)) result (index_buffer_form names.old (texts fields.now)) }
{
    has_count(fields, 3)?;
    let name = names.create(alloc, field(fields, 1), false)?;
    let bytes = hex_bytes(alloc, field(fields, 2))?;
    Ok(ResLine::IndexBuffer { name, bytes })
}

/// `texture NAME W H FORMAT DST SOURCE`
pub fn texture(alloc: Global, names: &mut Names, fields: &[&[u8]]) -> Result<ResLine, LineFault>
    ensures { MayGive (λ l. (resource_line_seen l, names.new)) result (texture_form names.old (texts fields.now)) }
{
    has_count(fields, 7)?;
    let name = names.create(alloc, field(fields, 1), false)?;
    let width = u16_number(field(fields, 2))?;
    let height = u16_number(field(fields, 3))?;
    let format = format_word(field(fields, 4))?;
    let blit_dst = destination_word(field(fields, 5))?;
    let source = source_field(alloc, field(fields, 6))?;
    Ok(ResLine::Texture {
        name,
        width,
        height,
        format,
        blit_dst,
        source,
    })
}

/// `fb NAME COLOR_NAME DEPTH_NAME`; neither texture is the line's own name.
pub fn frame_buffer(
    alloc: Global,
    names: &mut Names,
    fields: &[&[u8]],
) -> Result<ResLine, LineFault>
    ensures { MayGive (λ l. (resource_line_seen l, names.new)) result (frame_buffer_form names.old (texts fields.now)) }
{
    has_count(fields, 4)?;
    names.place(field(fields, 1), false)?;
    let color = names.used(field(fields, 2))?;
    let depth = names.optional(field(fields, 3))?;
    let name = names.create(alloc, field(fields, 1), false)?;
    Ok(ResLine::FrameBuffer { name, color, depth })
}

/// `program NAME KIND`
pub fn program(alloc: Global, names: &mut Names, fields: &[&[u8]]) -> Result<ResLine, LineFault>
    ensures { MayGive (λ l. (resource_line_seen l, names.new)) result (program_form whole_language names.old (texts fields.now)) }
{
    has_count(fields, 3)?;
    let name = names.create(alloc, field(fields, 1), false)?;
    let kind = program_word(field(fields, 2))?;
    Ok(ResLine::Program { name, kind })
}

/// `uniform NAME KIND`
pub fn uniform(alloc: Global, names: &mut Names, fields: &[&[u8]]) -> Result<ResLine, LineFault>
    ensures { MayGive (λ l. (resource_line_seen l, names.new)) result (uniform_form whole_language names.old (texts fields.now)) }
{
    has_count(fields, 3)?;
    let name = names.create(alloc, field(fields, 1), true)?;
    let kind = uniform_word(field(fields, 2))?;
    Ok(ResLine::Uniform { name, kind })
}

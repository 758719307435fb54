// Resource and view lines.
ghost use Rattle.std.specs.Prelude.{◌≤◌};
ghost use Rattle.scene_model.specs.Grammar.{resource_form};
ghost use Rattle.text_fields.specs.Fields.{texts};
ghost use Rattle.scene_text.specs.Gives.{MayGive};
ghost use Rattle.scene_text.specs.Seen.{resource_line_seen};
ghost use Rattle.scene_text.specs.SeenWords.{word_seen};
ghost use Rattle.scene_model.specs.Grammar.{whole_language};

use crate::creates::{
    frame_buffer, index_buffer, layout, program, texture, uniform, vertex_buffer,
};
use crate::fault::{Cause, LineFault};
use crate::names::Names;
use crate::scene::ResLine;
use crate::updates::{destroy, texel_update, update};
use crate::view_lines::{order, view};
use crate::words::Word;
use std::alloc::Global;

/// A resource or view line, and the names after it.
pub fn resource_line(
    alloc: Global,
    views: usize,
    names: &mut Names,
    fields: &[&[u8]],
    word: Word,
) -> Result<ResLine, LineFault>
    requires { views ≤ 512 }
    ensures { MayGive (λ l. (resource_line_seen l, names.new)) result (resource_form whole_language views names.old (texts fields.now) (word_seen word)) }
{
    let line = match word {
        Word::Layout => layout(alloc, names, fields)?,
        Word::VertexBuffer => vertex_buffer(alloc, names, fields)?,
        Word::IndexBuffer => index_buffer(alloc, names, fields)?,
        Word::Texture => texture(alloc, names, fields)?,
        Word::FrameBuffer => frame_buffer(alloc, names, fields)?,
        Word::Program => program(alloc, names, fields)?,
        Word::Uniform => uniform(alloc, names, fields)?,
        Word::Update => update(alloc, names, fields)?,
        Word::TexUpdate => texel_update(alloc, names, fields)?,
        Word::Destroy => destroy(names, fields)?,
        Word::View => view(names, fields)?,
        Word::Order => order(alloc, views, names, fields)?,
        _ => return Err(LineFault::Bad(Cause::MisplacedWord)),
    };
    Ok(line)
}

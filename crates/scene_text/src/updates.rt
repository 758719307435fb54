// The forms of lines that change or destroy what a name stands for.
ghost use Rattle.scene_model.specs.Grammar.{update_form, texel_update_form, destroy_form};
ghost use Rattle.text_fields.specs.Fields.{texts};
ghost use Rattle.scene_text.specs.Gives.{Gives, MayGive};
ghost use Rattle.scene_text.specs.Seen.{resource_line_seen};

use crate::bytes::hex_bytes;
use crate::fault::{Cause, LineFault};
use crate::fields::{field, has_count};
use crate::lists::rect;
use crate::names::Names;
use crate::numbers::u32_number;
use crate::scene::ResLine;
use std::alloc::Global;

/// `update NAME OFFSET HEX`
pub fn update(alloc: Global, names: &Names, fields: &[&[u8]]) -> Result<ResLine, LineFault>
    ensures { MayGive (λ l. (resource_line_seen l, names.now)) result (update_form names.now (texts fields.now)) }
{
    has_count(fields, 4)?;
    let name = names.used(field(fields, 1))?;
    let offset = u32_number(field(fields, 2))?;
    let bytes = hex_bytes(alloc, field(fields, 3))?;
    Ok(ResLine::Update {
        name,
        offset,
        bytes,
    })
}

/// `texupdate NAME X Y W H HEX`
pub fn texel_update(alloc: Global, names: &Names, fields: &[&[u8]]) -> Result<ResLine, LineFault>
    ensures { MayGive (λ l. (resource_line_seen l, names.now)) result (texel_update_form names.now (texts fields.now)) }
{
    has_count(fields, 7)?;
    let name = names.used(field(fields, 1))?;
    let rect = rect(fields, 2)?;
    let bytes = hex_bytes(alloc, field(fields, 6))?;
    Ok(ResLine::TexUpdate { name, rect, bytes })
}

/// `destroy NAME`
pub fn destroy(names: &Names, fields: &[&[u8]]) -> Result<ResLine, Cause>
    ensures { Gives (λ l. (resource_line_seen l, names.now)) result (destroy_form names.now (texts fields.now)) }
{
    has_count(fields, 2)?;
    let name = names.used(field(fields, 1))?;
    Ok(ResLine::Destroy { name })
}

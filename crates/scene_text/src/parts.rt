// The parts of a layout.
ghost use Rattle.std.specs.Prelude.{drop, map};
ghost use Rattle.scene_model.specs.Field.{read_all, part_field, part_of_pieces, skip_piece, attribute_piece};
ghost use Rattle.text_fields.specs.Fields.{texts};
ghost use Rattle.scene_text.specs.Gives.{Gives, MayGive};
ghost use Rattle.scene_text.specs.Seen.{part_seen};

use crate::fault::{Cause, LineFault};
use crate::fields::field;
use crate::numbers::number;
use crate::scene::LayoutPart;
use crate::sequence::Sequence;
use crate::words::{attribute_word, component_word, is};
use std::alloc::Global;
use text_fields::split_fields;

#[tactic(auto, unfolding(scene_model::specs::Field::skip_piece))]
fn skip_piece(pieces: &[&[u8]]) -> Result<LayoutPart, Cause>
    ensures { Gives part_seen result (skip_piece (texts pieces.now)) }
{
    if !is(b"skip", field(pieces, 0)) {
        return Err(Cause::Misspelt);
    }
    let bytes = number(field(pieces, 1), 1, 255)?;
    Ok(LayoutPart::Skip { bytes: bytes as u8 })
}

#[tactic(auto, unfolding(scene_model::specs::Field::attribute_piece))]
fn attribute_piece(pieces: &[&[u8]]) -> Result<LayoutPart, Cause>
    ensures { Gives part_seen result (attribute_piece (texts pieces.now)) }
{
    let attr = attribute_word(field(pieces, 0))?;
    let kind = component_word(field(pieces, 1))?;
    let count = number(field(pieces, 2), 1, 4)?;
    Ok(LayoutPart::Attribute {
        attr,
        kind,
        count: count as u8,
    })
}

fn part_of_pieces(pieces: &[&[u8]]) -> Result<LayoutPart, Cause>
    ensures { Gives part_seen result (part_of_pieces (texts pieces.now)) }
{
    if pieces.len() == 2 {
        return skip_piece(pieces);
    }
    if pieces.len() == 3 {
        return attribute_piece(pieces);
    }
    Err(Cause::Misspelt)
}

/// A part is one field: whatever is wrong within it, it is misspelt.
#[tactic(auto, unfolding(scene_model::specs::Field::part_field))]
fn part(alloc: Global, field: &[u8]) -> Result<LayoutPart, LineFault>
    ensures { MayGive part_seen result (part_field field.now) }
{
    let mut pieces = Vec::new(alloc);
    split_fields(field, b':', &mut pieces)?;
    match part_of_pieces(&pieces) {
        Ok(part) => Ok(part),
        Err(_) => Err(LineFault::Bad(Cause::Misspelt)),
    }
}

fn parts_from(alloc: Global, fields: &[&[u8]], from: usize) -> Result<Vec<LayoutPart>, LineFault>
    ensures { MayGive (λ v. map part_seen v.items) result (read_all part_field (drop from (texts fields.now))) }
{
    let mut all = Vec::new(alloc);
    for place in from..fields.len() {
        let part = part(alloc, field(fields, place))?;
        all.push(part)?;
    }
    Ok(all)
}

/// The parts of a layout from a place on.
pub fn parts(
    alloc: Global,
    fields: &[&[u8]],
    from: usize,
) -> Result<Sequence<LayoutPart>, LineFault>
    ensures { MayGive (λ ps. map part_seen ps) result (read_all part_field (drop from (texts fields.now))) }
{
    let all = parts_from(alloc, fields, from)?;
    Ok(Sequence::from_vec(all))
}

// Several fields that are read alike.
ghost use Rattle.std.specs.Prelude.{◌≡◌, ◌+◌, ◌<◌, drop, length, slice_set};
ghost use Rattle.fix_math.specs.Seen.{rect_seen, affine_seen};
ghost use Rattle.scene_model.specs.Field.{read_all, u16_number, i32_number};
ghost use Rattle.scene_model.specs.Grammar.{rect_fields};
ghost use Rattle.text_fields.specs.Fields.{texts};
ghost use Rattle.scene_text.specs.Gives.{Gives, MayGive};

use crate::fault::{Cause, LineFault};
use crate::fields::field;
use crate::numbers::{i32_number, u16_number};
use crate::sequence::Sequence;
use fix_math::{Affine, Rect};
use std::alloc::Global;

/// A rectangle: four numbers from a place on.
pub fn rect(fields: &[&[u8]], from: usize) -> Result<Rect, Cause>
    requires { from < 16 }
    ensures { Gives rect_seen result (rect_fields (texts fields.now) from) }
{
    let x = u16_number(field(fields, from))?;
    let y = u16_number(field(fields, from + 1))?;
    let w = u16_number(field(fields, from + 2))?;
    let h = u16_number(field(fields, from + 3))?;
    Ok(Rect { x, y, w, h })
}

fn u16_numbers(alloc: Global, fields: &[&[u8]], from: usize) -> Result<Vec<u16>, LineFault>
    ensures { MayGive (λ v. v.items) result (read_all u16_number (drop from (texts fields.now))) }
{
    let mut all = Vec::new(alloc);
    for place in from..fields.len() {
        let number = u16_number(field(fields, place))?;
        all.push(number)?;
    }
    Ok(all)
}

/// The numbers of views from a place on.
pub fn views(alloc: Global, fields: &[&[u8]], from: usize) -> Result<Sequence<u16>, LineFault>
    ensures { MayGive (λ v. v) result (read_all u16_number (drop from (texts fields.now))) }
{
    let all = u16_numbers(alloc, fields, from)?;
    Ok(Sequence::from_vec(all))
}

/// Puts a number in its place.
fn put(m: &mut [i32; 12], place: usize, number: i32)
    requires { place < 12 }
    ensures { m.new ≡ slice_set m.old place number }
{
    m[place] = number;
}

/// A transform: the twelve numbers from a place on.
pub fn transform(fields: &[&[u8]], from: usize) -> Result<Affine, Cause>
    requires { length fields.now ≡ from + 12 }
    ensures { Gives affine_seen result (read_all i32_number (drop from (texts fields.now))) }
{
    let mut m = [0; 12];
    for place in 0..12 {
        let number = i32_number(field(fields, from + place))?;
        put(&mut m, place, number);
    }
    Ok(Affine { m })
}

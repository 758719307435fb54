// The fields of a line.
ghost use Rattle.std.specs.Prelude.{◌≡◌, true};
ghost use Rattle.std.specs.List.{list_any};
ghost use Rattle.scene_model.specs.Grammar.{field, has_count, has_count_from, has_field, are_filled, is_empty_field};
ghost use Rattle.scene_text.specs.Gives.{Gives};
ghost use Rattle.text_fields.specs.Fields.{texts};

use crate::fault::Cause;

/// The field at a place, or no bytes.
pub fn field<'a>(fields: &[&'a [u8]], place: usize) -> &'a [u8]
    ensures { result.now ≡ field (texts fields.now) place }
{
    match fields.get(place) {
        Some(found) => found,
        None => &[],
    }
}

/// There are as many fields.
pub fn has_count(fields: &[&[u8]], count: usize) -> Result<(), Cause>
    ensures { Gives (λ _. true) result (has_count count (texts fields.now)) }
{
    if fields.len() == count {
        Ok(())
    } else {
        Err(Cause::WrongFieldCount)
    }
}

/// There are at least `low` and at most `high` fields.
pub fn has_count_from(fields: &[&[u8]], low: usize, high: usize) -> Result<(), Cause>
    ensures { Gives (λ _. true) result (has_count_from low high (texts fields.now)) }
{
    if fields.len() < low {
        return Err(Cause::WrongFieldCount);
    }
    if fields.len() > high {
        return Err(Cause::WrongFieldCount);
    }
    Ok(())
}

/// Whether a field has no bytes.
pub fn is_empty(field: &[u8]) -> bool
    ensures { result ≡ is_empty_field field.now }
{
    match field {
        [] => true,
        _ => false,
    }
}

/// The field at a place is there and not empty.
pub fn has_field(fields: &[&[u8]], place: usize) -> Result<(), Cause>
    ensures { Gives (λ _. true) result (has_field place (texts fields.now)) }
{
    if is_empty(field(fields, place)) {
        return Err(Cause::WrongFieldCount);
    }
    Ok(())
}

fn any_is_empty(fields: &[&[u8]]) -> bool
    ensures { result ≡ list_any (λ f. is_empty_field f.now) fields.now }
{
    fields.iter().any(|f| is_empty(f))
}

/// No field is empty.
#[tactic(auto, using(crate::proofs::Lasts::any_map))]
pub fn are_filled(fields: &[&[u8]]) -> Result<(), Cause>
    ensures { Gives (λ _. true) result (are_filled (texts fields.now)) }
{
    if any_is_empty(fields) {
        return Err(Cause::WrongFieldCount);
    }
    Ok(())
}

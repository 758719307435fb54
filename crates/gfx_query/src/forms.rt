// The forms of lines.
ghost use Rattle.std.specs.Prelude.{◌≡◌, ◌≤◌, ◌+◌, ◌*◌, ◌<◌, ◌^◌, length, option_map, IfOk, IfSome};
ghost use Rattle.gfx_query.specs.Text as text;
ghost use Rattle.text_fields.specs.Fields.{texts};
ghost use Rattle.gfx_query.specs.Seen.{query_seen, condition_seen, draw_seen, step_seen, AreShort};

use crate::fields::{has_count, is_word, number, packed, when};
use crate::script::{Condition, Draw, Query, Step};
use crate::sides::TargetSides;
use gfx_words::{StateWord, StencilWord};
use std::alloc::{AllocError, Global};
use text_fields::{field, is};

/// A query's number.
fn query_number(field: &[u8]) -> Option<Query>
    ensures { option_map query_seen result ≡ text.number 0 63 field.now }
{
    match number(field, 0, 63) {
        Some(n) => Some(Query { number: n as u8 }),
        None => None,
    }
}

/// `-` or a query.
#[tactic(auto, unfolding(crate::specs::Text::query_field))]
fn query_field(field: &[u8]) -> Option<Option<Query>>
    ensures { option_map (option_map query_seen) result ≡ text.query_field field.now }
{
    if is(field, b"-") {
        return Some(None);
    }
    match query_number(field) {
        Some(query) => Some(Some(query)),
        None => None,
    }
}

fn seen(field: &[u8]) -> Option<Condition>
    ensures { option_map condition_seen result ≡ text.seen_field field.now }
{
    match query_number(field) {
        Some(query) => Some(Condition::Seen(query)),
        None => None,
    }
}

fn unseen(field: &[u8]) -> Option<Condition>
    ensures { option_map condition_seen result ≡ text.unseen_field field.now }
{
    match query_number(field) {
        Some(query) => Some(Condition::Unseen(query)),
        None => None,
    }
}

/// `+` or `!` and a query.
fn condition_of(field: &[u8]) -> Option<Condition>
    ensures { option_map condition_seen result ≡ text.condition_of field.now }
{
    match field {
        [] => None,
        [first, rest @ ..] => {
            if *first == b'+' {
                return seen(rest);
            }
            if *first == b'!' {
                return unseen(rest);
            }
            None
        }
    }
}

/// `-`, or `+` or `!` and a query.
#[tactic(auto, unfolding(crate::specs::Text::condition_field))]
fn condition_field(field: &[u8]) -> Option<Condition>
    ensures { option_map condition_seen result ≡ text.condition_field field.now }
{
    if is(field, b"-") {
        return Some(Condition::Always);
    }
    condition_of(field)
}

/// A number that is an admitted state word.
#[tactic(auto, unfolding(crate::specs::Text::state_word))]
fn state_word(field: &[u8]) -> Option<StateWord>
    ensures { result ≡ text.state_word field.now }
{
    match number(field, 0, 18_446_744_073_709_551_615) {
        Some(n) => match StateWord::read(n) {
            Ok(word) => Some(word),
            Err(_) => None,
        },
        None => None,
    }
}

/// A number that is an admitted stencil word.
#[tactic(auto, unfolding(crate::specs::Text::stencil_word))]
fn stencil_word(field: &[u8]) -> Option<StencilWord>
    ensures { result ≡ text.stencil_word field.now }
{
    match number(field, 0, 4_294_967_295) {
        Some(n) => match StencilWord::read(n as u32) {
            Ok(word) => Some(word),
            Err(_) => None,
        },
        None => None,
    }
}

/// `query 1`.
#[tactic(auto, unfolding(crate::specs::Text::version_form))]
pub(crate) fn version_form(fields: &[&[u8]]) -> Option<u64>
    ensures { result ≡ text.version_form (texts fields.now) }
{
    when(is_word(b"query", fields))?;
    has_count(fields, 2)?;
    let version = number(field(fields, 1), 1, 1)?;
    Some(version)
}

/// `size W H`.
#[tactic(auto, unfolding(crate::specs::Text::size_form))]
pub(crate) fn size_form(fields: &[&[u8]]) -> Option<TargetSides>
    ensures { option_map (λ s. (s.width, s.height)) result ≡ text.size_form (texts fields.now) }
{
    when(is_word(b"size", fields))?;
    has_count(fields, 3)?;
    let width = number(field(fields, 1), 1, 2048)?;
    let height = number(field(fields, 2), 1, 2048)?;
    Some(TargetSides {
        width: width as u16,
        height: height as u16,
    })
}

/// A depth and a stencil as one word.
fn depth_word(depth: u64, stencil: u64) -> u32
    requires depth { depth ≤ 16777215 }
    requires stencil { stencil ≤ 255 }
    ensures { result ≡ depth + 2 ^ 24 * stencil }
{
    depth as u32 + ((stencil as u32) << 24)
}

/// `clear DEPTH STENCIL`.
#[tactic(auto, unfolding(crate::specs::Text::clear_form))]
fn clear_form(fields: &[&[u8]]) -> Option<Step>
    ensures { option_map step_seen result ≡ text.clear_form (texts fields.now) }
{
    has_count(fields, 3)?;
    let depth = number(field(fields, 1), 0, 16_777_215)?;
    let stencil = number(field(fields, 2), 0, 255)?;
    Some(Step::Clear(depth_word(depth, stencil)))
}

/// `state N`.
#[tactic(auto, unfolding(crate::specs::Text::state_form))]
fn state_form(fields: &[&[u8]]) -> Option<Step>
    ensures { option_map step_seen result ≡ text.state_form (texts fields.now) }
{
    has_count(fields, 2)?;
    let word = state_word(field(fields, 1))?;
    Some(Step::State(word))
}

/// `stencil FRONT BACK`.
#[tactic(auto, unfolding(crate::specs::Text::stencil_form))]
fn stencil_form(fields: &[&[u8]]) -> Option<Step>
    ensures { option_map step_seen result ≡ text.stencil_form (texts fields.now) }
{
    has_count(fields, 3)?;
    let front = stencil_word(field(fields, 1))?;
    let back = stencil_word(field(fields, 2))?;
    Some(Step::Stencil(front, back))
}

/// A line that sets something.
#[tactic(auto, unfolding(crate::specs::Text::setting_form))]
pub(crate) fn setting_form(fields: &[&[u8]]) -> Option<Step>
    ensures { option_map step_seen result ≡ text.setting_form (texts fields.now) }
{
    if is_word(b"clear", fields) {
        return clear_form(fields);
    }
    if is_word(b"state", fields) {
        return state_form(fields);
    }
    if is_word(b"stencil", fields) {
        return stencil_form(fields);
    }
    None
}

/// `instances HEX`, whole transforms.
#[tactic(auto, unfolding(crate::specs::Text::instances_form))]
pub(crate) fn instances_form(alloc: Global, fields: &[&[u8]]) -> Result<Option<Vec<u8>>, AllocError>
    requires { AreShort (texts fields.now) }
    ensures bytes { IfOk result (λ o. option_map (λ v. v.items) o ≡ text.instances_form (texts fields.now)) }
    ensures few { IfOk result (λ o. IfSome o (λ v. length v.items ≤ 16777216)) }
{
    match has_count(fields, 2) {
        Some(_) => {
            let bytes = packed(alloc, field(fields, 1), 48)?;
            Ok(bytes)
        }
        None => Ok(None),
    }
}

/// What a `draw` line says before its vertices.
#[derive(Clone, Copy)]
struct DrawHead {
    query: Option<Query>,
    condition: Condition,
}

#[tactic(auto, unfolding(crate::specs::Text::draw_head))]
fn draw_head(fields: &[&[u8]]) -> Option<DrawHead>
    ensures { option_map (λ h. (option_map query_seen h.query, condition_seen h.condition)) result ≡ text.draw_head (texts fields.now) }
{
    has_count(fields, 4)?;
    let query = query_field(field(fields, 1))?;
    let condition = condition_field(field(fields, 2))?;
    Some(DrawHead { query, condition })
}

/// `draw Q C HEX`, whole vertices, with the transforms that stand for it.
#[tactic(auto, unfolding(crate::specs::Text::draw_form))]
pub(crate) fn draw_form(
    alloc: Global,
    instances: Vec<u8>,
    fields: &[&[u8]],
) -> Result<Option<Draw>, AllocError>
    requires short { AreShort (texts fields.now) }
    requires few { length instances.items ≤ 16777216 }
    ensures { IfOk result (λ o. option_map draw_seen o ≡ text.draw_form instances.items (texts fields.now)) }
{
    let head = match draw_head(fields) {
        Some(head) => head,
        None => return Ok(None),
    };
    match packed(alloc, field(fields, 3), 12)? {
        Some(vertices) => Ok(Some(Draw {
            query: head.query,
            condition: head.condition,
            vertices,
            instances,
        })),
        None => Ok(None),
    }
}

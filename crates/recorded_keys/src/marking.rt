// The marks of recorded items.
ghost use Rattle.std.specs.Prelude.{◌≡◌, ◌++◌, ℕ, true, List, [], IfOk};
ghost use Rattle.std.specs.List.{AllByRecursion, cons_option};
ghost use Rattle.gfx_model.specs.Views.{view_count};
ghost use Rattle.scene_model.specs.Journal.{is_nonempty};
ghost use Rattle.shared_keys.specs.Marks.{IsThere};
ghost use Rattle.draw_encoder.specs.Bundles.{items_of};
ghost use Rattle.draw_encoder.specs.declared.items.UniformSet.{UniformSet};
ghost use Rattle.draw_encoder.specs.Seen.{item_seen, uniforms_seen, part};
ghost use Rattle.recorded_keys.specs.Recorded.{marks_of_item, marks_of_items};

use crate::keys::{draw_key, touch_key};
use draw_encoder::{BlitItem, DrawItem, Item, Recording, TouchItem, UniformSet};
use shared_keys::Mark;
use std::alloc::AllocError;
use view_table::ViewTable;

/// Whether a touch carries a uniform value.
fn carries(sets: &[UniformSet], touch: &TouchItem) -> bool
    ensures { result ≡ is_nonempty (uniforms_seen (part sets.now touch.now.values_at touch.now.values)) }
{
    touch.values > 0 && (touch.values_at as usize) < sets.len()
}

/// The mark of a draw that is there.
fn draw_mark(views: &ViewTable, draw: &DrawItem, encoder: u8) -> Option<Mark>
    ensures { (bytes : List ℕ) (sets : List UniformSet) → IsThere (view_count views.now) (item_seen bytes sets (Item.Draw draw.now))
        → cons_option result [] ≡ marks_of_item views.now encoder (item_seen bytes sets (Item.Draw draw.now)) }
{
    let key = draw_key(views, draw)?;
    Some(Mark {
        view: draw.view,
        is_blit: false,
        key,
        encoder,
    })
}

/// The mark of a touch that is there; none where it carries no uniform value.
fn touch_mark(
    views: &ViewTable,
    sets: &[UniformSet],
    touch: &TouchItem,
    encoder: u8,
) -> Option<Mark>
    ensures { (bytes : List ℕ) → IsThere (view_count views.now) (item_seen bytes sets.now (Item.Touch touch.now))
        → cons_option result [] ≡ marks_of_item views.now encoder (item_seen bytes sets.now (Item.Touch touch.now)) }
{
    if !carries(sets, touch) {
        return None;
    }
    let key = touch_key(views, touch)?;
    Some(Mark {
        view: touch.view,
        is_blit: false,
        key,
        encoder,
    })
}

/// The mark of a blit.
fn blit_mark(blit: &BlitItem, encoder: u8) -> Mark
    ensures { result ≡ record { view = blit.now.view; is_blit = true; key = 0; encoder = encoder } }
{
    Mark {
        view: blit.view,
        is_blit: true,
        key: 0,
        encoder,
    }
}

/// The mark of a recorded item whose view is there, with its encoder; none where it clashes with nothing.
pub fn mark(views: &ViewTable, recording: &Recording, item: &Item) -> Option<Mark>
    ensures { IsThere (view_count views.now) (item_seen recording.now.bytes recording.now.uniforms item.now)
        → cons_option result [] ≡ marks_of_item views.now recording.now.encoder (item_seen recording.now.bytes recording.now.uniforms item.now) }
{
    let encoder = recording.encoder;
    match item {
        Item::Draw(draw) => draw_mark(views, draw, encoder),
        Item::Touch(touch) => touch_mark(views, recording.uniforms.as_slice(), touch, encoder),
        Item::Blit(blit) => Some(blit_mark(blit, encoder)),
    }
}

/// Puts a mark behind the others, where there is one.
fn put_mark(marks: &mut Vec<Mark>, mark: Option<Mark>) -> Result<(), AllocError>
    ensures { IfOk result (λ _. marks.new.items ≡ marks.old.items ++ cons_option mark []) }
{
    if let Some(mark) = mark {
        marks.push(mark)?;
    }
    Ok(())
}

/// Puts the marks of a recording's items behind the others.
pub(crate) fn put_marks(
    marks: &mut Vec<Mark>,
    views: &ViewTable,
    recording: &Recording,
) -> Result<(), AllocError>
    ensures { IfOk result (λ _. AllByRecursion (IsThere (view_count views.now)) (items_of recording.now)
        → marks.new.items ≡ marks.old.items ++ marks_of_items views.now recording.now.encoder (items_of recording.now)) }
{
    for item in recording.items.as_slice() {
        put_mark(marks, mark(views, recording, item))?;
    }
    Ok(())
}

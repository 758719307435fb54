// The keys by which items clash.
ghost use Rattle.std.specs.Prelude.{◌≡◌, ℕ, List, Some};
ghost use Rattle.gfx_model.specs.Views.{view_count};
ghost use Rattle.gfx_words.specs.Seen.{mode_seen};
ghost use Rattle.scene_model.specs.Journal.{is_sequential};
ghost use Rattle.shared_keys.specs.Marks.{clash_key, IsThere};
ghost use Rattle.draw_encoder.specs.declared.items.UniformSet.{UniformSet};
ghost use Rattle.draw_encoder.specs.Seen.{item_seen};

use draw_encoder::{DrawItem, Item, TouchItem};
use gfx_words::{Kind, ViewMode};
use sort_key::SortKey;
use view_table::ViewTable;

/// Whether the mode orders by number.
fn is_sequential(mode: ViewMode) -> bool
    ensures { result ≡ is_sequential (mode_seen mode) }
{
    match mode {
        ViewMode::Sequential => true,
        ViewMode::Default => false,
        ViewMode::DepthAscending => false,
        ViewMode::DepthDescending => false,
    }
}

/// The key of a draw whose view is there and whose program is one.
pub(crate) fn draw_key(views: &ViewTable, draw: &DrawItem) -> Option<u64>
    ensures { (bytes : List ℕ) (sets : List UniformSet) → IsThere (view_count views.now) (item_seen bytes sets (Item.Draw draw.now))
        → result ≡ Some (clash_key views.now (item_seen bytes sets (Item.Draw draw.now))) }
{
    let view = views.get(draw.view)?;
    if !draw.program.kind().is(Kind::Program) {
        return None;
    }
    if is_sequential(view.mode) {
        return Some(0);
    }
    views.tell_facts();
    let position = views.position(draw.view);
    let blended = draw.state.blended();
    let index = draw.program.index();
    let key = SortKey::draw(view.mode, position, blended, index, draw.depth, 0);
    Some(key.bits())
}

/// The key of a touch whose view is there.
pub(crate) fn touch_key(views: &ViewTable, touch: &TouchItem) -> Option<u64>
    ensures { (bytes : List ℕ) (sets : List UniformSet) → IsThere (view_count views.now) (item_seen bytes sets (Item.Touch touch.now))
        → result ≡ Some (clash_key views.now (item_seen bytes sets (Item.Touch touch.now))) }
{
    let view = views.get(touch.view)?;
    if is_sequential(view.mode) {
        return Some(0);
    }
    views.tell_facts();
    let position = views.position(touch.view);
    let key = SortKey::touch(view.mode, position, 0);
    Some(key.bits())
}

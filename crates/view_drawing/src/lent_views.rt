// Views that are entered in bands.
ghost use Rattle.std.specs.Prelude.{◌≡◌, ◌≤◌, ◌<◌, map, fold, length, take, IfErr, IfOk};
ghost use Rattle.std.specs.List.{AllByRecursion};
ghost use Rattle.pass_laws.specs.Passed.{after_turn, clear_turn, IsPass};
ghost use Rattle.render_stores.specs.Seen.{stores_seen};
ghost use Rattle.view_drawing.specs.Begun.{begun_seen};
ghost use Rattle.view_drawing.specs.Entered.{HaveGiven, IsBegun};
ghost use Rattle.view_drawing.specs.Passes.{after_part, all_items, part_seen, turn_seen, IsPlain, IsStoppedAt};

use crate::begun::BegunPass;
use crate::blits::blit_all;
use crate::lending::lend_listed;
use crate::passes::{clear_views, length_of_pass};
use crate::room::DrawingRoom;
use crate::targets::clear_target;
use crate::view_parts::ViewPart;
use gfx_words::Handle;
use pass_laws::pass_law;
use render_stores::RenderStores;
use store_laws::list_law;

/// Begins the views of a pass: clears them all, and lends their target.
fn begin_pass(
    stores: RenderStores,
    target: Option<Handle>,
    views: &[ViewPart<'_>],
    bands: u32,
    room: &mut DrawingRoom,
) -> Result<BegunPass, RenderStores>
    requires { IsPass target (map turn_seen views.now) }
    ensures entered { IfOk result (λ b. begun_seen b ≡ fold after_turn (stores_seen stores) (map turn_seen views.now)) }
    ensures begun { IfErr result (λ s. HaveGiven (all_items (map turn_seen views.now)) (fold clear_turn (stores_seen stores) (map turn_seen views.now)) (stores_seen s)) }
{
    let mut stores = stores;
    stores.textures.tell_facts();
    pass_law();
    clear_views(&mut stores, views);
    lend_listed(stores, target, views, bands, room)
}

/// Begins a view: clears its rectangle, copies its blits, and lends its target.
fn begin_view(
    stores: RenderStores,
    part: &ViewPart<'_>,
    bands: u32,
    room: &mut DrawingRoom,
) -> Result<BegunPass, RenderStores>
    requires { IsPlain (part_seen part.now) }
    ensures entered { IfOk result (λ b. begun_seen b ≡ after_part (stores_seen stores) (part_seen part.now)) }
    ensures begun { IfErr result (λ s. IsBegun (part_seen part.now).view (part_seen part.now).blits (part_seen part.now).items (stores_seen stores) (stores_seen s)) }
{
    let mut stores = stores;
    clear_target(&mut stores, part.view);
    if blit_all(&mut stores.textures, part.frame, part.blits).is_err() {
        return Err(stores);
    }
    stores.textures.tell_facts();
    list_law();
    let views = [*part];
    lend_listed(stores, part.view.target, &views, bands, room)
}

/// Begins to enter the first of views, with those that are drawn at one go with it, as `enter_views` enters them, and answers how many
/// these are. Their target's rows are lent in bands, at most so many; where there is nothing to lend, the views are entered.
///
/// Only want of memory refuses. The first view is begun then, as `enter_views` leaves it.
pub fn begin_views(
    stores: RenderStores,
    views: &[ViewPart<'_>],
    bands: u32,
    room: &mut DrawingRoom,
) -> Result<(usize, BegunPass), RenderStores>
    requires some { 0 < length views.now }
    requires plain { AllByRecursion IsPlain (map part_seen views.now) }
    ensures some { IfOk result (λ p. 1 ≤ p.0) }
    ensures length { IfOk result (λ p. p.0 ≤ length views.now) }
    ensures entered { IfOk result (λ p. begun_seen p.1 ≡ fold after_part (stores_seen stores) (map part_seen (take p.0 views.now))) }
    ensures begun { IfErr result (λ s. IsStoppedAt (map part_seen views.now) (stores_seen stores) (stores_seen s)) }
{
    let first = views[0];
    let count = length_of_pass(first.view, views);
    if count == 0 {
        return match begin_view(stores, &first, bands, room) {
            Ok(begun) => Ok((1, begun)),
            Err(stores) => Err(stores),
        };
    }
    match begin_pass(stores, first.view.target, &views[..count], bands, room) {
        Ok(begun) => Ok((count, begun)),
        Err(stores) => Err(stores),
    }
}

// Draws and touches of views that are put into a plan.
ghost use Rattle.std.specs.Prelude.{◌≡◌, [], Some, fold, map, option_map, OnOk, OnErr};
ghost use Rattle.std.specs.List.{cons_option};
ghost use Rattle.gfx_model.specs.World as model;
ghost use Rattle.view_table.specs.Seen.{view_seen};
ghost use Rattle.draw_encoder.specs.Seen.{item_seen};
ghost use Rattle.store_laws.specs.Listed.{values_after};
ghost use Rattle.pass_bands.specs.Planned.{plan_seen};
ghost use Rattle.view_drawing.specs.Memory.{CanDraw};
ghost use Rattle.view_drawing.specs.Passes.{all_items, turn_seen};
ghost use Rattle.view_drawing.specs.Prepared.{DoesTo, DoAllTo, DoTurnsTo};
ghost use Rattle.view_drawing.specs.Entered.{StopsAtDraw};
ghost use Rattle.view_drawing.specs.Entries.{found_seen, items_of};

use crate::plan_draws::plan_draw;
use crate::preparing::Stage;
use crate::room::DrawingRoom;
use crate::turns::Things;
use crate::uniforms::{set_values, sets_of};
use crate::view_parts::ViewPart;
use buffer_store::BufferStore;
use draw_encoder::{Item, Recording};
use frame_record::{Frame, OrderedItem};
use pass_bands::Plan;
use std::alloc::AllocError;

/// Gives an item's values, and puts it into the plan, where it is a draw whose program is there, which alone takes memory; a blit is none
/// of the plan.
fn plan_item(
    stage: &Stage<'_>,
    buffers: &mut BufferStore,
    recording: &Recording,
    item: &Item,
    plan: &mut Plan,
    room: &mut DrawingRoom,
) -> Result<(), AllocError>
    ensures done { OnOk result (DoesTo stage.now.width stage.now.height stage.now.textures.now stage.now.programs.now (view_seen stage.now.view.now) (item_seen recording.now.bytes recording.now.uniforms item.now) buffers.old (plan_seen stage.now.textures.now plan.old) buffers.new (plan_seen stage.now.textures.now plan.new)) }
    ensures given { buffers.new ≡ values_after buffers.old (item_seen recording.now.bytes recording.now.uniforms item.now) }
    ensures needs { OnErr result (CanDraw stage.now.programs.now (item_seen recording.now.bytes recording.now.uniforms item.now)) }
{
    let sets = recording.uniforms.as_slice();
    match item {
        Item::Draw(draw) => {
            set_values(buffers, sets_of(sets, draw.values_at, draw.values));
            plan_draw(stage, buffers, recording.bytes.as_slice(), draw, plan, room)?;
            Ok(())
        }
        Item::Touch(touch) => {
            set_values(buffers, sets_of(sets, touch.values_at, touch.values));
            Ok(())
        }
        Item::Blit(_) => Ok(()),
    }
}

/// The same of an item that was found; where there is none, nothing is done.
fn plan_found(
    stage: &Stage<'_>,
    buffers: &mut BufferStore,
    found: Option<(&Recording, &Item)>,
    plan: &mut Plan,
    room: &mut DrawingRoom,
) -> Result<(), AllocError>
    ensures done { OnOk result (DoAllTo stage.now.width stage.now.height stage.now.textures.now stage.now.programs.now (view_seen stage.now.view.now) (cons_option (option_map found_seen found.entry) []) buffers.old (plan_seen stage.now.textures.now plan.old) buffers.new (plan_seen stage.now.textures.now plan.new)) }
    ensures given { buffers.new ≡ fold values_after buffers.old (cons_option (option_map found_seen found.entry) []) }
    ensures needs { OnErr result ((i : model.Item) × ((option_map found_seen found.entry ≡ Some i) × CanDraw stage.now.programs.now i)) }
{
    match found {
        Some((recording, item)) => plan_item(stage, buffers, recording, item, plan, room),
        None => Ok(()),
    }
}

/// Does the draws and touches of a view in order. Entries without an item are passed over. Where memory is wanting, the items up to the
/// draw that takes it have given their values.
fn plan_items(
    stage: &Stage<'_>,
    buffers: &mut BufferStore,
    frame: &Frame,
    items: &[OrderedItem],
    plan: &mut Plan,
    room: &mut DrawingRoom,
) -> Result<(), AllocError>
    ensures done { OnOk result (DoAllTo stage.now.width stage.now.height stage.now.textures.now stage.now.programs.now (view_seen stage.now.view.now) (items_of frame.now items.now) buffers.old (plan_seen stage.now.textures.now plan.old) buffers.new (plan_seen stage.now.textures.now plan.new)) }
    ensures given { OnErr result (StopsAtDraw stage.now.programs.now (items_of frame.now items.now) buffers.old buffers.new) }
{
    for one in items {
        plan_found(stage, buffers, frame.item(one.entry), plan, room)?;
    }
    Ok(())
}

/// Does the draws and touches of each view in order, as `plan_items` does those of one.
pub(crate) fn plan_turns(
    things: &Things<'_>,
    buffers: &mut BufferStore,
    views: &[ViewPart<'_>],
    plan: &mut Plan,
    room: &mut DrawingRoom,
) -> Result<(), AllocError>
    ensures done { OnOk result (DoTurnsTo things.now.width things.now.height things.now.textures.now things.now.programs.now (map turn_seen views.now) buffers.old (plan_seen things.now.textures.now plan.old) buffers.new (plan_seen things.now.textures.now plan.new)) }
    ensures given { OnErr result (StopsAtDraw things.now.programs.now (all_items (map turn_seen views.now)) buffers.old buffers.new) }
{
    for one in views {
        let stage = Stage {
            textures: things.textures,
            programs: things.programs,
            view: one.view,
            width: things.width,
            height: things.height,
        };
        plan_items(&stage, buffers, one.frame, one.items, plan, room)?;
    }
    Ok(())
}

// The draws and touches of views on their target, whose rows are lent in bands.
ghost use Rattle.std.specs.Prelude.{◌≡◌, [], Some, None, map, option_map, IfErr, IfOk, IsSome};
ghost use Rattle.int_raster.specs.Seen.{surface_seen, sides_seen};
ghost use Rattle.pass_bands.specs.Planned.{plan_seen};
ghost use Rattle.pass_laws.specs.Passed.{all_drawn, all_listed};
ghost use Rattle.render_stores.specs.Seen.{stores_seen};
ghost use Rattle.store_model.specs.Slots.{at};
ghost use Rattle.store_model.specs.Textures.{target_back, IsOutAt};
ghost use Rattle.view_drawing.specs.Begun.{begun_seen};
ghost use Rattle.view_drawing.specs.Entered.{HaveGiven, StopsAtDraw};
ghost use Rattle.view_drawing.specs.Prepared.{DoTurnsTo};
ghost use Rattle.view_drawing.specs.Lent.{stores_after, IsTaken};
ghost use Rattle.view_drawing.specs.Passes.{all_items, turn_seen};

use crate::begun::BegunPass;
use crate::lent_passes::{LentPass, stores_of};
use crate::lent_targets::LentTarget;
use crate::plan_items::plan_turns;
use crate::room::DrawingRoom;
use crate::turns::{Things, count_of, give_turns};
use crate::view_parts::ViewPart;
use buffer_store::BufferStore;
use gfx_words::Handle;
use int_raster::Surface;
use pass_bands::{Pass, Plan, Task, Work};
use render_stores::{ProgramRow, RenderStores};
use std::alloc::AllocError;
use store_model::put_back_law;

/// Lends the rows of a task, at most so many bands. Where memory for them is wanting, its draws are made now.
fn lend_task(
    task: Task,
    buffers: BufferStore,
    programs: ProgramRow,
    target: LentTarget,
    bands: u32,
    room: &mut DrawingRoom,
) -> BegunPass
    requires { IsTaken task target }
    ensures { begun_seen result ≡ stores_after task buffers programs target }
{
    match Pass::begin(room.alloc, task, bands) {
        Ok((pass, bands)) => {
            let lent = LentPass {
                pass,
                buffers,
                programs,
                target,
            };
            BegunPass::Lent(lent, bands)
        }
        Err(task) => {
            let drawn = task.draw(room.alloc);
            BegunPass::Done(stores_of(drawn, buffers, programs, target, room))
        }
    }
}

/// The draws of views on a surface of the things' sides, as a plan; their values are given. Where memory is wanting, the values up to the
/// draw that takes it are.
fn plan_of(
    things: &Things<'_>,
    buffers: &mut BufferStore,
    views: &[ViewPart<'_>],
    room: &mut DrawingRoom,
) -> Result<Plan, AllocError>
    ensures done { IfOk result (λ p. DoTurnsTo things.now.width things.now.height things.now.textures.now things.now.programs.now (map turn_seen views.now) buffers.old [] buffers.new (plan_seen things.now.textures.now p)) }
    ensures given { IfErr result (λ e. StopsAtDraw things.now.programs.now (all_items (map turn_seen views.now)) buffers.old buffers.new) }
{
    let mut plan = Plan::new(room.alloc, room.take_list(), count_of(views));
    match plan_turns(things, buffers, views, &mut plan, room) {
        Ok(()) => Ok(plan),
        Err(fault) => Err(fault),
    }
}

/// Lends the back buffer for the draws of views.
fn lend_back(
    stores: RenderStores,
    views: &[ViewPart<'_>],
    bands: u32,
    room: &mut DrawingRoom,
) -> Result<BegunPass, RenderStores>
    ensures lent { IfOk result (λ b. begun_seen b ≡ all_listed None (stores_seen stores) (map turn_seen views.now)) }
    ensures begun { IfErr result (λ s. HaveGiven (all_items (map turn_seen views.now)) (stores_seen stores) (stores_seen s)) }
{
    let RenderStores {
        back,
        buffers,
        textures,
        programs,
    } = stores;
    let mut buffers = buffers;
    let things = Things {
        textures: &textures,
        programs: &programs,
        width: back.color.width,
        height: back.color.height,
    };
    match plan_of(&things, &mut buffers, views, room) {
        Ok(plan) => {
            let task = Task {
                work: Work { plan, textures },
                surface: back,
            };
            Ok(lend_task(task, buffers, programs, LentTarget::Back, bands, room))
        }
        Err(_) => Err(RenderStores {
            back,
            buffers,
            textures,
            programs,
        }),
    }
}

/// Lends a frame buffer's textures, which are taken out, for the draws of views.
fn lend_taken(
    stores: RenderStores,
    index: u16,
    surface: Surface,
    views: &[ViewPart<'_>],
    bands: u32,
    room: &mut DrawingRoom,
) -> Result<BegunPass, RenderStores>
    requires there { IsSome (at stores.textures.targets index) }
    requires out { IsOutAt stores.textures index (sides_seen surface.color) (option_map sides_seen surface.depth) }
    ensures lent { IfOk result (λ b. let x = all_drawn stores.textures stores.programs (record { buffers = stores.buffers; surface = surface_seen surface }) (map turn_seen views.now) in
        begun_seen b ≡ record { back = surface_seen stores.back; buffers = x.buffers; textures = target_back index x.surface.color x.surface.depth stores.textures; programs = stores.programs }) }
    ensures begun { IfErr result (λ s. StopsAtDraw stores.programs (all_items (map turn_seen views.now)) stores.buffers s.buffers
        × (stores_seen s ≡ record { back = surface_seen stores.back; buffers = s.buffers; textures = target_back index (surface_seen surface).color (surface_seen surface).depth stores.textures; programs = stores.programs })) }
{
    let RenderStores {
        back,
        buffers,
        textures,
        programs,
    } = stores;
    let mut buffers = buffers;
    let things = Things {
        textures: &textures,
        programs: &programs,
        width: surface.color.width,
        height: surface.color.height,
    };
    match plan_of(&things, &mut buffers, views, room) {
        Ok(plan) => {
            let task = Task {
                work: Work { plan, textures },
                surface,
            };
            let target = LentTarget::FrameBuffer(index, back);
            Ok(lend_task(task, buffers, programs, target, bands, room))
        }
        Err(_) => {
            let mut textures = textures;
            textures.put_target(index, surface.color, surface.depth);
            Err(RenderStores {
                back,
                buffers,
                textures,
                programs,
            })
        }
    }
}

/// Lends a frame buffer's textures, where they can be taken out, for the draws of views.
fn lend_target(
    stores: RenderStores,
    target: Handle,
    views: &[ViewPart<'_>],
    bands: u32,
    room: &mut DrawingRoom,
) -> Result<BegunPass, RenderStores>
    ensures lent { IfOk result (λ b. begun_seen b ≡ all_listed (Some target) (stores_seen stores) (map turn_seen views.now)) }
    ensures begun { IfErr result (λ s. HaveGiven (all_items (map turn_seen views.now)) (stores_seen stores) (stores_seen s)) }
{
    let mut stores = stores;
    stores.textures.tell_facts();
    put_back_law();
    match stores.textures.take_target(target.index()) {
        None => {
            give_turns(&mut stores.buffers, views);
            Ok(BegunPass::Done(stores))
        }
        Some((color, depth)) => {
            let surface = Surface::new(color, depth);
            lend_taken(stores, target.index(), surface, views, bands, room)
        }
    }
}

/// Lends a target for the draws and touches of views on it, at most so many bands. Where memory is wanting, nothing is drawn, and the
/// values are given up to the draw that takes it.
pub(crate) fn lend_listed(
    stores: RenderStores,
    target: Option<Handle>,
    views: &[ViewPart<'_>],
    bands: u32,
    room: &mut DrawingRoom,
) -> Result<BegunPass, RenderStores>
    ensures lent { IfOk result (λ b. begun_seen b ≡ all_listed target (stores_seen stores) (map turn_seen views.now)) }
    ensures begun { IfErr result (λ s. HaveGiven (all_items (map turn_seen views.now)) (stores_seen stores) (stores_seen s)) }
{
    match target {
        Some(target) => lend_target(stores, target, views, bands, room),
        None => lend_back(stores, views, bands, room),
    }
}

// Passes whose bands are out.
ghost use Rattle.std.specs.Prelude.{◌≡◌, IfErr, IfOk};
ghost use Rattle.render_stores.specs.Seen.{stores_seen};
ghost use Rattle.view_drawing.specs.Lent.{stores_as, IsTaken};

use crate::lent_targets::LentTarget;
use crate::room::DrawingRoom;
use buffer_store::BufferStore;
use pass_bands::{Band, Pass, Task};
use render_stores::{ProgramRow, RenderStores};
use std::marker::Model;

/// A pass of views whose bands are out, with all that its stores have. Contracts see the stores that it ends with.
#[derive(Drop)]
pub struct LentPass {
    pub(crate) pass: Pass,
    pub(crate) buffers: BufferStore,
    pub(crate) programs: ProgramRow,
    pub(crate) target: LentTarget,
}

impl Model for LentPass {
    ghost use Rattle.store_laws.specs.ByIndex.{Stores};
    ghost use Rattle.view_drawing.specs.Lent.{stores_after, IsTaken};

    ghost Value = { Stores };

    ghost view = { λ p. stores_after p.pass p.buffers p.programs p.target };

    ghost invariant = { λ p. IsTaken p.pass p.target };
}

/// The stores of a task that is drawn.
pub(crate) fn stores_of(
    task: Task,
    buffers: BufferStore,
    programs: ProgramRow,
    target: LentTarget,
    room: &mut DrawingRoom,
) -> RenderStores
    requires { IsTaken task target }
    ensures { stores_seen result ≡ stores_as task buffers programs target }
{
    let Task { work, surface } = task;
    let textures = work.textures;
    room.list = work.plan.into_room();
    match target {
        LentTarget::Back => RenderStores {
            back: surface,
            buffers,
            textures,
            programs,
        },
        LentTarget::FrameBuffer(index, back) => {
            let mut textures = textures;
            textures.put_target(index, surface.color, surface.depth);
            RenderStores {
                back,
                buffers,
                textures,
                programs,
            }
        }
    }
}

impl LentPass {
    /// Takes the bands of the pass back and ends it: the draws of its views are made. Rows that were not drawn are drawn now. Where a
    /// band of the pass is still out, the pass comes back as it was; the bands that were given are let go.
    pub fn end(self, bands: Vec<Band>, room: &mut DrawingRoom) -> Result<RenderStores, LentPass>
        ensures ended { IfOk result (λ s. stores_seen s ≡ self) }
        ensures out { IfErr result (λ p. p ≡ self) }
    {
        let LentPass {
            pass,
            buffers,
            programs,
            target,
        } = self;
        match pass.end(bands) {
            Ok(task) => Ok(stores_of(task, buffers, programs, target, room)),
            Err(pass) => Err(LentPass {
                pass,
                buffers,
                programs,
                target,
            }),
        }
    }
}

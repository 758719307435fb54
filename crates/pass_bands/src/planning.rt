// Plans that are made.
ghost use Rattle.std.specs.Prelude.{◌≡◌, ◌++◌, ◌∷◌, [], length, map, OnOk, OnErr};
ghost use Rattle.int_raster.specs.Seen.{prepared_seen};
ghost use Rattle.store_model.specs.Textures.{Textures};
ghost use Rattle.tri_cover.specs.Shown.{setup_seen};
ghost use Rattle.pass_bands.specs.Planned.{planned_draw, plan_seen};

use crate::paints::PlannedPaint;
use crate::plans::Plan;
use int_raster::{DrawList, DrawRoom, Paint, Prepared};
use std::alloc::{AllocError, Global};
use tri_cover::Setup;

impl Plan {
    /// A plan without draws, over the room of an earlier list, and with room for so many draws where memory for them is there.
    pub fn new(alloc: Global, room: DrawRoom, draws: usize) -> Plan
        ensures { (t : Textures) → plan_seen t result ≡ [] }
    {
        Plan {
            list: DrawList::with_room(alloc, room, draws),
            paints: Vec::new(alloc),
        }
    }

    /// The room of the plan's list, without its draws. It takes no memory.
    pub fn into_room(self) -> DrawRoom {
        self.list.into_room()
    }

    /// How many draws the plan has.
    pub fn len(&self) -> usize
        ensures { result ≡ length self.now.list }
    {
        self.list.len()
    }

    /// Puts a draw at the end, with a planned paint in place of its own, and its triangles. After an error the plan is as it was.
    pub fn push(
        &mut self,
        draw: &Prepared<'_>,
        paint: PlannedPaint,
        triangles: &[Setup],
    ) -> Result<(), AllocError>
        ensures ok { OnOk result ((t : Textures) → plan_seen t self.new ≡ plan_seen t self.old ++ planned_draw t (prepared_seen draw.now (map setup_seen triangles.now)) paint ∷ []) }
        ensures err { OnErr result ((t : Textures) → plan_seen t self.new ≡ plan_seen t self.old) }
    {
        let plain = Prepared {
            cut: draw.cut,
            state: draw.state,
            front: draw.front,
            back: draw.back,
            paint: Paint::Nothing,
        };
        self.paints.push(paint)?;
        if self.list.push(plain, triangles).is_ok() {
            return Ok(());
        }
        let _ = self.paints.pop();
        Err(AllocError)
    }
}

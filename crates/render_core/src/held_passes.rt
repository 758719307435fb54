// The pass of a frame.
ghost use Rattle.std.specs.Prelude.{◌≡◌, IfErr, IfOk};
ghost use Rattle.render_stores.specs.Seen.{stores_seen};
ghost use Rattle.view_drawing.specs.Begun.{begun_seen};
ghost use Rattle.render_core.specs.Begun.{held_seen};

use pass_bands::Band;
use render_stores::RenderStores;
use std::alloc::Global;
use view_drawing::{BegunPass, DrawingRoom, LentPass};

/// A pass whose bands are out; or one that had nothing to lend and is done.
#[derive(Drop)]
pub(crate) enum HeldPass {
    Lent(LentPass),
    Done(RenderStores),
}

impl HeldPass {
    /// A pass that is begun, apart from its bands.
    pub(crate) fn of(alloc: Global, begun: BegunPass) -> (HeldPass, Vec<Band>)
        ensures { held_seen result.0 ≡ begun_seen begun }
    {
        match begun {
            BegunPass::Lent(pass, bands) => (HeldPass::Lent(pass), bands),
            BegunPass::Done(stores) => (HeldPass::Done(stores), Vec::new(alloc)),
        }
    }

    /// The stores that the pass ends with; the pass, where one of its bands is still out.
    pub(crate) fn end(
        self,
        bands: Vec<Band>,
        room: &mut DrawingRoom,
    ) -> Result<RenderStores, HeldPass>
        ensures ended { IfOk result (λ s. stores_seen s ≡ held_seen self) }
        ensures out { IfErr result (λ p. held_seen p ≡ held_seen self) }
    {
        match self {
            HeldPass::Lent(pass) => match pass.end(bands, room) {
                Ok(stores) => Ok(stores),
                Err(pass) => Err(HeldPass::Lent(pass)),
            },
            HeldPass::Done(stores) => Ok(stores),
        }
    }
}

// The lists from which a frame's views are drawn.
ghost use Rattle.std.specs.Prelude.{OnOk};
ghost use Rattle.render_core.specs.Lists.{AreListed};

use frame_record::{Frame, OrderedItem, PlacedBlit};
use std::alloc::{AllocError, Global};

/// A frame's draws and touches and its blits by the positions of their views, and which views have an item. Their room is kept from
/// frame to frame, and grows to what the largest frame needs.
#[derive(Drop)]
pub(crate) struct Lists {
    pub(crate) ordered: Vec<OrderedItem>,
    pub(crate) blits: Vec<PlacedBlit>,
    pub(crate) entered: Vec<bool>,
}

impl Lists {
    /// Lists of nothing. They take no memory.
    pub(crate) fn new(alloc: Global) -> Lists {
        Lists {
            ordered: Vec::new(alloc),
            blits: Vec::new(alloc),
            entered: Vec::new(alloc),
        }
    }

    /// Fills the lists with those of a frame. What they held before is gone.
    pub(crate) fn fill(&mut self, frame: &Frame) -> Result<(), AllocError>
        ensures { OnOk result (AreListed frame.now self.new) }
    {
        frame.ordered(&mut self.ordered)?;
        frame.blits(&mut self.blits)?;
        frame.entered(&mut self.entered)?;
        Ok(())
    }
}

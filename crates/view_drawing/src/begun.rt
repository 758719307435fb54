// Passes that are begun.

use crate::lent_passes::LentPass;
use pass_bands::Band;
use render_stores::RenderStores;

/// A pass that is begun: its bands are out, or there is nothing to lend and it is done.
#[derive(Drop)]
pub enum BegunPass {
    Lent(LentPass, Vec<Band>),
    Done(RenderStores),
}

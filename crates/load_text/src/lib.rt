//! The text of a load: blocks of calls, each of a caller of its own.
#![tactic(auto)]

mod fields;
mod load;
mod names;
mod reading;
mod stages;
mod text;
mod words;

ghost use Rattle.load_text.specs.Laws.{LoadLaw};

pub use load::{Block, BlockLine};
pub use text::{LoadFault, read_load};

/// Each load that is read has as many callers as one of its lines says, 1 to 8. The callers of its blocks ascend and are below that number,
/// so each has at most one block. Each destroy line is of a create line of its block that comes before it, and caller 0 alone ends frames.
pub fn load_law()
    ensures { LoadLaw }
{}

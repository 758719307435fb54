// What the bands of a pass share.
ghost use Rattle.std.specs.Prelude.{◌≡◌, ◌≤◌, All, vec_len};

use crate::pieces::Piece;
use crate::works::{Task, Work};
use counted_slot::{Counted, Fits};

impl Fits for Piece {
    ghost use Rattle.pass_bands.specs.Rowed.{depths_of};
    ghost use Rattle.pass_bands.specs.Drawn.{work_seen, AreDrawn};

    type Tag = Task;

    ghost fits = { λ task p. AreDrawn task.surface (work_seen task.work) p.rows p.colors.items (depths_of p) };
}

/// Where the rows of a band lie when they were drawn. Clauses see the task of the pass.
pub(crate) type Home = Counted<Option<Piece>>;

/// The work, and a home for each band's rows.
#[derive(Drop)]
pub(crate) struct Shared {
    pub work: Work,
    pub homes: Vec<Home>,
    pub ghost same: { All (λ t. t.work ≡ work) homes.items },
    pub ghost few: { vec_len homes ≤ 64 },
}

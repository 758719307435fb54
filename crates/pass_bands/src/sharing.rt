// Homes that are made and filled.
ghost use Rattle.std.specs.Prelude.{◌≡◌, ◌≤◌, ◌<◌, All, length, slice_index_or, vec_len, IfOk};
ghost use Rattle.pass_bands.specs.Drawn.{work_seen, AreDrawn};
ghost use Rattle.pass_bands.specs.Rowed.{depths_of, IsCut};
ghost use Rattle.pass_bands.specs.declared.works.Task.{Task as ATask};

use crate::drawing::draw_piece;
use crate::pieces::Piece;
use crate::shared::{Home, Shared};
use crate::works::Task;
use counted_slot::{Counted, FREE, TAKEN};
use std::alloc::{AllocError, Global};

/// So many empty homes.
pub(crate) fn homes_of(alloc: Global, count: usize, task: &Task) -> Result<Vec<Home>, AllocError>
    ensures of { IfOk result (λ v. All (λ t. t ≡ task.now) v.items) }
    ensures count { IfOk result (λ v. vec_len v ≡ count) }
{
    let mut homes = Vec::new(alloc);
    for _ in 0..count {
        homes.push(Counted::new(None, task))?;
    }
    Ok(homes)
}

/// Lays rows that were drawn into their home. It never waits; where the home is being used, they are let go.
fn lay(home: &Home, piece: Piece)
    requires { AreDrawn home.now.surface (work_seen home.now.work) piece.rows piece.colors.items (depths_of piece) }
{
    let (found, claim) = home.turn(FREE, TAKEN);
    if found != FREE {
        claim.done();
        return;
    }
    let _ = claim.put(Some(piece), FREE);
}

impl Shared {
    /// Makes the draws on rows, and lays them into their home.
    pub(crate) fn draw(&self, home: usize, piece: Piece)
        requires inside { home < length self.now.homes.items }
        requires cut { (t : ATask) → IsCut piece (slice_index_or self.now.homes.items home t).surface }
    {
        let mut piece = piece;
        draw_piece(&self.work, &mut piece);
        lay(&self.homes[home], piece);
    }
}

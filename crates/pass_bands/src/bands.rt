// Bands.
ghost use Rattle.std.specs.Prelude.{◌<◌, length, slice_index_or};
ghost use Rattle.std.specs.Option.{ForSome};
ghost use Rattle.pass_bands.specs.Rowed.{IsCut};
ghost use Rattle.pass_bands.specs.declared.works.Task.{Task};

use crate::pieces::Piece;
use crate::shared::Shared;
use std::sync::Arc;

/// Whole rows of the surface of a pass. A band may go to another thread and be drawn there, beside the other bands.
#[derive(Drop)]
pub struct Band {
    pub(crate) shared: Arc<Shared>,
    pub(crate) home: usize,
    pub(crate) piece: Option<Piece>,
    ghost inside: { home < length shared.value.homes.items },
    ghost cut: { ForSome piece (λ p. (t : Task) → IsCut p (slice_index_or shared.value.homes.items home t).surface) },
}

impl Band {
    /// Draws the rows, where they were not drawn before. It takes no memory and never waits.
    pub fn draw(&mut self) {
        if let Some(piece) = self.piece.take() {
            self.shared.draw(self.home, piece);
        }
    }
}

fn sent<T: Send>(_: &T) {}

// It has the check find that a band may go to another thread.
fn band_may_go(band: &Band) {
    sent(band);
}

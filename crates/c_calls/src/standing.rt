// Whether a context goes on.
ghost use Rattle.std.specs.Prelude.{◌≡◌};
ghost use Rattle.c_calls.specs.Standings.{is_open, stands};

use letter_boxes::{Letter, Unclaimed};

/// How a context stands. Where it is not open, no encoder begins and no frame ends.
#[derive(Drop)]
pub enum Standing {
    /// Encoders begin, and frames end.
    Open,
    /// A frame was made and not shown.
    Unshown,
    /// An encoder was given up, whose letter this is.
    GivenUp(Letter<Unclaimed>),
}

impl Standing {
    /// Whether encoders begin and frames end.
    pub(crate) fn is_open(&self) -> bool
        ensures { result ≡ is_open self.now }
    {
        matches!(self, Standing::Open)
    }

    /// How a context stands after a frame that was shown, or not.
    pub(crate) fn after(is_shown: bool) -> Standing
        ensures { result ≡ stands is_shown }
    {
        if is_shown {
            Standing::Open
        } else {
            Standing::Unshown
        }
    }
}

// What a program picks for what its encoders end with.
use std::marker::Brand;

/// What an encoder may end with, and which may be given up. The caller of the generic function in which encoders live picks both, so
/// that a letter box has no letter but of what was posted.
pub trait Posting {
    ghost use Rattle.std.specs.Prelude.{ℕ, List};
    ghost use Rattle.gfx_model.specs.World.{Item};

    /// The encoder of this number was ended in the frame of this number, with the items and the number handed to its end.
    ghost posted: { ℕ → ℕ → List Item → ℕ → Type 0 };

    /// The encoder of this number was given up in the frame of this number.
    ghost given_up: { ℕ → ℕ → Type 0 };
}

impl Posting for Brand {
    ghost posted = { λ encoder frame items dropped. Unit {0} };

    ghost given_up = { λ encoder frame. Unit {0} };
}

/// The pick of a program that claims nothing of what its encoders end with.
pub struct Unclaimed;

impl Posting for Unclaimed {
    ghost posted = { λ encoder frame items dropped. Unit {0} };

    ghost given_up = { λ encoder frame. Unit {0} };
}

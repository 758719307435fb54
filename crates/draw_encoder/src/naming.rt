// What a program picks for its encoders.
use std::marker::Brand;

/// Which hold table its seats are of, what an encoder may end with, and how many views there are. The caller of the generic
/// function in which encoders live picks all three; a caller that claims nothing of its items admits every list and number.
pub trait Naming {
    ghost use Rattle.std.specs.Prelude.{ℕ, List};
    ghost use Rattle.atomic_table.specs.Seated.{TableId};
    ghost use Rattle.gfx_model.specs.World.{Item};
    ghost use Rattle.gfx_model.specs.Views.{IsViewCount};

    /// The named table.
    ghost table: { TableId };

    /// The encoder of this number may end in the frame of this number with the items and the number handed to `end`.
    ghost admits: { ℕ → ℕ → List Item → ℕ → Type 0 };

    /// The number of views.
    ghost views: { ℕ };

    /// It is one of the two that there are.
    ghost counted: { IsViewCount views };
}

impl Naming for Brand {
    ghost use Rattle.std.proofs.Common.{inl, refl};
    ghost use Rattle.gfx_model.specs.Views.{fewest_views};
    ghost use Rattle.draw_encoder.specs.Bundles.{no_table};

    ghost table = { no_table };

    ghost admits = { λ encoder frame items dropped. Unit {0} };

    ghost views = { fewest_views };

    ghost counted = { inl refl };
}

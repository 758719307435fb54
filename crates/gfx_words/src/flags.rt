// Flags of clears and of discards.
ghost use Rattle.std.specs.Prelude.{⊤, [], ◌∷◌, codes};

use bitflags::{Flag, Flags, bitflag_items};

/// What entering a view clears. A setting admits the numbers 0 to 7.
#[derive(Clone, Copy, PartialEq, Eq, Debug)]
pub struct ClearFlags(u8);

bitflag_items! {
    impl ClearFlags: u8 {
        const COLOR = 1;
        const DEPTH = 2;
        const STENCIL = 4;
    }
}

impl Flags for ClearFlags {
    type Bits = u8;

    ghost exact = { ⊤ };

    ghost table = { (codes "COLOR", 1) ∷ (codes "DEPTH", 2) ∷ (codes "STENCIL", 4) ∷ [] };

    ghost set_of = { λ f. f.0 };

    fn flags<'a>() -> &'a [Flag<ClearFlags>] {
        ClearFlags::FLAGS
    }

    fn bits(&self) -> u8 {
        self.0
    }

    fn from_bits_retain(bits: u8) -> ClearFlags {
        ClearFlags(bits)
    }
}

/// What a submit gives back to an encoder's state at `begin`. All numbers of a byte are admitted; the bits 4, 64 and 128 reset nothing.
#[derive(Clone, Copy, PartialEq, Eq, Debug)]
pub struct DiscardFlags(u8);

bitflag_items! {
    impl DiscardFlags: u8 {
        const BINDINGS = 1;
        const INDEX_BUFFER = 2;
        const STATE = 8;
        const TRANSFORM = 16;
        const VERTEX_STREAMS = 32;
    }
}

impl Flags for DiscardFlags {
    type Bits = u8;

    ghost exact = { ⊤ };

    ghost table = { (codes "BINDINGS", 1) ∷ (codes "INDEX_BUFFER", 2) ∷ (codes "STATE", 8) ∷ (codes "TRANSFORM", 16) ∷ (codes "VERTEX_STREAMS", 32) ∷ [] };

    ghost set_of = { λ f. f.0 };

    fn flags<'a>() -> &'a [Flag<DiscardFlags>] {
        DiscardFlags::FLAGS
    }

    fn bits(&self) -> u8 {
        self.0
    }

    fn from_bits_retain(bits: u8) -> DiscardFlags {
        DiscardFlags(bits)
    }
}

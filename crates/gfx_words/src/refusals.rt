// Refusals of calls.
ghost use Rattle.std.specs.Prelude.{◌≡◌};

use crate::Handle;

/// Why a call is refused. After a refusal the object is as it was.
#[derive(Clone, Copy, Drop, PartialEq, Eq, Debug)]
pub enum Refusal {
    /// All indices of the kind are given.
    Full,
    /// The handle's thing is gone; the word is that of its place.
    Stale { word: u64 },
    /// A range passes an end, or a list is too long or has a repeat.
    BadRange,
    /// A size is not admitted.
    BadSize,
    /// The destination texture was not made as one.
    NotBlitDst,
    /// A handle or a value is of another kind than the call asks.
    WrongKind,
    /// A live frame buffer holds the texture.
    Attached { holder: Handle },
    /// The encoder's room for items or uniform values is used up.
    RoomFull,
    /// The encoder's room for bytes would be passed.
    BytesFull,
    /// There is no such view.
    BadView,
    /// All encoders of the frame are begun.
    NoEncoder,
    /// All serials are given.
    SerialsSpent,
    /// All frame numbers are used.
    FramesSpent,
    /// The texels of all textures would pass the limit.
    TexelsFull,
    /// A state word, a stencil word or a clear setting is not admitted.
    BadState,
    /// There was no memory.
    OutOfMemory,
}

impl Refusal {
    ghost use Rattle.gfx_words.specs.Seen.{refusal_number};

    /// The number of this refusal; 15 is not used.
    pub fn number(&self) -> u8
        ensures { result ≡ refusal_number self.now }
    {
        match self {
            Refusal::Full => 1,
            Refusal::Stale { .. } => 2,
            Refusal::BadRange => 3,
            Refusal::BadSize => 4,
            Refusal::NotBlitDst => 5,
            Refusal::WrongKind => 6,
            Refusal::Attached { .. } => 7,
            Refusal::RoomFull => 8,
            Refusal::BytesFull => 9,
            Refusal::BadView => 10,
            Refusal::NoEncoder => 11,
            Refusal::SerialsSpent => 12,
            Refusal::FramesSpent => 13,
            Refusal::TexelsFull => 14,
            Refusal::BadState => 16,
            Refusal::OutOfMemory => 17,
        }
    }
}

// Why a line is dropped.
ghost use Rattle.std.specs.Prelude.{◌≡◌, OnOk, OnErr, None, MatchResult};
ghost use Rattle.gfx_words.specs.Seen.{refusal_seen};
ghost use Rattle.scene_lines.specs.Reasons.{word_of, IsTold};

use gfx_words::Refusal;
use std::alloc::AllocError;

/// Why a line is dropped: a name of it stands for nothing, its parts are no layout, or its call is refused.
#[derive(Clone, Copy, Drop, PartialEq, Eq, Debug)]
pub enum Reason {
    /// A name of the line stands for nothing: no line that made it was accepted.
    Unnamed,
    /// The parts are no layout.
    NoLayout,
    Full,
    Stale,
    BadRange,
    BadSize,
    NotBlitDst,
    WrongKind,
    Attached,
    RoomFull,
    BytesFull,
    BadView,
    NoEncoder,
    SerialsSpent,
    FramesSpent,
    TexelsFull,
    BadState,
}

impl Reason {
    /// The reason of a refusal; want of memory is none.
    pub fn of(refusal: Refusal) -> Result<Reason, AllocError>
        ensures { MatchResult result (λ r. IsTold refusal r) (λ _. refusal_seen refusal ≡ None) }
    {
        match refusal {
            Refusal::Full => Ok(Reason::Full),
            Refusal::Stale { .. } => Ok(Reason::Stale),
            Refusal::BadRange => Ok(Reason::BadRange),
            Refusal::BadSize => Ok(Reason::BadSize),
            Refusal::NotBlitDst => Ok(Reason::NotBlitDst),
            Refusal::WrongKind => Ok(Reason::WrongKind),
            Refusal::Attached { .. } => Ok(Reason::Attached),
            Refusal::RoomFull => Ok(Reason::RoomFull),
            Refusal::BytesFull => Ok(Reason::BytesFull),
            Refusal::BadView => Ok(Reason::BadView),
            Refusal::NoEncoder => Ok(Reason::NoEncoder),
            Refusal::SerialsSpent => Ok(Reason::SerialsSpent),
            Refusal::FramesSpent => Ok(Reason::FramesSpent),
            Refusal::TexelsFull => Ok(Reason::TexelsFull),
            Refusal::BadState => Ok(Reason::BadState),
            Refusal::OutOfMemory => Err(AllocError),
        }
    }

    /// The word for it.
    pub fn word(self) -> &'static [u8]
        ensures { result.now ≡ word_of self }
    {
        match self {
            Reason::Unnamed => b"Unnamed",
            Reason::NoLayout => b"NoLayout",
            Reason::Full => b"Full",
            Reason::Stale => b"Stale",
            Reason::BadRange => b"BadRange",
            Reason::BadSize => b"BadSize",
            Reason::NotBlitDst => b"NotBlitDst",
            Reason::WrongKind => b"WrongKind",
            Reason::Attached => b"Attached",
            Reason::RoomFull => b"RoomFull",
            Reason::BytesFull => b"BytesFull",
            Reason::BadView => b"BadView",
            Reason::NoEncoder => b"NoEncoder",
            Reason::SerialsSpent => b"SerialsSpent",
            Reason::FramesSpent => b"FramesSpent",
            Reason::TexelsFull => b"TexelsFull",
            Reason::BadState => b"BadState",
        }
    }
}

// Whether a run left what it had to.
ghost use Rattle.std.specs.Prelude.{◌↔◌, IsTrue};
ghost use Rattle.worked_cases.specs.Same.{AreSame};

/// How a run ended: the number of its status; the line that is refused, counted from 1, or how many entries of a journal, frames of a capture
/// or pictures of streams stand before the first fault; and the cause, of streams the byte where they fail. What a status does not have is 0.
#[derive(Clone, Copy, Debug, PartialEq, Eq, Drop)]
pub struct Ending {
    pub status: u8,
    pub at: u32,
    pub cause: u32,
}

impl Ending {
    /// An ending that is no refusal.
    pub fn plain(status: u8) -> Ending {
        Ending {
            status,
            at: 0,
            cause: 0,
        }
    }
}

/// What a run left or has to leave: how it ended, how many frames did, and the bytes of its pictures and of its notes.
#[derive(Clone, Copy, Drop)]
pub struct Outcome<'a> {
    pub ending: Ending,
    pub frames: usize,
    pub pictures: &'a [u8],
    pub notes: &'a [u8],
}

/// Whether two outcomes are the same: exactly where all four are equal.
pub fn is_same(wanted: &Outcome<'_>, left: &Outcome<'_>) -> bool
    ensures { IsTrue result ↔ AreSame wanted.now left.now }
{
    wanted.ending == left.ending
        && wanted.frames == left.frames
        && wanted.pictures == left.pictures
        && wanted.notes == left.notes
}

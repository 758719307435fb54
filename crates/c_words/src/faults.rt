// Why a call from C did nothing, and what C is answered.
ghost use Rattle.std.specs.Prelude.{◌≡◌};
ghost use Rattle.c_words.specs.Statuses.{fault_number, status_of, told_of};

use gfx_words::Refusal;

/// The status of a call on a handle that is null or of another kind.
pub const NO_OBJECT: u32 = 100;

/// Why a call from C did nothing.
#[derive(Clone, Copy, Drop, PartialEq, Eq, Debug)]
pub enum Fault {
    /// The call was refused as the same call from Rattle is.
    Refused(Refusal),
    /// A word names nothing that was made here.
    Unknown,
    /// A handle is null, or is one of another kind.
    NoObject,
    /// An encoder has not come back, or another bundle waits in its place.
    TryAgain,
    /// A frame was not shown. No encoder begins and no frame ends any more.
    Ended,
    /// The buffer for the picture is too small.
    TooSmall,
    /// A number stands for nothing.
    BadValue,
    /// A handle that is to be set is not null.
    Taken,
    /// The last frame left no such texture.
    NotThere,
}

impl Fault {
    /// The number that C sees: that of the refusal, or one from 100.
    pub fn number(&self) -> u32
        ensures { result ≡ fault_number self.now }
    {
        match self {
            Fault::Refused(refusal) => refusal.number() as u32,
            Fault::Unknown => 108,
            Fault::NoObject => 100,
            Fault::TryAgain => 101,
            Fault::Ended => 102,
            Fault::TooSmall => 103,
            Fault::BadValue => 104,
            Fault::Taken => 105,
            Fault::NotThere => 109,
        }
    }
}

/// The status of an answer: 0 where the call was done.
pub fn status(answer: Result<(), Fault>) -> u32
    ensures { result ≡ status_of answer }
{
    match answer {
        Ok(()) => 0,
        Err(fault) => fault.number(),
    }
}

/// The answer of a call that another crate made.
pub fn told<T: Drop>(answer: Result<T, Refusal>) -> Result<T, Fault>
    ensures { result ≡ told_of answer }
{
    match answer {
        Ok(value) => Ok(value),
        Err(refusal) => Err(Fault::Refused(refusal)),
    }
}

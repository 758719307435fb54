// Reads a source to its end.
ghost use Rattle.std.specs.Prelude.{◌≡◌, ◌≤◌, length, IfOk, IsErrOf};
ghost use Rattle.io_edge.specs.Edge.{with_front, IsSpent, Rose};
ghost use Rattle.io_whole.specs.Whole.{HasMoreThan};
ghost use Rattle.io_whole.specs.declared.reading.InputError.TheVariants.{OutOfMemory, Fault};

use io_edge::{Failed, Source};
use std::alloc::{AllocError, Global};

/// The longest scene, journal, list of calls or script that is read: 16,777,216 bytes.
pub const LONGEST_INPUT: usize = 16_777_216;

/// Why a source was not read to its end.
#[derive(Clone, Copy, Debug, PartialEq, Eq, Drop)]
pub enum InputError {
    /// A read failed.
    Fault,
    /// The source has more bytes than the limit.
    TooLong,
    /// Memory ran out.
    OutOfMemory,
}

impl From<AllocError> for InputError {
    ghost from_gives = { λ _ e. e ≡ OutOfMemory };

    fn from(_: AllocError) -> Self {
        InputError::OutOfMemory
    }
}

impl From<Failed> for InputError {
    ghost from_gives = { λ _ e. e ≡ Fault };

    fn from(_: Failed) -> Self {
        InputError::Fault
    }
}

/// All bytes that are left, of which there may be `limit`.
///
/// # Errors
///
/// `Fault` only where the source's count of faults rose, `TooLong` only where it gave more than `limit` bytes, and `OutOfMemory` for want
/// of memory.
pub fn read_all<S: Source>(
    alloc: Global,
    source: &mut S,
    limit: usize,
) -> Result<Vec<u8>, InputError>
    ensures bytes { IfOk result (λ v. S.left source.old ≡ with_front v.items (S.left source.new)) }
    ensures ended { IfOk result (λ _. IsSpent (S.left source.new)) }
    ensures few { IfOk result (λ v. length v.items ≤ limit) }
    ensures fault { IsErrOf result InputError.Fault → Rose (S.faults source.old) (S.faults source.new) }
    ensures too_long { IsErrOf result InputError.TooLong → HasMoreThan limit (S.left source.old) }
    ensures no_fewer { S.faults source.old ≤ S.faults source.new }
{
    let mut all = Vec::new(alloc);
    let mut room = [0u8; 65_536];
    loop {
        let n = source.take(&mut room)?;
        if n == 0 {
            return Ok(all);
        }
        if n > limit - all.len() {
            return Err(InputError::TooLong);
        }
        all.extend_from_slice(&room[..n])?;
    }
}

// Bytes in memory as a source that never fails.
ghost use Rattle.std.specs.Prelude.{◌≡◌, ◌≤◌, ◌++◌, Some, length, min, take, drop};

use io_edge::{Failed, Source};

/// Gives the bytes of a list, and tells them. Its count of faults is 0 whatever is called, so no call of it fails.
#[derive(Drop)]
pub(crate) struct Given {
    bytes: Vec<u8>,
    at: usize,
    ghost within: { at ≤ length bytes.items },
}

impl Given {
    /// A source of these bytes.
    pub(crate) fn new(bytes: Vec<u8>) -> Given
        ensures told { drop result.at result.bytes.items ≡ bytes.items }
    {
        Given { bytes, at: 0 }
    }
}

impl Source for Given {
    ghost left = { λ s. Some (drop s.at s.bytes.items) };

    ghost faults = { λ s. 0 };

    /// As much as is left and the room takes.
    fn take(&mut self, room: &mut [u8]) -> Result<usize, Failed> {
        let n = copy_front(room, &self.bytes[self.at..]);
        self.at += n;
        Ok(n)
    }
}

/// Copies as many of the bytes to the front of the room as fit.
fn copy_front(room: &mut [u8], bytes: &[u8]) -> usize
    ensures most { result ≡ min (length bytes.now) (length room.old) }
    ensures front { take result room.new ++ drop result bytes.now ≡ bytes.now }
{
    let n = bytes.len().min(room.len());
    room[..n].copy_from_slice(&bytes[..n]);
    n
}

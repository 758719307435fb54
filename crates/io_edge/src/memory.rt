// A source and a sink in memory, which fail at the calls that they are told.
ghost use Rattle.std.specs.Prelude.{◌≡◌, ◌<◌, ◌≤◌, ◌-◌, ◌%◌, ◌^◌, ◌==◌, ◌||◌, ◌↔◌, nat_le, if◌then◌else◌, [], Some, None, length, sum, min, take, drop, ◌++◌, vec_capacity, IfOk, OnErr, IsErr, IsTrue};
ghost use Rattle.io_edge.specs.Edge.{with_front, with_back, counted, IsSpent, Rose, short_sink};
ghost use Rattle.io_edge.specs.Calls.{is_listed, IsNew, IsCalled};
ghost use Rattle.io_edge.specs.Memory.{bytes_from, tally_of, sure_of, put_fails};

use crate::calls::Calls;
use crate::{Failed, Sink, Source};
use std::alloc::{AllocError, Global};

/// Gives the bytes of a list. It tells them.
#[derive(Drop)]
pub struct MemSource {
    bytes: Vec<u8>,
    at: usize,
    calls: Calls,
    ghost within: { at ≤ length bytes.items },
}

impl MemSource {
    /// A source of these bytes. The calls whose numbers, from 0, stand in `fails` fail, and no others.
    pub fn new(bytes: Vec<u8>, fails: Vec<u32>) -> MemSource
        ensures told { drop result.at result.bytes.items ≡ bytes.items }
        ensures calls { IsNew result.calls fails.items }
    {
        MemSource {
            bytes,
            at: 0,
            calls: Calls::new(fails),
        }
    }
}

impl Source for MemSource {
    ghost left = { λ s. bytes_from s.at s.bytes.items };

    ghost faults = { λ s. s.calls.faults };

    /// As much as is left and the room takes.
    ///
    /// # Errors
    ///
    /// `Failed` exactly at a listed call.
    fn take(&mut self, room: &mut [u8]) -> Result<usize, Failed>
        requires { 0 < length room.old }
        ensures fits { IfOk result (λ n. n ≤ length room.old) }
        ensures taken { IfOk result (λ n. bytes_from self.old.at self.old.bytes.items ≡ with_front (take n room.new) (bytes_from self.new.at self.new.bytes.items)) }
        ensures ended { IfOk result (λ n. n ≡ 0 → IsSpent (bytes_from self.old.at self.old.bytes.items)) }
        ensures stays { OnErr result (bytes_from self.new.at self.new.bytes.items ≡ bytes_from self.old.at self.old.bytes.items) }
        ensures no_fewer { self.old.calls.faults ≤ self.new.calls.faults }
        ensures failed { OnErr result (Rose self.old.calls.faults self.new.calls.faults) }
        ensures called { IsCalled self.old.calls self.new.calls }
        ensures exact { IsErr result ↔ IsTrue (is_listed self.old.calls.fails.items self.old.calls.made) }
    {
        if self.calls.next_is_listed() {
            return Err(self.calls.failed());
        }
        let n = copy_front(room, &self.bytes[self.at..]);
        self.at += n;
        Ok(n)
    }
}

// Copies as many of the bytes to the front of the room as fit.
fn copy_front(room: &mut [u8], bytes: &[u8]) -> usize
    ensures most { result ≡ min (length bytes.now) (length room.old) }
    ensures front { take result room.new ++ drop result bytes.now ≡ bytes.now }
{
    let n = bytes.len().min(room.len());
    room[..n].copy_from_slice(&bytes[..n]);
    n
}

/// Keeps what is put. It tells its bytes and their sum, and where no call is listed its capacity as its
/// sure length.
#[derive(Drop)]
pub struct MemSink {
    bytes: Vec<u8>,
    capacity: usize,
    most: usize,
    calls: Calls,
    ghost some: { 0 < most },
    ghost room: { capacity ≤ vec_capacity bytes },
    ghost never_short: { length calls.fails.items ≡ 0 → length bytes.items < capacity → calls.faults ≡ 0 },
}

impl MemSink {
    /// Takes at most `most` bytes a call, which is at least 1, and `capacity` bytes in all. The calls
    /// whose numbers, from 0, stand in `fails` fail.
    ///
    /// # Errors
    ///
    /// `AllocError` for want of memory alone.
    pub fn new(
        alloc: Global,
        capacity: usize,
        most: usize,
        fails: Vec<u32>,
    ) -> Result<MemSink, AllocError>
        requires { 0 < most }
        ensures empty { IfOk result (λ sink. sink.bytes.items ≡ []) }
        ensures limits { IfOk result (λ sink. (sink.capacity ≡ capacity) × (sink.most ≡ most)) }
        ensures calls { IfOk result (λ sink. IsNew sink.calls fails.items) }
    {
        Ok(MemSink {
            bytes: Vec::with_capacity(alloc, capacity)?,
            capacity,
            most,
            calls: Calls::new(fails),
        })
    }

    /// What was put.
    pub fn bytes(&self) -> &[u8]
        ensures { result.now ≡ self.now.bytes.items }
    {
        &self.bytes
    }
}

impl Sink for MemSink {
    ghost held = { λ s. Some s.bytes.items };

    ghost tally = { λ s. tally_of s.bytes.items };

    ghost sure = { λ s. sure_of s.calls.fails.items s.capacity };

    ghost faults = { λ s. s.calls.faults };

    ghost never_short = { λ s short. short_sink s.bytes.items (length s.calls.fails.items) s.capacity s.calls.faults s.never_short short };

    /// As many bytes as the least of the piece's length, the most of a call and what is left of the
    /// capacity.
    ///
    /// # Errors
    ///
    /// `Failed` exactly at a listed call, and where the capacity is used up.
    fn put(&mut self, piece: &[u8]) -> Result<usize, Failed>
        requires { 0 < length piece.now }
        ensures some { IfOk result (λ n. 0 < n) }
        ensures fits { IfOk result (λ n. n ≤ length piece.now) }
        ensures amount { IfOk result (λ n. n ≡ min (min (length piece.now) self.old.most) (self.old.capacity - length self.old.bytes.items)) }
        ensures held { IfOk result (λ n. Some self.new.bytes.items ≡ with_back (Some self.old.bytes.items) (take n piece.now)) }
        ensures tally { IfOk result (λ n. tally_of self.new.bytes.items ≡ counted (tally_of self.old.bytes.items) (take n piece.now)) }
        ensures sure { sure_of self.new.calls.fails.items self.new.capacity ≡ sure_of self.old.calls.fails.items self.old.capacity }
        ensures stays { OnErr result (self.new.bytes.items ≡ self.old.bytes.items) }
        ensures tally_stays { OnErr result (tally_of self.new.bytes.items ≡ tally_of self.old.bytes.items) }
        ensures no_fewer { self.old.calls.faults ≤ self.new.calls.faults }
        ensures failed { OnErr result (Rose self.old.calls.faults self.new.calls.faults) }
        ensures limits { (self.new.most ≡ self.old.most) × (self.new.capacity ≡ self.old.capacity) }
        ensures called { IsCalled self.old.calls self.new.calls }
        ensures exact { IsErr result ↔ IsTrue (put_fails self.old.calls.fails.items self.old.calls.made self.old.capacity self.old.bytes.items) }
    {
        let room = self.capacity.saturating_sub(self.bytes.len());
        if self.calls.next_is_listed() || room == 0 {
            return Err(self.calls.failed());
        }
        let n = piece.len().min(self.most).min(room);
        self.bytes.extend_from_slice(&piece[..n]).unwrap();
        Ok(n)
    }
}

// std's reader and writer as a source and a sink. They tell no content.
ghost use Rattle.std.specs.Prelude.{◌≡◌, ◌≤◌, None};
ghost use Rattle.io_edge.specs.Edge.{Rose};

use crate::{Failed, Sink, Source};
use std::io::{Read, Write};

/// A reader of std. It tells no content, and each `Err` of the reader is a fault.
#[derive(Drop)]
pub struct StdSource<R> {
    reader: R,
    faults: u64,
}

impl<R: Read> StdSource<R> {
    /// A source of what the reader gives.
    pub fn new(reader: R) -> StdSource<R>
        ensures { result.faults ≡ 0 }
    {
        StdSource { reader, faults: 0 }
    }
}

impl<R: Read> Source for StdSource<R> {
    ghost left = { λ _. None };

    ghost faults = { λ s. s.faults };

    fn take(&mut self, room: &mut [u8]) -> Result<usize, Failed> {
        match self.reader.read(room) {
            Ok(n) => Ok(n),
            Err(_) => {
                self.faults = self.faults.saturating_add(1);
                Err(Failed)
            }
        }
    }
}

/// A writer of std. It tells no content. Each put also flushes. An `Err` of either call, and a put of
/// which the writer takes no byte, is a fault.
#[derive(Drop)]
pub struct StdSink<W> {
    writer: W,
    faults: u64,
}

impl<W: Write> StdSink<W> {
    /// A sink that hands on to the writer.
    pub fn new(writer: W) -> StdSink<W>
        ensures { result.faults ≡ 0 }
    {
        StdSink { writer, faults: 0 }
    }

    // One fault more.
    fn failed(&mut self) -> Failed
        ensures no_fewer { self.old.faults ≤ self.new.faults }
        ensures rose { Rose self.old.faults self.new.faults }
    {
        self.faults = self.faults.saturating_add(1);
        Failed
    }
}

impl<W: Write> Sink for StdSink<W> {
    ghost held = { λ _. None };

    ghost tally = { λ _. None };

    ghost sure = { λ _. None };

    ghost faults = { λ s. s.faults };

    ghost never_short = { λ s short. absurd short };

    fn put(&mut self, piece: &[u8]) -> Result<usize, Failed> {
        match self.writer.write(piece) {
            Ok(n) if n > 0 => match self.writer.flush() {
                Ok(()) => Ok(n),
                Err(_) => Err(self.failed()),
            },
            _ => Err(self.failed()),
        }
    }
}

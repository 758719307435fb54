// A scene's text is played, and its pictures and its report are handed out.
ghost use Rattle.std.specs.Prelude.{◌≡◌, ◌≤◌, ◌++◌, [], drop, length};
ghost use Rattle.c_playing.specs.Plays.{BeginsWith, AreHandedOut, Plays};

use io_edge::{Failed, Sink};
use io_whole::LONGEST_INPUT;
use scene_player::{Status, play_bytes_here};
use std::alloc::Global;

/// What C is told of a play: how many bytes of pictures and of report were written or are wanted; and of a text that is no scene its
/// first line that fails, from 1, and the cause.
#[repr(C)]
#[derive(Clone, Copy, Drop)]
pub struct Played {
    pub pictures: usize,
    pub report: usize,
    pub line: u32,
    pub cause: u32,
}

/// How a play for C ends.
#[derive(Clone, Copy, Drop)]
pub enum PlayEnd {
    /// The buffers begin with the pictures and the report, of so many bytes.
    Done { pictures: usize, report: usize },
    /// The text is no scene: its first line that fails, from 1, and the cause, 1 to 12.
    NoScene { line: u32, cause: u8 },
    /// The text has more than 16,777,216 bytes.
    TooLong,
    /// A buffer is too small: so many bytes are wanted.
    TooSmall { pictures: usize, report: usize },
    /// Memory was wanting.
    OutOfMemory,
}

/// Keeps what is put. It fails only for want of memory.
#[derive(Drop)]
pub struct TextSink {
    bytes: Vec<u8>,
    faults: u64,
}

impl TextSink {
    /// A sink in which nothing was put.
    fn new(alloc: Global) -> TextSink
        ensures { (result.bytes.items ≡ []) × (result.faults ≡ 0) }
    {
        TextSink {
            bytes: Vec::new(alloc),
            faults: 0,
        }
    }

    /// What was put.
    fn bytes(&self) -> &[u8]
        ensures { result.now ≡ self.now.bytes.items }
    {
        &self.bytes
    }
}

impl Sink for TextSink {
    ghost use Rattle.std.specs.Prelude.{Some, None};

    ghost held = { λ s. Some s.bytes.items };

    ghost tally = { λ _. None };

    ghost sure = { λ _. None };

    ghost faults = { λ s. s.faults };

    ghost never_short = { λ s short. absurd short };

    fn put(&mut self, piece: &[u8]) -> Result<usize, Failed> {
        match self.bytes.extend_from_slice(piece) {
            Ok(()) => Ok(piece.len()),
            Err(_) => {
                self.faults = self.faults.saturating_add(1);
                Err(Failed)
            }
        }
    }
}

// Copies a text to the front of a buffer, which has room for it.
fn copy_front(text: &[u8], buffer: &mut [u8])
    requires { length text.now ≤ length buffer.old }
    ensures { BeginsWith text.now buffer.old buffer.new }
{
    buffer[..text.len()].copy_from_slice(text);
}

// Hands out two texts, where both buffers have room.
fn hand_out(shown: &[u8], told: &[u8], pictures: &mut [u8], report: &mut [u8]) -> PlayEnd
    ensures { AreHandedOut result shown.now told.now pictures.old pictures.new report.old report.new }
{
    if shown.len() > pictures.len() || told.len() > report.len() {
        return PlayEnd::TooSmall {
            pictures: shown.len(),
            report: told.len(),
        };
    }
    copy_front(shown, pictures);
    copy_front(told, report);
    PlayEnd::Done {
        pictures: shown.len(),
        report: told.len(),
    }
}

/// Plays a text on this thread, and hands out its pictures and its report.
pub fn play_text(alloc: Global, text: &[u8], pictures: &mut [u8], report: &mut [u8]) -> PlayEnd
    ensures { Plays result text.now pictures.old pictures.new report.old report.new }
{
    if text.len() > LONGEST_INPUT {
        return PlayEnd::TooLong;
    }
    let mut notes = TextSink::new(alloc);
    let shown = TextSink::new(alloc);
    let played = play_bytes_here(alloc, false, text, shown, &mut notes);
    match played.status {
        Status::Done => hand_out(played.pictures.bytes(), notes.bytes(), pictures, report),
        Status::Scene { line, cause } => PlayEnd::NoScene { line, cause },
        _ => PlayEnd::OutOfMemory,
    }
}

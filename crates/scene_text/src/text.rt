// Whole texts.
ghost use Rattle.std.specs.Prelude.{◌≡◌, ◌≤◌, length, IfOk};
ghost use Rattle.scene_model.specs.Grammar.{scene_of};
ghost use Rattle.spelling_model.specs.Readable.{IsReadable};
ghost use Rattle.scene_model.specs.Grammar as model;
ghost use Rattle.scene_text.specs.Bounds.{IsBounded};
ghost use Rattle.scene_text.specs.Reads.{Reads, at};
ghost use Rattle.scene_text.specs.Seen.{scene_seen};
ghost use Rattle.scene_text.specs.SeenReading.{reading_seen};
ghost use Rattle.scene_model.specs.Grammar.{whole_language};

use crate::fault::{Cause, LineFault, SceneFault};
use crate::reading::{Reading, all_text};
use crate::scene::Scene;
use crate::sequence::Sequence;
use crate::splitting::next_line;
use crate::stages::Stage;
use std::alloc::{AllocError, Global};

/// The fault of a line.
pub fn at(line: u32, fault: LineFault) -> SceneFault
    ensures { result ≡ at fault line }
{
    match fault {
        LineFault::Bad(cause) => SceneFault::At {
            line,
            cause: cause.number(),
        },
        LineFault::OutOfMemory => SceneFault::OutOfMemory,
    }
}

/// The scene that was read.
pub fn scene(alloc: Global, reading: Reading) -> Result<Scene, AllocError>
    ensures { IfOk result (λ s. scene_seen s ≡ model.scene_read (reading_seen reading)) }
{
    let names = reading.names.into_names(alloc)?;
    Ok(Scene {
        version: reading.version,
        width: reading.width,
        height: reading.height,
        encoders: reading.encoders,
        room: reading.room,
        latency: reading.latency,
        names: Sequence::from_vec(names),
        frames: Sequence::from_vec(reading.frames),
    })
}

/// What the last piece makes, which no newline ends.
pub fn at_last_piece(
    alloc: Global,
    line: u32,
    reading: Reading,
    rest: &[u8],
) -> Result<Scene, SceneFault>
    ensures { Reads result (model.at_last_piece line (reading_seen reading) rest.now) }
{
    match rest {
        [] => {
            if reading.stage == Stage::AtEnd {
                let scene = scene(alloc, reading)?;
                Ok(scene)
            } else {
                Err(at(line, LineFault::Bad(Cause::EndsEarly)))
            }
        }
        [first, ..] => {
            if *first == b'#' {
                return Err(at(line, LineFault::Bad(Cause::EndsEarly)));
            }
            if all_text(rest) {
                return Err(at(line, LineFault::Bad(Cause::EndsEarly)));
            }
            Err(at(line, LineFault::Bad(Cause::BadByte)))
        }
    }
}

/// The scene that the bytes are, or the first line that fails, counted from 1, with its first cause.
///
/// The lines are those of the scene text of `docs/formats.md`. One pass over the bytes, and no line is copied. The bytes
/// are at most 4,294,967,294.
///
/// What is read keeps the bounds of a scene: version 1 or 2; sides of 1 to 2,048 pixels; 1 to 8 encoders, each with room
/// for 1 to 8,191 items, so a frame has at most 65,528; a latency of 1 to 3, and of 1 in version 1; 1 to 1,024 frames,
/// whose blocks have ascending numbers below the number of encoders. Each name of a line is a place of the list of names, and a
/// frame's part has at most 4,294,967,295 lines.
///
/// # Errors
///
/// `SceneFault::At` where the bytes are no scene, and `SceneFault::OutOfMemory` where no memory is left for it.
pub fn read(alloc: Global, bytes: &[u8]) -> Result<Scene, SceneFault>
    requires { length bytes.now ≤ 4294967294 }
    ensures exact { Reads result (scene_of whole_language bytes.now) }
    ensures readable { IfOk result (λ s. IsReadable (scene_seen s)) }
    ensures bounds { IfOk result (λ s. IsBounded (scene_seen s)) }
{
    let mut reading = Reading::new(alloc);
    let mut fields = Vec::new(alloc);
    let mut rest = bytes;
    let mut line: u32 = 1;
    while let Some(found) = next_line(rest, &mut fields)? {
        let n = found.end;
        match reading.after_next(alloc, &rest[..n], found.is_split, &mut fields) {
            Ok(()) => {}
            Err(fault) => return Err(at(line, fault)),
        }
        rest = &rest[n + 1..];
        line += 1;
        let run = reading.after_run(alloc, rest)?;
        rest = &rest[run.bytes..];
        line += run.lines;
    }
    at_last_piece(alloc, line, reading, rest)
}

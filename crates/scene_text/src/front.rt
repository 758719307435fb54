// The scene at the front of a text.
ghost use Rattle.std.specs.Prelude.{◌≤◌, length, IfOk};
ghost use Rattle.scene_model.specs.Grammar.{front_of};
ghost use Rattle.spelling_model.specs.Readable.{IsReadable};
ghost use Rattle.scene_text.specs.Bounds.{IsBounded};
ghost use Rattle.scene_text.specs.Reads.{ReadsFront};
ghost use Rattle.scene_text.specs.Seen.{scene_seen};
ghost use Rattle.scene_model.specs.Grammar.{whole_language};

use crate::fault::SceneFault;
use crate::reading::Reading;
use crate::scene::Scene;
use crate::stages::is_at_end;
use crate::text::{at, at_last_piece, scene};
use std::alloc::Global;
use text_fields::find;

/// What `read_front` answers.
fn read_to_done(alloc: Global, bytes: &[u8]) -> Result<(Scene, usize), SceneFault>
    requires { length bytes.now ≤ 4294967294 }
    ensures exact { ReadsFront result (front_of whole_language bytes.now) }
    ensures within { IfOk result (λ found. found.1 ≤ length bytes.now) }
{
    let mut reading = Reading::new(alloc);
    let mut fields = Vec::new(alloc);
    let mut rest = bytes;
    let mut line: u32 = 1;
    while !is_at_end(reading.stage) {
        let Some(n) = find(rest, b'\n') else {
            let scene = at_last_piece(alloc, line, reading, rest)?;
            return Ok((scene, bytes.len() - rest.len()));
        };
        match reading.after_line(alloc, &rest[..n], &mut fields) {
            Ok(()) => {}
            Err(fault) => return Err(at(line, fault)),
        }
        rest = &rest[n + 1..];
        line += 1;
    }
    let scene = scene(alloc, reading)?;
    Ok((scene, bytes.len() - rest.len()))
}

/// The scene up to its `done` line, and how many bytes that takes; what follows is not read. Or the first line that
/// fails, counted from 1, with its first cause. The bytes are at most 4,294,967,294. The scene keeps the bounds of what
/// `read` answers.
///
/// # Errors
///
/// As `read`.
pub fn read_front(alloc: Global, bytes: &[u8]) -> Result<(Scene, usize), SceneFault>
    requires { length bytes.now ≤ 4294967294 }
    ensures exact { ReadsFront result (front_of whole_language bytes.now) }
    ensures readable { IfOk result (λ found. IsReadable (scene_seen found.0)) }
    ensures bounds { IfOk result (λ found. IsBounded (scene_seen found.0)) }
    ensures within { IfOk result (λ found. found.1 ≤ length bytes.now) }
{
    read_to_done(alloc, bytes)
}

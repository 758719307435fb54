// Looks into a frame of a scene.
ghost use Rattle.std.specs.Prelude.{◌<◌, ◌≤◌, length};
ghost use Rattle.spelling_model.specs.Readable.{IsReadable};
ghost use Rattle.scene_text.specs.Bounds.{IsBounded};
ghost use Rattle.scene_text.specs.Seen.{scene_seen};

use crate::case::{Case, Look};
use crate::judging::Ending;
use crate::running::{Left, sink};
use io_edge::MemSink;
use io_whole::LONGEST_INPUT;
use scene_text::{Scene, SceneFault, read};
use scene_tracing::{StepFault, Stepped, put_scene_steps, scene_blame, scene_step_lines};
use std::alloc::{AllocError, Global};
use target_scenes::{TargetPlace, TargetText, target_lines};

// The statuses of `gfx_trace` with which a look may end.
const NO_SCENE: u8 = 2;

const PICTURES_FAILED: u8 = 4;

const NO_FRAME: u8 = 9;

const NO_PIXEL: u8 = 10;

fn left(ending: Ending, pictures: Vec<u8>, notes: Vec<u8>) -> Left {
    Left {
        ending,
        frames: 1,
        pictures,
        notes,
        is_held: true,
    }
}

// The picture of the deeds to which a frame's pixels are due.
fn blame(alloc: Global, scene: &Scene, frame: u32) -> Result<Left, AllocError>
    requires readable { IsReadable (scene_seen scene.now) }
    requires bounded { IsBounded (scene_seen scene.now) }
    requires frame { frame < length scene.now.frames }
{
    let text = scene_blame(alloc, scene, None, frame)?;
    Ok(left(Ending::plain(0), text, Vec::new(alloc)))
}

// What steps left, and their lines where all of their pictures were put.
fn left_by_steps(
    alloc: Global,
    bytes: &[u8],
    scene: &Scene,
    frame: u32,
    stepped: &Stepped<MemSink>,
) -> Result<Left, AllocError>
    requires few { length bytes.now ≤ 16777216 }
    requires readable { IsReadable (scene_seen scene.now) }
    requires bounded { IsBounded (scene_seen scene.now) }
{
    let pictures = stepped.sink.bytes().to_vec(alloc)?;
    match stepped.end.fault {
        None => {
            let lines = scene_step_lines(alloc, bytes, scene, frame, &stepped.end.doers)?;
            Ok(left(Ending::plain(0), pictures, lines))
        }
        Some(StepFault::Fault) => Ok(left(
            Ending::plain(PICTURES_FAILED),
            pictures,
            Vec::new(alloc),
        )),
        Some(StepFault::OutOfMemory) => Err(AllocError),
    }
}

// The pictures of a frame's steps, and their lines.
fn steps(
    alloc: Global,
    bytes: &[u8],
    scene: &Scene,
    frame: u32,
    pictures: MemSink,
) -> Result<Left, AllocError>
    requires few { length bytes.now ≤ 16777216 }
    requires readable { IsReadable (scene_seen scene.now) }
    requires bounded { IsBounded (scene_seen scene.now) }
    requires frame { frame < length scene.now.frames }
{
    let stepped = put_scene_steps(alloc, scene, None, frame, pictures);
    left_by_steps(alloc, bytes, scene, frame, &stepped)
}

// The lines of a pixel of the frame buffer of a name, as notes.
fn target(
    alloc: Global,
    bytes: &[u8],
    scene: &Scene,
    words: &[String],
    place: TargetPlace,
) -> Result<Left, AllocError>
    requires few { length bytes.now ≤ 16777216 }
    requires readable { IsReadable (scene_seen scene.now) }
    requires bounded { IsBounded (scene_seen scene.now) }
    requires frame { place.frame < length scene.now.frames }
{
    let Some(name) = words.first() else {
        return Ok(left(Ending::plain(NO_PIXEL), Vec::new(alloc), Vec::new(alloc)));
    };
    match target_lines(alloc, bytes, scene, None, name.as_bytes(), place)? {
        TargetText::Lines(lines) => Ok(left(Ending::plain(0), Vec::new(alloc), lines)),
        _ => Ok(left(Ending::plain(NO_PIXEL), Vec::new(alloc), Vec::new(alloc))),
    }
}

// What a look into a scene leaves.
fn look_at(
    alloc: Global,
    bytes: &[u8],
    scene: &Scene,
    case: &Case,
    frame: u32,
    look: Look,
) -> Result<Left, AllocError>
    requires few { length bytes.now ≤ 16777216 }
    requires readable { IsReadable (scene_seen scene.now) }
    requires bounded { IsBounded (scene_seen scene.now) }
{
    if (frame as usize) >= scene.frames.as_slice().len() {
        return Ok(left(Ending::plain(NO_FRAME), Vec::new(alloc), Vec::new(alloc)));
    }
    match look {
        Look::Blame => blame(alloc, scene, frame),
        Look::Target { x, y } => {
            let place = TargetPlace { frame, x, y };
            target(alloc, bytes, scene, &case.words, place)
        }
        Look::Steps => {
            let pictures = sink(alloc, &case.trouble.pictures)?;
            steps(alloc, bytes, scene, frame, pictures)
        }
    }
}

/// A look into a frame of the scene that a case's bytes are.
pub(crate) fn look_into(
    alloc: Global,
    case: &Case,
    frame: u32,
    look: Look,
) -> Result<Left, AllocError> {
    let bytes = &case.text[..case.text.len().min(LONGEST_INPUT)];
    match read(alloc, bytes) {
        Ok(scene) => look_at(alloc, bytes, &scene, case, frame, look),
        Err(SceneFault::At { line, cause }) => {
            let ending = Ending {
                status: NO_SCENE,
                at: line,
                cause: u32::from(cause),
            };
            Ok(left(ending, Vec::new(alloc), Vec::new(alloc)))
        }
        Err(SceneFault::OutOfMemory) => Err(AllocError),
    }
}

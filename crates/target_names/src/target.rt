// The frame buffer of a name.
ghost use Rattle.std.specs.Prelude.{◌≡◌, ◌<◌, Some, if◌then◌else◌, length, option_and_then, slice_get, IfOk};
ghost use Rattle.spelling_model.specs.Readable.{IsReadable};
ghost use Rattle.scene_model.specs.Fold.{FramePlan, plans};
ghost use Rattle.scene_text.specs.Bounds.{IsBounded};
ghost use Rattle.scene_text.specs.Seen.{scene_seen};
ghost use Rattle.scene_check.specs.Scenes.{IsReached};
ghost use Rattle.target_laws.specs.Names as model;

use crate::frames::{play_frame, play_until};
use crate::names::{is_drawn_on, thing_named};
use gfx_words::Handle;
use resource_book::Book;
use scene_progress::plan_law;
use scene_text::Scene;
use std::alloc::{AllocError, Global};
use view_table::ViewTable;

/// A thing, where a view draws on it.
fn if_drawn_on(views: &ViewTable, thing: Option<Handle>) -> Option<Handle>
    ensures { result ≡ option_and_then (λ t. if model.is_drawn_on views.now t then Some t else None) thing }
{
    match thing {
        Some(target) => {
            if is_drawn_on(views, target) {
                Some(target)
            } else {
                None
            }
        }
        None => None,
    }
}

/// The same of a name after the lines of a frame, behind those of the frames in front of it.
fn named_in(
    alloc: Global,
    scene: &Scene,
    frame: u32,
    name: &[u8],
    book: &mut Book,
    handles: &mut [Option<Handle>],
) -> Result<Option<Handle>, AllocError>
    requires readable { IsReadable (scene_seen scene.now) }
    requires bounded { IsBounded (scene_seen scene.now) }
    requires frame { frame < length scene.now.frames }
    requires reached { IsReached (scene_seen scene.now) frame book.old handles.old }
    ensures { let s = scene_seen scene.now in
        IfOk result (λ target. (p : FramePlan) → slice_get (plans s) frame ≡ Some p → target ≡ model.target_named s frame name.now p.views) }
{
    plan_law();
    let here = &scene.frames.as_slice()[frame as usize];
    let views = play_frame(alloc, book, handles, scene, here, frame)?;
    let thing = thing_named(scene.names.as_slice(), handles, name);
    Ok(if_drawn_on(&views, thing))
}

/// The frame buffer that a name stands for after all lines of a frame of a scene, where one of the frame's views draws on it. `None` exactly
/// where the name stands for nothing then, or no view draws on what it stands for.
///
/// It plays the lines of the API thread up to the end of that frame, and renders nothing. The scene is one that was read, or keeps the same
/// bounds; it has the frame.
///
/// # Errors
///
/// For want of memory alone.
pub fn target_named(
    alloc: Global,
    scene: &Scene,
    frame: u32,
    name: &[u8],
) -> Result<Option<Handle>, AllocError>
    requires readable { IsReadable (scene_seen scene.now) }
    requires bounded { IsBounded (scene_seen scene.now) }
    requires frame { frame < length scene.now.frames }
    // By the views of the frame's plan.
    ensures { let s = scene_seen scene.now in
        IfOk result (λ target. (p : FramePlan) → slice_get (plans s) frame ≡ Some p → target ≡ model.target_named s frame name.now p.views) }
{
    let (mut book, mut handles) = play_until(alloc, scene, frame)?;
    named_in(alloc, scene, frame, name, &mut book, handles.as_mut_slice())
}

// The API thread's lines of a scene's frames, played one frame after another.
ghost use Rattle.std.specs.Prelude.{◌≡◌, ◌≤◌, ◌+◌, None, Some, length, replicate, slice_get, IfOk};
ghost use Rattle.spelling_model.specs.Readable.{IsReadable};
ghost use Rattle.scene_progress.specs.Progress.{all_of};
ghost use Rattle.scene_text.specs.Bounds.{IsBounded};
ghost use Rattle.scene_text.specs.Seen.{frame_seen, scene_seen};
ghost use Rattle.scene_check.specs.Scenes.{IsReached};

use gfx_words::Handle;
use resource_book::{Book, Start};
use scene_lines::{places_law, play_lines};
use scene_text::{Scene, SceneFrame, view_count};
use std::alloc::{AllocError, Global};
use view_table::ViewTable;

/// No name stands for anything.
fn nothing_named(alloc: Global, scene: &Scene) -> Result<Vec<Option<Handle>>, AllocError>
    ensures { IfOk result (λ handles. handles.items ≡ replicate (length scene.now.names) None) }
{
    let handles = Vec::from_elem(alloc, None, scene.names.as_slice().len())?;
    Ok(handles)
}

/// Nothing is made, and no name stands for anything.
fn begin(alloc: Global, scene: &Scene) -> Result<(Book, Vec<Option<Handle>>), AllocError>
    requires bounded { IsBounded (scene_seen scene.now) }
    ensures { IfOk result (λ r. IsReached (scene_seen scene.now) 0 r.0 r.1.items) }
{
    let handles = nothing_named(alloc, scene)?;
    let start = Start {
        frame: 0,
        serial: 1,
        views: view_count(scene.version),
        latency: scene.latency,
    };
    let book = Book::new(alloc, start)?;
    Ok((book, handles))
}

/// Plays the lines of a frame; answers the views after them.
pub(crate) fn play_frame(
    alloc: Global,
    book: &mut Book,
    handles: &mut [Option<Handle>],
    scene: &Scene,
    frame: &SceneFrame,
    number: u32,
) -> Result<ViewTable, AllocError>
    requires readable { IsReadable (scene_seen scene.now) }
    requires bounded { IsBounded (scene_seen scene.now) }
    requires reached { IsReached (scene_seen scene.now) number book.old handles.old }
    requires is { slice_get (scene_seen scene.now).frames number ≡ Some (frame_seen frame.now) }
    requires most { number ≤ 1023 }
    ensures reached { IfOk result (λ _. IsReached (scene_seen scene.now) (number + 1) book.new handles.new) }
    ensures views { IfOk result (λ views. views ≡ (all_of (scene_seen scene.now) number (frame_seen frame.now)).resources.views) }
{
    places_law();
    let names = scene.names.as_slice();
    book.start_frame(number);
    play_lines(alloc, book, handles, names, frame.before.as_slice())?;
    play_lines(alloc, book, handles, names, frame.beside.as_slice())?;
    let work = book.take_work()?;
    Ok(work.views)
}

/// Plays the lines of the frames in front of one.
pub(crate) fn play_until(
    alloc: Global,
    scene: &Scene,
    frame: u32,
) -> Result<(Book, Vec<Option<Handle>>), AllocError>
    requires readable { IsReadable (scene_seen scene.now) }
    requires bounded { IsBounded (scene_seen scene.now) }
    requires there { frame ≤ length scene.now.frames }
    ensures { IfOk result (λ r. IsReached (scene_seen scene.now) frame r.0 r.1.items) }
{
    let (mut book, mut handles) = begin(alloc, scene)?;
    for number in 0..frame {
        let here = &scene.frames.as_slice()[number as usize];
        play_frame(
            alloc,
            &mut book,
            handles.as_mut_slice(),
            scene,
            here,
            number,
        )?;
    }
    Ok((book, handles))
}

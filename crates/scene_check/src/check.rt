// A scene's lines, judged frame by frame.
ghost use Rattle.std.specs.Prelude.{◌≡◌, ◌≤◌, ◌+◌, ◌++◌, length, IfOk, Some, None, replicate, slice_get};
ghost use Rattle.spelling_model.specs.Readable.{IsReadable};
ghost use Rattle.scene_progress.specs.Progress.{start_of, before_of};
ghost use Rattle.scene_text.specs.Bounds.{IsBounded};
ghost use Rattle.scene_text.specs.Seen.{scene_seen, frame_seen};
ghost use Rattle.dropped_lines.specs.Verdicts.{frame_verdicts};
ghost use Rattle.scene_check.specs.Found.{noted_all};
ghost use Rattle.scene_check.specs.Checkers.{HasJudged, lines_from};
ghost use Rattle.scene_check.specs.Scenes.{IsReached};

use crate::found::{DroppedLine, Found};
use crate::frames::{judge_blocks, play_lines};
use gfx_words::Handle;
use resource_book::{Book, Start};
use scene_lines::places_law;
use scene_text::{Scene, SceneFrame, view_count};
use std::alloc::{AllocError, Global};
use std::marker::Model;

/// Judges the lines of a frame.
fn check_frame(
    alloc: Global,
    found: &mut Found<'_>,
    book: &mut Book,
    handles: &mut [Option<Handle>],
    scene: &Scene,
    frame: &SceneFrame,
    number: u32,
) -> Result<(), AllocError>
    requires readable { IsReadable (scene_seen scene.now) }
    requires reached { IsReached (scene_seen scene.now) number book.old handles.old }
    requires is { slice_get (scene_seen scene.now).frames number ≡ Some (frame_seen frame.now) }
    requires most { number ≤ 1023 }
    ensures reached { IfOk result (λ _. IsReached (scene_seen scene.now) (number + 1) book.new handles.new) }
    ensures judged { IfOk result (λ _. found.new ≡ noted_all found.old (frame_verdicts (scene_seen scene.now) number (start_of (scene_seen scene.now) number) (before_of (scene_seen scene.now) number (frame_seen frame.now)) (frame_seen frame.now))) }
{
    places_law();
    let names = scene.names.as_slice();
    let views = view_count(scene.version);
    book.start_frame(number);
    play_lines(
        alloc,
        found,
        book,
        handles,
        names,
        number,
        frame.before.as_slice(),
    )?;
    judge_blocks(
        found,
        book,
        handles,
        number,
        views,
        scene.room,
        frame.blocks.as_slice(),
    )?;
    play_lines(
        alloc,
        found,
        book,
        handles,
        names,
        number,
        frame.beside.as_slice(),
    )?;
    let _work = book.take_work()?;
    Ok(())
}

/// No name stands for anything.
fn nothing_named(alloc: Global, scene: &Scene) -> Result<Vec<Option<Handle>>, AllocError>
    ensures { IfOk result (λ handles. handles.items ≡ replicate (length scene.now.names) None) }
{
    let handles = Vec::from_elem(alloc, None, scene.names.as_slice().len())?;
    Ok(handles)
}

/// Nothing is made, and no name stands for anything.
fn begin(alloc: Global, scene: &Scene) -> Result<(Book, Vec<Option<Handle>>), AllocError>
    requires bounded { IsBounded (scene_seen scene.now) }
    ensures { IfOk result (λ r. IsReached (scene_seen scene.now) 0 r.0 r.1.items) }
{
    let handles = nothing_named(alloc, scene)?;
    let start = Start {
        frame: 0,
        serial: 1,
        views: view_count(scene.version),
        latency: scene.latency,
    };
    let book = Book::new(alloc, start)?;
    Ok((book, handles))
}

/// Judges the lines of a scene frame by frame: which of them a play drops, and why. No frame is played, and no thread is started; which
/// lines a play drops depends on no schedule. Contracts see a `CheckerView`.
#[derive(Drop)]
pub struct Checker<'n> {
    left: &'n [u32],
    book: Book,
    handles: Vec<Option<Handle>>,
    number: u32,
}

impl<'n> Model for Checker<'n> {
    ghost use Rattle.scene_check.specs.Checkers.{CheckerView};

    ghost Value = { CheckerView };

    ghost view = { λ c. record { left = c.left.now; book = c.book; handles = c.handles.items; number = c.number } };
}

impl<'n> Checker<'n> {
    /// No frame was judged. `numbers` are those of the scene's lines in its text, as `line_numbers` answers them.
    ///
    /// # Errors
    ///
    /// For want of memory alone.
    pub fn new(alloc: Global, numbers: &'n [u32], scene: &Scene) -> Result<Checker<'n>, AllocError>
        requires bounded { IsBounded (scene_seen scene.now) }
        ensures stands { IfOk result (λ c. HasJudged (scene_seen scene.now) 0 c) }
        ensures left { IfOk result (λ c. c.left ≡ numbers.now) }
    {
        let (book, handles) = begin(alloc, scene)?;
        Ok(Checker {
            left: numbers,
            book,
            handles,
            number: 0,
        })
    }

    /// Judges the lines of the next frame, which is given with its scene: those that a play drops, in the order of the text, each with its
    /// number in it, its frame, its encoder, and why.
    ///
    /// # Errors
    ///
    /// For want of memory alone. The checker then stands for nothing.
    pub fn next_frame(
        &mut self,
        alloc: Global,
        scene: &Scene,
        frame: &SceneFrame,
    ) -> Result<Vec<DroppedLine>, AllocError>
        requires readable { IsReadable (scene_seen scene.now) }
        requires stands { HasJudged (scene_seen scene.now) self.old.number self.old }
        requires is { slice_get (scene_seen scene.now).frames self.old.number ≡ Some (frame_seen frame.now) }
        requires most { self.old.number ≤ 1023 }
        ensures stands { IfOk result (λ _. HasJudged (scene_seen scene.now) (self.old.number + 1) self.new) }
        ensures told { IfOk result (λ lines. lines_from (scene_seen scene.now) self.old.number self.old.left ≡ lines.items ++ lines_from (scene_seen scene.now) (self.old.number + 1) self.new.left) }
    {
        let mut found = Found::new(alloc, self.left);
        check_frame(
            alloc,
            &mut found,
            &mut self.book,
            self.handles.as_mut_slice(),
            scene,
            frame,
            self.number,
        )?;
        self.number += 1;
        self.left = found.left();
        Ok(found.into_lines())
    }
}

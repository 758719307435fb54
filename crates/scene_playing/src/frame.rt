// One frame of a scene.
ghost use Rattle.std.specs.Prelude.{◌≡◌, ◌+◌, ◌≤◌, ℕ, List, [], Some, true, map, length, slice_get, MatchResult, IfOk};
ghost use Rattle.std.specs.List.{AllByRecursion};
ghost use Rattle.gfx_model.specs.World.{Item};
ghost use Rattle.scene_model.specs.Scene.{views_of};
ghost use Rattle.spelling_model.specs.Readable.{IsReadable};
ghost use Rattle.scene_text.specs.Bounds.{HasFewLines, IsBounded};
ghost use Rattle.scene_text.specs.Seen.{frame_seen, scene_seen};
ghost use Rattle.frame_record.specs.Seen.{entry_seen};
ghost use Rattle.render_core.specs.Ended.{first_outcome};
ghost use Rattle.block_recording.specs.Promised.{IsAccepted};
ghost use Rattle.scene_lines.specs.Names.{LineHasPlace};
ghost use Rattle.scene_lines.specs.Played.{LinesPlayed};
ghost use Rattle.scene_progress.specs.Progress.{all_of};
ghost use Rattle.gfx_context.specs.States.{untouched};
ghost use Rattle.scene_playing.specs.Recording.{IsAt, IsRecorded};
ghost use Rattle.scene_playing.specs.Order.{wanted_seen, Allows};
ghost use Rattle.scene_playing.specs.Frames.{note_seen};
ghost use Rattle.scene_playing.specs.Steps.{FrameEnds, first_after};

use crate::beginning::{Names, collect, record_blocks};
use crate::ordered::{Order, is_in_order};
use crate::played::FrameNote;
use crate::recorders::Recorders;
use block_recording::Job;
use context_frames::{frame_law, recorded_law};
use draw_encoder::Bundle;
use frame_record::{FrameLink, JournalEntry};
use gfx_context::{BackNote, Context, FrameReport, Naming};
use gfx_words::Handle;
use resource_laws::bare_start_law;
use scene_lines::{places_law, play_lines};
use scene_progress::{next_law, plan_law};
use scene_text::{Scene, SceneFrame};
use std::alloc::{AllocError, Global};
use std::sync::Arc;

/// What a frame tells that ended: its journal, its note, the frame that came back, and whether it was given.
#[derive(Drop)]
pub(crate) struct EndedFrame {
    pub(crate) journal: Vec<JournalEntry>,
    pub(crate) note: FrameNote,
    pub(crate) back: Option<BackNote>,
    pub(crate) given: bool,
}

/// The handles as the names stand now, for all encoders of a frame.
fn shared_names(alloc: Global, handles: &[Option<Handle>]) -> Result<Names, AllocError>
    ensures { IfOk result (λ n. n.value.items ≡ handles.now) }
{
    let copied = Vec::from_slice(alloc, handles)?;
    let names = Arc::new(alloc, copied)?;
    Ok(names)
}

/// Plays the lines beside the blocks, where all encoders were begun.
fn play_beside<'t, C: Naming, L: FrameLink + Drop>(
    alloc: Global,
    scene: &'t Scene,
    frame: &'t SceneFrame,
    context: &mut Context<'t, C, L>,
    handles: &mut [Option<Handle>],
    all: bool,
) -> Result<u32, AllocError>
    requires places { AllByRecursion (LineHasPlace (length handles.old)) (frame_seen frame.now).beside }
    requires few { HasFewLines (frame_seen frame.now) }
    ensures played { IfOk result (λ dropped. (all ≡ true) × LinesPlayed (scene_seen scene.now).names (frame_seen frame.now).beside dropped context.old.book context.new.book handles.old handles.new) }
    ensures rest { untouched context.new ≡ untouched context.old }
{
    if !all {
        return Err(AllocError);
    }
    let names = scene.names.as_slice();
    play_lines(alloc, context, handles, names, frame.beside.as_slice())
}

/// Ends a frame whose lines were played, and of which so many were dropped.
fn end_frame<'t, C: Naming, L: FrameLink + Drop, W: Recorders<Job<'t, C>, Bundle<C>>>(
    recorders: &mut W,
    alloc: Global,
    order: Order<'_>,
    scene: &'t Scene,
    frame: &'t SceneFrame,
    context: &mut Context<'t, C, L>,
    handles: &[Option<Handle>],
    dropped: u64,
) -> Result<EndedFrame, AllocError>
    requires admitted { (e n : ℕ) (items : List Item) (d : ℕ) → C.admits e n items d → IsAccepted (scene_seen scene.now) e n items d }
    requires views { C.views ≡ views_of (scene_seen scene.now) }
    requires recorded { IsRecorded (scene_seen scene.now) context.old.book.resources.frame (frame_seen frame.now) handles.now context.old }
    requires dropped { dropped ≡ (all_of (scene_seen scene.now) context.old.book.resources.frame (frame_seen frame.now)).dropped }
    requires owes { W.owes recorders.old (length context.old.seat.off) }
    ensures ended { MatchResult result
        (λ e. FrameEnds (scene_seen scene.now) context.old.book.resources.frame (frame_seen frame.now) (map entry_seen e.journal.items) (note_seen e.note) e.given handles.now context.old context.new)
        (λ _. context.new.given ≡ context.old.given) }
    ensures back { MatchResult result (λ e. first_outcome context.new.back ≡ first_after (first_outcome context.old.back) e.back) (λ _. context.new.back ≡ context.old.back) }
    ensures allowed { IfOk result (λ e. Allows (wanted_seen order.entry) context.old.book.resources.frame (map entry_seen e.journal.items)) }
    ensures origin { L.origin context.new.link ≡ L.origin context.old.link }
    ensures none_off { context.new.seat.off ≡ [] }
    ensures owes { W.owes recorders.new 0 }
{
    let _ = scene;
    let _ = frame;
    let _ = handles;
    recorded_law();
    frame_law::<L>();
    plan_law();
    next_law();
    bare_start_law();
    context.tell_facts();
    let number = context.frame_number();
    collect(recorders, context);
    if !is_in_order(alloc, order, number, context.gathered()) {
        return Err(AllocError);
    }
    let Ok(report) = context.end() else {
        return Err(AllocError);
    };
    let FrameReport {
        number: _,
        journal,
        dropped: recorded,
        back,
        given,
    } = report;
    let note = FrameNote {
        items: journal.len() as u64,
        dropped: u128::from(recorded) + u128::from(dropped),
    };
    Ok(EndedFrame {
        journal,
        note,
        back,
        given,
    })
}

/// Plays the frame whose number the context has: its lines before, the blocks, its lines beside; and ends it. `Err` for want of
/// memory: then the frame was not given, and encoders that were begun are gathered.
pub(crate) fn play_frame<'t, C: Naming, L: FrameLink + Drop, W: Recorders<Job<'t, C>, Bundle<C>>>(
    recorders: &mut W,
    alloc: Global,
    order: Order<'_>,
    scene: &'t Scene,
    frame: &'t SceneFrame,
    context: &mut Context<'t, C, L>,
    handles: &mut [Option<Handle>],
) -> Result<EndedFrame, AllocError>
    requires admits { (e n : ℕ) (items : List Item) (d : ℕ) → IsAccepted (scene_seen scene.now) e n items d → C.admits e n items d }
    requires admitted { (e n : ℕ) (items : List Item) (d : ℕ) → C.admits e n items d → IsAccepted (scene_seen scene.now) e n items d }
    requires views { C.views ≡ views_of (scene_seen scene.now) }
    requires readable { IsReadable (scene_seen scene.now) }
    requires bounded { IsBounded (scene_seen scene.now) }
    requires there { slice_get (scene_seen scene.now).frames context.old.book.resources.frame ≡ Some (frame_seen frame.now) }
    requires at { IsAt (scene_seen scene.now) context.old.book.resources.frame handles.old context.old }
    requires none_off { context.old.seat.off ≡ [] }
    requires owes { W.owes recorders.old 0 }
    ensures ended { MatchResult result
        (λ e. FrameEnds (scene_seen scene.now) context.old.book.resources.frame (frame_seen frame.now) (map entry_seen e.journal.items) (note_seen e.note) e.given handles.new context.old context.new)
        (λ _. context.new.given ≡ context.old.given) }
    ensures back { MatchResult result (λ e. first_outcome context.new.back ≡ first_after (first_outcome context.old.back) e.back) (λ _. context.new.back ≡ context.old.back) }
    ensures allowed { IfOk result (λ e. Allows (wanted_seen order.entry) context.old.book.resources.frame (map entry_seen e.journal.items)) }
    ensures origin { L.origin context.new.link ≡ L.origin context.old.link }
    ensures none_off { context.new.seat.off ≡ [] }
    ensures owes { W.owes recorders.new 0 }
{
    places_law();
    let names = scene.names.as_slice();
    let before = play_lines(alloc, context, handles, names, frame.before.as_slice())?;
    let shared = shared_names(alloc, handles)?;
    let all = record_blocks(recorders, scene, frame, context, &shared);
    let beside = play_beside(alloc, scene, frame, context, handles, all);
    let Ok(beside) = beside else {
        collect(recorders, context);
        return Err(AllocError);
    };
    let dropped = u64::from(before) + u64::from(beside);
    end_frame(
        recorders, alloc, order, scene, frame, context, handles, dropped,
    )
}

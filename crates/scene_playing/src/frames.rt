// All frames of a scene.
ghost use Rattle.std.specs.Prelude.{◌≡◌, ◌≤◌, ◌<◌, ◌++◌, ℕ, List, [], ◌∷◌, None, map, length, replicate, IfOk, vec_len, vec_capacity};
ghost use Rattle.gfx_model.specs.World.{Item};
ghost use Rattle.scene_model.specs.Scene.{views_of};
ghost use Rattle.hold_table.specs.Seats.{api_table, api_view};
ghost use Rattle.hold_table.specs.Views.{first_view};
ghost use Rattle.frame_record.specs.Seen.{entry_seen};
ghost use Rattle.spelling_model.specs.Readable.{IsReadable};
ghost use Rattle.scene_text.specs.Bounds.{IsBounded};
ghost use Rattle.scene_text.specs.Seen.{journal_seen, scene_seen};
ghost use Rattle.render_core.specs.Ended.{first_outcome};
ghost use Rattle.block_recording.specs.Promised.{IsAccepted};
ghost use Rattle.scene_playing.specs.Recording.{IsAt};
ghost use Rattle.scene_playing.specs.Order.{wanted_seen, Keeps};
ghost use Rattle.scene_playing.specs.Frames.{note_seen, AreEnded, ArePlayed};
ghost use Rattle.scene_playing.specs.Steps.{first_after};

use crate::frame::{EndedFrame, play_frame};
use crate::ordered::Order;
use crate::played::{FrameNote, Played};
use crate::recorders::Recorders;
use block_recording::Job;
use draw_encoder::Bundle;
use frame_record::{FrameLink, JournalEntry, Outcome};
use gfx_context::{BackNote, Context, Naming, Shared, Start};
use gfx_words::Handle;
use hold_table::ApiSeat;
use scene_progress::{frames_law, lawful_law, next_law, noted_law};
use scene_text::{Journal, Scene, Sequence, view_count};
use std::alloc::{AllocError, Global};

/// What the frames told that ended so far, with room for all of a scene.
#[derive(Drop)]
pub(crate) struct Told {
    lists: Vec<Sequence<JournalEntry>>,
    notes: Vec<FrameNote>,
    outcome: Outcome,
}

impl Told {
    /// Nothing was told, and there is room for so many frames.
    pub(crate) fn new(alloc: Global, frames: usize) -> Result<Told, AllocError>
        ensures nothing { IfOk result (λ t. (t.lists.items ≡ []) × (t.notes.items ≡ []) × (t.outcome ≡ Outcome.Shown)) }
        ensures room { IfOk result (λ t. (frames ≤ vec_capacity t.lists) × (frames ≤ vec_capacity t.notes)) }
    {
        let lists = Vec::with_capacity(alloc, frames)?;
        let notes = Vec::with_capacity(alloc, frames)?;
        Ok(Told {
            lists,
            notes,
            outcome: Outcome::Shown,
        })
    }
}

/// The outcome of the first frame that was not shown, when one more came back, or none.
fn later(first: Outcome, note: Option<BackNote>) -> Outcome
    ensures { result ≡ first_after first note }
{
    match (first, note) {
        (Outcome::Shown, Some(note)) => note.outcome,
        _ => first,
    }
}

impl Told {
    /// Adds what a frame told; answers whether it was given.
    fn add(&mut self, ended: EndedFrame) -> bool
        requires lists { vec_len self.old.lists < vec_capacity self.old.lists }
        requires notes { vec_len self.old.notes < vec_capacity self.old.notes }
        ensures given { result ≡ ended.given }
        ensures lists { (self.new.lists.items ≡ self.old.lists.items ++ ended.journal.items ∷ []) × (vec_capacity self.new.lists ≡ vec_capacity self.old.lists) }
        ensures notes { (self.new.notes.items ≡ self.old.notes.items ++ ended.note ∷ []) × (vec_capacity self.new.notes ≡ vec_capacity self.old.notes) }
        ensures outcome { self.new.outcome ≡ first_after self.old.outcome ended.back }
    {
        let EndedFrame {
            journal,
            note,
            back,
            given,
        } = ended;
        self.lists.push_reserved(Sequence::from_vec(journal));
        self.notes.push_reserved(note);
        self.outcome = later(self.outcome, back);
        given
    }
}

/// Plays the frames from the first on, up to one that was not given. Answers whether all were given.
fn play_all<'t, C: Naming, L: FrameLink + Drop, W: Recorders<Job<'t, C>, Bundle<C>>>(
    recorders: &mut W,
    alloc: Global,
    order: Order<'_>,
    scene: &'t Scene,
    context: &mut Context<'t, C, L>,
    handles: &mut [Option<Handle>],
    told: &mut Told,
) -> bool
    requires admits { (e n : ℕ) (items : List Item) (d : ℕ) → IsAccepted (scene_seen scene.now) e n items d → C.admits e n items d }
    requires admitted { (e n : ℕ) (items : List Item) (d : ℕ) → C.admits e n items d → IsAccepted (scene_seen scene.now) e n items d }
    requires views { C.views ≡ views_of (scene_seen scene.now) }
    requires readable { IsReadable (scene_seen scene.now) }
    requires bounded { IsBounded (scene_seen scene.now) }
    requires at { IsAt (scene_seen scene.now) 0 handles.old context.old }
    requires none_off { context.old.seat.off ≡ [] }
    requires owes { W.owes recorders.old 0 }
    requires none { (context.old.given ≡ []) × (context.old.back ≡ []) }
    requires told { (told.old.lists.items ≡ []) × (told.old.notes.items ≡ []) × (told.old.outcome ≡ Outcome.Shown) }
    requires room { (length scene.now.frames ≤ vec_capacity told.old.lists) × (length scene.now.frames ≤ vec_capacity told.old.notes) }
    ensures ended { AreEnded (scene_seen scene.now) context.new.given (map (map entry_seen) told.new.lists.items) (map note_seen told.new.notes.items) result }
    ensures keeps { Keeps (wanted_seen order.entry) (map (map entry_seen) told.new.lists.items) }
    ensures outcome { told.new.outcome ≡ first_outcome context.new.back }
    ensures origin { L.origin context.new.link ≡ L.origin context.old.link }
    ensures none_off { context.new.seat.off ≡ [] }
{
    frames_law();
    lawful_law();
    noted_law();
    for frame in scene.frames.as_slice() {
        let played = play_frame(recorders, alloc, order, scene, frame, context, handles);
        let Ok(ended) = played else {
            return false;
        };
        if !told.add(ended) {
            return false;
        }
    }
    true
}

/// Takes back what is out, and gives what the frames left.
fn finish<'t, C: Naming, L: FrameLink + Drop>(
    scene: &Scene,
    context: Context<'t, C, L>,
    told: Told,
    is_whole: bool,
) -> Played<L>
    requires ended { AreEnded (scene_seen scene.now) context.given (map (map entry_seen) told.lists.items) (map note_seen told.notes.items) is_whole }
    requires outcome { told.outcome ≡ first_outcome context.back }
    requires none_off { context.seat.off ≡ [] }
    ensures played { ArePlayed (scene_seen scene.now) (L.given result.link) (L.back result.link) (journal_seen result.journal) (map note_seen result.notes.items) result.outcome result.is_whole }
    ensures journal { journal_seen result.journal ≡ map (map entry_seen) told.lists.items }
    ensures origin { L.origin result.link ≡ L.origin context.entry.link }
{
    let _ = scene;
    let Told {
        lists,
        notes,
        outcome,
    } = told;
    context.tell_facts();
    let closed = context.close();
    let [first, second, third] = closed.backs;
    let outcome = later(later(later(outcome, first), second), third);
    Played {
        link: closed.link,
        journal: Journal {
            frames: Sequence::from_vec(lists),
        },
        notes,
        outcome,
        is_whole,
    }
}

/// What is left where no frame was played.
pub(crate) fn nothing<L: FrameLink + Drop>(alloc: Global, scene: &Scene, link: L) -> Played<L>
    requires none { (L.given link ≡ []) × (L.back link ≡ []) }
    requires bounded { IsBounded (scene_seen scene.now) }
    ensures played { ArePlayed (scene_seen scene.now) (L.given result.link) (L.back result.link) (journal_seen result.journal) (map note_seen result.notes.items) result.outcome result.is_whole }
    ensures journal { journal_seen result.journal ≡ [] }
    ensures origin { L.origin result.link ≡ L.origin link }
{
    let _ = scene;
    lawful_law();
    frames_law();
    Played {
        link,
        journal: Journal {
            frames: Sequence::new(alloc),
        },
        notes: Vec::new(alloc),
        outcome: Outcome::Shown,
        is_whole: false,
    }
}

/// Room for what the frames of a scene tell, and the list of what its names stand for, which is nothing yet.
fn rooms(alloc: Global, scene: &Scene) -> Result<(Told, Vec<Option<Handle>>), AllocError>
    ensures told { IfOk result (λ r. (r.0.lists.items ≡ []) × (r.0.notes.items ≡ []) × (r.0.outcome ≡ Outcome.Shown)) }
    ensures room { IfOk result (λ r. (length scene.now.frames ≤ vec_capacity r.0.lists) × (length scene.now.frames ≤ vec_capacity r.0.notes)) }
    ensures handles { IfOk result (λ r. r.1.items ≡ replicate (length scene.now.names) None) }
{
    let told = Told::new(alloc, scene.frames.as_slice().len())?;
    let handles = Vec::from_elem(alloc, None, scene.names.as_slice().len())?;
    Ok((told, handles))
}

/// Plays the frames of a scene over a new context.
pub(crate) fn play_named<'t, C: Naming, L: FrameLink + Drop, W: Recorders<Job<'t, C>, Bundle<C>>>(
    recorders: &mut W,
    alloc: Global,
    shared: &'t Shared<C>,
    order: Order<'_>,
    scene: &'t Scene,
    seat: ApiSeat,
    link: L,
) -> Played<L>
    requires owes { W.owes recorders.old 0 }
    requires table { api_table seat ≡ C.table }
    requires seat { api_view seat ≡ first_view 0 }
    requires admits { (e n : ℕ) (items : List Item) (d : ℕ) → IsAccepted (scene_seen scene.now) e n items d → C.admits e n items d }
    requires admitted { (e n : ℕ) (items : List Item) (d : ℕ) → C.admits e n items d → IsAccepted (scene_seen scene.now) e n items d }
    requires views { C.views ≡ views_of (scene_seen scene.now) }
    requires readable { IsReadable (scene_seen scene.now) }
    requires bounded { IsBounded (scene_seen scene.now) }
    requires latency { L.latency link ≡ scene.now.latency }
    requires none { (L.given link ≡ []) × (L.back link ≡ []) }
    ensures played { ArePlayed (scene_seen scene.now) (L.given result.link) (L.back result.link) (journal_seen result.journal) (map note_seen result.notes.items) result.outcome result.is_whole }
    ensures keeps { Keeps (wanted_seen order.entry) (journal_seen result.journal) }
    ensures origin { L.origin result.link ≡ L.origin link }
{
    next_law();
    let Ok((told, handles)) = rooms(alloc, scene) else {
        return nothing(alloc, scene, link);
    };
    let start = Start {
        frame: 0,
        serial: 1,
        views: view_count(scene.version),
        latency: scene.latency,
    };
    match Context::init(alloc, shared, seat, link, start) {
        Ok(context) => {
            let mut context = context;
            let mut handles = handles;
            let mut told = told;
            let is_whole = play_all(
                recorders,
                alloc,
                order,
                scene,
                &mut context,
                handles.as_mut_slice(),
                &mut told,
            );
            finish(scene, context, told, is_whole)
        }
        Err((_seat, link)) => nothing(alloc, scene, link),
    }
}

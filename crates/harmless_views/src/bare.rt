// Frames of which no item is done.
ghost use Rattle.std.specs.Prelude.{◌≡◌, ◌≤◌, ◌∷◌, ◌++◌, [], if◌then◌else◌, false, true, map, IfOk};
ghost use Rattle.gfx_model.specs.World.{first_world};
ghost use Rattle.store_laws.specs.ByIndex.{first_stores};
ghost use Rattle.shared_keys.specs.Marks.{shared_seen};
ghost use Rattle.render_stores.specs.Seen.{stores_seen};
ghost use Rattle.render_core.specs.Seen.{frame_seen, journal_of, recordings_of};
ghost use Rattle.bare_worlds.specs.Bare.{bare_after, begun_by};
ghost use Rattle.harmless_views.specs.Left.{AreLeft, HasLeft};
ghost use Rattle.harmless_views.specs.Seen.{ViewJudged, ViewMatters};

use crate::judging::is_harmless;
use crate::scope::Scope;
use frame_record::Frame;
use recorded_keys::laws::planned_law;
use recorded_keys::{recorded_marks, recorded_views};
use render_stores::{RenderStores, execute_all};
use shared_keys::laws::there_law;
use shared_keys::{Mark, SharedView};
use std::alloc::{AllocError, Global};
use view_drawing::DrawingRoom;

/// Whether the view of a number is harmless.
fn is_view_harmless(
    alloc: Global,
    stores: &RenderStores,
    frame: &Frame,
    marks: &[Mark],
    number: u16,
    room: &mut DrawingRoom,
) -> Result<bool, AllocError>
    ensures judged { IfOk result (λ harmless. harmless ≡ true → ViewJudged (stores_seen stores.now) frame.now.views marks.now (recordings_of frame.now) (journal_of frame.now) number) }
    ensures matters { IfOk result (λ harmless. harmless ≡ false → ViewMatters (stores_seen stores.now) frame.now.views marks.now (recordings_of frame.now) (journal_of frame.now) number) }
{
    match frame.views.get(number) {
        Some(view) => {
            let scope = Scope {
                stores,
                frame,
                view,
                number,
                marks,
            };
            is_harmless(alloc, &scope, room)
        }
        None => Ok(false),
    }
}

/// Puts a view behind others, where it is not harmless.
fn put_view(kept: &mut Vec<SharedView>, view: SharedView, harmless: bool) -> Result<(), AllocError>
    ensures { IfOk result (λ _. kept.new.items ≡ (if harmless then kept.old.items else kept.old.items ++ view ∷ [])) }
{
    if harmless {
        return Ok(());
    }
    kept.push(view)?;
    Ok(())
}

/// Views without those that are harmless.
fn kept_views(
    alloc: Global,
    stores: &RenderStores,
    frame: &Frame,
    marks: &[Mark],
    views: &[SharedView],
    room: &mut DrawingRoom,
) -> Result<Vec<SharedView>, AllocError>
    ensures { IfOk result (λ kept. AreLeft (ViewJudged (stores_seen stores.now) frame.now.views marks.now (recordings_of frame.now) (journal_of frame.now)) (ViewMatters (stores_seen stores.now) frame.now.views marks.now (recordings_of frame.now) (journal_of frame.now)) (map shared_seen views.now) (map shared_seen kept.items)) }
{
    let mut kept = Vec::new(alloc);
    for view in views {
        let harmless = is_view_harmless(alloc, stores, frame, marks, view.view, room)?;
        put_view(&mut kept, *view, harmless)?;
    }
    Ok(kept)
}

/// The views of a frame in which two encoders share a key, without those that are harmless; the frame's first commands are executed.
fn left_views(
    alloc: Global,
    stores: &RenderStores,
    frame: &Frame,
    room: &mut DrawingRoom,
) -> Result<Vec<SharedView>, AllocError>
    ensures { IfOk result (λ left. HasLeft (stores_seen stores.now) frame.now.views (recordings_of frame.now) (map shared_seen left.items)) }
{
    planned_law();
    there_law();
    frame.tell_facts();
    let views = recorded_views(alloc, &frame.views, frame.recordings.as_slice())?;
    let marks = recorded_marks(alloc, &frame.views, frame.recordings.as_slice())?;
    let left = kept_views(alloc, stores, frame, &marks, &views, room)?;
    Ok(left)
}

/// The stores of frames of which the commands are executed and no item is done.
#[derive(Drop)]
pub struct BareFrames {
    alloc: Global,
    pub(crate) stores: RenderStores,
    room: DrawingRoom,
}

impl BareFrames {
    /// Stores without things, for a back buffer with these sides, 1 to 2,048. `Err` only for want of memory.
    pub fn new(alloc: Global, width: u16, height: u16) -> Result<BareFrames, AllocError>
        requires wide { 1 ≤ width }
        requires high { 1 ≤ height }
        requires narrow { width ≤ 2048 }
        requires low { height ≤ 2048 }
        ensures { IfOk result (λ b. stores_seen b.stores ≡ first_stores (first_world width height).back) }
    {
        let stores = RenderStores::new(alloc, width, height)?;
        Ok(BareFrames {
            alloc,
            stores,
            room: DrawingRoom::new(alloc),
        })
    }

    /// Executes the commands of the next frame, and does none of its items. Answers its views in which two encoders share a key, ascending,
    /// each with the least pair of such encoders, without those of which no pixel of the back buffer cares: which draw onto it, and whose
    /// items that share a key are draws without values no two of which cover a pixel in common.
    ///
    /// # Errors
    ///
    /// For want of memory alone. The frame's commands are then executed in part.
    pub fn take(&mut self, frame: &Frame) -> Result<Vec<SharedView>, AllocError>
        ensures stores { IfOk result (λ _. stores_seen self.new.stores ≡ bare_after (stores_seen self.old.stores) (frame_seen frame.now)) }
        ensures left { IfOk result (λ left. HasLeft (begun_by (stores_seen self.old.stores) (frame_seen frame.now)) frame.now.views (recordings_of frame.now) (map shared_seen left.items)) }
    {
        execute_all(self.alloc, &mut self.stores, &frame.payloads, &frame.pre)?;
        let left = left_views(self.alloc, &self.stores, frame, &mut self.room)?;
        execute_all(self.alloc, &mut self.stores, &frame.payloads, &frame.post)?;
        Ok(left)
    }
}

// The views that are entered next.
ghost use Rattle.std.specs.Prelude.{◌≡◌, ◌≤◌, length};
ghost use Rattle.render_stores.specs.Seen.{stores_seen};
ghost use Rattle.render_core.specs.Begun.{AreReady, ComesNext};
ghost use Rattle.render_core.specs.Seen.{frame_seen};
ghost use Rattle.render_core.specs.ViewParts.{parts_in};

use crate::desks::Desk;
use crate::views::parts_of;
use frame_record::Frame;
use render_stores::RenderStores;
use view_drawing::{BegunPass, begin_views};

/// What comes of beginning the next views of a frame: how many are entered with them, and their pass; or the stores, where all are entered,
/// and where memory was wanting.
#[derive(Drop)]
pub(crate) enum NextViews {
    Begun(usize, BegunPass),
    AllEntered(RenderStores),
    Stopped(RenderStores),
}

impl Desk {
    /// Begins the views behind so many that are entered, at most so many bands.
    pub(crate) fn begin_next(
        &mut self,
        stores: RenderStores,
        frame: &Frame,
        entered: usize,
        bands: u32,
    ) -> NextViews
        requires many { entered ≤ length (parts_in (frame_seen frame.now)) }
        requires ready { AreReady frame.now self.old.lists }
        ensures next { ComesNext result (stores_seen stores) frame.now entered }
        ensures same { (self.new.lists ≡ self.old.lists) × (self.new.text ≡ self.old.text) }
    {
        if frame.journal.is_empty() {
            return NextViews::AllEntered(stores);
        }
        let Ok(parts) = parts_of(self.alloc, frame, &self.lists) else {
            return NextViews::Stopped(stores);
        };
        if entered >= parts.len() {
            return NextViews::AllEntered(stores);
        }
        match begin_views(stores, &parts[entered..], bands, &mut self.room) {
            Ok((count, pass)) => NextViews::Begun(entered + count, pass),
            Err(stores) => NextViews::Stopped(stores),
        }
    }
}

// The link that lists the views in which encoders share keys.
ghost use Rattle.std.specs.Prelude.{◌≡◌, ◌≤◌, ◌<◌, ◌∷◌, ◌++◌, [], true, List, length, IfOk, IfSome};
ghost use Rattle.frame_record.specs.declared.frame.Frame.{Frame};
ghost use Rattle.frame_keeping.specs.Kept.{given_by, back_by, latency_of};
ghost use Rattle.shares_running.specs.Listed.{lists_seen, AreListed};

use frame_keeping::KeepingLink;
use frame_record::{Frame, FrameLink, RenderedFrame};
use recorded_keys::laws::planned_law;
use recorded_keys::recorded_views;
use shared_keys::SharedView;
use std::alloc::{AllocError, Global};

/// Puts the list of a frame behind others: the views in which two of its encoders share a key.
fn list(alloc: Global, lists: &mut Vec<Vec<SharedView>>, frame: &Frame) -> Result<(), AllocError>
    ensures { IfOk result (λ _. (frames : List Frame) → AreListed (lists_seen lists.old.items) frames → AreListed (lists_seen lists.new.items) (frames ++ frame.now ∷ [])) }
{
    planned_law();
    let views = recorded_views(alloc, &frame.views, frame.recordings.as_slice())?;
    lists.push(views)?;
    Ok(())
}

/// The same, where each frame before was listed. Answers whether each frame is.
fn list_whole(
    alloc: Global,
    is_whole: bool,
    lists: &mut Vec<Vec<SharedView>>,
    frame: &Frame,
) -> bool
    ensures before { result ≡ true → is_whole ≡ true }
    ensures listed { result ≡ true → (frames : List Frame) → AreListed (lists_seen lists.old.items) frames → AreListed (lists_seen lists.new.items) (frames ++ frame.now ∷ []) }
{
    if !is_whole {
        return false;
    }
    match list(alloc, lists, frame) {
        Ok(()) => true,
        Err(_) => false,
    }
}

/// A link that lists of each frame that is given the views in which two of its encoders share a key, and keeps the frame until it is
/// taken back, as shown.
#[derive(Drop)]
pub(crate) struct ListingLink {
    alloc: Global,
    link: KeepingLink,
    lists: Vec<Vec<SharedView>>,
    is_whole: bool,
    ghost listed: { is_whole ≡ true → AreListed (lists_seen lists.items) (given_by link) },
}

impl ListingLink {
    /// A link at which up to `latency` frames may be out, at least 1. `Err` only for want of memory.
    pub(crate) fn new(alloc: Global, latency: u8) -> Result<ListingLink, AllocError>
        requires { 1 ≤ latency }
        ensures { IfOk result (λ l. (given_by l.link ≡ []) × (back_by l.link ≡ []) × (latency_of l.link ≡ latency)) }
    {
        let link = KeepingLink::new(alloc, latency)?;
        Ok(ListingLink {
            alloc,
            link,
            lists: Vec::new(alloc),
            is_whole: true,
        })
    }

    /// The list of each frame that was given, in order. `None` only where there was no memory for one.
    pub(crate) fn into_lists(self) -> Option<Vec<Vec<SharedView>>>
        ensures { IfSome result (λ lists. AreListed (lists_seen lists.items) (given_by self.link)) }
    {
        if !self.is_whole {
            return None;
        }
        Some(self.lists)
    }
}

impl FrameLink for ListingLink {
    ghost given = { λ l. given_by l.link };

    ghost back = { λ l. back_by l.link };

    ghost latency = { λ l. latency_of l.link };

    ghost Origin = { Unit {0} };

    ghost origin = { λ l. tt };

    fn give(&mut self, frame: Frame) {
        self.is_whole = list_whole(self.alloc, self.is_whole, &mut self.lists, &frame);
        self.link.give(frame);
    }

    fn try_take_back(&mut self) -> Option<RenderedFrame> {
        self.link.try_take_back()
    }

    fn take_back(&mut self) -> RenderedFrame {
        self.link.take_back()
    }
}

// The link that lists the views in which encoders share keys, without those that are harmless.
ghost use Rattle.std.specs.Prelude.{◌≡◌, ◌≤◌, ◌∷◌, ◌++◌, [], true, ℕ, List, length, IfOk, IfSome};
ghost use Rattle.frame_record.specs.declared.frame.Frame.{Frame};
ghost use Rattle.frame_keeping.specs.Kept.{given_by, back_by, latency_of};
ghost use Rattle.render_stores.specs.Seen.{stores_seen};
ghost use Rattle.shares_running.specs.Listed.{lists_seen};
ghost use Rattle.shares_running.specs.Left.{Judges};

use frame_keeping::KeepingLink;
use frame_record::{Frame, FrameLink, RenderedFrame};
use harmless_views::BareFrames;
use shared_keys::SharedView;
use std::alloc::{AllocError, Global};

/// Executes a frame's commands, and puts the list of its views that are left behind others.
fn judge(
    frames: &mut BareFrames,
    lists: &mut Vec<Vec<SharedView>>,
    frame: &Frame,
) -> Result<(), AllocError>
    ensures { IfOk result (λ _. (width height : ℕ) (given : List Frame) → ∥ Judges width height (stores_seen frames.old.stores) (lists_seen lists.old.items) given ∥₁
        → ∥ Judges width height (stores_seen frames.new.stores) (lists_seen lists.new.items) (given ++ frame.now ∷ []) ∥₁) }
{
    let left = frames.take(frame)?;
    lists.push(left)?;
    Ok(())
}

/// The same, where each frame before was judged. Answers whether each frame is.
fn judge_whole(
    is_whole: bool,
    frames: &mut BareFrames,
    lists: &mut Vec<Vec<SharedView>>,
    frame: &Frame,
) -> bool
    ensures before { result ≡ true → is_whole ≡ true }
    ensures judged { result ≡ true → (width height : ℕ) (given : List Frame) → ∥ Judges width height (stores_seen frames.old.stores) (lists_seen lists.old.items) given ∥₁
        → ∥ Judges width height (stores_seen frames.new.stores) (lists_seen lists.new.items) (given ++ frame.now ∷ []) ∥₁ }
{
    if !is_whole {
        return false;
    }
    match judge(frames, lists, frame) {
        Ok(()) => true,
        Err(_) => false,
    }
}

/// A link that lists of each frame that is given the views in which two of its encoders share a key, without those that are harmless, and
/// keeps the frame until it is taken back, as shown.
#[derive(Drop)]
pub(crate) struct LeavingLink {
    link: KeepingLink,
    width: u16,
    height: u16,
    frames: BareFrames,
    lists: Vec<Vec<SharedView>>,
    is_whole: bool,
    ghost judged: { is_whole ≡ true → ∥ Judges width height (stores_seen frames.stores) (lists_seen lists.items) (given_by link) ∥₁ },
}

impl LeavingLink {
    /// A link at which up to `latency` frames may be out, at least 1. The sides are 1 to 2,048. `Err` only for want of memory.
    pub(crate) fn new(
        alloc: Global,
        latency: u8,
        width: u16,
        height: u16,
    ) -> Result<LeavingLink, AllocError>
        requires some { 1 ≤ latency }
        requires wide { 1 ≤ width }
        requires high { 1 ≤ height }
        requires narrow { width ≤ 2048 }
        requires low { height ≤ 2048 }
        ensures none { IfOk result (λ l. (given_by l.link ≡ []) × (back_by l.link ≡ []) × (latency_of l.link ≡ latency)) }
        ensures sides { IfOk result (λ l. (l.width ≡ width) × (l.height ≡ height)) }
    {
        let link = KeepingLink::new(alloc, latency)?;
        let frames = BareFrames::new(alloc, width, height)?;
        let lists = Vec::new(alloc);
        Ok(LeavingLink {
            link,
            width,
            height,
            frames,
            lists,
            is_whole: true,
        })
    }

    /// The list of each frame that was given, in order. `None` only where there was no memory for one.
    pub(crate) fn into_lists(self) -> Option<Vec<Vec<SharedView>>>
        ensures { IfSome result (λ lists. ∥ Judges self.width self.height (stores_seen self.frames.stores) (lists_seen lists.items) (given_by self.link) ∥₁) }
    {
        if !self.is_whole {
            return None;
        }
        Some(self.lists)
    }
}

impl FrameLink for LeavingLink {
    ghost given = { λ l. given_by l.link };

    ghost back = { λ l. back_by l.link };

    ghost latency = { λ l. latency_of l.link };

    ghost Origin = { ℕ × ℕ };

    ghost origin = { λ l. (l.width, l.height) };

    fn give(&mut self, frame: Frame) {
        self.is_whole = judge_whole(self.is_whole, &mut self.frames, &mut self.lists, &frame);
        self.link.give(frame);
    }

    fn try_take_back(&mut self) -> Option<RenderedFrame> {
        self.link.try_take_back()
    }

    fn take_back(&mut self) -> RenderedFrame {
        self.link.take_back()
    }
}

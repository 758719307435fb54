// The calls on views.
ghost use Rattle.fix_math.specs.Seen.{rect_seen, affine_seen};
ghost use Rattle.gfx_model.specs.Resources as model;
ghost use Rattle.gfx_words.specs.Seen.{mode_seen, IsFirstRefusal};
ghost use Rattle.resource_book.specs.Answered.{Changes};
ghost use Rattle.resource_book.specs.Targets.{target_refusals};
ghost use Rattle.std.specs.Prelude.{◌≡◌, Some, None, MatchResult};

use crate::book::Book;
use fix_math::{Affine, Rect};
use gfx_words::{Handle, Kind, Refusal, ViewMode};

impl Book {
    /// Sets the view's part of its target. `BadView` exactly where there is no such view, as in each call that names a view.
    pub fn set_view_rect(&mut self, view: u16, rect: Rect) -> Result<(), Refusal>
        ensures { Changes result (model.set_view_rect view (rect_seen rect)) self.old self.new }
    {
        self.shelf.table.facts();
        self.shelf.views.set_rect(view, rect)
    }

    /// Sets the view's scissor.
    pub fn set_view_scissor(&mut self, view: u16, rect: Rect) -> Result<(), Refusal>
        ensures { Changes result (model.set_view_scissor view (rect_seen rect)) self.old self.new }
    {
        self.shelf.table.facts();
        self.shelf.views.set_scissor(view, rect)
    }

    /// Sets how the view orders its draws and touches.
    pub fn set_view_mode(&mut self, view: u16, mode: ViewMode) -> Result<(), Refusal>
        ensures { Changes result (model.set_view_mode view (mode_seen mode)) self.old self.new }
    {
        self.shelf.table.facts();
        self.shelf.views.set_mode(view, mode)
    }

    /// Sets the view's transform.
    pub fn set_view_transform(&mut self, view: u16, t: Affine) -> Result<(), Refusal>
        ensures { Changes result (model.set_view_transform view (affine_seen t)) self.old self.new }
    {
        self.shelf.table.facts();
        self.shelf.views.set_transform(view, t)
    }

    /// Sets what entering the view clears. After `BadView`, `BadState` exactly where `flags` is over 7 or `depth` over 16,777,215.
    pub fn set_view_clear(
        &mut self,
        view: u16,
        flags: u8,
        color: [u8; 4],
        depth: u32,
        stencil: u8,
    ) -> Result<(), Refusal>
        ensures { Changes result (model.set_view_clear view (record { flags = flags; color = color; depth = depth; stencil = stencil })) self.old self.new }
    {
        self.shelf.table.facts();
        self.shelf
            .views
            .set_clear(view, flags, color, depth, stencil)
    }

    /// Sets the views that come first. `BadView` exactly where an id is no view's; then `BadRange` exactly where the list is longer than the number of views or names one twice.
    pub fn set_view_order(&mut self, ids: &[u16]) -> Result<(), Refusal>
        ensures { Changes result (model.set_view_order ids.now) self.old self.new }
    {
        self.shelf.table.facts();
        self.shelf.views.set_order(ids)
    }

    /// Sets the view as it is at first.
    pub fn reset_view(&mut self, view: u16) -> Result<(), Refusal>
        ensures { Changes result (model.reset_view view) self.old self.new }
    {
        self.shelf.table.facts();
        self.shelf.views.reset_view(view)
    }

    /// Sets the view's target, or the back buffer. After `BadView`, `WrongKind` exactly where the handle is no frame
    /// buffer's; then `Stale`.
    pub fn set_view_target(&mut self, view: u16, target: Option<Handle>) -> Result<(), Refusal>
        ensures { Changes result (model.set_view_target view target) self.old self.new }
    {
        if self.is_no_view(view) {
            return Err(Refusal::BadView);
        }
        match self.must_be_target(&target) {
            Ok(()) => {
                self.shelf.table.facts();
                self.shelf.views.set_target(view, target)
            }
            Err(r) => Err(r),
        }
    }

    fn is_no_view(&self, view: u16) -> bool
        ensures { result ≡ (model.is_no_view self.now.resources view).0 }
    {
        view >= self.shelf.views.count()
    }

    fn must_be_target(&self, target: &Option<Handle>) -> Result<(), Refusal>
        ensures { MatchResult result
            (λ _. model.first_refusal (target_refusals self.now.resources target.now) ≡ None)
            (λ r. IsFirstRefusal (model.first_refusal (target_refusals self.now.resources target.now)) r) }
    {
        match target {
            None => Ok(()),
            Some(h) => self.must_be_frame_buffer(*h),
        }
    }

    fn must_be_frame_buffer(&self, h: Handle) -> Result<(), Refusal>
        ensures { MatchResult result
            (λ _. model.first_refusal (target_refusals self.now.resources (Some h)) ≡ None)
            (λ r. IsFirstRefusal (model.first_refusal (target_refusals self.now.resources (Some h))) r) }
    {
        if !h.kind().is(Kind::FrameBuffer) {
            return Err(Refusal::WrongKind);
        }
        self.must_live(h)?;
        Ok(())
    }
}

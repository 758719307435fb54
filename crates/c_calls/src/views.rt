// How views are set.
ghost use Rattle.std.specs.Prelude.{◌≡◌, Err, MatchOption};
ghost use Rattle.fix_math.specs.Seen.{rect_seen, affine_seen};
ghost use Rattle.gfx_model.specs.Resources as model;
ghost use Rattle.gfx_words.specs.Seen.{mode_seen};
ghost use Rattle.c_words.specs.declared.faults.Fault.TheVariants as faults;
ghost use Rattle.c_calls.specs.Calls.{ChangesHere, OnMaybe};
ghost use Rattle.c_words.specs.Modes.{mode_of_number};

use crate::context::Context;
use c_words::{Fault, mode_of, told};
use fix_math::{Affine, Rect};
use gfx_words::{Handle, ViewMode};

impl Context {
    /// Sets the part of its target that a view draws on. `BadView`, as of each call that names a view.
    pub(crate) fn set_view_rect(&mut self, view: u16, rect: Rect) -> Result<(), Fault>
        ensures { ChangesHere result (model.set_view_rect view (rect_seen rect)) self.old self.new }
    {
        told(self.core.set_view_rect(view, rect))
    }

    /// Sets the scissor of a view.
    pub(crate) fn set_view_scissor(&mut self, view: u16, rect: Rect) -> Result<(), Fault>
        ensures { ChangesHere result (model.set_view_scissor view (rect_seen rect)) self.old self.new }
    {
        told(self.core.set_view_scissor(view, rect))
    }

    /// Sets what entering the view clears: `BadState` where `flags` is over 7 or `depth` over 16,777,215.
    pub(crate) fn set_view_clear(
        &mut self,
        view: u16,
        flags: u8,
        color: [u8; 4],
        depth: u32,
        stencil: u8,
    ) -> Result<(), Fault>
        ensures { ChangesHere result (model.set_view_clear view (record { flags = flags; color = color; depth = depth; stencil = stencil })) self.old self.new }
    {
        told(self.core.set_view_clear(view, flags, color, depth, stencil))
    }

    fn set_mode(&mut self, view: u16, mode: ViewMode) -> Result<(), Fault>
        ensures { ChangesHere result (model.set_view_mode view (mode_seen mode)) self.old self.new }
    {
        told(self.core.set_view_mode(view, mode))
    }

    /// Sets how a view orders its draws and touches, by a number from 0 to 3; else `BadValue`.
    pub(crate) fn set_view_mode(&mut self, view: u16, mode: u32) -> Result<(), Fault>
        ensures { MatchOption (mode_of_number mode) ((result ≡ Err faults.BadValue) × (self.new ≡ self.old)) (λ m. ChangesHere result (model.set_view_mode view m) self.old self.new) }
    {
        match mode_of(mode) {
            None => Err(Fault::BadValue),
            Some(mode) => self.set_mode(view, mode),
        }
    }

    /// Sets the transform of a view.
    pub(crate) fn set_view_transform(&mut self, view: u16, t: Affine) -> Result<(), Fault>
        ensures { ChangesHere result (model.set_view_transform view (affine_seen t)) self.old self.new }
    {
        told(self.core.set_view_transform(view, t))
    }

    fn set_target(&mut self, view: u16, target: Option<Handle>) -> Result<(), Fault>
        ensures { ChangesHere result (model.set_view_target view target) self.old self.new }
    {
        told(self.core.set_view_target(view, target))
    }

    /// Sets the target of a view, a frame buffer, or the back buffer by 0. `Unknown`; `BadView`, `WrongKind`, `Stale`.
    pub(crate) fn set_view_target(&mut self, view: u16, target: u64) -> Result<(), Fault>
        ensures { OnMaybe self.old.rows target result self.old self.new (λ o. ChangesHere result (model.set_view_target view o) self.old self.new) }
    {
        match self.find_maybe(target) {
            None => Err(Fault::Unknown),
            Some(target) => self.set_target(view, target),
        }
    }

    /// Sets the views that come first. `BadView` where an id is no view's; then `BadRange` where one stands twice.
    pub(crate) fn set_view_order(&mut self, ids: &[u16]) -> Result<(), Fault>
        ensures { ChangesHere result (model.set_view_order ids.now) self.old self.new }
    {
        told(self.core.set_view_order(ids))
    }

    /// Sets a view as it is at first.
    pub(crate) fn reset_view(&mut self, view: u16) -> Result<(), Fault>
        ensures { ChangesHere result (model.reset_view view) self.old self.new }
    {
        told(self.core.reset_view(view))
    }
}

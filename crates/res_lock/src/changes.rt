// The calls that change things and views, or let things die.
ghost use Rattle.std.specs.Prelude.{◌≡◌, ◌<◌};
ghost use Rattle.gfx_model.specs.Resources as model;
ghost use Rattle.fix_math.specs.Seen.{rect_seen, affine_seen};
ghost use Rattle.gfx_words.specs.Kinds.{mode_seen};
ghost use Rattle.res_lock.specs.Histories.{on_things};
ghost use Rattle.res_lock.specs.Seats.{pass_table, made_by};
ghost use Rattle.res_lock.specs.Called.{IsSamePass, IsChanged};

use crate::entry::{LockRefusal, ResCall};
use crate::lock::ResLock;
use crate::naming::HistoryNaming;
use crate::table::ResPass;
use draw_encoder::Naming;
use fix_math::{Affine, Rect};
use frame_record::FrameLink;
use gfx_words::{Handle, ViewMode};
use std::sync::Wait;

impl<'t, C: Naming, L: FrameLink + Drop, H: HistoryNaming> ResLock<'t, C, L, H> {
    /// Changes bytes of a vertex or index buffer. `WrongKind`, `Stale`, then `BadRange` exactly where the bytes pass its end.
    pub fn update_buffer<R: Wait>(
        &self,
        rt: &R,
        pass: &mut ResPass,
        buffer: Handle,
        offset: u32,
        bytes: &[u8],
    ) -> Result<(), LockRefusal>
        requires table { pass_table pass.old ≡ H.table }
        requires few { made_by pass.old < 4294967295 }
        ensures pass { IsSamePass pass.old pass.new }
        ensures answer { IsChanged H.start (on_things (model.update_buffer buffer offset bytes.now)) result pass.old pass.new }
    {
        let bytes = self.kept_bytes(bytes)?;
        self.change(
            rt,
            pass,
            ResCall::UpdateBuffer {
                buffer,
                offset,
                bytes,
            },
        )
    }

    /// Changes texels of a texture. `WrongKind`, `Stale`, then `BadRange` exactly where the rectangle passes a side, then
    /// `BadSize` exactly where there are not four bytes a texel.
    pub fn update_texture<R: Wait>(
        &self,
        rt: &R,
        pass: &mut ResPass,
        texture: Handle,
        rect: Rect,
        bytes: &[u8],
    ) -> Result<(), LockRefusal>
        requires table { pass_table pass.old ≡ H.table }
        requires few { made_by pass.old < 4294967295 }
        ensures pass { IsSamePass pass.old pass.new }
        ensures answer { IsChanged H.start (on_things (model.update_texture texture (rect_seen rect) bytes.now)) result pass.old pass.new }
    {
        let bytes = self.kept_bytes(bytes)?;
        self.change(
            rt,
            pass,
            ResCall::UpdateTexture {
                texture,
                rect,
                bytes,
            },
        )
    }

    /// Destroys a thing, or takes one reference of a uniform. `Stale` exactly where the handle's place does not have its
    /// serial live; then `Attached`, with the holder of least index, exactly where a live frame buffer holds the texture.
    pub fn destroy<R: Wait>(&self, rt: &R, pass: &mut ResPass, h: Handle) -> Result<(), LockRefusal>
        requires table { pass_table pass.old ≡ H.table }
        requires few { made_by pass.old < 4294967295 }
        ensures pass { IsSamePass pass.old pass.new }
        ensures answer { IsChanged H.start (on_things (model.destroy h)) result pass.old pass.new }
    {
        self.change(rt, pass, ResCall::Destroy { thing: h })
    }

    /// Sets the view's part of its target. `BadView` exactly where there is no such view, as in each call that names a view.
    pub fn set_view_rect<R: Wait>(
        &self,
        rt: &R,
        pass: &mut ResPass,
        view: u16,
        rect: Rect,
    ) -> Result<(), LockRefusal>
        requires table { pass_table pass.old ≡ H.table }
        requires few { made_by pass.old < 4294967295 }
        ensures pass { IsSamePass pass.old pass.new }
        ensures answer { IsChanged H.start (on_things (model.set_view_rect view (rect_seen rect))) result pass.old pass.new }
    {
        self.change(rt, pass, ResCall::ViewRect { view, rect })
    }

    /// Sets the view's scissor.
    pub fn set_view_scissor<R: Wait>(
        &self,
        rt: &R,
        pass: &mut ResPass,
        view: u16,
        rect: Rect,
    ) -> Result<(), LockRefusal>
        requires table { pass_table pass.old ≡ H.table }
        requires few { made_by pass.old < 4294967295 }
        ensures pass { IsSamePass pass.old pass.new }
        ensures answer { IsChanged H.start (on_things (model.set_view_scissor view (rect_seen rect))) result pass.old pass.new }
    {
        self.change(rt, pass, ResCall::ViewScissor { view, rect })
    }

    /// Sets what entering the view clears. After `BadView`, `BadState` exactly where `flags` is over 7 or `depth` over
    /// 16,777,215.
    pub fn set_view_clear<R: Wait>(
        &self,
        rt: &R,
        pass: &mut ResPass,
        view: u16,
        flags: u8,
        color: [u8; 4],
        depth: u32,
        stencil: u8,
    ) -> Result<(), LockRefusal>
        requires table { pass_table pass.old ≡ H.table }
        requires few { made_by pass.old < 4294967295 }
        ensures pass { IsSamePass pass.old pass.new }
        ensures answer { IsChanged H.start (on_things (model.set_view_clear view (record { flags = flags; color = color; depth = depth; stencil = stencil }))) result pass.old pass.new }
    {
        self.change(
            rt,
            pass,
            ResCall::ViewClear {
                view,
                flags,
                color,
                depth,
                stencil,
            },
        )
    }

    /// Sets how the view orders its draws and touches.
    pub fn set_view_mode<R: Wait>(
        &self,
        rt: &R,
        pass: &mut ResPass,
        view: u16,
        mode: ViewMode,
    ) -> Result<(), LockRefusal>
        requires table { pass_table pass.old ≡ H.table }
        requires few { made_by pass.old < 4294967295 }
        ensures pass { IsSamePass pass.old pass.new }
        ensures answer { IsChanged H.start (on_things (model.set_view_mode view (mode_seen mode))) result pass.old pass.new }
    {
        self.change(rt, pass, ResCall::ViewMode { view, mode })
    }

    /// Sets the view's transform.
    pub fn set_view_transform<R: Wait>(
        &self,
        rt: &R,
        pass: &mut ResPass,
        view: u16,
        t: Affine,
    ) -> Result<(), LockRefusal>
        requires table { pass_table pass.old ≡ H.table }
        requires few { made_by pass.old < 4294967295 }
        ensures pass { IsSamePass pass.old pass.new }
        ensures answer { IsChanged H.start (on_things (model.set_view_transform view (affine_seen t))) result pass.old pass.new }
    {
        self.change(rt, pass, ResCall::ViewTransform { view, transform: t })
    }

    /// Sets the view's target, or the back buffer. After `BadView`, `WrongKind` exactly where the handle is no frame
    /// buffer's; then `Stale`.
    pub fn set_view_target<R: Wait>(
        &self,
        rt: &R,
        pass: &mut ResPass,
        view: u16,
        target: Option<Handle>,
    ) -> Result<(), LockRefusal>
        requires table { pass_table pass.old ≡ H.table }
        requires few { made_by pass.old < 4294967295 }
        ensures pass { IsSamePass pass.old pass.new }
        ensures answer { IsChanged H.start (on_things (model.set_view_target view target)) result pass.old pass.new }
    {
        self.change(rt, pass, ResCall::ViewTarget { view, target })
    }

    /// Sets the views that come first. `BadView` exactly where an id is no view's; then `BadRange` exactly where the list is
    /// longer than the number of views or names one twice.
    pub fn set_view_order<R: Wait>(
        &self,
        rt: &R,
        pass: &mut ResPass,
        ids: &[u16],
    ) -> Result<(), LockRefusal>
        requires table { pass_table pass.old ≡ H.table }
        requires few { made_by pass.old < 4294967295 }
        ensures pass { IsSamePass pass.old pass.new }
        ensures answer { IsChanged H.start (on_things (model.set_view_order ids.now)) result pass.old pass.new }
    {
        let ids = self.kept_ids(ids)?;
        self.change(rt, pass, ResCall::ViewOrder { ids })
    }

    /// Sets the view as it is at first.
    pub fn reset_view<R: Wait>(
        &self,
        rt: &R,
        pass: &mut ResPass,
        view: u16,
    ) -> Result<(), LockRefusal>
        requires table { pass_table pass.old ≡ H.table }
        requires few { made_by pass.old < 4294967295 }
        ensures pass { IsSamePass pass.old pass.new }
        ensures answer { IsChanged H.start (on_things (model.reset_view view)) result pass.old pass.new }
    {
        self.change(rt, pass, ResCall::ViewReset { view })
    }
}

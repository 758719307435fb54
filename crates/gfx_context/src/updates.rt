// How things change.
ghost use Rattle.gfx_model.specs.Resources as model;
ghost use Rattle.fix_math.specs.Seen.{rect_seen};
ghost use Rattle.std.specs.Prelude.{◌≡◌};

use crate::context::Context;
use draw_encoder::Naming;
use fix_math::Rect;
use frame_record::FrameLink;
use gfx_words::{Handle, Refusal};

impl<'t, C: Naming, L: FrameLink + Drop> Context<'t, C, L> {
    ghost use Rattle.gfx_context.specs.Calls.{Updates};

    /// Changes bytes of a vertex or index buffer. `WrongKind`, `Stale`, then `BadRange` exactly where the bytes pass its end.
    pub fn update_buffer(
        &mut self,
        buffer: Handle,
        offset: u32,
        bytes: &[u8],
    ) -> Result<(), Refusal>
        ensures { Updates result (model.update_buffer buffer offset bytes.now) self.old self.new }
    {
        self.core.update_buffer(buffer, offset, bytes)
    }

    /// Changes texels of a texture. `WrongKind`, `Stale`, then `BadRange` exactly where the rectangle passes a side, then
    /// `BadSize` exactly where there are not four bytes a texel.
    pub fn update_texture(
        &mut self,
        texture: Handle,
        rect: Rect,
        bytes: &[u8],
    ) -> Result<(), Refusal>
        ensures { Updates result (model.update_texture texture (rect_seen rect) bytes.now) self.old self.new }
    {
        self.core.update_texture(texture, rect, bytes)
    }
}

// How things change and die.
ghost use Rattle.std.specs.Prelude.{◌≡◌};
ghost use Rattle.fix_math.specs.Seen.{rect_seen};
ghost use Rattle.gfx_model.specs.Resources as model;
ghost use Rattle.c_calls.specs.Calls.{DestroysHere, UpdatesHere, OnThing};

use crate::context::Context;
use c_words::{Fault, told};
use fix_math::Rect;
use gfx_words::Handle;

impl Context {
    fn update_bytes(&mut self, buffer: Handle, offset: u32, bytes: &[u8]) -> Result<(), Fault>
        ensures { UpdatesHere result (model.update_buffer buffer offset bytes.now) self.old self.new }
    {
        told(self.core.update_buffer(buffer, offset, bytes))
    }

    fn update_texels(&mut self, texture: Handle, rect: Rect, bytes: &[u8]) -> Result<(), Fault>
        ensures { UpdatesHere result (model.update_texture texture (rect_seen rect) bytes.now) self.old self.new }
    {
        told(self.core.update_texture(texture, rect, bytes))
    }

    fn destroy_thing(&mut self, h: Handle) -> Result<(), Fault>
        ensures { DestroysHere result h self.old self.new }
    {
        told(self.core.destroy(&self.shared.table, h))
    }

    /// Changes bytes of a vertex or index buffer. `Unknown` where the word names nothing that was made; then `WrongKind`, `Stale`,
    /// `BadRange`.
    pub(crate) fn update_buffer(
        &mut self,
        buffer: u64,
        offset: u32,
        bytes: &[u8],
    ) -> Result<(), Fault>
        ensures { OnThing self.old.rows buffer result self.old self.new (λ h. UpdatesHere result (model.update_buffer h offset bytes.now) self.old self.new) }
    {
        match self.find(buffer) {
            None => Err(Fault::Unknown),
            Some(h) => self.update_bytes(h, offset, bytes),
        }
    }

    /// Changes texels of a texture. `Unknown`; `WrongKind`, `Stale`, `BadRange`, `BadSize`.
    pub(crate) fn update_texture(
        &mut self,
        texture: u64,
        rect: Rect,
        bytes: &[u8],
    ) -> Result<(), Fault>
        ensures { OnThing self.old.rows texture result self.old self.new (λ h. UpdatesHere result (model.update_texture h (rect_seen rect) bytes.now) self.old self.new) }
    {
        match self.find(texture) {
            None => Err(Fault::Unknown),
            Some(h) => self.update_texels(h, rect, bytes),
        }
    }

    /// Destroys a thing, or takes one reference of a uniform. `Unknown`; `Stale`, `Attached`.
    pub(crate) fn destroy(&mut self, thing: u64) -> Result<(), Fault>
        ensures { OnThing self.old.rows thing result self.old self.new (λ h. DestroysHere result h self.old self.new) }
    {
        match self.find(thing) {
            None => Err(Fault::Unknown),
            Some(h) => self.destroy_thing(h),
        }
    }
}

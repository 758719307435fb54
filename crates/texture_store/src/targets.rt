// Frame buffers by index: the indices of their textures.
ghost use Rattle.std.specs.Prelude.{◌≡◌, length, map, slice_set};
ghost use Rattle.gfx_model.specs.Words.{frame_buffer_kind, greatest};
ghost use Rattle.store_model.specs.Slots.{at};
ghost use Rattle.store_model.specs.Textures.{TargetSlot, holds, slot_holds, unless_holding};

use gfx_words::Kind;
use slot_row::Row;
use std::marker::Model;

/// The indices of a frame buffer's colour texture and of its depth texture, if it has one.
#[derive(Drop)]
pub(crate) struct Target {
    color: u16,
    depth: Option<u16>,
}

impl Model for Target {
    ghost use Rattle.store_model.specs.Textures.{TargetSlot};

    ghost Value = { TargetSlot };

    ghost view = { λ s. record { color = s.color; depth = s.depth } };
}

impl Target {
    pub(crate) fn new(color: u16, depth: Option<u16>) -> Target
        ensures { result ≡ record { color = color; depth = depth } }
    {
        Target { color, depth }
    }

    pub(crate) fn color(&self) -> u16
        ensures { result ≡ self.now.color }
    {
        self.color
    }

    pub(crate) fn depth(&self) -> Option<u16>
        ensures { result ≡ self.now.depth }
    {
        self.depth
    }

    fn holds(&self, texture: u16) -> bool
        ensures { result ≡ holds texture self.now }
    {
        if texture == self.color {
            return true;
        }
        match self.depth {
            Some(depth) => texture == depth,
            None => false,
        }
    }
}

fn is_held(targets: &Row<Target>, index: u16, texture: u16) -> bool
    ensures { result ≡ slot_holds texture (at targets.now index) }
{
    match targets.get(index) {
        Some(target) => target.holds(texture),
        None => false,
    }
}

fn detach_one(targets: &mut Row<Target>, index: u16, texture: u16)
    ensures { targets.new ≡ slice_set targets.old index (unless_holding texture (at targets.old index)) }
{
    if is_held(targets, index, texture) {
        let _ = targets.take(index);
    }
}

/// Takes out the frame buffers that hold a texture.
pub(crate) fn detach_holders(targets: &mut Row<Target>, texture: u16)
    requires { length targets.old ≡ greatest frame_buffer_kind }
    ensures { targets.new ≡ map (unless_holding texture) targets.old }
{
    for index in 0..Kind::FrameBuffer.greatest() {
        detach_one(targets, index, texture);
    }
}

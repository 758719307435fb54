// The updates.
ghost use Rattle.fix_math.specs.Seen.{rect_seen};
ghost use Rattle.gfx_model.specs.Resources as model;
ghost use Rattle.gfx_words.specs.Kinds.{info_seen};
ghost use Rattle.resource_book.specs.Answered.{Updates};
ghost use Rattle.std.specs.Prelude.{◌≡◌};

use crate::book::Book;
use crate::find::bytes_at;
use cmd_buffer::Command;
use fix_math::Rect;
use gfx_words::{Handle, Info, Kind, Refusal};

fn is_buffer(h: Handle) -> bool
    ensures { result ≡ model.is_buffer h }
{
    h.kind().is(Kind::VertexBuffer) || h.kind().is(Kind::IndexBuffer)
}

fn passes_side(rect: Rect, info: Info) -> bool
    ensures { result ≡ model.passes_side (rect_seen rect) (info_seen info) }
{
    match info {
        Info::Texture {
            format: _,
            blit_dst: _,
            width,
            height,
        } => {
            rect.x as u32 + rect.w as u32 > width as u32
                || rect.y as u32 + rect.h as u32 > height as u32
        }
        _ => true,
    }
}

impl Book {
    /// Changes bytes of a vertex or index buffer. `WrongKind`, `Stale`, then `BadRange` exactly where the bytes pass its end.
    pub fn update_buffer(
        &mut self,
        buffer: Handle,
        offset: u32,
        bytes: &[u8],
    ) -> Result<(), Refusal>
        ensures { Updates result (model.update_buffer buffer offset bytes.now) self.old self.new }
    {
        if !is_buffer(buffer) {
            return Err(Refusal::WrongKind);
        }
        self.must_live(buffer)?;
        if offset as u64 + bytes.len() as u64 > bytes_at(&self.shelf.table, buffer) as u64 {
            return Err(Refusal::BadRange);
        }
        let Ok(sent) = bytes.to_vec(self.alloc) else {
            return Err(Refusal::OutOfMemory)
        };
        self.orders.reserve(12)?;
        self.shelf.table.facts();
        let payload = self.orders.next_payload();
        let kind = buffer.kind().number();
        let index = buffer.index();
        self.orders.send(
            Command::UpdateBuffer {
                kind,
                index,
                offset,
                payload,
            },
            sent,
        );
        Ok(())
    }

    /// Changes texels of a texture. `WrongKind`, `Stale`, then `BadRange` exactly where the rectangle passes a side, then `BadSize` exactly where there are not four bytes a texel.
    pub fn update_texture(
        &mut self,
        texture: Handle,
        rect: Rect,
        bytes: &[u8],
    ) -> Result<(), Refusal>
        ensures { Updates result (model.update_texture texture (rect_seen rect) bytes.now) self.old self.new }
    {
        if !texture.kind().is(Kind::Texture) {
            return Err(Refusal::WrongKind);
        }
        self.must_live(texture)?;
        if passes_side(rect, texture.info()) {
            return Err(Refusal::BadRange);
        }
        if bytes.len() as u64 != 4 * (rect.w as u64 * rect.h as u64) {
            return Err(Refusal::BadSize);
        }
        let Ok(sent) = bytes.to_vec(self.alloc) else {
            return Err(Refusal::OutOfMemory)
        };
        self.orders.reserve(15)?;
        self.shelf.table.facts();
        let payload = self.orders.next_payload();
        let index = texture.index();
        self.orders.send(
            Command::UpdateTexture {
                index,
                x: rect.x,
                y: rect.y,
                w: rect.w,
                h: rect.h,
                payload,
            },
            sent,
        );
        Ok(())
    }
}

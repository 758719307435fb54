// The destroy.
ghost use Rattle.gfx_model.specs.Commands.{destroy_command};
ghost use Rattle.gfx_model.specs.Resources as model;
ghost use Rattle.gfx_model.specs.Words.{is_kind, kind_number, texture_kind};
ghost use Rattle.resource_book.specs.Answered.{Destroys, HasLive};
ghost use Rattle.std.specs.Prelude.{◌≡◌, ◌≤◌, ◌+◌, ◌++◌, ◌∷◌, [], if◌then◌else◌, None, IfOk};

use crate::book::Book;
use crate::find::{holder_of, live_at};
use cmd_buffer::{CmdBuffer, Command};
use gfx_words::{Handle, Kind, Refusal};

// Writes the destroy of a thing; there is room.
fn note_destroy(post: &mut CmdBuffer, h: Handle)
    requires room { 4 ≤ post.old.spare }
    ensures noted { post.new.commands ≡ post.old.commands ++ destroy_command (kind_number h.kind) h.index ∷ [] }
    ensures spare { post.old.spare ≤ post.new.spare + 4 }
{
    let kind = h.kind().number();
    let index = h.index();
    post.write(Command::Destroy { kind, index }).unwrap();
}

impl Book {
    /// Destroys a thing, or takes one reference of a uniform; answers whether the thing died. `Stale` exactly where the handle's
    /// place does not have its serial live; then `Attached`, with the holder of least index, exactly where a live frame buffer
    /// holds the texture. It takes no memory.
    pub fn destroy(&mut self, h: Handle) -> Result<bool, Refusal>
        ensures answer { Destroys result h self.old self.new }
        ensures told { IfOk result (λ _. HasLive h self.old) }
    {
        let number = match live_at(&self.shelf.table, h) {
            Ok(number) => number,
            Err(r) => return Err(r),
        };
        if let Some(holder) = self.holder(h) {
            return Err(Refusal::Attached { holder });
        }
        if self.shelf.table.row(number).references > 1 {
            self.shelf.forget(number);
            return Ok(false);
        }
        self.shelf.die(number, h);
        note_destroy(&mut self.post, h);
        Ok(true)
    }

    fn holder(&self, h: Handle) -> Option<Handle>
        ensures { result ≡ (if is_kind h.kind texture_kind then model.least_index (model.holders self.now.resources h) else None) }
    {
        match h.kind() {
            Kind::Texture => holder_of(&self.shelf.table, h.serial()),
            _ => None,
        }
    }
}

// The bytes of a buffer.
ghost use Rattle.std.specs.Prelude.{◌≡◌, ◌+◌, ◌≤◌, length, IfSome};
ghost use Rattle.store_model.specs.Slots.{at, changed_at};
ghost use Rattle.gfx_model.specs.World.{with_bytes_at};

use slot_row::Row;
use std::marker::Model;

/// The bytes of a buffer, whose number never changes.
#[derive(Drop)]
pub(crate) struct Bytes {
    items: Vec<u8>,
}

impl Model for Bytes {
    ghost use Rattle.std.specs.Prelude.{List, ℕ};

    ghost Value = { List ℕ };

    ghost view = { λ s. s.items.items };
}

impl Bytes {
    pub(crate) fn from_vec(items: Vec<u8>) -> Bytes
        ensures { result ≡ items.items }
    {
        Bytes { items }
    }

    pub(crate) fn as_slice(&self) -> &[u8]
        ensures { result.now ≡ self.now }
    {
        self.items.as_slice()
    }

    /// Replaces some of the bytes, from a place on.
    pub(crate) fn write(&mut self, offset: usize, new: &[u8])
        requires { offset + length new.now ≤ length self.old }
        ensures { self.new ≡ with_bytes_at offset new.now self.old }
    {
        write_at(&mut self.items, offset, new);
    }
}

fn write_at(bytes: &mut [u8], offset: usize, new: &[u8])
    requires { offset + length new.now ≤ length bytes.old }
    ensures { bytes.new ≡ with_bytes_at offset new.now bytes.old }
{
    bytes[offset..offset + new.len()].copy_from_slice(new);
}

/// Replaces some of the bytes of the index buffer at an index, from a place on.
pub(crate) fn write_indices(indices: &mut Row<Bytes>, index: u16, offset: usize, new: &[u8])
    requires { IfSome (at indices.old index) (λ held. offset + length new.now ≤ length held) }
    ensures { indices.new ≡ changed_at (with_bytes_at offset new.now) index indices.old }
{
    if let Some(mut buffer) = indices.take(index) {
        buffer.write(offset, new);
        indices.put(index, buffer);
    }
}

// Uniforms by index.
ghost use Rattle.std.specs.Prelude.{◌≡◌, ◌<◌, ◌≤◌, length, MatchOption, IfOk, option_map};
ghost use Rattle.gfx_model.specs.Words.{uniform_kind, greatest, value_kind, is_uniform_kind};
ghost use Rattle.gfx_model.specs.Resources.{zero_value};
ghost use Rattle.gfx_words.specs.Seen.{uniform_seen, value_seen};
ghost use Rattle.store_model.specs.Slots.{at, no_slots, filled_at, emptied_at, changed_at};
ghost use Rattle.store_model.specs.Buffers.{new_uniform, with_slot_value, is_named as is_named_of, IsNewest, HasNoneNamed};
ghost use Rattle.buffer_store.specs.Search.{found_at, is_as_new as is_as_new_of, takes_over as takes_over_of, IsEmptyFrom};

use gfx_words::{Kind, UniformKind, UniformValue};
use slot_row::Row;
use std::alloc::{AllocError, Global};
use std::marker::Model;

/// A uniform's name and value, and the serial by which the newest is told.
#[derive(Drop)]
pub(crate) struct Uniform {
    serial: u32,
    name: Vec<u8>,
    value: UniformValue,
}

impl Model for Uniform {
    ghost use Rattle.gfx_words.specs.Seen.{value_seen};
    ghost use Rattle.store_model.specs.Buffers.{UniformSlot};

    ghost Value = { UniformSlot };

    ghost view = { λ s. record { serial = s.serial; name = s.name.items; value = value_seen s.value } };
}

fn zeros(kind: UniformKind) -> UniformValue
    ensures { value_seen result ≡ zero_value (uniform_seen kind) }
{
    match kind {
        UniformKind::Vec4 => UniformValue::Vec4([0; 4]),
        UniformKind::Int => UniformValue::Int(0),
    }
}

fn is_of(value: &UniformValue, kind: UniformKind) -> bool
    ensures { result ≡ is_uniform_kind (uniform_seen kind) (value_kind (value_seen value.now)) }
{
    match (kind, value) {
        (UniformKind::Vec4, UniformValue::Vec4(_)) => true,
        (UniformKind::Int, UniformValue::Int(_)) => true,
        _ => false,
    }
}

impl Uniform {
    pub(crate) fn new(serial: u32, kind: UniformKind, name: Vec<u8>) -> Uniform
        ensures { result ≡ new_uniform serial (uniform_seen kind) name.items }
    {
        Uniform {
            serial,
            name,
            value: zeros(kind),
        }
    }

    pub(crate) fn serial(&self) -> u32
        ensures { result ≡ self.now.serial }
    {
        self.serial
    }

    pub(crate) fn value(&self) -> UniformValue
        ensures { value_seen result ≡ self.now.value }
    {
        self.value
    }

    pub(crate) fn set(&mut self, value: UniformValue)
        ensures { self.new ≡ with_slot_value (value_seen value) self.old }
    {
        self.value = value;
    }

    pub(crate) fn is_named(&self, name: &[u8], kind: UniformKind) -> bool
        ensures { result ≡ is_named_of name.now (uniform_seen kind) self.now }
    {
        self.name.as_slice() == name && is_of(&self.value, kind)
    }
}

/// Gives the uniform at an index, if there is one, a value.
fn set_value(uniforms: &mut Row<Uniform>, index: u16, value: UniformValue)
    ensures { uniforms.new ≡ changed_at (with_slot_value (value_seen value)) index uniforms.old }
{
    if let Some(mut uniform) = uniforms.take(index) {
        uniform.set(value);
        uniforms.put(index, uniform);
    }
}

/// The uniform of a name and a kind with the greatest serial, where the slots from an end on are empty.
fn newest(uniforms: &Row<Uniform>, end: u16, name: &[u8], kind: UniformKind) -> Option<u16>
    requires within { end ≤ length uniforms.now }
    requires empty { IsEmptyFrom end uniforms.now }
    ensures { MatchOption result (HasNoneNamed name.now (uniform_seen kind) uniforms.now) (λ i. IsNewest name.now (uniform_seen kind) uniforms.now i) }
{
    let mut best = None;
    for index in 0..end {
        if takes_over(uniforms, name, kind, best, index) {
            best = Some(index);
        }
    }
    best
}

/// A slot for each uniform, and an end behind the last slot that ever had one, so that a search need not look at all slots.
#[derive(Drop)]
pub(crate) struct Uniforms {
    row: Row<Uniform>,
    end: u16,
}

impl Model for Uniforms {
    ghost use Rattle.std.specs.Prelude.{List, Option};
    ghost use Rattle.store_model.specs.Buffers.{UniformSlot};
    ghost use Rattle.buffer_store.specs.Search.{HasEnd};

    ghost Value = { List (Option UniformSlot) };

    ghost view = { λ s. s.row };

    ghost invariant = { λ s. HasEnd s.end s.row };
}

impl Uniforms {
    /// No uniforms, with a slot for each index.
    pub(crate) fn new(alloc: Global) -> Result<Uniforms, AllocError>
        ensures { IfOk result (λ uniforms. uniforms ≡ no_slots (greatest uniform_kind)) }
    {
        let row = Row::new(alloc, Kind::Uniform.greatest())?;
        Ok(Uniforms { row, end: 0 })
    }

    /// The uniform at an index. None where there is none, and past the last index.
    pub(crate) fn get(&self, index: u16) -> Option<&Uniform>
        ensures { option_map (λ uniform. uniform.now) result ≡ at self.now index }
    {
        self.row.get(index)
    }

    /// Puts a uniform at an index, which is below 256.
    pub(crate) fn put(&mut self, index: u16, uniform: Uniform)
        requires { index < greatest uniform_kind }
        ensures { self.new ≡ filled_at index uniform self.old }
    {
        self.row.put(index, uniform);
        self.end = self.end.max(index + 1);
    }

    /// Takes the uniform at an index out, where there is one.
    pub(crate) fn remove(&mut self, index: u16)
        ensures { self.new ≡ emptied_at index self.old }
    {
        let _ = self.row.take(index);
    }

    /// Gives the uniform at an index, if there is one, a value.
    pub(crate) fn set(&mut self, index: u16, value: UniformValue)
        ensures { self.new ≡ changed_at (with_slot_value (value_seen value)) index self.old }
    {
        set_value(&mut self.row, index, value);
    }

    /// The uniform of a name and a kind with the greatest serial.
    pub(crate) fn newest(&self, name: &[u8], kind: UniformKind) -> Option<u16>
        ensures { MatchOption result (HasNoneNamed name.now (uniform_seen kind) self.now) (λ i. IsNewest name.now (uniform_seen kind) self.now i) }
    {
        newest(&self.row, self.end, name, kind)
    }
}

// Whether the uniform at an index takes the place of the best so far.
fn takes_over(
    uniforms: &Row<Uniform>,
    name: &[u8],
    kind: UniformKind,
    best: Option<u16>,
    index: u16,
) -> bool
    ensures { result ≡ takes_over_of name.now (uniform_seen kind) (found_at uniforms.now best) (at uniforms.now index) }
{
    match uniforms.get(index) {
        Some(uniform) => uniform.is_named(name, kind) && is_as_new(uniforms, best, uniform),
        None => false,
    }
}

fn is_as_new(uniforms: &Row<Uniform>, best: Option<u16>, uniform: &Uniform) -> bool
    ensures { result ≡ is_as_new_of (found_at uniforms.now best) uniform.now }
{
    match best {
        Some(best) => match uniforms.get(best) {
            Some(best) => best.serial() <= uniform.serial(),
            None => true,
        },
        None => true,
    }
}

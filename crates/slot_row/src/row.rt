// A slot for each index, which holds a thing or nothing.
ghost use Rattle.std.specs.Prelude.{◌≡◌, ◌<◌, length, None, option_map, IfOk};
ghost use Rattle.store_model.specs.Slots.{at, no_slots, filled_at, emptied_at};

use std::alloc::{AllocError, Global};
use std::marker::Model;

/// A slot for each index below a number that never changes. Only `new` takes memory.
#[derive(Drop)]
pub struct Row<T: Drop> {
    slots: Vec<Option<T>>,
}

impl<T: Drop> Model for Row<T> {
    ghost use Rattle.std.specs.Prelude.{List, Option};

    ghost Value = { List (Option T) };

    ghost view = { λ s. s.slots.items };
}

impl<T: Drop> Row<T> {
    /// A row without things, for the indices below `count`.
    #[tactic(auto, unfolding(store_model::specs::Slots::no_slots))]
    pub fn new(alloc: Global, count: u16) -> Result<Row<T>, AllocError>
        ensures none { IfOk result (λ row. row ≡ no_slots count) }
        ensures many { IfOk result (λ row. length row ≡ count) }
    {
        let mut slots = Vec::new(alloc);
        for _ in 0..count {
            slots.push(None)?;
        }
        Ok(Row { slots })
    }

    /// The thing at an index. None where there is none, and past the last index.
    pub fn get(&self, index: u16) -> Option<&T>
        ensures { option_map (λ thing. thing.now) result ≡ at self.now index }
    {
        match self.slots.get(index as usize) {
            Some(Some(thing)) => Some(thing),
            _ => None,
        }
    }

    /// Puts a thing at an index, which is below the row's number.
    pub fn put(&mut self, index: u16, thing: T)
        requires { index < length self.old }
        ensures { self.new ≡ filled_at index thing self.old }
    {
        self.slots[index as usize] = Some(thing);
    }

    /// Takes the thing at an index out. None where there is none, and past the last index.
    pub fn take(&mut self, index: u16) -> Option<T>
        ensures taken { result ≡ at self.old index }
        ensures left { self.new ≡ emptied_at index self.old }
    {
        if (index as usize) < self.slots.len() {
            self.slots[index as usize].take()
        } else {
            None
        }
    }
}

// The names of live uniforms.
ghost use Rattle.std.specs.Prelude.{◌≡◌, ◌≤◌, ℕ, List, [], Some, None, if◌then◌else◌, bytes_eq, IfOk};
ghost use Rattle.resource_book.specs.Names.{index_in};

use indexmap::IndexMap;
use std::alloc::{AllocError, Global};
use std::marker::Model;

/// Names, each with the index of its uniform.
#[derive(Drop)]
pub struct Names {
    indices: IndexMap<Vec<u8>, u16>,
}

impl Model for Names {
    ghost use Rattle.std.specs.Prelude.{map};
    ghost use Rattle.indexmap.specs.IndexMap.{spare};
    ghost use Rattle.resource_book.specs.Names.{NamesView, entry_seen};

    ghost Value = { NamesView };

    ghost view = { λ n. record { entries = map entry_seen n.indices.entries; spare = spare n.indices } };
}

impl Names {
    /// There are no names.
    pub fn new(alloc: Global) -> Names
        ensures { result.entries ≡ [] }
    {
        Names {
            indices: IndexMap::new(alloc),
        }
    }

    /// The index of a name.
    pub fn get(&self, name: &[u8]) -> Option<u16>
        ensures { result ≡ index_in self.now.entries name.now }
    {
        match self.indices.get(name) {
            Some(index) => Some(*index),
            None => None,
        }
    }

    /// Makes room for one name more.
    pub fn reserve(&mut self) -> Result<(), AllocError>
        ensures entries { self.new.entries ≡ self.old.entries }
        ensures room { IfOk result (λ _. 1 ≤ self.new.spare) }
    {
        self.indices.reserve(1)
    }

    /// Gives a name its index; there is room.
    pub fn insert(&mut self, name: Vec<u8>, index: u16)
        requires { 1 ≤ self.old.spare }
        ensures { (other : List ℕ) → index_in self.new.entries other ≡ (if bytes_eq name.items other then Some index else index_in self.old.entries other) }
    {
        let Ok(_) = self.indices.insert(name, index) else {
            unreachable!()
        };
    }

    /// Takes a name out.
    pub fn remove(&mut self, name: &[u8])
        ensures { (other : List ℕ) → index_in self.new.entries other ≡ (if bytes_eq name.now other then None else index_in self.old.entries other) }
    {
        self.indices.swap_remove(name);
    }
}

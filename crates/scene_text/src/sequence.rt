// Lists in public types.
ghost use Rattle.std.specs.Prelude.{◌≡◌, [], ◌∷◌, ◌++◌, IfOk, OnErr};

use std::alloc::{AllocError, Global};
use std::marker::Model;

/// A list as a part of a public type. Contracts see the list of its items; it lends them as a slice.
#[derive(Debug, Drop)]
pub struct Sequence<T> {
    pub(crate) all: Vec<T>,
}

impl<T> Model for Sequence<T> {
    ghost use Rattle.std.specs.Prelude.{List};

    ghost Value = { List T };

    ghost view = { λ s. s.all.items };
}

impl<T: Drop> Sequence<T> {
    /// The empty list. It takes no memory.
    pub fn new(alloc: Global) -> Sequence<T>
        ensures { result ≡ [] }
    {
        Sequence {
            all: Vec::new(alloc),
        }
    }

    /// The empty list, with memory for so many items.
    pub(crate) fn with_room(alloc: Global, room: usize) -> Result<Sequence<T>, AllocError>
        ensures { IfOk result (λ s. s ≡ []) }
    {
        let all = Vec::with_capacity(alloc, room)?;
        Ok(Sequence { all })
    }

    /// The list of the items of a vector.
    pub fn from_vec(all: Vec<T>) -> Sequence<T>
        ensures { result ≡ all.items }
    {
        Sequence { all }
    }

    /// The items in order.
    pub fn as_slice(&self) -> &[T]
        ensures { result.now ≡ self.now }
    {
        &self.all
    }

    /// The vector of the items, so that they can be taken out one by one.
    pub fn into_vec(self) -> Vec<T>
        ensures { result.items ≡ self }
    {
        self.all
    }

    /// One more item at the end. Without memory for it the list stays as it is.
    pub fn push(&mut self, item: T) -> Result<(), AllocError>
        ensures more { IfOk result (λ _. self.new ≡ self.old ++ item ∷ []) }
        ensures same { OnErr result (self.new ≡ self.old) }
    {
        self.all.push(item)?;
        Ok(())
    }
}

// The lists of a recording.
ghost use Rattle.std.specs.Prelude.{◌≡◌, ◌+◌, ◌<◌, [], ◌∷◌, ◌++◌, vec_len, vec_capacity};

use crate::items::{
    BlitCall, BlitItem, DrawItem, IndexSet, Item, TouchItem, UniformSet, VertexSet,
};
use gfx_words::Handle;
use std::marker::Model;

/// The items of a recording, in order. Contracts see the list.
#[derive(Drop)]
pub struct Items {
    all: Vec<Item>,
}

impl Model for Items {
    ghost use Rattle.std.specs.Prelude.{List};
    ghost use Rattle.draw_encoder.specs.declared.items.Item.{Item};

    ghost Value = { List Item };

    ghost view = { λ s. s.all.items };
}

impl Items {
    /// The list of a vector.
    pub fn from_vec(all: Vec<Item>) -> Items
        ensures { result ≡ all.items }
    {
        Items { all }
    }

    /// The items as a slice.
    pub fn as_slice(&self) -> &[Item]
        ensures { result.now ≡ self.now }
    {
        &self.all
    }
}

// The types that an item is made of.
type Parts = (
    DrawItem,
    VertexSet,
    IndexSet,
    Option<Handle>,
    TouchItem,
    BlitItem,
    BlitCall,
);

// Puts an item behind the others, where there is room.
pub(crate) fn put_item(items: &mut Vec<Item>, item: Item)
    requires { vec_len items.old < vec_capacity items.old }
    ensures items { items.new.items ≡ items.old.items ++ item ∷ [] }
    ensures len { vec_len items.new ≡ vec_len items.old + 1 }
    ensures capacity { vec_capacity items.new ≡ vec_capacity items.old }
{
    // The check asks that the types of an item's parts are seen where it is stored.
    let _parts: Option<Parts> = None;
    items.push_reserved(item);
}

/// The transient bytes of a recording. Contracts see the list.
#[derive(Drop)]
pub struct Bytes {
    all: Vec<u8>,
}

impl Model for Bytes {
    ghost use Rattle.std.specs.Prelude.{List, ℕ};

    ghost Value = { List ℕ };

    ghost view = { λ s. s.all.items };
}

impl Bytes {
    /// The list of a vector.
    pub fn from_vec(all: Vec<u8>) -> Bytes
        ensures { result ≡ all.items }
    {
        Bytes { all }
    }

    /// The bytes as a slice.
    pub fn as_slice(&self) -> &[u8]
        ensures { result.now ≡ self.now }
    {
        &self.all
    }
}

/// The uniform values of a recording, in the order in which they were set. Contracts see the list.
#[derive(Drop)]
pub struct UniformSets {
    all: Vec<UniformSet>,
}

impl Model for UniformSets {
    ghost use Rattle.std.specs.Prelude.{List};
    ghost use Rattle.draw_encoder.specs.declared.items.UniformSet.{UniformSet};

    ghost Value = { List UniformSet };

    ghost view = { λ s. s.all.items };
}

impl UniformSets {
    /// The list of a vector.
    pub fn from_vec(all: Vec<UniformSet>) -> UniformSets
        ensures { result ≡ all.items }
    {
        UniformSets { all }
    }

    /// The values as a slice.
    pub fn as_slice(&self) -> &[UniformSet]
        ensures { result.now ≡ self.now }
    {
        &self.all
    }
}

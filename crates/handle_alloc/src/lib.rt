//! Indices that are given and come back: a stack of the free ones.
#![tactic(auto)]

ghost use Rattle.std.specs.Prelude.{◌≡◌, ◌==◌, ◌+◌, [], length, IfOk, MatchResult, IsTrue, ◌↔◌};
ghost use Rattle.std.specs.List.{range_with_len};
ghost use Rattle.handle_alloc.specs.Indices.{IsGiven, IsStack, with_free};

use gfx_words::Refusal;
use std::alloc::{AllocError, Global};
use std::marker::Model;

/// The indices below a limit. The free ones are a stack: `alloc` takes the top and `free` puts one on top.
#[derive(Drop)]
pub struct HandleAlloc {
    // the given indices, and after them the free ones, the top first
    order: Vec<u16>,
    // the place of each index in `order`
    places: Vec<u16>,
    given: u16,
}

impl Model for HandleAlloc {
    ghost use Rattle.std.specs.Prelude.{◌≤◌, ◌<◌, ◌^◌, drop, length};
    ghost use Rattle.handle_alloc.specs.Indices.{Indices, IsPaired};

    ghost Value = { Indices };

    ghost view = { λ a. record { limit = length a.order.items; free = drop a.given a.order.items } };

    ghost invariant = { λ a. IsPaired a.order.items a.places.items × (a.given ≤ length a.order.items) × (length a.order.items < 2 ^ 16) };
}

fn counting(alloc: Global, max: u16) -> Result<Vec<u16>, AllocError>
    ensures { IfOk result (λ v. v.items ≡ range_with_len 0 max) }
{
    (0..max).collect(alloc)
}

impl HandleAlloc {
    /// All indices below `max` are free; `alloc` gives 0, 1, 2 and so on.
    pub fn new(alloc: Global, max: u16) -> Result<HandleAlloc, AllocError>
        ensures { IfOk result (λ a. a ≡ record { limit = max; free = range_with_len 0 max }) }
    {
        let order = counting(alloc, max)?;
        let places = counting(alloc, max)?;
        Ok(HandleAlloc {
            order,
            places,
            given: 0,
        })
    }

    /// What every stack keeps: its free indices are below the limit, and none stands in it twice.
    pub fn tell_facts(&self)
        ensures { IsStack self.now }
    {
        let _ = &self.order;
    }

    /// Takes the top of the stack of free indices. `Full` exactly where there is none.
    pub fn alloc(&mut self) -> Result<u16, Refusal>
        ensures top { MatchResult result
            (λ index. self.old ≡ with_free index self.new)
            (λ r. (r ≡ Refusal.Full) × (self.old.free ≡ []) × (self.new ≡ self.old)) }
        ensures given { IfOk result (λ index. IsGiven self.new index) }
    {
        if self.given as usize == self.order.len() {
            return Err(Refusal::Full);
        }
        let index = self.order[self.given as usize];
        self.given += 1;
        Ok(index)
    }

    /// Whether no index is free.
    pub fn is_full(&self) -> bool
        ensures { result ≡ (length self.now.free == 0) }
    {
        self.order.len() == self.given as usize
    }

    /// Puts an index that is given on top of the stack of free indices.
    pub fn free(&mut self, index: u16)
        requires { IsGiven self.old index }
        ensures { self.new ≡ with_free index self.old }
    {
        let place = self.places[index as usize];
        self.given -= 1;
        let moved = self.order[self.given as usize];
        self.order[place as usize] = moved;
        self.places[moved as usize] = place;
        self.order[self.given as usize] = index;
        self.places[index as usize] = self.given;
    }

    /// Whether an index is given; false for all from the limit on.
    pub fn is_live(&self, index: u16) -> bool
        ensures { IsTrue result ↔ IsGiven self.now index }
    {
        (index as usize) < self.places.len() && self.places[index as usize] < self.given
    }

    /// How many indices are given.
    pub fn live_count(&self) -> u16
        ensures { result + length self.now.free ≡ self.now.limit }
    {
        self.given
    }
}

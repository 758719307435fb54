// The indices of a kind: a stack of those that can be given, and those that wait.
ghost use Rattle.std.specs.Prelude.{◌≡◌, ◌<◌, ◌≤◌, ◌+◌, ◌==◌, ◌++◌, ◌∷◌, [], ℕ, true, false, not, map, filter, length, slice_index_or, if◌then◌else◌, vec_capacity, IfOk};
ghost use Rattle.std.specs.List.{AllByRecursion, list_all, range_with_len};
ghost use Rattle.gfx_model.specs.Resources.{is_over, book_at_start, pushed_on};
ghost use Rattle.schedule_model.specs.Held.{count_of};
ghost use Rattle.handle_alloc.specs.Indices.{IsGiven, with_free};
ghost use Rattle.resource_laws.specs.Lawful.{count_where, waits_at};
ghost use Rattle.resource_book.specs.Stacks.{StackView, book_seen, waiting_seen, with_top, CanReclaim, reclaimed};

use crate::rows::is_death_over;
use handle_alloc::HandleAlloc;
use std::alloc::{AllocError, Global};
use std::marker::Model;

/// An index of a destroyed thing with its frame of death.
#[derive(Clone, Copy, Drop)]
pub struct Waiting {
    pub index: u16,
    pub death: u32,
}

/// The indices of one kind. Only `new` takes memory.
#[derive(Drop)]
pub struct Stack {
    free: HandleAlloc,
    // in the order of their destroys
    waiting: Vec<Waiting>,
}

impl Model for Stack {
    ghost use Rattle.std.specs.Prelude.{◌≤◌, map, vec_capacity};
    ghost use Rattle.resource_book.specs.Stacks.{StackView, waiting_seen};

    ghost Value = { StackView };

    ghost view = { λ s. record { limit = s.free.limit; free = s.free.free; waiting = map waiting_seen s.waiting.items } };

    ghost invariant = { λ s. s.free.limit ≤ vec_capacity s.waiting };
}

impl Stack {
    /// All indices below `max` can be given, and none waits.
    pub fn new(alloc: Global, max: u16) -> Result<Stack, AllocError>
        ensures { IfOk result (λ s. s ≡ record { limit = max; free = range_with_len 0 max; waiting = [] }) }
    {
        let waiting = Vec::with_capacity(alloc, max as usize)?;
        let free = HandleAlloc::new(alloc, max)?;
        Ok(Stack { free, waiting })
    }

    /// Whether no index can be given.
    pub fn is_full(&self) -> bool
        ensures { result ≡ (length self.now.free == 0) }
    {
        self.free.is_full()
    }

    /// Takes the top of the stack.
    pub fn take(&mut self) -> u16
        requires { (length self.old.free == 0) ≡ false }
        ensures taken { self.old ≡ with_top result self.new }
        ensures below { result < self.old.limit }
    {
        let Ok(index) = self.free.alloc() else {
            unreachable!()
        };
        index
    }

    /// An index waits. Not all indices of the kind do.
    pub fn wait(&mut self, index: u16, death: u32)
        requires { length self.old.waiting < self.old.limit }
        ensures { self.new ≡ record self.old { waiting = self.old.waiting ++ (index, death) ∷ [] } }
    {
        self.waiting.push_reserved(Waiting { index, death });
    }

    /// Whether no index waits whose death is over.
    pub fn keeps_all(&self, latency: u8, frame: u32) -> bool
        ensures { result ≡ list_all (λ w. not (is_over latency frame w.1)) self.now.waiting }
    {
        all_later(&self.waiting, latency, frame)
    }

    /// The indices of deaths that are over go on the stack, in order.
    pub fn reclaim(&mut self, latency: u8, frame: u32)
        requires once { (index : ℕ) → index < self.old.limit → count_of index self.old.free + count_where (waits_at index (λ d. true)) self.old.waiting ≤ 1 }
        requires below { AllByRecursion (λ w. w.0 < self.old.limit) self.old.waiting }
        ensures seen { book_seen self.new ≡ book_at_start latency frame (book_seen self.old) }
        ensures limit { self.new.limit ≡ self.old.limit }
    {
        give_back_all(&mut self.free, &self.waiting, latency, frame);
        keep_later(&mut self.waiting, latency, frame);
    }
}

fn is_over(w: Waiting, latency: u8, frame: u32) -> bool
    ensures { result ≡ is_over latency frame w.death }
{
    is_death_over(w.death, latency, frame)
}

fn all_later(waiting: &[Waiting], latency: u8, frame: u32) -> bool
    ensures { result ≡ list_all (λ w. not (is_over latency frame w.death)) waiting.now }
{
    waiting.iter().all(|w| !is_over(*w, latency, frame))
}

fn give_back(free: &mut HandleAlloc, w: &Waiting, latency: u8, frame: u32)
    requires { is_over latency frame w.now.death ≡ true → IsGiven free.old w.now.index }
    ensures { free.new ≡ (if is_over latency frame w.now.death then with_free w.now.index free.old else free.old) }
{
    if is_over(*w, latency, frame) {
        free.free(w.index);
    }
}

fn give_back_all(free: &mut HandleAlloc, waiting: &[Waiting], latency: u8, frame: u32)
    requires once { (index : ℕ) → index < free.old.limit → count_of index free.old.free + count_where (waits_at index (λ d. true)) (map waiting_seen waiting.now) ≤ 1 }
    requires below { AllByRecursion (λ w. w.0 < free.old.limit) (map waiting_seen waiting.now) }
    ensures free { free.new.free ≡ pushed_on (map (λ w. w.0) (filter (λ w. is_over latency frame w.1) (map waiting_seen waiting.now))) free.old.free }
    ensures limit { free.new.limit ≡ free.old.limit }
{
    for i in 0..waiting.len() {
        give_back(free, &waiting[i], latency, frame);
    }
}

fn keep_later(waiting: &mut Vec<Waiting>, latency: u8, frame: u32)
    ensures seen { map waiting_seen waiting.new.items ≡ filter (λ w. not (is_over latency frame w.1)) (map waiting_seen waiting.old.items) }
    ensures capacity { vec_capacity waiting.old ≤ vec_capacity waiting.new }
{
    let mut later = 0;
    for i in 0..waiting.len() {
        let w = waiting[i];
        waiting[later] = w;
        later = next_place(later, w, latency, frame);
    }
    waiting.truncate(later);
}

fn next_place(later: usize, w: Waiting, latency: u8, frame: u32) -> usize
    requires { later < 18446744073709551615 }
    ensures { result ≡ later + (if is_over latency frame w.death then 0 else 1) }
{
    if is_over(w, latency, frame) {
        later
    } else {
        later + 1
    }
}

/// Whether no index of any kind waits whose death is over.
pub fn all_keep(stacks: &[Stack], latency: u8, frame: u32) -> bool
    ensures { result ≡ list_all (λ s. list_all (λ w. not (is_over latency frame w.1)) s.waiting) stacks.now }
{
    stacks.iter().all(|s| s.keeps_all(latency, frame))
}

/// The indices of all kinds at the start of a frame.
pub fn reclaim_all(stacks: &mut [Stack], latency: u8, frame: u32)
    requires { (i : ℕ) (d : StackView) → i < length stacks.old → CanReclaim (slice_index_or stacks.old i d) }
    ensures { stacks.new ≡ map (reclaimed latency frame) stacks.old }
{
    for i in 0..stacks.len() {
        stacks[i].reclaim(latency, frame);
    }
}

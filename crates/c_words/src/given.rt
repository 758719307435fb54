// The handles of what was made, by their words.
ghost use Rattle.std.specs.Prelude.{◌≡◌, slice_set, replicate, None, Some, IfOk};
ghost use Rattle.gfx_words.specs.Names.{handle_word};
ghost use Rattle.c_words.specs.Things.{row_of_word, with_word, named, named_or_none};

use gfx_words::Handle;
use std::alloc::{AllocError, Global};

// How many rows there are: of each of seven kinds 1,024.
const ROWS: usize = 7168;

// The row of a word: its kind's number and its index, which are the upper half of its bits.
fn row_of(word: u64) -> usize
    ensures { result ≡ row_of_word word }
{
    (word >> 32) as usize
}

// The handle of a row, where it has this word.
fn with_this_word(row: Option<Handle>, word: u64) -> Option<Handle>
    ensures { result ≡ with_word word row }
{
    let h = row?;
    if h.word() == word { Some(h) } else { None }
}

/// The handle that was given last for each kind and index. What a handle tells beside its word is found by it.
#[derive(Drop)]
pub struct Things {
    pub rows: Vec<Option<Handle>>,
}

impl Things {
    /// No handle was given yet.
    pub fn new(alloc: Global) -> Result<Things, AllocError>
        ensures { IfOk result (λ t. t.rows.items ≡ replicate 7168 None) }
    {
        let none: Option<Handle> = None;
        Ok(Things {
            rows: Vec::from_elem(alloc, none, ROWS)?,
        })
    }

    /// The same handles.
    pub fn copy(&self) -> Result<Things, AllocError>
        ensures { IfOk result (λ t. t.rows.items ≡ self.now.rows.items) }
    {
        Ok(Things {
            rows: self.rows.clone()?,
        })
    }

    /// Keeps a handle that was given in its row.
    pub fn put(&mut self, h: Handle)
        ensures { self.new.rows.items ≡ slice_set self.old.rows.items (row_of_word (handle_word h)) (Some h) }
    {
        let row = row_of(h.word());
        if row < self.rows.len() {
            self.rows[row] = Some(h);
        }
    }

    /// The handle of a word, where one was given and its place was not given to another thing since.
    pub fn find(&self, word: u64) -> Option<Handle>
        ensures { result ≡ named self.now.rows.items word }
    {
        let row = row_of(word);
        if row >= self.rows.len() {
            return None;
        }
        with_this_word(self.rows[row], word)
    }

    /// `Some(None)` for 0, and else the handle of a word, where there is one.
    pub fn find_maybe(&self, word: u64) -> Option<Option<Handle>>
        ensures { result ≡ named_or_none self.now.rows.items word }
    {
        if word == 0 {
            return Some(None);
        }
        let h = self.find(word)?;
        Some(Some(h))
    }
}

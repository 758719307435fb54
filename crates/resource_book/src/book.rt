// The state of the calls, with what they wrote: the struct, and what it tells.
ghost use Rattle.gfx_model.specs.Resources as model;
ghost use Rattle.gfx_model.specs.Resources.{is_at};
ghost use Rattle.gfx_words.specs.Kinds.{kind_seen};
ghost use Rattle.gfx_words.specs.Seen.{IsFirstRefusal};
ghost use Rattle.resource_book.specs.Seen.{rows_seen};
ghost use Rattle.resource_laws.specs.Lawful.{IsLawful};
ghost use Rattle.std.specs.List.{find};
ghost use Rattle.std.specs.Prelude.{◌≡◌, ◌≤◌, false, true, None, option_map, MatchResult};

use crate::find::{handle_at, word_at};
use crate::orders::Orders;
use crate::rows::Row;
use crate::shelf::Shelf;
use cmd_buffer::CmdBuffer;
use gfx_words::{Handle, Kind, PlaceWord, Refusal};
use std::alloc::Global;
use std::marker::Model;

/// The state of the calls, and what they wrote for the frame.
#[derive(Drop)]
pub struct Book {
    pub(crate) alloc: Global,
    pub(crate) shelf: Shelf,
    /// What is done before the frame's draws.
    pub(crate) orders: Orders,
    /// The destroys, which are done behind them.
    pub(crate) post: CmdBuffer,
}

impl Model for Book {
    ghost use Rattle.resource_book.specs.Written.{BookView};

    ghost Value = { BookView };

    ghost use Rattle.resource_book.specs.Books.{view_of, IsBook};

    ghost view = { view_of };

    ghost invariant = { IsBook };
}

impl Book {
    /// `Stale` exactly where the handle's place does not have its serial live.
    pub(crate) fn must_live(&self, h: Handle) -> Result<(), Refusal>
        ensures { MatchResult result
            (λ _. (model.is_not_live self.now.resources h).0 ≡ false)
            (λ r. ((model.is_not_live self.now.resources h).0 ≡ true) × (r ≡ Refusal.Stale (model.word_of self.now.resources h))) }
    {
        let word = self.word_of(h);
        if PlaceWord::is_live_in(word, h.serial()) {
            Ok(())
        } else {
            Err(Refusal::Stale { word })
        }
    }

    /// The same of a handle, if one is given.
    pub(crate) fn must_live_option(&self, h: &Option<Handle>) -> Result<(), Refusal>
        ensures { MatchResult result
            (λ _. model.first_refusal (model.not_live_option self.now.resources h.now) ≡ None)
            (λ r. IsFirstRefusal (model.first_refusal (model.not_live_option self.now.resources h.now)) r) }
    {
        match h {
            None => Ok(()),
            Some(h) => self.must_live(*h),
        }
    }

    /// The things.
    pub fn rows(&self) -> &[Row]
        ensures { rows_seen result.now ≡ self.now.resources.things }
    {
        self.shelf.table.rows()
    }

    /// The handle of the thing at a kind's index, live or waiting.
    pub fn handle_at(&self, kind: Kind, index: u16) -> Option<Handle>
        ensures { result ≡ option_map (λ t. t.handle) (find (is_at (kind_seen kind) index) self.now.resources.things) }
    {
        handle_at(&self.shelf.table, kind, index)
    }

    /// The word of a handle's place: what an encoder that begins now finds there.
    pub fn word_of(&self, h: Handle) -> u64
        ensures { result ≡ model.word_of self.now.resources h }
    {
        word_at(&self.shelf.table, h.kind(), h.index())
    }

    /// The number of the frame that is recorded.
    pub fn frame(&self) -> u32
        ensures frame { result ≡ self.now.resources.frame }
        ensures most { result ≤ 1073741823 }
    {
        self.shelf.frame
    }

    /// How many frames may be out.
    pub fn latency(&self) -> u8
        ensures { result ≡ self.now.resources.latency }
    {
        self.shelf.latency
    }

    /// What every book keeps.
    pub fn tell_facts(&self)
        ensures { IsLawful self.now.resources }
    {
        let _ = &self.shelf;
    }
}

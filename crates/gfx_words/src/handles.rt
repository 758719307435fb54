// Handles: the names of things.
ghost use Rattle.std.specs.Prelude.{◌≡◌, ◌<◌};

use crate::{HandleName, Info, Kind};
use std::marker::Model;

/// The name of a thing. Serials run from 1 over all kinds and are never given twice, so a handle names one thing for ever.
#[derive(Clone, Copy, Drop, PartialEq, Eq, Debug)]
pub struct Handle {
    kind: Kind,
    index: u16,
    serial: u32,
    info: Info,
}

impl Model for Handle {
    ghost use Rattle.std.specs.Prelude.{◌<◌};
    ghost use Rattle.gfx_model.specs.Words.{Handle, greatest};
    ghost use Rattle.gfx_words.specs.Kinds.{kind_seen, info_seen, kind_of_seen, info_of_seen};

    ghost Value = { Handle };

    ghost view = { λ h. record { kind = kind_seen h.kind; index = h.index; serial = h.serial; info = info_seen h.info } };

    ghost invariant = { λ h. h.index < greatest (kind_seen h.kind) };

    ghost inverse = { λ h. record { kind = kind_of_seen h.kind; index = h.index; serial = h.serial; info = info_of_seen h.info } };
}

impl Handle {
    ghost use Rattle.gfx_model.specs.Words.{greatest, place_of_handle};
    ghost use Rattle.gfx_words.specs.Kinds.{kind_seen, info_seen};
    ghost use Rattle.gfx_words.specs.Names.{handle_word, IsNameOf};

    /// The handle of a thing; the index is below the kind's greatest number.
    pub fn of(kind: Kind, index: u16, serial: u32, info: Info) -> Handle
        requires { index < greatest (kind_seen kind) }
        ensures { result ≡ record { kind = kind_seen kind; index = index; serial = serial; info = info_seen info } }
    {
        Handle {
            kind,
            index,
            serial,
            info,
        }
    }

    /// The kind of the thing.
    pub fn kind(&self) -> Kind
        ensures { kind_seen result ≡ self.now.kind }
    {
        self.kind
    }

    /// The index among the things of its kind, from 0.
    pub fn index(&self) -> u16
        ensures same { result ≡ self.now.index }
        ensures below { self.now.index < greatest self.now.kind }
    {
        self.index
    }

    /// The serial, from 1.
    pub fn serial(&self) -> u32
        ensures { result ≡ self.now.serial }
    {
        self.serial
    }

    /// What the handle tells beside its kind and index.
    pub fn info(&self) -> Info
        ensures { info_seen result ≡ self.now.info }
    {
        self.info
    }

    /// What every handle keeps: its index is below its kind's greatest number.
    pub fn tell_facts(&self)
        ensures { self.now.index < greatest self.now.kind }
    {
        let _ = &self.index;
    }

    /// What tells this thing from every other.
    pub fn name(&self) -> HandleName
        ensures { IsNameOf result self.now }
    {
        HandleName {
            kind: self.kind(),
            index: self.index(),
            serial: self.serial(),
        }
    }

    /// The name of the thing as a word, for callers that can hold nothing else. What the handle tells beside it is looked up by the name.
    pub fn word(&self) -> u64
        ensures { result ≡ handle_word self.now }
    {
        self.name().word()
    }

    /// The place of the thing's word in the table of place words.
    pub fn place(&self) -> u16
        ensures same { result ≡ place_of_handle self.now }
        ensures below { result < 3776 }
    {
        self.kind.first_place() + self.index
    }
}

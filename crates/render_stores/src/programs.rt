// The programs by index.
ghost use Rattle.std.specs.Prelude.{◌≡◌, length, option_map, IfOk, ◌<◌, None};
ghost use Rattle.gfx_model.specs.Words.{program_kind, greatest};
ghost use Rattle.gfx_words.specs.Seen.{program_seen};
ghost use Rattle.store_model.specs.Slots.{at, no_slots, filled_at, emptied_at};

use gfx_words::{Kind, ProgramKind};
use slot_row::Row;
use std::alloc::{AllocError, Global};
use std::marker::Model;

/// What a program paints.
#[derive(Drop)]
pub(crate) struct Program {
    kind: ProgramKind,
}

impl Model for Program {
    ghost use Rattle.gfx_model.specs.Words as words;
    ghost use Rattle.gfx_words.specs.Seen.{program_seen};

    ghost Value = { words.ProgramKind };

    ghost view = { λ s. program_seen s.kind };
}

impl Program {
    fn new(kind: ProgramKind) -> Program
        ensures { result ≡ program_seen kind }
    {
        Program { kind }
    }

    fn kind(&self) -> ProgramKind
        ensures { program_seen result ≡ self.now }
    {
        self.kind
    }
}

/// A slot for each index that a program can have. Only `new` takes memory.
#[derive(Drop)]
pub struct ProgramRow {
    row: Row<Program>,
}

impl Model for ProgramRow {
    ghost use Rattle.std.specs.Prelude.{◌≡◌, List, Option, length};
    ghost use Rattle.gfx_model.specs.Words as words;

    ghost Value = { List (Option words.ProgramKind) };

    ghost view = { λ s. s.row };

    ghost invariant = { λ s. length s.row ≡ words.greatest words.program_kind };
}

impl ProgramRow {
    /// A row without programs.
    pub fn new(alloc: Global) -> Result<ProgramRow, AllocError>
        ensures { IfOk result (λ row. row ≡ no_slots (greatest program_kind)) }
    {
        Ok(ProgramRow {
            row: Row::new(alloc, Kind::Program.greatest())?,
        })
    }

    /// Does nothing. It tells how many slots the row has.
    pub fn tell_facts(&self)
        ensures { length self.now ≡ greatest program_kind }
    {
        let _ = &self.row;
    }

    /// What a program paints. None exactly where it is not there.
    pub fn get(&self, index: u16) -> Option<ProgramKind>
        ensures { option_map program_seen result ≡ at self.now index }
    {
        match self.row.get(index) {
            Some(program) => Some(program.kind()),
            None => None,
        }
    }

    /// Makes a program. The index is below 256.
    pub fn put(&mut self, index: u16, kind: ProgramKind)
        requires { index < greatest program_kind }
        ensures { self.new ≡ filled_at index (program_seen kind) self.old }
    {
        self.row.put(index, Program::new(kind));
    }

    /// Takes a program out. Where it is not there, nothing changes.
    pub fn take(&mut self, index: u16)
        ensures { self.new ≡ emptied_at index self.old }
    {
        let _ = self.row.take(index);
    }
}

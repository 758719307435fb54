// A case, as far as its lines are read.
use crate::gate::Hold;
use crate::judging::{Ending, Outcome};
use std::alloc::Global;

// More than each picture and each line of notes in the cases has.
const AMPLE: usize = 16_384;

/// What a sink takes: bytes in all, bytes at once, and the calls that fail, counted from 0.
#[derive(Drop)]
pub(crate) struct Takes {
    pub capacity: usize,
    pub most: usize,
    pub fails: Vec<u32>,
}

impl Takes {
    // Whatever is put.
    fn all(alloc: Global) -> Takes {
        Takes {
            capacity: AMPLE,
            most: AMPLE,
            fails: Vec::new(alloc),
        }
    }
}

/// What a run has to leave.
#[derive(Drop)]
pub(crate) struct Wanted {
    pub ending: Ending,
    pub frames: usize,
    pub pictures: Vec<u8>,
    pub notes: Vec<u8>,
}

impl Wanted {
    pub fn new(alloc: Global) -> Wanted {
        Wanted {
            ending: Ending::plain(0),
            frames: 1,
            pictures: Vec::new(alloc),
            notes: Vec::new(alloc),
        }
    }

    /// It, with the first bytes of its pictures and of its notes where not all are put.
    pub fn outcome(&self, put: Option<(usize, usize)>) -> Outcome<'_> {
        let (pictures, notes) = put.unwrap_or((self.pictures.len(), self.notes.len()));
        Outcome {
            ending: self.ending,
            frames: self.frames,
            pictures: &self.pictures[..pictures.min(self.pictures.len())],
            notes: &self.notes[..notes.min(self.notes.len())],
        }
    }
}

/// What fails in a run, and where its threads are held.
#[derive(Drop)]
pub(crate) struct Trouble {
    pub reads: Vec<u32>,
    pub pictures: Takes,
    pub notes: Takes,
    pub holds: Vec<Hold>,
    pub seed: Option<u32>,
    /// How many items come to the gate, where the case says it.
    pub items: Option<u32>,
    /// How many bytes of the wanted pictures and notes are put, where they are not all.
    pub put: Option<(usize, usize)>,
}

impl Trouble {
    pub fn none(alloc: Global) -> Trouble {
        Trouble {
            reads: Vec::new(alloc),
            pictures: Takes::all(alloc),
            notes: Takes::all(alloc),
            holds: Vec::new(alloc),
            seed: None,
            items: None,
            put: None,
        }
    }
}

/// How a case is run.
#[derive(Clone, Copy, PartialEq, Eq, Drop)]
pub(crate) enum Way {
    /// By its words.
    Words,
    /// On one thread by its bytes alone, noting the journal or not.
    Here { with_journal: bool },
    /// By its words, and again by the journal that it noted.
    Again,
    /// As a script of queries, which has notes alone.
    Queries,
    /// By its bytes alone: a scene, of which a frame is looked into.
    Look { frame: u32, look: Look },
    /// By its words, as this program runs.
    Program(Program),
    /// As so many frames of the ring of `gfx_example`, which reads nothing.
    Ring { frames: u16 },
}

/// The programs beside the player, each by the call of its library.
#[derive(Clone, Copy, PartialEq, Eq, Drop)]
pub(crate) enum Program {
    Capture,
    Shares,
    Check,
    Diff,
    Load,
}

/// What is wanted of a frame: the pictures of its steps and their lines, the picture of the deeds to which its pixels are due, or the lines of a
/// pixel of the frame buffer whose name is the case's only word.
#[derive(Clone, Copy, PartialEq, Eq, Drop)]
pub(crate) enum Look {
    Steps,
    Blame,
    Target { x: u32, y: u32 },
}

/// A case: what is run, and what it has to leave, or what it may leave as well.
#[derive(Drop)]
pub(crate) struct Case {
    pub name: String,
    pub way: Way,
    pub words: Vec<String>,
    pub text: Vec<u8>,
    pub trouble: Trouble,
    pub wanted: Wanted,
    pub others: Vec<Wanted>,
}

impl Case {
    pub fn new(alloc: Global, name: String) -> Case {
        Case {
            name,
            way: Way::Words,
            words: Vec::new(alloc),
            text: Vec::new(alloc),
            trouble: Trouble::none(alloc),
            wanted: Wanted::new(alloc),
            others: Vec::new(alloc),
        }
    }

    /// The same run without its troubles: it ends well, if nothing else is said.
    pub fn rename(&mut self, alloc: Global, name: String) {
        self.name = name;
        self.trouble = Trouble::none(alloc);
        self.wanted.ending = Ending::plain(0);
        self.others.clear();
    }

    /// What the lines that are read speak of.
    pub fn current(&mut self) -> &mut Wanted {
        match self.others.last_mut() {
            Some(other) => other,
            None => &mut self.wanted,
        }
    }
}

// What a load says.
ghost use Rattle.std.specs.Prelude.{◌<◌, ◌≤◌, vec_len};

use gfx_words::{ProgramKind, UniformKind};

/// What a line of a block does.
#[derive(Drop)]
pub enum BlockLine {
    /// `program NAME KIND` makes a program.
    Program { kind: ProgramKind },
    /// `uniform NAME KIND` makes a uniform of that name, 1 to 32 bytes.
    Uniform { name: Vec<u8>, kind: UniformKind },
    /// `destroy NAME` destroys what a create line of the block made; the create lines are counted from 0.
    Destroy { create_line: usize },
    /// `frame` ends the frame.
    Frame,
}

/// A caller, 0 to 7, and its lines, at most 16,777,216.
#[derive(Drop)]
pub struct Block {
    pub caller: u8,
    pub lines: Vec<BlockLine>,
    pub ghost small: { caller < 8 },
    pub ghost few: { vec_len lines ≤ 16777216 },
}

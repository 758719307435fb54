// How far a text is read, and what was read.
ghost use Rattle.std.specs.Prelude.{◌≤◌, ◌<◌};

use crate::load::Block;
use crate::names::Names;

/// Where in the order of lines a text stands. In a block its caller is known.
#[derive(Clone, Copy, PartialEq, Eq, Drop)]
pub(crate) enum Stage {
    Front,
    Callers,
    FirstBlock,
    InBlock(u8),
    End,
}

/// What was read so far, with the names of the last block.
#[derive(Drop)]
pub(crate) struct Reading {
    pub stage: Stage,
    pub callers: u8,
    pub names: Names,
    pub blocks: Vec<Block>,
    pub ghost few: { callers ≤ 8 },
}

// How far a text is read, and what was read.
ghost use Rattle.std.specs.Prelude.{◌≤◌, length};

use crate::script::Step;
use crate::sides::TargetSides;

/// Where in the order of lines a text stands.
#[derive(Clone, Copy, PartialEq, Eq, Drop)]
pub(crate) enum Stage {
    Front,
    Size,
    FirstFrame,
    InFrame,
    End,
}

/// What was read so far, and the transforms for the next draw.
#[derive(Drop)]
pub(crate) struct Reading {
    pub stage: Stage,
    pub sides: TargetSides,
    pub frames: Vec<Vec<Step>>,
    pub instances: Vec<u8>,
    pub ghost few: { length instances.items ≤ 16777216 },
}

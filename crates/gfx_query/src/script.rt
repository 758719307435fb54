// Query scripts.
ghost use Rattle.std.specs.Prelude.{◌<◌, ◌≤◌, length};

use crate::sides::TargetSides;
use gfx_words::{StateWord, StencilWord};

/// An occlusion query, 0 to 63.
#[derive(Clone, Copy)]
pub(crate) struct Query {
    pub number: u8,
    pub ghost small: { number < 64 },
}

/// When a draw is drawn: always, where the last result of a query is not 0, or where it is 0. Without a result yet it is drawn.
#[derive(Clone, Copy)]
pub(crate) enum Condition {
    Always,
    Seen(Query),
    Unseen(Query),
}

/// A draw: the query that counts it, its condition, and its vertices and transforms as bytes.
#[derive(Drop)]
pub(crate) struct Draw {
    pub query: Option<Query>,
    pub condition: Condition,
    pub vertices: Vec<u8>,
    pub instances: Vec<u8>,
    pub ghost few_vertices: { length vertices.items ≤ 16777216 },
    pub ghost few_instances: { length instances.items ≤ 16777216 },
}

/// What a line of a frame does: gives each pixel a depth word, sets the state word or the stencil words, or draws.
#[derive(Drop)]
pub(crate) enum Step {
    Clear(u32),
    State(StateWord),
    Stencil(StencilWord, StencilWord),
    Draw(Draw),
}

/// A target's sides and the frames in order.
#[derive(Drop)]
pub(crate) struct Script {
    pub sides: TargetSides,
    pub frames: Vec<Vec<Step>>,
}

// Edges and their values at the ends of rows.
ghost use Rattle.std.specs.Prelude.{◌≡◌, ◌<◌, ◌^◌, ◌*◌, pos, ◌+ℤ◌, ◌*ℤ◌, unsigned_abs};
ghost use Rattle.gfx_model.specs.Raster.{is_top_or_left};
ghost use Rattle.tri_cover.specs.Seen.{screen_seen, IsEdge, IsNear};
ghost use Rattle.tri_cover.specs.Columns.{lost};

use crate::corners::ScreenVertex;
use crate::numbers::{difference, less, product};

/// An edge: what it gains per row and loses per column, in 1/256 of each, and its value at the first pixel.
#[derive(Clone, Copy)]
pub struct Edge {
    pub base: i64,
    pub rise: i64,
    pub fall: i64,
}

fn owns(p: &ScreenVertex, q: &ScreenVertex) -> bool
    ensures { result ≡ is_top_or_left (screen_seen p.now) (screen_seen q.now) }
{
    if p.y <= q.y {
        q.y <= p.y && p.x < q.x
    } else {
        true
    }
}

/// 0 where the points on an edge belong to its triangle, and else 1.
fn lost_by(p: &ScreenVertex, q: &ScreenVertex) -> i64
    ensures value { result ≡ pos (lost (is_top_or_left (screen_seen p.now) (screen_seen q.now))) }
    ensures near { unsigned_abs result < 2 }
{
    if owns(p, q) { 0 } else { 1 }
}

pub(crate) fn edge_between(p: &ScreenVertex, q: &ScreenVertex) -> Edge
    ensures edge { IsEdge result p.now q.now }
    ensures near { IsNear result }
{
    let rise = difference(q.x, p.x);
    let fall = difference(q.y, p.y);
    let base = less(
        product(rise, difference(128, p.y)),
        product(fall, difference(128, p.x)),
        lost_by(p, q),
    );
    Edge { base, rise, fall }
}

/// The value of an edge at the left end of a row.
pub(crate) fn reach(edge: &Edge, row: u16) -> i64
    requires { IsNear edge.now }
    ensures value { result ≡ edge.now.base +ℤ edge.now.rise *ℤ pos (256 * row) }
    ensures near { unsigned_abs result < 2 ^ 62 }
{
    edge.base + product(edge.rise, 256 * row as i64)
}

/// What the value of an edge gains per row.
pub(crate) fn gained_by_row(edge: &Edge) -> i64
    requires { IsNear edge.now }
    ensures value { result ≡ pos 256 *ℤ edge.now.rise }
    ensures near { unsigned_abs result < 2 ^ 60 }
{
    256 * edge.rise
}

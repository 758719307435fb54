// Transforms, and the vertices of an instance on the target.
ghost use Rattle.std.specs.Prelude.{◌≡◌, ◌≤◌, ◌+◌, ◌/◌, ◌<◌, [], ◌∷◌, length, map, option_map, vec_len, vec_capacity};
ghost use Rattle.std.specs.Prelude.{FitsSigned};
ghost use Rattle.std.specs.Int.{w32};
ghost use Rattle.gfx_model.specs.Number.{i32_at};
ghost use Rattle.fix_math.specs.Seen.{affine_seen};
ghost use Rattle.vertex_layout.specs.Seen.{vertex_seen};
ghost use Rattle.tri_cover.specs.Seen.{screen_seen};
ghost use Rattle.gfx_query.specs.Draws.{position_layout, vertices_in, transform_at, instance_vertex};

use crate::sides::TargetSides;
use fix_math::{Affine, Rect};
use tri_cover::{ScreenVertex, place};
use vertex_layout::{Attr, AttrType, LayoutBuilder, Vertex, VertexLayout};

/// The little-endian number of four bytes from a place on.
fn i32_at(bytes: &[u8], at: usize) -> i32
    requires { at + 4 ≤ length bytes.now }
    ensures value { result ≡ i32_at bytes.now at }
    ensures fits { FitsSigned w32 result }
{
    u32::from_le_bytes([bytes[at], bytes[at + 1], bytes[at + 2], bytes[at + 3]]).cast_signed()
}

/// A transform by its numbers, row by row.
fn transform(
    a: i32,
    b: i32,
    c: i32,
    d: i32,
    e: i32,
    f: i32,
    g: i32,
    h: i32,
    i: i32,
    j: i32,
    k: i32,
    l: i32,
) -> Affine
    ensures { affine_seen result ≡ a ∷ b ∷ c ∷ d ∷ e ∷ f ∷ g ∷ h ∷ i ∷ j ∷ k ∷ l ∷ [] }
{
    Affine {
        m: [a, b, c, d, e, f, g, h, i, j, k, l],
    }
}

/// The transform of the twelve numbers that begin at a place.
pub(crate) fn transform_at(bytes: &[u8], at: usize) -> Affine
    requires { at + 48 ≤ length bytes.now }
    ensures { affine_seen result ≡ transform_at bytes.now at }
{
    transform(
        i32_at(bytes, at),
        i32_at(bytes, at + 4),
        i32_at(bytes, at + 8),
        i32_at(bytes, at + 12),
        i32_at(bytes, at + 16),
        i32_at(bytes, at + 20),
        i32_at(bytes, at + 24),
        i32_at(bytes, at + 28),
        i32_at(bytes, at + 32),
        i32_at(bytes, at + 36),
        i32_at(bytes, at + 40),
        i32_at(bytes, at + 44),
    )
}

/// The layout of vertices of a position alone, three fixed numbers.
fn position_layout() -> VertexLayout
    ensures { result ≡ position_layout }
{
    let mut builder = LayoutBuilder::new();
    builder.add(Attr::Position, AttrType::Fixed, 3);
    builder.end().unwrap()
}

/// A vertex of an instance on the whole target, if it is there and within the guard range.
fn instance_vertex(
    sides: &TargetSides,
    model: &Affine,
    vertex: Option<Vertex>,
) -> Option<ScreenVertex>
    ensures { option_map screen_seen result ≡ instance_vertex sides.now.width sides.now.height (affine_seen model.now) (option_map vertex_seen vertex) }
{
    let rect = Rect {
        x: 0,
        y: 0,
        w: sides.width,
        h: sides.height,
    };
    match vertex {
        Some(vertex) => place(&vertex, model, &Affine::identity(), rect),
        None => None,
    }
}

/// Puts the vertices of an instance on the target, one after another, in a vector that has room for them. It takes no memory.
pub(crate) fn place_vertices(
    placed: &mut Vec<Option<ScreenVertex>>,
    sides: &TargetSides,
    model: &Affine,
    bytes: &[u8],
)
    requires small { length bytes.now ≤ 16777216 }
    requires room { length bytes.now / 12 ≤ vec_capacity placed.old }
    ensures placed { map (option_map screen_seen) placed.new.items ≡ map (instance_vertex sides.now.width sides.now.height (affine_seen model.now)) (vertices_in bytes.now) }
    ensures few { length placed.new.items ≡ length bytes.now / 12 }
    ensures room { vec_capacity placed.new ≡ vec_capacity placed.old }
{
    placed.clear();
    let layout = position_layout();
    for number in 0..(bytes.len() / 12) as u32 {
        let vertex = layout.fetch(bytes, number);
        placed.push_reserved(instance_vertex(sides, model, vertex));
    }
}

// The fragments of a draw.
ghost use Rattle.std.specs.Prelude.{◌≡◌, ◌≤◌, ◌+◌, ◌*◌, ◌/◌, ◌^◌, ℕ, List, length, map, vec_capacity, IfOk, OnErr};
ghost use Rattle.fix_math.specs.Seen.{affine_seen};
ghost use Rattle.gfx_query.specs.Counting.{Counted, counted_by, counted_on, words_in, passed_in};
ghost use Rattle.gfx_query.specs.Draws.{vertices_in, instance_facings, draw_facings};
ghost use Rattle.gfx_query.specs.Standing.{Stand, facing_with, facing_seen};

use crate::fragments::Tests;
use crate::placing::{place_vertices, transform_at};
use crate::shapes::triangles_of;
use crate::sides::TargetSides;
use crate::spans::count_triangle;
use fix_math::Affine;
use gfx_words::{StateWord, StencilWord};
use std::alloc::{AllocError, Global};
use tri_cover::{ScreenVertex, Setup};

/// The words of a draw.
#[derive(Clone, Copy)]
pub struct DrawWords {
    pub state: StateWord,
    pub front: StencilWord,
    pub back: StencilWord,
}

/// Room for the vertices and triangles of one instance, used again for each.
#[derive(Drop)]
pub struct InstanceRoom {
    vertices: Vec<Option<ScreenVertex>>,
    triangles: Vec<Setup>,
}

impl InstanceRoom {
    ghost use Rattle.std.specs.Prelude.{◌<◌, ◌≤◌, vec_capacity, IfOk, OnErr};

    /// No room yet. It takes no memory.
    pub fn new(alloc: Global) -> InstanceRoom {
        InstanceRoom {
            vertices: Vec::new(alloc),
            triangles: Vec::new(alloc),
        }
    }

    /// Takes what is wanting of the room for an instance of so many vertices; for none it takes no memory.
    fn reserve(&mut self, vertices: usize) -> Result<(), AllocError>
        ensures vertices { IfOk result (λ _. vertices ≤ vec_capacity self.new.vertices) }
        ensures triangles { IfOk result (λ _. vertices ≤ vec_capacity self.new.triangles) }
        ensures needs { OnErr result (0 < vertices) }
    {
        self.vertices.clear();
        self.vertices.try_reserve(vertices)?;
        self.triangles.clear();
        self.triangles.try_reserve(vertices)
    }
}

/// The words by which a triangle's fragments are tested: the stencil word is that of the side that it shows.
fn tests_of(draw: &DrawWords, setup: &Setup) -> Tests
    ensures state { result.state ≡ draw.now.state }
    ensures stencil { facing_with result.stencil setup.now ≡ facing_seen draw.now.front draw.now.back setup.now }
{
    let stencil = if setup.front() || draw.back.word() == 0 {
        draw.front
    } else {
        draw.back
    };
    Tests {
        state: draw.state,
        stencil,
    }
}

/// Counts the fragments of triangles that pass, one triangle after the other.
fn count_triangles(
    words: &mut [u32],
    sides: &TargetSides,
    draw: &DrawWords,
    triangles: &[Setup],
) -> u64
    requires whole { length words.old ≡ sides.now.width * sides.now.height }
    requires few { length triangles.now ≤ 2097152 }
    ensures few { result ≤ length triangles.now * 4194304 }
    ensures counted { (n : ℕ) (ps : List Counted) → Stand words.old n ps →
        Stand words.new (n + result) (counted_by sides.now.width draw.now.state (map (facing_seen draw.now.front draw.now.back) triangles.now) ps) }
{
    let mut passed: u64 = 0;
    for setup in triangles {
        let tests = tests_of(draw, setup);
        passed += u64::from(count_triangle(words, sides, setup, &tests));
    }
    passed
}

/// Counts the fragments of one instance that pass.
fn count_instance(
    words: &mut [u32],
    sides: &TargetSides,
    draw: &DrawWords,
    model: &Affine,
    vertices: &[u8],
    room: &mut InstanceRoom,
) -> u64
    requires whole { length words.old ≡ sides.now.width * sides.now.height }
    requires few { length vertices.now ≤ 16777216 }
    requires vertices { length vertices.now / 12 ≤ vec_capacity room.old.vertices }
    requires triangles { length vertices.now / 12 ≤ vec_capacity room.old.triangles }
    ensures few { result ≤ 2 ^ 43 }
    ensures counted { (n : ℕ) (ps : List Counted) → Stand words.old n ps →
        Stand words.new (n + result) (counted_by sides.now.width draw.now.state (instance_facings sides.now.width sides.now.height draw.now.state draw.now.front draw.now.back (vertices_in vertices.now) (affine_seen model.now)) ps) }
    ensures vertices { vec_capacity room.new.vertices ≡ vec_capacity room.old.vertices }
    ensures triangles { vec_capacity room.new.triangles ≡ vec_capacity room.old.triangles }
{
    place_vertices(&mut room.vertices, sides, model, vertices);
    triangles_of(
        &mut room.triangles,
        &room.vertices,
        draw.state.primitive(),
        draw.state.cull(),
    );
    count_triangles(words, sides, draw, &room.triangles)
}

/// Counts the fragments of all instances that pass, one instance after the other.
fn count_instances(
    words: &mut [u32],
    sides: &TargetSides,
    draw: &DrawWords,
    vertices: &[u8],
    instances: &[u8],
    room: &mut InstanceRoom,
) -> u64
    requires whole { length words.old ≡ sides.now.width * sides.now.height }
    requires few_vertices { length vertices.now ≤ 16777216 }
    requires few_instances { length instances.now ≤ 16777216 }
    requires vertices { length vertices.now / 12 ≤ vec_capacity room.old.vertices }
    requires triangles { length vertices.now / 12 ≤ vec_capacity room.old.triangles }
    ensures few { result ≤ 2 ^ 62 }
    ensures counted { (n : ℕ) (ps : List Counted) → Stand words.old n ps →
        Stand words.new (n + result) (counted_by sides.now.width draw.now.state (draw_facings sides.now.width sides.now.height draw.now.state draw.now.front draw.now.back vertices.now instances.now) ps) }
{
    if instances.is_empty() {
        let identity = Affine::identity();
        return count_instance(words, sides, draw, &identity, vertices, room);
    }
    let mut passed = 0;
    for number in 0..instances.len() / 48 {
        let model = transform_at(instances, 48 * number);
        passed += count_instance(words, sides, draw, &model, vertices, room);
    }
    passed
}

/// Makes a draw's triangles, once for each instance, on the depth words of a target, and counts the fragments that pass both tests.
/// The vertices are whole ones of three fixed numbers, the instances whole transforms; no bytes are one identity transform.
///
/// `Err` comes for want of memory alone, before anything is counted: the words are as they were. A draw without vertices takes none.
pub fn count_draw(
    words: &mut [u32],
    sides: &TargetSides,
    draw: &DrawWords,
    vertices: &[u8],
    instances: &[u8],
    room: &mut InstanceRoom,
) -> Result<u64, AllocError>
    requires whole { length words.old ≡ sides.now.width * sides.now.height }
    requires few_vertices { length vertices.now ≤ 16777216 }
    requires few_instances { length instances.now ≤ 16777216 }
    ensures few { IfOk result (λ count. count ≤ 2 ^ 62) }
    ensures words { IfOk result (λ _. words.new ≡ words_in (counted_on sides.now.width draw.now.state (draw_facings sides.now.width sides.now.height draw.now.state draw.now.front draw.now.back vertices.now instances.now) words.old)) }
    ensures count { IfOk result (λ count. count ≡ passed_in (counted_on sides.now.width draw.now.state (draw_facings sides.now.width sides.now.height draw.now.state draw.now.front draw.now.back vertices.now instances.now) words.old)) }
    ensures stays { OnErr result (words.new ≡ words.old) }
    ensures needs { OnErr result (12 ≤ length vertices.now) }
{
    room.reserve(vertices.len() / 12)?;
    let passed = count_instances(words, sides, draw, vertices, instances, room);
    Ok(passed)
}

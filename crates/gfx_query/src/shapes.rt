// The triangles of placed vertices.
ghost use Rattle.std.specs.Prelude.{◌≡◌, ◌≤◌, ◌<◌, ◌+◌, ◌++◌, [], false, length, map, option_map, vec_len, vec_capacity};
ghost use Rattle.std.specs.List.{cons_option};
ghost use Rattle.gfx_model.specs.Vertex.{triangles_of as triangles_of_vertices, listed_triangles, strip_triangles as strip_triangles_of};
ghost use Rattle.tri_cover.specs.Seen.{screen_seen};
ghost use Rattle.tri_cover.specs.Shown.{setup_seen};
ghost use Rattle.gfx_query.specs.Standing.{shown_of_corners, shown_of, turned};

use tri_cover::{ScreenVertex, Setup};

/// A triangle, if its corners are placed and it is kept.
fn triangle(
    a: Option<ScreenVertex>,
    b: Option<ScreenVertex>,
    c: Option<ScreenVertex>,
    cull: u8,
) -> Option<Setup>
    ensures { option_map setup_seen result ≡ shown_of_corners cull (record { a = option_map screen_seen a; b = option_map screen_seen b; c = option_map screen_seen c }) }
{
    match (a, b, c) {
        (Some(a), Some(b), Some(c)) => Setup::new(a, b, c, cull),
        _ => None,
    }
}

/// One triangle more, if there is one. There is room for it.
fn push_some(triangles: &mut Vec<Setup>, triangle: Option<Setup>)
    requires { vec_len triangles.old < vec_capacity triangles.old }
    ensures few { length triangles.new.items ≤ length triangles.old.items + 1 }
    ensures len { vec_len triangles.new ≤ vec_len triangles.old + 1 }
    ensures pushed { map setup_seen triangles.new.items ≡ map setup_seen triangles.old.items ++ cons_option (option_map setup_seen triangle) [] }
    ensures room { vec_capacity triangles.new ≡ vec_capacity triangles.old }
{
    if let Some(triangle) = triangle {
        triangles.push_reserved(triangle);
    }
}

/// The triangles of a list of vertices, three at a time.
fn list_triangles(triangles: &mut Vec<Setup>, vertices: &[Option<ScreenVertex>], cull: u8)
    requires empty { triangles.old.items ≡ [] }
    requires none { vec_len triangles.old ≡ 0 }
    requires room { length vertices.now ≤ vec_capacity triangles.old }
    ensures few { length triangles.new.items ≤ length vertices.now }
    ensures shown { map setup_seen triangles.new.items ≡ shown_of cull (listed_triangles (map (option_map screen_seen) vertices.now)) }
    ensures room { vec_capacity triangles.new ≡ vec_capacity triangles.old }
{
    let mut rest = vertices;
    while let [a, b, c, after @ ..] = rest {
        push_some(triangles, triangle(*a, *b, *c, cull));
        rest = after;
    }
}

/// A triangle of a strip; in every second one the first two corners change places.
fn strip_triangle(
    odd: bool,
    a: Option<ScreenVertex>,
    b: Option<ScreenVertex>,
    c: Option<ScreenVertex>,
    cull: u8,
) -> Option<Setup>
    ensures { option_map setup_seen result ≡ shown_of_corners cull (turned odd (option_map screen_seen a) (option_map screen_seen b) (option_map screen_seen c)) }
{
    if odd {
        triangle(b, a, c, cull)
    } else {
        triangle(a, b, c, cull)
    }
}

/// The triangles of a strip of vertices: each vertex with the next two.
fn strip_triangles(triangles: &mut Vec<Setup>, vertices: &[Option<ScreenVertex>], cull: u8)
    requires empty { triangles.old.items ≡ [] }
    requires none { vec_len triangles.old ≡ 0 }
    requires room { length vertices.now ≤ vec_capacity triangles.old }
    ensures few { length triangles.new.items ≤ length vertices.now }
    ensures shown { map setup_seen triangles.new.items ≡ shown_of cull (strip_triangles_of false (map (option_map screen_seen) vertices.now)) }
    ensures room { vec_capacity triangles.new ≡ vec_capacity triangles.old }
{
    let mut odd = false;
    let mut rest = vertices;
    while let [a, b, c, ..] = rest {
        push_some(triangles, strip_triangle(odd, *a, *b, *c, cull));
        odd = !odd;
        rest = &rest[1..];
    }
}

/// The triangles of vertices by the primitive of the state word: 0 a list, 1 a strip. There is room for as many. It takes no memory.
pub(crate) fn triangles_of(
    triangles: &mut Vec<Setup>,
    vertices: &[Option<ScreenVertex>],
    primitive: u8,
    cull: u8,
)
    requires room { length vertices.now ≤ vec_capacity triangles.old }
    ensures few { length triangles.new.items ≤ length vertices.now }
    ensures shown { map setup_seen triangles.new.items ≡ shown_of cull (triangles_of_vertices primitive (map (option_map screen_seen) vertices.now)) }
    ensures room { vec_capacity triangles.new ≡ vec_capacity triangles.old }
{
    triangles.clear();
    if primitive == 0 {
        list_triangles(triangles, vertices, cull);
    } else {
        strip_triangles(triangles, vertices, cull);
    }
}

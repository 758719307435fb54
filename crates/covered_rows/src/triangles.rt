// The runs of triangles.
ghost use Rattle.std.specs.Prelude.{◌≡◌, ◌≤◌, ◌<◌, ◌+◌, ℕ, true, IfOk};
ghost use Rattle.gfx_model.specs.Raster.{covers};
ghost use Rattle.fix_math.specs.Seen.{rect_seen};
ghost use Rattle.tri_cover.specs.Seen.{triangle_seen};
ghost use Rattle.covered_rows.specs.Apart.{HasColumn};
ghost use Rattle.covered_rows.specs.Covering.{AddsOnly, HasRow, HasAll, IsOf, Keeps};
ghost use Rattle.shared_keys.specs.Members.{In};

use crate::runs::Run;
use fix_math::Rect;
use std::alloc::AllocError;
use tri_cover::Setup;

/// Who covers: the key by which the item clashes, and the encoder that recorded it.
#[derive(Clone, Copy, Drop, Debug)]
pub struct Coverer {
    pub key: u64,
    pub encoder: u8,
}

/// The greater of two numbers.
fn greater(a: u16, b: u16) -> u16
    ensures least { (n : ℕ) → a ≤ n → b ≤ n → result ≤ n }
    ensures both { (a ≤ result) × (b ≤ result) }
{
    if a < b { b } else { a }
}

/// The lesser of a number and the end of so many numbers from one on.
fn lesser_end(after: u16, start: u16, length: u16) -> u16
    ensures most { (n : ℕ) → n < after → n < start + length → n < result }
    ensures both { (result ≤ after) × (result ≤ start + length) }
{
    let end = start as u32 + length as u32;
    if end < after as u32 {
        end as u16
    } else {
        after
    }
}

/// The columns of a row of a cut that a triangle covers: from the first, before the second.
fn columns_in(setup: &Setup, cut: Rect, row: u16, width: u16) -> (u16, u16)
    ensures has { (x : ℕ) → x < width → cut.x ≤ x → x < cut.x + cut.w → covers (triangle_seen setup.now.a setup.now.b setup.now.c) x row ≡ true → (result.0 ≤ x) × (x < result.1) }
    ensures only { (x : ℕ) → result.0 ≤ x → x < result.1 → (x < width) × (cut.x ≤ x) × (x < cut.x + cut.w) × (covers (triangle_seen setup.now.a setup.now.b setup.now.c) x row ≡ true) }
{
    let (first, after) = setup.span(row, width);
    let left = greater(first, cut.x);
    let right = lesser_end(after, cut.x, cut.w);
    (left, right)
}

/// Puts a run behind others, where it has a column.
fn push_run(runs: &mut Vec<Run>, run: Run) -> Result<(), AllocError>
    ensures keeps { IfOk result (λ _. Keeps runs.old.items runs.new.items) }
    ensures has { IfOk result (λ _. (x : ℕ) → HasColumn run x → In run runs.new.items) }
    ensures adds { IfOk result (λ _. AddsOnly (λ r. (r ≡ run) × (run.first < run.after)) runs.old.items runs.new.items) }
{
    if run.first < run.after {
        runs.push(run)?;
    }
    Ok(())
}

/// Puts the run of a triangle in a row of a cut behind others.
fn push_row(
    runs: &mut Vec<Run>,
    setup: &Setup,
    cut: Rect,
    coverer: Coverer,
    row: u16,
    width: u16,
) -> Result<(), AllocError>
    ensures keeps { IfOk result (λ _. Keeps runs.old.items runs.new.items) }
    ensures has { IfOk result (λ _. HasRow runs.new.items coverer.key coverer.encoder (triangle_seen setup.now.a setup.now.b setup.now.c) (rect_seen cut) width row) }
    ensures adds { IfOk result (λ _. (height : ℕ) → row < height → cut.y ≤ row → row < cut.y + cut.h
        → AddsOnly (IsOf coverer.key coverer.encoder (triangle_seen setup.now.a setup.now.b setup.now.c) (rect_seen cut) width height) runs.old.items runs.new.items) }
{
    let (first, after) = columns_in(setup, cut, row, width);
    let run = Run {
        key: coverer.key,
        encoder: coverer.encoder,
        row,
        first,
        after,
    };
    push_run(runs, run)?;
    Ok(())
}

/// Puts the runs of a triangle within a cut of a surface with these sides behind others, one for each row that it covers, so that each covered pixel is
/// in a run, and no other. The time grows with the rows.
///
/// # Errors
///
/// For want of memory alone.
pub fn push_triangle(
    runs: &mut Vec<Run>,
    setup: &Setup,
    cut: Rect,
    coverer: Coverer,
    width: u16,
    height: u16,
) -> Result<(), AllocError>
    ensures keeps { IfOk result (λ _. Keeps runs.old.items runs.new.items) }
    ensures has { IfOk result (λ _. HasAll runs.new.items coverer.key coverer.encoder (triangle_seen setup.now.a setup.now.b setup.now.c) (rect_seen cut) width height) }
    ensures adds { IfOk result (λ _. AddsOnly (IsOf coverer.key coverer.encoder (triangle_seen setup.now.a setup.now.b setup.now.c) (rect_seen cut) width height) runs.old.items runs.new.items) }
{
    let (first, after) = setup.rows(height);
    let mut row = greater(first, cut.y);
    let end = lesser_end(after, cut.y, cut.h);
    while row < end {
        push_row(runs, setup, cut, coverer, row, width)?;
        row += 1;
    }
    Ok(())
}

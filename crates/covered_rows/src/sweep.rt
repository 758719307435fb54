// Runs of one key that meet.
ghost use Rattle.std.specs.Prelude.{◌≡◌, false, true, IfOk, OnOk};
ghost use Rattle.std.specs.List.Sorted.{IsPermutation};
ghost use Rattle.covered_rows.specs.Apart.{AreApart, HaveColumns, SomeMeet};
ghost use Rattle.covered_rows.specs.Sweep.{AreInOrder, is_beside, is_clear, joined_after, joined, sweep_of};

use crate::runs::Run;
use std::alloc::AllocError;

/// Sorts runs by key, row and first column.
fn sort(runs: &mut Vec<Run>) -> Result<(), AllocError>
    ensures same { OnOk result (IsPermutation runs.old.items runs.new.items) }
    ensures order { OnOk result (AreInOrder runs.new.items) }
{
    runs.sort_by_key(|r| (r.key, r.row, r.first))
}

/// Whether two runs are of one key and of one row.
fn is_beside(left: &Run, right: &Run) -> bool
    ensures { result ≡ is_beside left.now right.now }
{
    left.key == right.key && left.row == right.row
}

/// Whether the right one of two runs, where they are beside each other and of two encoders, begins behind the left one.
fn is_clear(left: &Run, right: &Run) -> bool
    ensures { result ≡ is_clear left.now right.now }
{
    if !is_beside(left, right) {
        return true;
    }
    if left.encoder == right.encoder {
        return true;
    }
    left.after <= right.first
}

/// The end of the right run, or of the left one where that is of the same encoder beside it and ends later.
fn joined_after(left: &Run, right: &Run) -> u16
    ensures { result ≡ joined_after left.now right.now }
{
    if !is_beside(left, right) {
        return right.after;
    }
    if left.encoder != right.encoder {
        return right.after;
    }
    if right.after < left.after {
        return left.after;
    }
    right.after
}

/// The right run, up to where both end, where they are of one encoder beside each other.
fn joined(left: &Run, right: &Run) -> Run
    ensures { result ≡ joined left.now right.now }
{
    Run {
        key: right.key,
        encoder: right.encoder,
        row: right.row,
        first: right.first,
        after: joined_after(left, right),
    }
}

/// Whether each of runs in order is clear of those before.
fn sweep(runs: &[Run]) -> bool
    ensures { result ≡ sweep_of runs.now }
{
    let Some((first, rest)) = runs.split_first() else {
        return true;
    };
    let mut left = *first;
    for right in rest {
        if !is_clear(&left, right) {
            return false;
        }
        left = joined(&left, right);
    }
    true
}

/// Whether no column of a row is in two runs of one key and of two encoders, where each run has a column.
///
/// The runs are sorted once, so that the time grows as n log n.
///
/// # Errors
///
/// For want of memory alone.
pub fn are_apart(runs: Vec<Run>) -> Result<bool, AllocError>
    ensures apart { IfOk result (λ apart. apart ≡ true → AreApart runs.items) }
    ensures meet { IfOk result (λ apart. apart ≡ false → HaveColumns runs.items → SomeMeet runs.items) }
{
    let mut runs = runs;
    sort(&mut runs)?;
    let apart = sweep(&runs);
    Ok(apart)
}

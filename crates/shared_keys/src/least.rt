// The least pairs of encoders that share a key.
ghost use Rattle.std.specs.Prelude.{◌≡◌, ℕ, ◌++◌, map, IfOk, OnOk};
ghost use Rattle.std.specs.List.{AllByRecursion};
ghost use Rattle.std.specs.List.Sorted.{IsPermutation};
ghost use Rattle.shared_keys.specs.Pairs.{sharing_views};
ghost use Rattle.shared_keys.specs.Marks.{marks_share, shared_seen, IsMarkOf};
ghost use Rattle.shared_keys.specs.Steps.{AreInOrder, is_less, step_of, steps_of, with_step, leasts_of};

use crate::marks::{Mark, SharedView};
use std::alloc::{AllocError, Global};

/// Sorts marks by view, key and encoder.
fn sort(marks: &mut Vec<Mark>) -> Result<(), AllocError>
    ensures same { OnOk result (IsPermutation marks.old.items marks.new.items) }
    ensures order { OnOk result (AreInOrder marks.new.items) }
{
    marks.sort_by_key(|m| (m.view, m.is_blit, m.key, m.encoder))
}

/// Puts the encoders of two neighbours behind the others, where the neighbours clash and are of two encoders.
fn put_step(steps: &mut Vec<SharedView>, left: &Mark, right: &Mark) -> Result<(), AllocError>
    ensures { IfOk result (λ _. map shared_seen steps.new.items ≡ map shared_seen steps.old.items ++ step_of left.now right.now) }
{
    if left.view == right.view
        && left.is_blit == right.is_blit
        && left.key == right.key
        && left.encoder < right.encoder
    {
        steps.push(SharedView {
            view: left.view,
            first: left.encoder,
            second: right.encoder,
        })?;
    }
    Ok(())
}

/// The encoders of neighbours that clash, in order.
fn steps(alloc: Global, marks: &[Mark]) -> Result<Vec<SharedView>, AllocError>
    ensures { IfOk result (λ steps. map shared_seen steps.items ≡ steps_of marks.now) }
{
    let mut steps = Vec::new(alloc);
    let Some((first, rest)) = marks.split_first() else {
        return Ok(steps);
    };
    let mut left = first;
    for right in rest {
        put_step(&mut steps, left, right)?;
        left = right;
    }
    Ok(steps)
}

/// Whether a pair comes before another.
fn is_less(one: &SharedView, other: &SharedView) -> bool
    ensures { result ≡ is_less (one.now.first, one.now.second) (other.now.first, other.now.second) }
{
    if one.first == other.first {
        return one.second < other.second;
    }
    one.first < other.first
}

/// Keeps the lesser of two pairs of one view; a pair of a further view comes behind the others.
fn add(kept: &mut Vec<SharedView>, step: SharedView) -> Result<(), AllocError>
    ensures { IfOk result (λ _. map shared_seen kept.new.items ≡ with_step (map shared_seen kept.old.items) (shared_seen step)) }
{
    let Some(last) = kept.last() else {
        kept.push(step)?;
        return Ok(());
    };
    let last = *last;
    if last.view != step.view {
        kept.push(step)?;
        return Ok(());
    }
    if is_less(&step, &last) {
        let at = kept.len() - 1;
        kept[at] = step;
    }
    Ok(())
}

/// The least pair of each view.
fn leasts(alloc: Global, steps: &[SharedView]) -> Result<Vec<SharedView>, AllocError>
    ensures { IfOk result (λ kept. map shared_seen kept.items ≡ leasts_of (map shared_seen steps.now)) }
{
    let mut kept = Vec::new(alloc);
    for step in steps {
        add(&mut kept, *step)?;
    }
    Ok(kept)
}

/// The views in which two encoders share a key, ascending, each with the least pair of such encoders: by the lesser of the two, then
/// by the other. Marks of one view share where both are of blits or neither is, and their keys are equal.
///
/// The marks are sorted once, so that the time grows as n log n. `Err` only for want of memory.
pub fn shared_views(alloc: Global, marks: Vec<Mark>) -> Result<Vec<SharedView>, AllocError>
    ensures { IfOk result (λ found. (views encoders : ℕ) → AllByRecursion (IsMarkOf views encoders) marks.items
        → map shared_seen found.items ≡ sharing_views (marks_share marks.items) encoders views) }
{
    let mut marks = marks;
    sort(&mut marks)?;
    let steps = steps(alloc, &marks)?;
    let kept = leasts(alloc, &steps)?;
    Ok(kept)
}

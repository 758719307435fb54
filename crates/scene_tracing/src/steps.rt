// The lines of a frame's steps.
ghost use Rattle.std.specs.Prelude.{◌≡◌, map, IfOk};
ghost use Rattle.trace_lines.specs.Seen.{doer_seen};
ghost use Rattle.trace_lines.specs.Steps.{step_lines};
ghost use Rattle.scene_tracing.specs.Asked.{numbers_told};

use crate::lines::number_of;
use std::alloc::{AllocError, Global};
use trace_lines::{Doer, put_step};

/// The lines of a frame's steps, one for each of its deeds, whose doers these are; they are numbered from 1. `numbers` are those of the lines
/// of the scene's text that record the frame's items, of each encoder in the order of its items; an item without a number is told without one.
///
/// # Errors
///
/// For want of memory, or where there are 4,294,967,295 deeds.
pub fn step_lines(
    alloc: Global,
    doers: &[Doer],
    numbers: &[Vec<u32>],
) -> Result<Vec<u8>, AllocError>
    ensures { IfOk result (λ text. text.items ≡ step_lines (numbers_told numbers.now) 1 (map doer_seen doers.now)) }
{
    if doers.len() >= 4_294_967_295 {
        return Err(AllocError);
    }
    let mut text = Vec::new(alloc);
    for place in 0..doers.len() {
        let doer = doers[place];
        let line = number_of(numbers, Some(doer));
        put_step(&mut text, place as u32 + 1, doer, line)?;
    }
    Ok(text)
}

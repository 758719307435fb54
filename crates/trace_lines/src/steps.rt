// The line of a step.
ghost use Rattle.std.specs.Prelude.{◌≡◌, ◌++◌, IfOk};
ghost use Rattle.trace_lines.specs.Seen.{doer_seen};
ghost use Rattle.trace_lines.specs.Steps.{step_line};

use crate::doers::Doer;
use crate::text::{put_doer, put_line_number, put_number};
use std::alloc::AllocError;

/// Puts the line of a step behind others: `step N`, whose the deed before it is (` view V`, and of an item ` encoder E item I`), and the
/// number of the line of the scene's text that records it where that is known (` line L`). `Err` only for want of memory.
pub fn put_step(
    text: &mut Vec<u8>,
    number: u32,
    doer: Doer,
    line: Option<u32>,
) -> Result<(), AllocError>
    ensures { IfOk result (λ _. text.new.items ≡ text.old.items ++ step_line number (doer_seen doer) line) }
{
    text.extend_from_slice(b"step ")?;
    put_number(text, number as u64)?;
    put_doer(text, Some(doer))?;
    put_line_number(text, line)?;
    text.extend_from_slice(b"\n")?;
    Ok(())
}

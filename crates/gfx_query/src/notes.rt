// What is noted of frames.
ghost use Rattle.std.specs.Prelude.{◌≡◌, ◌++◌, ◌*◌, length, map, IfOk, OnOk};
ghost use Rattle.gfx_model.specs.World.{later_of};
ghost use Rattle.gfx_query.specs.Queries as model;
ghost use Rattle.gfx_query.specs.Seen.{frame_seen, script_seen};
ghost use Rattle.gfx_query.specs.SeenFrames.{target_seen};

use crate::counting::InstanceRoom;
use crate::frames::{Target, run_frame};
use crate::script::Script;
use std::alloc::{AllocError, Global};

/// The result of a query in a frame, behind others.
fn push_result(
    alloc: Global,
    text: &mut Vec<u8>,
    query: usize,
    sum: Option<u128>,
) -> Result<(), AllocError>
    ensures { IfOk result (λ _. text.new.items ≡ text.old.items ++ model.query_note query sum) }
{
    match sum {
        Some(sum) => {
            let piece = format!(in alloc; " {query}:{sum}")?;
            text.extend_from_slice(piece.as_bytes())?;
            Ok(())
        }
        None => Ok(()),
    }
}

/// The results of the queries in a frame, ascending.
fn push_results(alloc: Global, text: &mut Vec<u8>, sums: &[Option<u128>]) -> Result<(), AllocError>
    ensures { IfOk result (λ _. text.new.items ≡ text.old.items ++ model.query_notes 0 sums.now) }
{
    for query in 0..sums.len() {
        push_result(alloc, text, query, sums[query])?;
    }
    Ok(())
}

/// The line of a frame.
fn push_frame(
    alloc: Global,
    text: &mut Vec<u8>,
    frame: usize,
    sums: &[Option<u128>],
) -> Result<(), AllocError>
    ensures { IfOk result (λ _. text.new.items ≡ text.old.items ++ model.frame_note frame sums.now) }
{
    let head = format!(in alloc; "frame {frame}")?;
    text.extend_from_slice(head.as_bytes())?;
    push_results(alloc, text, sums)?;
    text.push(b'\n')?;
    Ok(())
}

/// The first, where there is one, and else the second.
fn later_of(sum: Option<u128>, last: Option<u128>) -> Option<u128>
    ensures { result ≡ later_of sum last }
{
    match sum {
        Some(sum) => Some(sum),
        None => last,
    }
}

/// The results after a frame: its sums, and the last results of the queries without one.
fn take_over(results: &mut [Option<u128>], sums: &[Option<u128>])
    requires { length results.old ≡ length sums.now }
    ensures { results.new ≡ model.results_after sums.now results.old }
{
    for query in 0..results.len() {
        results[query] = later_of(sums[query], results[query]);
    }
}

/// The notes of all frames of a script.
pub(crate) fn notes_of(alloc: Global, script: &Script) -> Result<Vec<u8>, AllocError>
    ensures { IfOk result (λ text. text.items ≡ model.notes_of (script_seen script.now)) }
{
    let mut text = Vec::new(alloc);
    let mut target = Target::new(alloc, &script.sides)?;
    let mut results = [None; 64];
    let mut room = InstanceRoom::new(alloc);
    for frame in 0..script.frames.len() {
        let mut sums = [None; 64];
        run_frame(
            &script.sides,
            &mut target,
            &results,
            &mut sums,
            &script.frames[frame],
            &mut room,
        )?;
        push_frame(alloc, &mut text, frame, &sums)?;
        take_over(&mut results, &sums);
    }
    Ok(text)
}

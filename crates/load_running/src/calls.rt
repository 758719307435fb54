// The calls of lines.
ghost use Rattle.std.specs.Prelude.{◌≡◌, ◌≤◌, ◌<◌, ◌++◌, ◌∷◌, [], IfOk, OnOk};
ghost use Rattle.gfx_words.specs.Kinds.{program_seen, uniform_seen};
ghost use Rattle.load_text.specs.Loads.{program_line, uniform_line, destroy_line, frame_line};
ghost use Rattle.load_text.specs.Seen.{line_seen};
ghost use Rattle.res_lock.specs.Called.{IsSamePass};
ghost use Rattle.res_lock.specs.Seats.{pass_table, pass_view, made_by};
ghost use Rattle.load_running.specs.BlockCalls.{thing_in, thing_of};
ghost use Rattle.load_running.specs.Lines.{IsEntered, IsAnswered, create_reply, RunsLine, IsSameBut};

use draw_encoder::Naming;
use frame_record::FrameLink;
use gfx_context::FrameReport;
use gfx_words::{Handle, ProgramKind, Refusal, UniformKind};
use load_text::BlockLine;
use res_lock::{HistoryNaming, LockRefusal, ResLock, ResPass};
use std::alloc::AllocError;
use std::sync::Wait;
use std::thread::Threads;

/// Goes on after a refusal that stands in the history; `Err` where there was no memory.
fn entered(refusal: LockRefusal) -> Result<(), AllocError>
    ensures { OnOk result (IsEntered refusal) }
{
    match refusal {
        LockRefusal::Refused(refusal) => match refusal {
            Refusal::OutOfMemory => Err(AllocError),
            _ => Ok(()),
        },
        LockRefusal::Ended { .. } => Ok(()),
    }
}

/// Goes on after the end of a frame that stands in the history.
fn entered_frame(answer: Result<FrameReport, LockRefusal>) -> Result<(), AllocError>
    ensures { OnOk result (IsAnswered answer) }
{
    match answer {
        Ok(report) => {
            drop(report);
            Ok(())
        }
        Err(refusal) => {
            entered(refusal)?;
            Ok(())
        }
    }
}

/// What a create line made, behind what those before it made.
fn add_thing(
    things: &mut Vec<Option<Handle>>,
    answer: Result<Handle, LockRefusal>,
) -> Result<(), AllocError>
    ensures things { OnOk result (things.new.items ≡ things.old.items ++ thing_in (create_reply answer) ∷ []) }
    ensures entered { OnOk result (IsAnswered answer) }
{
    match answer {
        Ok(handle) => {
            things.push(Some(handle))?;
            Ok(())
        }
        Err(refusal) => {
            entered(refusal)?;
            things.push(None)?;
            Ok(())
        }
    }
}

/// What a create line made, if it made something.
fn thing_of(things: &[Option<Handle>], create_line: usize) -> Option<Handle>
    ensures { result ≡ thing_of things.now create_line }
{
    match things.get(create_line) {
        Some(thing) => *thing,
        None => None,
    }
}

/// `program NAME KIND`.
fn run_program<C: Naming, L: FrameLink + Drop, H: HistoryNaming, R: Wait>(
    rt: &R,
    lock: &ResLock<'_, C, L, H>,
    pass: &mut ResPass,
    things: &mut Vec<Option<Handle>>,
    kind: ProgramKind,
) -> Result<(), AllocError>
    requires table { pass_table pass.old ≡ H.table }
    requires few { made_by pass.old < 4294967295 }
    ensures pass { IsSamePass pass.old pass.new }
    ensures view { IsSameBut (pass_view pass.old) (pass_view pass.new) }
    ensures runs { OnOk result (RunsLine H.start (program_line (program_seen kind)) things.old.items things.new.items pass.old pass.new) }
{
    let answer = lock.create_program(rt, pass, kind);
    add_thing(things, answer)?;
    Ok(())
}

/// `uniform NAME KIND`.
fn run_uniform<C: Naming, L: FrameLink + Drop, H: HistoryNaming, R: Wait>(
    rt: &R,
    lock: &ResLock<'_, C, L, H>,
    pass: &mut ResPass,
    things: &mut Vec<Option<Handle>>,
    name: &[u8],
    kind: UniformKind,
) -> Result<(), AllocError>
    requires table { pass_table pass.old ≡ H.table }
    requires few { made_by pass.old < 4294967295 }
    ensures pass { IsSamePass pass.old pass.new }
    ensures view { IsSameBut (pass_view pass.old) (pass_view pass.new) }
    ensures runs { OnOk result (RunsLine H.start (uniform_line name.now (uniform_seen kind)) things.old.items things.new.items pass.old pass.new) }
{
    let answer = lock.create_uniform(rt, pass, name, kind);
    add_thing(things, answer)?;
    Ok(())
}

/// `destroy NAME`, which is no call where nothing was made.
fn run_destroy<C: Naming, L: FrameLink + Drop, H: HistoryNaming, R: Wait>(
    rt: &R,
    lock: &ResLock<'_, C, L, H>,
    pass: &mut ResPass,
    things: &[Option<Handle>],
    create_line: usize,
) -> Result<(), AllocError>
    requires table { pass_table pass.old ≡ H.table }
    requires few { made_by pass.old < 4294967295 }
    ensures pass { IsSamePass pass.old pass.new }
    ensures view { IsSameBut (pass_view pass.old) (pass_view pass.new) }
    ensures runs { OnOk result (RunsLine H.start (destroy_line create_line) things.now things.now pass.old pass.new) }
{
    match thing_of(things, create_line) {
        Some(thing) => match lock.destroy(rt, pass, thing) {
            Ok(()) => Ok(()),
            Err(refusal) => {
                entered(refusal)?;
                Ok(())
            }
        },
        None => Ok(()),
    }
}

/// `frame`.
fn run_frame<C: Naming, L: FrameLink + Drop, H: HistoryNaming, R: Threads + Wait + Sync>(
    rt: &R,
    lock: &ResLock<'_, C, L, H>,
    pass: &mut ResPass,
    things: &[Option<Handle>],
) -> Result<(), AllocError>
    requires table { pass_table pass.old ≡ H.table }
    requires few { made_by pass.old < 4294967295 }
    ensures pass { IsSamePass pass.old pass.new }
    ensures view { IsSameBut (pass_view pass.old) (pass_view pass.new) }
    ensures runs { OnOk result (RunsLine H.start frame_line things.now things.now pass.old pass.new) }
{
    let _ = things.len();
    let answer = lock.frame(rt, pass);
    entered_frame(answer)?;
    Ok(())
}

/// Runs a line: makes its call, if it is one. `Err` for want of memory alone.
pub(crate) fn run_line<C: Naming, L: FrameLink + Drop, H: HistoryNaming, R: Threads + Wait + Sync>(
    rt: &R,
    lock: &ResLock<'_, C, L, H>,
    pass: &mut ResPass,
    things: &mut Vec<Option<Handle>>,
    line: &BlockLine,
) -> Result<(), AllocError>
    requires table { pass_table pass.old ≡ H.table }
    requires few { made_by pass.old < 4294967295 }
    ensures pass { IsSamePass pass.old pass.new }
    ensures view { IsSameBut (pass_view pass.old) (pass_view pass.new) }
    ensures runs { OnOk result (RunsLine H.start (line_seen line.now) things.old.items things.new.items pass.old pass.new) }
{
    match line {
        BlockLine::Program { kind } => {
            run_program(rt, lock, pass, things, *kind)?;
            Ok(())
        }
        BlockLine::Uniform { name, kind } => {
            run_uniform(rt, lock, pass, things, name.as_slice(), *kind)?;
            Ok(())
        }
        BlockLine::Destroy { create_line } => {
            run_destroy(rt, lock, pass, things.as_slice(), *create_line)?;
            Ok(())
        }
        BlockLine::Frame => {
            run_frame(rt, lock, pass, things.as_slice())?;
            Ok(())
        }
    }
}

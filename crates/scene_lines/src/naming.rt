// What names stand for, and what an answer does to them.
ghost use Rattle.std.specs.Prelude.{◌≡◌, ◌<◌, length};
ghost use Rattle.scene_model.specs.Fold.{Bindings, option_named};
ghost use Rattle.scene_lines.specs.Names.{handle_of, AreNamed};
ghost use Rattle.scene_lines.specs.Played.{IsDropping, IsBound, IsDone};

use crate::reasons::Reason;
use gfx_words::{Handle, Refusal};
use std::alloc::AllocError;

/// What a name stands for.
pub(crate) fn named(handles: &[Option<Handle>], name: u32) -> Option<Handle>
    ensures { result ≡ handle_of handles.now name }
{
    match handles.get(name as usize) {
        Some(handle) => *handle,
        None => None,
    }
}

/// What an optional name stands for: none where it is given and stands for nothing.
pub(crate) fn option_named(handles: &[Option<Handle>], name: Option<u32>) -> Option<Option<Handle>>
    ensures { (bs : Bindings) → AreNamed handles.now bs → result ≡ option_named bs name }
{
    match name {
        None => Some(None),
        Some(name) => match named(handles, name) {
            Some(handle) => Some(Some(handle)),
            None => None,
        },
    }
}

/// A refused line is dropped; want of memory is handed on.
fn dropped(refusal: Refusal) -> Result<Option<Reason>, AllocError>
    ensures { IsDropping result refusal }
{
    let reason = Reason::of(refusal)?;
    Ok(Some(reason))
}

/// Binds a name to what was made; answers why the line is dropped.
pub(crate) fn bind(
    handles: &mut [Option<Handle>],
    name: u32,
    answer: Result<Handle, Refusal>,
) -> Result<Option<Reason>, AllocError>
    requires { name < length handles.old }
    ensures { IsBound name answer result handles.old handles.new }
{
    match answer {
        Ok(handle) => {
            handles[name as usize] = Some(handle);
            Ok(None)
        }
        Err(refusal) => dropped(refusal),
    }
}

/// Why the line of a call is dropped.
pub(crate) fn done(answer: Result<(), Refusal>) -> Result<Option<Reason>, AllocError>
    ensures { IsDone answer result }
{
    match answer {
        Ok(()) => Ok(None),
        Err(refusal) => dropped(refusal),
    }
}

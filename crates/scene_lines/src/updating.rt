// The lines that change and destroy things.
ghost use Rattle.std.specs.Prelude.{◌≡◌, List, ℕ};
ghost use Rattle.fix_math.specs.Seen.{rect_seen};
ghost use Rattle.scene_model.specs.Scene as model;
ghost use Rattle.scene_lines.specs.Played.{LineAnswered};

use crate::naming::{done, named};
use crate::reasons::Reason;
use fix_math::Rect;
use gfx_words::Handle;
use resource_book::ResourceCalls;
use std::alloc::AllocError;

pub(crate) fn update<B: ResourceCalls>(
    calls: &mut B,
    handles: &[Option<Handle>],
    name: u32,
    offset: u32,
    bytes: &[u8],
) -> Result<Option<Reason>, AllocError>
    ensures answer { (names : List (List ℕ)) → LineAnswered result names (model.update_line name offset bytes.now) (B.book calls.old) (B.book calls.new) handles.now handles.now }
    ensures rest { B.rest calls.new ≡ B.rest calls.old }
{
    match named(handles, name) {
        Some(buffer) => done(calls.update_buffer(buffer, offset, bytes)),
        None => Ok(Some(Reason::Unnamed)),
    }
}

pub(crate) fn texel_update<B: ResourceCalls>(
    calls: &mut B,
    handles: &[Option<Handle>],
    name: u32,
    rect: Rect,
    bytes: &[u8],
) -> Result<Option<Reason>, AllocError>
    ensures answer { (names : List (List ℕ)) → LineAnswered result names (model.texel_update_line name (rect_seen rect) bytes.now) (B.book calls.old) (B.book calls.new) handles.now handles.now }
    ensures rest { B.rest calls.new ≡ B.rest calls.old }
{
    match named(handles, name) {
        Some(texture) => done(calls.update_texture(texture, rect, bytes)),
        None => Ok(Some(Reason::Unnamed)),
    }
}

pub(crate) fn destroy<B: ResourceCalls>(
    calls: &mut B,
    handles: &[Option<Handle>],
    name: u32,
) -> Result<Option<Reason>, AllocError>
    ensures answer { (names : List (List ℕ)) → LineAnswered result names (model.destroy_line name) (B.book calls.old) (B.book calls.new) handles.now handles.now }
    ensures rest { B.rest calls.new ≡ B.rest calls.old }
{
    match named(handles, name) {
        Some(thing) => done(calls.destroy(thing)),
        None => Ok(Some(Reason::Unnamed)),
    }
}

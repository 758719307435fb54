// The lines that set views.
ghost use Rattle.std.specs.Prelude.{◌≡◌, List, ℕ};
ghost use Rattle.fix_math.specs.Seen.{rect_seen, affine_seen};
ghost use Rattle.gfx_words.specs.Seen.{mode_seen};
ghost use Rattle.view_table.specs.Seen.{clear_seen};
ghost use Rattle.scene_model.specs.Scene as model;
ghost use Rattle.scene_lines.specs.Played.{LineAnswered};

use crate::naming::{done, option_named};
use crate::reasons::Reason;
use fix_math::{Affine, Rect};
use gfx_words::{Handle, ViewMode};
use resource_book::ResourceCalls;
use std::alloc::AllocError;
use view_table::Clear;

pub(crate) fn view_rect<B: ResourceCalls>(
    calls: &mut B,
    handles: &[Option<Handle>],
    view: u16,
    rect: Rect,
) -> Result<Option<Reason>, AllocError>
    ensures answer { (names : List (List ℕ)) → LineAnswered result names (model.rect_line view (rect_seen rect)) (B.book calls.old) (B.book calls.new) handles.now handles.now }
    ensures rest { B.rest calls.new ≡ B.rest calls.old }
{
    let _ = handles;
    done(calls.set_view_rect(view, rect))
}

pub(crate) fn view_scissor<B: ResourceCalls>(
    calls: &mut B,
    handles: &[Option<Handle>],
    view: u16,
    rect: Rect,
) -> Result<Option<Reason>, AllocError>
    ensures answer { (names : List (List ℕ)) → LineAnswered result names (model.view_scissor_line view (rect_seen rect)) (B.book calls.old) (B.book calls.new) handles.now handles.now }
    ensures rest { B.rest calls.new ≡ B.rest calls.old }
{
    let _ = handles;
    done(calls.set_view_scissor(view, rect))
}

pub(crate) fn view_clear<B: ResourceCalls>(
    calls: &mut B,
    handles: &[Option<Handle>],
    view: u16,
    clear: Clear,
) -> Result<Option<Reason>, AllocError>
    ensures answer { (names : List (List ℕ)) → LineAnswered result names (model.clear_line view (clear_seen clear)) (B.book calls.old) (B.book calls.new) handles.now handles.now }
    ensures rest { B.rest calls.new ≡ B.rest calls.old }
{
    let _ = handles;
    done(calls.set_view_clear(view, clear.flags, clear.color, clear.depth, clear.stencil))
}

pub(crate) fn view_mode<B: ResourceCalls>(
    calls: &mut B,
    handles: &[Option<Handle>],
    view: u16,
    mode: ViewMode,
) -> Result<Option<Reason>, AllocError>
    ensures answer { (names : List (List ℕ)) → LineAnswered result names (model.mode_line view (mode_seen mode)) (B.book calls.old) (B.book calls.new) handles.now handles.now }
    ensures rest { B.rest calls.new ≡ B.rest calls.old }
{
    let _ = handles;
    done(calls.set_view_mode(view, mode))
}

pub(crate) fn view_target<B: ResourceCalls>(
    calls: &mut B,
    handles: &[Option<Handle>],
    view: u16,
    target: Option<u32>,
) -> Result<Option<Reason>, AllocError>
    ensures answer { (names : List (List ℕ)) → LineAnswered result names (model.target_line view target) (B.book calls.old) (B.book calls.new) handles.now handles.now }
    ensures rest { B.rest calls.new ≡ B.rest calls.old }
{
    match option_named(handles, target) {
        Some(target) => done(calls.set_view_target(view, target)),
        None => Ok(Some(Reason::Unnamed)),
    }
}

pub(crate) fn view_transform<B: ResourceCalls>(
    calls: &mut B,
    handles: &[Option<Handle>],
    view: u16,
    transform: Affine,
) -> Result<Option<Reason>, AllocError>
    ensures answer { (names : List (List ℕ)) → LineAnswered result names (model.view_transform_line view (affine_seen transform)) (B.book calls.old) (B.book calls.new) handles.now handles.now }
    ensures rest { B.rest calls.new ≡ B.rest calls.old }
{
    let _ = handles;
    done(calls.set_view_transform(view, transform))
}

pub(crate) fn view_reset<B: ResourceCalls>(
    calls: &mut B,
    handles: &[Option<Handle>],
    view: u16,
) -> Result<Option<Reason>, AllocError>
    ensures answer { (names : List (List ℕ)) → LineAnswered result names (model.reset_line view) (B.book calls.old) (B.book calls.new) handles.now handles.now }
    ensures rest { B.rest calls.new ≡ B.rest calls.old }
{
    let _ = handles;
    done(calls.reset_view(view))
}

pub(crate) fn order<B: ResourceCalls>(
    calls: &mut B,
    handles: &[Option<Handle>],
    views: &[u16],
) -> Result<Option<Reason>, AllocError>
    ensures answer { (names : List (List ℕ)) → LineAnswered result names (model.order_line views.now) (B.book calls.old) (B.book calls.new) handles.now handles.now }
    ensures rest { B.rest calls.new ≡ B.rest calls.old }
{
    let _ = handles;
    done(calls.set_view_order(views))
}

// Names, and the views that draw on what they stand for.
ghost use Rattle.std.specs.Prelude.{◌≡◌, ◌<◌, bytes_eq, length, map, option_and_then};
ghost use Rattle.gfx_model.specs.Views.{view_at, view_count};
ghost use Rattle.scene_lines.specs.Names.{handle_of};
ghost use Rattle.scene_text.specs.Seen.{name_seen};
ghost use Rattle.target_laws.specs.Names as model;
ghost use Rattle.target_laws.specs.Targets as targets;

use gfx_words::Handle;
use scene_text::SceneName;
use view_table::ViewTable;

/// Whether a name is spelled so.
fn is_spelled(name: &SceneName, text: &[u8]) -> bool
    ensures { result ≡ bytes_eq (name_seen name.now) text.now }
{
    name.text.as_slice() == text
}

/// The place of a text among names.
fn place_of(names: &[SceneName], text: &[u8]) -> Option<usize>
    ensures { result ≡ model.name_from 0 (map name_seen names.now) text.now }
{
    for place in 0..names.len() {
        if is_spelled(&names[place], text) {
            return Some(place);
        }
    }
    None
}

/// The thing that the name at a place stands for.
fn named(handles: &[Option<Handle>], place: usize) -> Option<Handle>
    ensures { result ≡ handle_of handles.now place }
{
    match handles.get(place) {
        Some(handle) => *handle,
        None => None,
    }
}

/// The thing that a text stands for as a name.
pub(crate) fn thing_named(
    names: &[SceneName],
    handles: &[Option<Handle>],
    text: &[u8],
) -> Option<Handle>
    ensures { result ≡ option_and_then (handle_of handles.now) (model.name_from 0 (map name_seen names.now) text.now) }
{
    match place_of(names, text) {
        Some(place) => named(handles, place),
        None => None,
    }
}

/// Whether a view's target is this frame buffer.
fn is_target(target: Handle, of: Option<Handle>) -> bool
    ensures { result ≡ targets.is_target target of }
{
    match of {
        None => false,
        Some(handle) => handle.index() == target.index() && handle.serial() == target.serial(),
    }
}

/// Whether a view draws on a frame buffer.
fn is_on(views: &ViewTable, view: u16, target: Handle) -> bool
    requires { view < view_count views.now }
    ensures { result ≡ targets.is_target target (view_at views.now view).target }
{
    match views.get(view) {
        Some(settings) => is_target(target, settings.target),
        None => false,
    }
}

/// Whether one of the views draws on a frame buffer.
pub(crate) fn is_drawn_on(views: &ViewTable, target: Handle) -> bool
    ensures { result ≡ model.is_drawn_on views.now target }
{
    for view in 0..views.count() {
        if is_on(views, view, target) {
            return true;
        }
    }
    false
}

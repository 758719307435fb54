// What is drawn in a view.
use frame_record::{Frame, OrderedItem, PlacedBlit};
use view_table::View;

/// A view with its blits and with its draws and touches, which are entries of a frame, each in the order of its list.
#[derive(Clone, Copy)]
pub struct ViewPart<'a> {
    pub view: &'a View,
    pub frame: &'a Frame,
    pub blits: &'a [PlacedBlit],
    pub items: &'a [OrderedItem],
}

/// Views of one target that are drawn at one go: those that are cleared first, and those whose draws and touches are made then.
#[derive(Clone, Copy)]
pub(crate) struct Pass<'a> {
    pub(crate) cleared: &'a [ViewPart<'a>],
    pub(crate) drawn: &'a [ViewPart<'a>],
}

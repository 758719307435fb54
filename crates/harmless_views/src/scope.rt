// What a view of a frame is looked at with.

use frame_record::Frame;
use render_stores::RenderStores;
use shared_keys::Mark;
use view_table::View;

/// A view of a frame with its number, the stores when the frame's first commands are executed, and the marks of the frame's items.
#[derive(Clone, Copy)]
pub(crate) struct Scope<'x> {
    pub(crate) stores: &'x RenderStores,
    pub(crate) frame: &'x Frame,
    pub(crate) view: &'x View,
    pub(crate) number: u16,
    pub(crate) marks: &'x [Mark],
}

// What frames are drawn with.
ghost use Rattle.std.specs.Prelude.{◌≡◌};

use crate::lists::Lists;
use crate::picture::PictureText;
use crate::renderer::Canvas;
use render_stores::RenderStores;
use std::alloc::Global;
use view_drawing::DrawingRoom;

/// All that a canvas has but its stores.
#[derive(Drop)]
pub(crate) struct Desk {
    pub(crate) alloc: Global,
    pub(crate) lists: Lists,
    pub(crate) room: DrawingRoom,
    pub(crate) text: PictureText,
}

impl Desk {
    /// A canvas as its desk and its stores.
    pub(crate) fn of(canvas: Canvas) -> (Desk, RenderStores)
        ensures lists { result.0.lists ≡ canvas.lists }
        ensures text { result.0.text ≡ canvas.text }
        ensures stores { result.1 ≡ canvas.stores }
    {
        let Canvas {
            alloc,
            stores,
            lists,
            room,
            text,
        } = canvas;
        let desk = Desk {
            alloc,
            lists,
            room,
            text,
        };
        (desk, stores)
    }

    /// The canvas with these stores.
    pub(crate) fn with(self, stores: RenderStores) -> Canvas
        ensures lists { result.lists ≡ self.lists }
        ensures text { result.text ≡ self.text }
        ensures stores { result.stores ≡ stores }
    {
        let Desk {
            alloc,
            lists,
            room,
            text,
        } = self;
        Canvas {
            alloc,
            stores,
            lists,
            room,
            text,
        }
    }
}

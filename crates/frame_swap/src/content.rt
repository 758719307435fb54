// What a slot of the table holds.
use frame_record::{Frame, RenderedFrame};

/// What a slot holds: a frame that was given, or one that was rendered.
#[derive(Drop)]
pub enum Content {
    Given(Frame),
    Back(RenderedFrame),
}

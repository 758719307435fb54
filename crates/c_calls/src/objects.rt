// What a handle of C stands for.
use crate::context::Context;
use crate::encoder::Encoder;
use crate::open_frames::OpenFrame;
use render_core::Band;

/// What a handle stands for. No handle is left blank after a call. A context's handle stands for `Drawing` from the begin of a frame to its
/// end.
#[derive(Drop)]
pub enum Object {
    Blank,
    Api(Context),
    Drawing(OpenFrame),
    Recording(Encoder),
    Rows(Band),
}

// What is laid aside while the bands of a pass are out.

use int_raster::Surface;

/// The target of a pass: the back buffer; or the textures of a frame buffer, and then the back buffer is laid aside.
#[derive(Drop)]
pub(crate) enum LentTarget {
    Back,
    FrameBuffer(u16, Surface),
}

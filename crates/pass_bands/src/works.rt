// What is drawn in a pass.

use crate::plans::Plan;
use int_raster::Surface;
use texture_store::TextureStore;

/// The draws of a pass, and the textures that they sample.
#[derive(Drop)]
pub struct Work {
    pub plan: Plan,
    pub textures: TextureStore,
}

/// A work and the surface that it is drawn on.
#[derive(Drop)]
pub struct Task {
    pub work: Work,
    pub surface: Surface,
}

// Plans: lists of draws that own all that they need but the textures.
ghost use Rattle.std.specs.Prelude.{◌≡◌, length};

use crate::paints::PlannedPaint;
use int_raster::DrawList;

/// Draws with their triangles, in the order in which they are made. Each names the texture that it samples, so that a plan keeps no
/// borrow of the textures.
#[derive(Drop)]
pub struct Plan {
    pub(crate) list: DrawList<'static>,
    pub(crate) paints: Vec<PlannedPaint>,
    pub ghost same: { length list ≡ length paints.items },
}

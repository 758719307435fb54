// Rows that are cut out of a surface.
ghost use Rattle.std.specs.Prelude.{◌≡◌, ◌*◌, length};
ghost use Rattle.std.specs.Option.{ForSome};

use int_raster::Rows;

/// The texels of whole rows: the colours, and the depths if there are any.
#[derive(Drop)]
pub(crate) struct Piece {
    pub rows: Rows,
    pub colors: Vec<[u8; 4]>,
    pub depths: Option<Vec<[u8; 4]>>,
    pub ghost whole: { length colors.items ≡ rows.width * rows.count },
    pub ghost same: { ForSome depths (λ d. length d.items ≡ length colors.items) },
}

// The draws of a work on rows.
ghost use Rattle.std.specs.Prelude.{◌≡◌, ◌*◌, length, option_map};
ghost use Rattle.int_raster.specs.Bands.{deep, deep_drawn, flat_drawn};
ghost use Rattle.int_raster.specs.declared.surfaces.Surface.{Surface};
ghost use Rattle.pass_bands.specs.Drawn.{work_seen, AreDrawn};
ghost use Rattle.pass_bands.specs.Rowed.{IsCut};

use crate::pieces::Piece;
use crate::works::Work;
use int_raster::{Rows, draw_deep_as, draw_flat_as};

/// Makes the draws on rows without depth.
pub(crate) fn draw_flat_rows(work: &Work, rows: &Rows, colors: &mut [[u8; 4]])
    requires { length colors.old ≡ rows.now.width * rows.now.count }
    ensures { colors.new ≡ flat_drawn rows.now.width rows.now.top colors.old (work_seen work.now) }
{
    for index in 0..work.plan.len() {
        let paint = work.plan.paints[index].with(&work.textures);
        draw_flat_as(rows, &work.plan.list, index, paint, colors);
    }
}

/// Makes the draws on rows with depth.
pub(crate) fn draw_deep_rows(
    work: &Work,
    rows: &Rows,
    colors: &mut [[u8; 4]],
    depths: &mut [[u8; 4]],
)
    requires whole { length colors.old ≡ rows.now.width * rows.now.count }
    requires same { length depths.old ≡ length colors.old }
    ensures { deep colors.new depths.new ≡ deep_drawn rows.now.width rows.now.top (deep colors.old depths.old) (work_seen work.now) }
{
    for index in 0..work.plan.len() {
        let paint = work.plan.paints[index].with(&work.textures);
        draw_deep_as(rows, &work.plan.list, index, paint, colors, depths);
    }
}

/// Makes the draws on a piece of a surface.
pub(crate) fn draw_piece(work: &Work, piece: &mut Piece)
    ensures rows { piece.new.rows ≡ piece.old.rows }
    ensures drawn { (s : Surface) → IsCut piece.old s → AreDrawn s (work_seen work.now) piece.new.rows piece.new.colors.items (option_map (λ d. d.items) piece.new.depths) }
{
    let colors = piece.colors.as_mut_slice();
    match &mut piece.depths {
        None => draw_flat_rows(work, &piece.rows, colors),
        Some(depths) => draw_deep_rows(work, &piece.rows, colors, depths.as_mut_slice()),
    }
}

// Rows cut out of a surface.
ghost use Rattle.std.specs.Prelude.{◌≡◌, ◌≤◌, ◌+◌, ◌*◌, length, IfOk};
ghost use Rattle.pass_bands.specs.Rowed.{rowed, AreIn, IsCut};

use crate::pieces::Piece;
use int_raster::{Rows, Surface};
use std::alloc::{AllocError, Global};

/// A copy of rows of texels.
fn copy_rows(alloc: Global, texels: &[[u8; 4]], rows: &Rows) -> Result<Vec<[u8; 4]>, AllocError>
    requires { rows.now.width * rows.now.top + rows.now.width * rows.now.count ≤ length texels.now }
    ensures copied { IfOk result (λ v. v.items ≡ rowed rows.now texels.now) }
    ensures whole { IfOk result (λ v. length v.items ≡ rows.now.width * rows.now.count) }
{
    let first = rows.width as usize * rows.top as usize;
    let count = rows.width as usize * rows.count as usize;
    texels[first..first + count].to_vec(alloc)
}

/// A copy of rows of a surface.
pub(crate) fn copy_piece(alloc: Global, surface: &Surface, rows: Rows) -> Result<Piece, AllocError>
    requires { AreIn rows surface.now }
    ensures cut { IfOk result (λ p. IsCut p surface.now) }
    ensures rows { IfOk result (λ p. p.rows ≡ rows) }
{
    let colors = copy_rows(alloc, surface.color.texels.as_slice(), &rows)?;
    let depths = match &surface.depth {
        Some(depth) => Some(copy_rows(alloc, depth.texels.as_slice(), &rows)?),
        None => None,
    };
    Ok(Piece {
        rows,
        colors,
        depths,
    })
}

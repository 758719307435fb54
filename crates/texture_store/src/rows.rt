// Texels moved row by row.
ghost use Rattle.std.specs.Prelude.{◌≡◌, ◌+◌, ◌*◌, ◌≤◌, ◌++◌, length, take, drop, IfOk};
ghost use Rattle.gfx_model.specs.Number.{map_from};
ghost use Rattle.texture_store.specs.Block.{in_block, texel_of_row, texels_of_bytes, part_of as part_of_picture};

use std::alloc::{AllocError, Global};

/// A region that lies within its source and its destination.
#[derive(Clone, Copy)]
pub(crate) struct Cut {
    pub dx: u16,
    pub dy: u16,
    pub sx: u16,
    pub sy: u16,
    pub w: u16,
    pub h: u16,
}

fn place(row: u32, width: u16, column: u16) -> usize
    ensures { result ≡ row * width + column }
{
    row as usize * width as usize + column as usize
}

fn row_of<'a>(from: &'a [[u8; 4]], at: usize, w: u16) -> &'a [[u8; 4]]
    requires { at + w ≤ length from.now }
    ensures { result.now ≡ take w (drop at from.now) }
{
    &from[at..at + w as usize]
}

fn put_row(to: &mut [[u8; 4]], at: usize, row: &[[u8; 4]])
    requires { at + length row.now ≤ length to.old }
    ensures { to.new ≡ take at to.old ++ row.now ++ drop (at + length row.now) to.old }
{
    to[at..at + row.len()].copy_from_slice(row);
}

/// Copies a region of one picture into another.
pub(crate) fn copy_rows(
    to: &mut [[u8; 4]],
    width: u16,
    from: &[[u8; 4]],
    from_width: u16,
    cut: &Cut,
)
    requires right { cut.now.dx + cut.now.w ≤ width }
    requires below { (cut.now.dy + cut.now.h) * width ≤ length to.old }
    requires from_right { cut.now.sx + cut.now.w ≤ from_width }
    requires from_below { (cut.now.sy + cut.now.h) * from_width ≤ length from.now }
    ensures { to.new ≡ map_from (in_block width cut.now.dx cut.now.dy cut.now.w cut.now.h (texel_of_row from.now from_width cut.now.dx cut.now.dy cut.now.sx cut.now.sy)) 0 to.old }
{
    for r in 0..cut.h {
        let at = place(cut.dy as u32 + r as u32, width, cut.dx);
        let row = row_of(
            from,
            place(cut.sy as u32 + r as u32, from_width, cut.sx),
            cut.w,
        );
        put_row(to, at, row);
    }
}

/// Bytes as texels of four each; what makes no whole texel is left out.
pub(crate) fn as_texels(bytes: &[u8]) -> &[[u8; 4]]
    ensures { result.now ≡ texels_of_bytes bytes.now }
{
    let (texels, _) = bytes.as_chunks::<4>();
    texels
}

/// The texels of bytes, in memory of their own.
pub(crate) fn texels_of(alloc: Global, bytes: &[u8]) -> Result<Vec<[u8; 4]>, AllocError>
    ensures { IfOk result (λ texels. texels.items ≡ texels_of_bytes bytes.now) }
{
    let mut texels = Vec::new(alloc);
    texels.extend_from_slice(as_texels(bytes))?;
    Ok(texels)
}

/// The part of a picture that a region is copied from, in memory of its own.
pub(crate) fn part_of(
    alloc: Global,
    from: &[[u8; 4]],
    from_width: u16,
    cut: &Cut,
) -> Result<Vec<[u8; 4]>, AllocError>
    requires right { cut.now.sx + cut.now.w ≤ from_width }
    requires below { (cut.now.sy + cut.now.h) * from_width ≤ length from.now }
    ensures { IfOk result (λ part. part.items ≡ part_of_picture from.now from_width cut.now.sx cut.now.sy cut.now.w cut.now.h) }
{
    let mut part = Vec::with_capacity(alloc, place(cut.h as u32, cut.w, 0))?;
    for r in 0..cut.h {
        let at = place(cut.sy as u32 + r as u32, from_width, cut.sx);
        part.extend_from_slice(row_of(from, at, cut.w))?;
    }
    Ok(part)
}

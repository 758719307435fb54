// Texels of one texture changed.
ghost use Rattle.std.specs.Prelude.{◌≡◌, ◌+◌, ◌-◌, ◌*◌, ◌≤◌, length, min, true, false, None, IfOk, IfSome, IsOk, MatchOption, MatchResult};
ghost use Rattle.gfx_model.specs.Resources.{first_refusal, is_size as is_size_of, source_fits as fits_of, texels_from};
ghost use Rattle.gfx_words.specs.Seen.{refusal_seen};
ghost use Rattle.gfx_model.specs.World.{with_texels_in};
ghost use Rattle.fix_math.specs.Seen.{rect_seen, texels_seen};
ghost use Rattle.store_model.specs.Textures.{copied_region, create_refusals};
ghost use Rattle.texture_store.specs.Seen.{region_seen, source_seen, cut_seen};
ghost use Rattle.texture_store.specs.Cut.{cut_of, is_cut_empty, cut_copied};

use crate::rows::{Cut, as_texels, copy_rows, part_of, texels_of};
use crate::source::{BlitBox, TexelSource};
use fix_math::{Rect, TexelList, Texels};
use gfx_words::Refusal;
use std::alloc::{AllocError, Global};

/// Replaces the texels of a rectangle that passes no side.
pub(crate) fn write_texels(texels: &mut Texels, rect: &Rect, bytes: &[u8])
    requires right { rect.now.x + rect.now.w ≤ texels.old.width }
    requires below { rect.now.y + rect.now.h ≤ texels.old.height }
    requires enough { length bytes.now ≡ 4 * (rect.now.w * rect.now.h) }
    ensures { texels_seen texels.new ≡ with_texels_in (rect_seen rect.now) bytes.now (texels_seen texels.old) }
{
    let cut = Cut {
        dx: rect.x,
        dy: rect.y,
        sx: 0,
        sy: 0,
        w: rect.w,
        h: rect.h,
    };
    copy_cut(texels, as_texels(bytes), rect.w, &cut);
}

fn least(a: u16, b: u16, c: u16) -> u16
    ensures { result ≡ min a (min b c) }
{
    a.min(b.min(c))
}

/// A region cut to its source and its destination. None exactly where nothing is left.
fn cut(copy: &BlitBox, source: &Texels, texels: &Texels) -> Option<Cut>
    ensures cut { let empty = is_cut_empty (region_seen copy.now) (texels_seen source.now) (texels_seen texels.now) in
        MatchOption result (empty ≡ true) (λ cut. (empty ≡ false) × (cut_seen cut ≡ cut_of (region_seen copy.now) (texels_seen source.now) (texels_seen texels.now))) }
    ensures inside { IfSome result (λ cut. (cut.dx + cut.w ≤ texels.now.width) × (cut.dy + cut.h ≤ texels.now.height)) }
    ensures from { IfSome result (λ cut. (cut.sx + cut.w ≤ source.now.width) × (cut.sy + cut.h ≤ source.now.height)) }
{
    let w = least(
        copy.w,
        texels.width.saturating_sub(copy.dx),
        source.width.saturating_sub(copy.sx),
    );
    let h = least(
        copy.h,
        texels.height.saturating_sub(copy.dy),
        source.height.saturating_sub(copy.sy),
    );
    if w == 0 {
        return None;
    }
    if h == 0 {
        return None;
    }
    Some(Cut {
        dx: copy.dx,
        dy: copy.dy,
        sx: copy.sx,
        sy: copy.sy,
        w,
        h,
    })
}

/// Copies a region, cut to both pictures.
pub(crate) fn copy_texels(texels: &mut Texels, source: &Texels, copy: &BlitBox)
    ensures { texels_seen texels.new ≡ copied_region (region_seen copy.now) (texels_seen source.now) (texels_seen texels.old) }
{
    if let Some(cut) = cut(copy, source, texels) {
        copy_cut(texels, source.texels.as_slice(), source.width, &cut);
    }
}

/// Copies a region of texels over them, which are read as they were. It takes memory for the cut region alone, and
/// none where nothing is left of it.
pub(crate) fn copy_within(
    alloc: Global,
    texels: &mut Texels,
    copy: &BlitBox,
) -> Result<(), AllocError>
    ensures copied { MatchResult result (λ _. texels_seen texels.new ≡ copied_region (region_seen copy.now) (texels_seen texels.old) (texels_seen texels.old)) (λ _. texels_seen texels.new ≡ texels_seen texels.old) }
    ensures nothing { is_cut_empty (region_seen copy.now) (texels_seen texels.old) (texels_seen texels.old) ≡ true → IsOk result }
{
    match cut(copy, texels, texels) {
        Some(cut) => copy_part(alloc, texels, &cut),
        None => Ok(()),
    }
}

fn copy_part(alloc: Global, texels: &mut Texels, cut: &Cut) -> Result<(), AllocError>
    requires right { cut.now.dx + cut.now.w ≤ texels.old.width }
    requires below { cut.now.dy + cut.now.h ≤ texels.old.height }
    requires from_right { cut.now.sx + cut.now.w ≤ texels.old.width }
    requires from_below { cut.now.sy + cut.now.h ≤ texels.old.height }
    ensures { MatchResult result (λ _. texels_seen texels.new ≡ cut_copied (cut_seen cut.now) texels.old.texels texels.old.width (texels_seen texels.old)) (λ _. texels_seen texels.new ≡ texels_seen texels.old) }
{
    let part = part_of(alloc, texels.texels.as_slice(), texels.width, cut)?;
    let cut = Cut {
        sx: 0,
        sy: 0,
        ..*cut
    };
    copy_cut(texels, &part, cut.w, &cut);
    Ok(())
}

/// Copies a region that lies within the texels and within those of a width that it is copied from.
fn copy_cut(texels: &mut Texels, from: &[[u8; 4]], from_width: u16, cut: &Cut)
    requires right { cut.now.dx + cut.now.w ≤ texels.old.width }
    requires below { cut.now.dy + cut.now.h ≤ texels.old.height }
    requires from_right { cut.now.sx + cut.now.w ≤ from_width }
    requires from_below { (cut.now.sy + cut.now.h) * from_width ≤ length from.now }
    ensures { texels_seen texels.new ≡ cut_copied (cut_seen cut.now) from.now from_width (texels_seen texels.old) }
{
    let width = texels.width;
    let to = texels.texels.as_mut_slice();
    copy_rows(to, width, from, from_width, cut);
}

fn is_size(side: u16) -> bool
    ensures { result ≡ is_size_of side }
{
    1 <= side && side <= 2048
}

fn source_fits(width: u16, height: u16, source: TexelSource<'_>) -> bool
    ensures { result ≡ fits_of width height (source_seen source.entry) }
{
    match source {
        TexelSource::Fill(_) => true,
        TexelSource::Bytes(bytes) => bytes.len() as u64 == 4 * (width as u64 * height as u64),
    }
}

/// The texels of a source. `BadSize` exactly where a side is 0 or over 2,048, or bytes are not four per texel.
pub(crate) fn made(
    alloc: Global,
    width: u16,
    height: u16,
    source: TexelSource<'_>,
) -> Result<Texels, Refusal>
    ensures { let refusal = first_refusal (create_refusals width height (source_seen source.entry)) in
        MatchResult result
        (λ texels. (refusal ≡ None) × (texels_seen texels ≡ texels_from width height (source_seen source.entry)))
        (λ r. refusal_seen r ≡ refusal) }
{
    if !is_size(width) || !is_size(height) || !source_fits(width, height, source) {
        return Err(Refusal::BadSize);
    }
    match made_of(alloc, width, height, source) {
        Ok(texels) => Ok(texels),
        Err(_) => Err(Refusal::OutOfMemory),
    }
}

fn made_of(
    alloc: Global,
    width: u16,
    height: u16,
    source: TexelSource<'_>,
) -> Result<Texels, AllocError>
    requires wide { is_size_of width ≡ true }
    requires high { is_size_of height ≡ true }
    requires enough { fits_of width height (source_seen source) ≡ true }
    ensures { IfOk result (λ texels. texels_seen texels ≡ texels_from width height (source_seen source.entry)) }
{
    match source {
        TexelSource::Fill(color) => Texels::filled(alloc, width, height, color),
        TexelSource::Bytes(bytes) => {
            let list = texels_of(alloc, bytes)?;
            Ok(Texels::from_parts(width, height, TexelList::from_vec(list)))
        }
    }
}

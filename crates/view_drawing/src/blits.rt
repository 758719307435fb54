// Copies between textures.
ghost use Rattle.std.specs.Prelude.{◌≡◌, ℕ, [], Some, fold, option_map, option_and_then, OnOk, OnErr};
ghost use Rattle.std.specs.List.{cons_option};
ghost use Rattle.gfx_model.specs.World.{Blit};
ghost use Rattle.draw_encoder.specs.Seen.{copy_seen};
ghost use Rattle.view_drawing.specs.Entered.{blit_in, StopsAtBlit};
ghost use Rattle.view_drawing.specs.Entries.{blit_of, blits_of, found_seen};
ghost use Rattle.view_drawing.specs.Memory.{CopiesWithin};

use draw_encoder::{BlitCall, Item, Recording};
use frame_record::{Frame, PlacedBlit};
use std::alloc::AllocError;
use texture_store::{BlitBox, TextureStore};

/// Copies a region, where its source is there. Within one texture the texels are read as they were, which takes memory where something
/// is left of the region; where it is wanting, nothing changes.
fn blit(textures: &mut TextureStore, copy: &BlitCall) -> Result<(), AllocError>
    ensures copied { OnOk result ((view : ℕ) → textures.new ≡ blit_in textures.old (copy_seen view copy.now)) }
    ensures kept { OnErr result (textures.new ≡ textures.old) }
    ensures needs { OnErr result ((view : ℕ) → CopiesWithin textures.old (copy_seen view copy.now)) }
{
    let region = BlitBox {
        dst: copy.dst.index(),
        dx: copy.dx,
        dy: copy.dy,
        src: copy.src.index(),
        sx: copy.sx,
        sy: copy.sy,
        w: copy.w,
        h: copy.h,
    };
    let done = textures.blit(region);
    done
}

/// Copies the region of an item that was found, where it is a blit.
fn blit_found(
    textures: &mut TextureStore,
    found: Option<(&Recording, &Item)>,
) -> Result<(), AllocError>
    ensures copied { OnOk result (textures.new ≡ fold blit_in textures.old (cons_option (option_and_then blit_of (option_map found_seen found.entry)) [])) }
    ensures kept { OnErr result (textures.new ≡ textures.old) }
    ensures needs { OnErr result ((b : Blit) × ((option_and_then blit_of (option_map found_seen found.entry) ≡ Some b) × CopiesWithin textures.old b)) }
{
    match found {
        Some((_, Item::Blit(item))) => blit(textures, &item.copy),
        _ => Ok(()),
    }
}

/// Copies the regions of blits in order. Entries without an item, and items that are no blits, are passed over. Where memory is wanting,
/// the blits before the one that takes it are copied.
pub(crate) fn blit_all(
    textures: &mut TextureStore,
    frame: &Frame,
    blits: &[PlacedBlit],
) -> Result<(), AllocError>
    ensures copied { OnOk result (textures.new ≡ fold blit_in textures.old (blits_of frame.now blits.now)) }
    ensures begun { OnErr result (StopsAtBlit (blits_of frame.now blits.now) textures.old textures.new) }
{
    for one in blits {
        blit_found(textures, frame.item(one.entry))?;
    }
    Ok(())
}

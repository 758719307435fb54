// The clear of a view, as a wipe of its target.
ghost use Rattle.std.specs.Prelude.{◌≡◌, ◌<◌, map, option_map, IfOk};
ghost use Rattle.gfx_model.specs.Number.{is_bit_set};
ghost use Rattle.gfx_model.specs.World.{clear_surface};
ghost use Rattle.int_raster.specs.Seen.{sides_seen, surface_seen};
ghost use Rattle.int_raster.specs.Wiping.{wipe_seen, wipes_seen};
ghost use Rattle.pass_laws.specs.Passed.{all_cleared};
ghost use Rattle.view_table.specs.Seen.{view_seen};
ghost use Rattle.view_drawing.specs.Cleared.{wiping_of, wipings_of};
ghost use Rattle.view_drawing.specs.Passes.{turn_seen};

use crate::view_parts::ViewPart;
use int_raster::{Surface, Wipe, view_rect, wipe_surface};
use std::alloc::AllocError;
use view_table::{Clear, View};

/// Whether a flag is set.
pub(crate) fn has_flag(clear: &Clear, bit: u8) -> bool
    requires { bit < 8 }
    ensures { result ≡ is_bit_set clear.now.flags bit }
{
    clear.flags >> bit & 1 == 1
}

/// What the clear of a view takes of a target of these sides.
fn wipe_of(view: &View, width: u16, height: u16) -> Wipe
    ensures { wipe_seen result ≡ wiping_of width height (view_seen view.now) }
{
    let clear = view.clear;
    let color = clear.color;
    Wipe {
        cut: view_rect(view.rect, width, height),
        flags: clear.flags,
        color,
        depth: clear.depth,
        stencil: clear.stencil,
    }
}

/// The clear of a view's rectangle; scissors do not cut it.
pub(crate) fn clear(surface: &mut Surface, view: &View)
    ensures cleared { surface_seen surface.new ≡ clear_surface (view_seen view.now) (surface_seen surface.old) }
    ensures color { sides_seen surface.new.color ≡ sides_seen surface.old.color }
    ensures depth { option_map sides_seen surface.new.depth ≡ option_map sides_seen surface.old.depth }
{
    let wipe = wipe_of(view, surface.color.width, surface.color.height);
    wipe_surface(surface, &wipe);
}

/// The clears of views, one after another.
pub(crate) fn clear_all(surface: &mut Surface, views: &[ViewPart<'_>])
    ensures cleared { surface_seen surface.new ≡ all_cleared (surface_seen surface.old) (map turn_seen views.now) }
    ensures color { sides_seen surface.new.color ≡ sides_seen surface.old.color }
    ensures depth { option_map sides_seen surface.new.depth ≡ option_map sides_seen surface.old.depth }
{
    for one in views {
        clear(surface, one.view);
    }
}

/// Puts what the clears of views take of a target of these sides in place of what stands in the list.
pub(crate) fn list_wipes(
    wipes: &mut Vec<Wipe>,
    views: &[ViewPart<'_>],
    width: u16,
    height: u16,
) -> Result<(), AllocError>
    ensures { IfOk result (λ _. wipes_seen wipes.new.items ≡ wipings_of width height (map turn_seen views.now)) }
{
    wipes.clear();
    for one in views {
        wipes.push(wipe_of(one.view, width, height))?;
    }
    Ok(())
}

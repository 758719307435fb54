// The target of a view, taken out and put back.
ghost use Rattle.std.specs.Prelude.{◌≡◌};
ghost use Rattle.gfx_model.specs.World.{clear_surface};
ghost use Rattle.view_table.specs.Seen.{view_seen};
ghost use Rattle.store_laws.specs.ByIndex.{on_target, on_target_in};
ghost use Rattle.render_stores.specs.Seen.{stores_seen};

use crate::clearing::clear;
use int_raster::Surface;
use render_stores::RenderStores;
use texture_store::TextureStore;
use view_table::View;

/// The clear of a view on a frame buffer's textures, where they can be taken out.
fn clear_textures(textures: &mut TextureStore, index: u16, view: &View)
    ensures { textures.new ≡ on_target_in textures.old index (clear_surface (view_seen view.now)) }
{
    match textures.take_target(index) {
        Some((color, depth)) => {
            let mut surface = Surface::new(color, depth);
            clear(&mut surface, view);
            textures.put_target(index, surface.color, surface.depth);
        }
        None => {}
    }
}

/// The clear of a view on its target.
pub(crate) fn clear_target(stores: &mut RenderStores, view: &View)
    ensures { stores_seen stores.new ≡ on_target (stores_seen stores.old) (view_seen view.now).target (clear_surface (view_seen view.now)) }
{
    match view.target {
        None => clear(&mut stores.back, view),
        Some(target) => clear_textures(&mut stores.textures, target.index(), view),
    }
}

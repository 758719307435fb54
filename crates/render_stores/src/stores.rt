// What frames are drawn from and on.
ghost use Rattle.std.specs.Prelude.{◌≡◌, ◌≤◌, IfOk, replicate};
ghost use Rattle.gfx_model.specs.Raster.{no_color};
ghost use Rattle.gfx_model.specs.World.{first_world};
ghost use Rattle.store_laws.specs.ByIndex.{first_stores};
ghost use Rattle.int_raster.specs.Seen.{surface_seen};
ghost use Rattle.render_stores.specs.Seen.{stores_seen};

use crate::programs::ProgramRow;
use buffer_store::BufferStore;
use fix_math::Texels;
use int_raster::Surface;
use std::alloc::{AllocError, Global};
use texture_store::TextureStore;

/// The back buffer, the stores, and the programs.
#[derive(Drop)]
pub struct RenderStores {
    pub back: Surface,
    pub buffers: BufferStore,
    pub textures: TextureStore,
    pub programs: ProgramRow,
}

/// A back buffer of zeros, with depth.
fn blank_surface(alloc: Global, width: u16, height: u16) -> Result<Surface, AllocError>
    requires wide { 1 ≤ width }
    requires high { 1 ≤ height }
    requires narrow { width ≤ 2048 }
    requires low { height ≤ 2048 }
    ensures { IfOk result (λ surface. surface_seen surface ≡ (first_world width height).back) }
{
    let color = Texels::filled(alloc, width, height, [0; 4])?;
    let depth = Texels::filled(alloc, width, height, [0; 4])?;
    Ok(Surface::new(color, Some(depth)))
}

impl RenderStores {
    /// Stores without things, with a back buffer of zeros. The sides are 1 to 2,048. Only want of memory refuses.
    pub fn new(alloc: Global, width: u16, height: u16) -> Result<RenderStores, AllocError>
        requires wide { 1 ≤ width }
        requires high { 1 ≤ height }
        requires narrow { width ≤ 2048 }
        requires low { height ≤ 2048 }
        ensures { IfOk result (λ stores. stores_seen stores ≡ first_stores (first_world width height).back) }
    {
        Ok(RenderStores {
            back: blank_surface(alloc, width, height)?,
            buffers: BufferStore::new(alloc)?,
            textures: TextureStore::new(alloc)?,
            programs: ProgramRow::new(alloc)?,
        })
    }
}

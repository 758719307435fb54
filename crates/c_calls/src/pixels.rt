// Pixels of the back buffer and of textures, between frames.
ghost use Rattle.std.specs.Prelude.{◌≡◌};
ghost use Rattle.render_stores.specs.Seen.{stores_seen};
ghost use Rattle.pixel_reading.specs.Reads.{Reads};
ghost use Rattle.c_calls.specs.Pixels.{ReadsHere};

use crate::context::Context;
use c_words::Fault;
use gfx_words::Handle;
use pixel_reading::{Pixels, pixels_of, read_pixels};
use render_stores::RenderStores;

impl Context {
    // The back buffer and what was made, as the frames so far left them.
    fn stores(&self) -> &RenderStores
        ensures { stores_seen result.now ≡ self.now.renderer.stores }
    {
        self.renderer.stores()
    }

    fn read_as(
        &self,
        texture: Option<Handle>,
        pixels: Pixels,
        stride: usize,
        buffer: &mut [u8],
    ) -> Result<(), Fault>
        ensures { Reads result self.now.renderer.stores texture pixels stride buffer.old buffer.new }
    {
        read_pixels(self.stores(), texture, pixels, stride, buffer)
    }

    /// Reads a texture, or the back buffer by 0, into a buffer. `BadValue` where the number stands for no pixels; `Unknown`; `WrongKind`,
    /// `NotThere`, `BadSize`, `TooSmall`. After a refusal the buffer is as before.
    pub(crate) fn read(
        &self,
        texture: u64,
        format: u32,
        stride: usize,
        buffer: &mut [u8],
    ) -> Result<(), Fault>
        ensures { ReadsHere result texture format stride buffer.old buffer.new self.now }
    {
        let Some(pixels) = pixels_of(format) else {
            return Err(Fault::BadValue);
        };
        match self.find_maybe(texture) {
            None => Err(Fault::Unknown),
            Some(texture) => self.read_as(texture, pixels, stride, buffer),
        }
    }
}

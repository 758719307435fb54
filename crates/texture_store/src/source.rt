// What textures are made from, and what is copied between them.

/// What a new texture holds: one colour, or lent bytes of four a texel, row by row from the top.
#[derive(Clone, Copy)]
pub enum TexelSource<'a> {
    Fill([u8; 4]),
    Bytes(&'a [u8]),
}

/// A region of `w` by `h` texels at (`sx`, `sy`) of the texture `src`, to be copied to (`dx`, `dy`) of the texture `dst`.
#[derive(Clone, Copy, Drop, PartialEq, Eq, Debug)]
pub struct BlitBox {
    pub dst: u16,
    pub dx: u16,
    pub dy: u16,
    pub src: u16,
    pub sx: u16,
    pub sy: u16,
    pub w: u16,
    pub h: u16,
}

// What textures are made from.

/// What a new texture holds: one colour, or bytes of four a texel, row by row from the top.
#[derive(PartialEq, Eq, Debug, Drop)]
pub enum TexSource {
    Fill([u8; 4]),
    Bytes(Vec<u8>),
}

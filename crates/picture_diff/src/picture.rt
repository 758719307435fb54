// A picture as it stands in bytes.

/// The sides, and the bytes of the pixels: red, green and blue of each, row by row from the top.
#[derive(Clone, Copy, Drop)]
pub(crate) struct Picture<'a> {
    pub(crate) width: u32,
    pub(crate) height: u32,
    pub(crate) bytes: &'a [u8],
}

// The draws of a list.

use crate::lists::Paint;
use fix_math::Rect;
use gfx_words::{StateWord, StencilWord};

/// A draw of a list: its triangles are those of the list from the first up to the second number, and cover no pixels but in the rows
/// from `top` up to `bottom`.
#[derive(Drop)]
pub(crate) struct Listed<'x> {
    pub cut: Rect,
    pub state: StateWord,
    pub front: StencilWord,
    pub back: StencilWord,
    pub paint: Paint<'x>,
    pub first: usize,
    pub after: usize,
    pub top: u16,
    pub bottom: u16,
}

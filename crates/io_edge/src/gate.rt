// Where a recorder or the renderer can be held by a test.

/// A place at which a test may hold a thread.
pub trait Gate {
    /// Is called before each submit, touch and blit line of an encoder, with the encoder's number
    /// and the number of that line among those of its block, and before each frame that is rendered, with
    /// 255 and the frame's number. It returns and tells nothing.
    fn at(&self, who: u8, item: u32);
}

/// A gate that holds nobody.
#[derive(Clone, Copy, Debug, Drop)]
pub struct NoGate;

impl Gate for NoGate {
    fn at(&self, _who: u8, _item: u32) {}
}

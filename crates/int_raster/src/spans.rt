// Parts of the rows of a surface.
ghost use Rattle.std.specs.Prelude.{◌≡◌, ◌≤◌, ◌<◌, ◌+◌};

/// The columns of a row from one up to another. The row is the surface's row `y`, and begins at a place of the texels.
#[derive(Clone, Copy)]
pub(crate) struct Span {
    pub start: usize,
    pub y: u16,
    pub first: u16,
    pub after: u16,
    pub ghost order: { first ≤ after },
}

impl Span {
    /// The piece of at most so many columns from a column on.
    pub fn piece(&self, first: u16, most: u16) -> Span
        requires within { first ≤ self.now.after }
        requires most { 0 < most }
        ensures row { (result.start ≡ self.now.start) × (result.y ≡ self.now.y) × (result.first ≡ first) }
        ensures within { result.after ≤ self.now.after }
        ensures short { result.after ≤ first + most }
        ensures some { first < self.now.after → first < result.after }
    {
        let after = if self.after - first < most {
            self.after
        } else {
            first + most
        };
        Span {
            start: self.start,
            y: self.y,
            first,
            after,
        }
    }
}

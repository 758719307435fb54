// The sides of a target.
ghost use Rattle.std.specs.Prelude.{◌≡◌, ◌≤◌, ◌*◌};

/// A target's sides, each from 1 to 2,048 pixels.
#[derive(Clone, Copy)]
pub struct TargetSides {
    pub width: u16,
    pub height: u16,
    pub ghost some_columns: { 1 ≤ width },
    pub ghost some_rows: { 1 ≤ height },
    pub ghost few_columns: { width ≤ 2048 },
    pub ghost few_rows: { height ≤ 2048 },
}

impl TargetSides {
    /// How many pixels the target has.
    pub fn area(&self) -> usize
        ensures { result ≡ self.now.width * self.now.height }
    {
        self.width as usize * self.height as usize
    }
}

// Bands of rows.
ghost use Rattle.std.specs.Prelude.{◌≡◌, ◌≤◌, ◌+◌};
ghost use Rattle.int_raster.specs.Sharing.{IsShare};

/// Whole rows of a surface of a width, `count` of them from its row `top` on. The width is at least 1, and no row is behind 65,534.
#[derive(Clone, Copy)]
pub struct Rows {
    pub width: u16,
    pub top: u16,
    pub count: u16,
    pub ghost wide: { 1 ≤ width },
    pub ghost within: { top + count ≤ 65535 },
}

impl Rows {
    /// `count` rows of a surface of a width, from a row on.
    pub fn new(width: u16, top: u16, count: u16) -> Rows
        requires wide { 1 ≤ width }
        requires within { top + count ≤ 65535 }
        ensures width { result.width ≡ width }
        ensures top { result.top ≡ top }
        ensures count { result.count ≡ count }
    {
        Rows { width, top, count }
    }

    /// The row behind the last.
    pub fn bottom(&self) -> u16
        ensures { result ≡ self.now.top + self.now.count }
    {
        self.top + self.count
    }

    /// The rows in two parts, the first `part` of `whole` of them, rounded down, and the rest.
    #[tactic(auto, unfolding(crate::specs::Sharing::IsShare))]
    pub fn cut(&self, part: u32, whole: u32) -> (Rows, Rows)
        requires some { 1 ≤ whole }
        requires order { part ≤ whole }
        ensures widths { (result.0.width ≡ self.now.width) × (result.1.width ≡ self.now.width) }
        ensures share { IsShare part whole self.now.count result.0.count }
        ensures first { result.0.top ≡ self.now.top }
        ensures next { result.1.top ≡ self.now.top + result.0.count }
        ensures all { result.0.count + result.1.count ≡ self.now.count }
    {
        let share = self.count as u64 * part as u64 / whole as u64;
        let upper = share.min(self.count as u64) as u16;
        (
            Rows {
                width: self.width,
                top: self.top,
                count: upper,
            },
            Rows {
                width: self.width,
                top: self.top + upper,
                count: self.count - upper,
            },
        )
    }
}

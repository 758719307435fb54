// The parts of a state word that say how colours are stored.
ghost use Rattle.std.specs.Prelude.{◌≡◌, true, IsTrue};

/// How a draw's colours are blended and stored: the parts of its state word, to be decoded once a draw.
#[derive(Clone, Copy)]
pub struct Blending {
    pub(crate) mask: u8,
    pub(crate) blended: bool,
    pub(crate) source: u8,
    pub(crate) destination: u8,
    pub(crate) equation: u8,
    pub(crate) alpha_source: u8,
    pub(crate) alpha_destination: u8,
    pub(crate) alpha_equation: u8,
    pub(crate) over: bool,
    pub ghost over_blended: { IsTrue over → blended ≡ true },
    pub ghost over_mask: { IsTrue over → mask ≡ 15 },
    pub ghost over_source: { IsTrue over → source ≡ 5 },
    pub ghost over_destination: { IsTrue over → destination ≡ 6 },
    pub ghost over_equation: { IsTrue over → equation ≡ 0 },
    pub ghost over_alpha_source: { IsTrue over → alpha_source ≡ 5 },
    pub ghost over_alpha_destination: { IsTrue over → alpha_destination ≡ 6 },
    pub ghost over_alpha_equation: { IsTrue over → alpha_equation ≡ 0 },
}

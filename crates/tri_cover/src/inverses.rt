// Quotients by one divisor, without a division for each.
ghost use Rattle.std.specs.Prelude.{◌≡◌, ◌≤◌, ◌<◌, ◌^◌, ◌+◌, ◌-◌, ◌*◌, ℕ, pos, ◌*ℤ◌, unsigned_abs};
ghost use Rattle.std.specs.Int.{int_div_euclid, int_rem_euclid};

/// A divisor with a power of two by it.
#[derive(Clone, Copy)]
pub(crate) struct Inverse {
    pub divisor: u64,
    pub scale: u32,
    pub inverse: u64,
    pub ghost positive: { 0 < divisor },
    pub ghost few: { 62 ≤ scale },
    pub ghost many: { scale < 126 },
    pub ghost low: { inverse * divisor ≤ 2 ^ scale },
    pub ghost high: { 2 ^ scale < inverse * divisor + divisor },
    pub ghost fits: { inverse < 2 ^ 63 },
}

/// The power of two that makes the inverse of a divisor about 2^62.
fn scale_for(divisor: u64) -> u32
    requires { 0 < divisor }
    ensures few { 62 ≤ result }
    ensures many { result < 126 }
    ensures close { 2 ^ result ≤ 2 ^ 62 * divisor }
{
    125 - divisor.leading_zeros()
}

pub(crate) fn power(scale: u32) -> u128
    requires { scale < 126 }
    ensures { result ≡ 2 ^ scale }
{
    1 << scale
}

fn quotient(a: u128, divisor: u64) -> u128
    requires { 0 < divisor }
    ensures low { result * divisor ≤ a }
    ensures high { a < result * divisor + divisor }
{
    a / divisor as u128
}

/// A power of two in 64 bits.
pub(crate) fn small_power(n: u32) -> u64
    requires { n ≤ 62 }
    ensures value { result ≡ 2 ^ n }
    ensures near { result ≤ 2 ^ 62 }
{
    1 << n
}

/// A power of two from 2^62 on by a divisor of 32 bits, in two divisions of 64 bits.
fn short_quotient(more: u32, divisor: u64) -> u128
    requires more { more < 32 }
    requires positive { 0 < divisor }
    requires short { divisor < 2 ^ 32 }
    ensures low { result * divisor ≤ 2 ^ (62 + more) }
    ensures high { 2 ^ (62 + more) < result * divisor + divisor }
{
    let step = small_power(more);
    let full = small_power(62);
    let whole = full / divisor;
    let rest = full % divisor;
    whole as u128 * step as u128 + (rest * step / divisor) as u128
}

/// A power of two by a divisor.
fn power_by(scale: u32, divisor: u64) -> u128
    requires few { 62 ≤ scale }
    requires many { scale < 126 }
    requires positive { 0 < divisor }
    requires close { 2 ^ scale ≤ 2 ^ 62 * divisor }
    ensures low { result * divisor ≤ 2 ^ scale }
    ensures high { 2 ^ scale < result * divisor + divisor }
    ensures fits { result ≤ 2 ^ 62 }
{
    if divisor < 1 << 32 && scale < 94 {
        short_quotient(scale - 62, divisor)
    } else {
        quotient(power(scale), divisor)
    }
}

impl Inverse {
    ghost use Rattle.tri_cover.specs.Slope.{IsSlope};

    /// The inverse of a divisor, in 62 bits or so.
    pub(crate) fn new(divisor: u64) -> Inverse
        requires { 0 < divisor }
        ensures { result.divisor ≡ divisor }
    {
        let scale = scale_for(divisor);
        Inverse {
            divisor,
            scale,
            inverse: power_by(scale, divisor) as u64,
        }
    }

    /// The low 64 bits of z by the divisor, times 2^bits.
    pub(crate) fn slope(&self, z: i64, bits: u32) -> u64
        requires bits { bits ≤ 62 }
        requires room { self.now.scale - bits ≤ 62 }
        requires z { unsigned_abs z ≤ 2 ^ (self.now.scale - bits) }
        ensures { IsSlope z result self.now.divisor (2 ^ bits) }
    {
        let full = filled(z, self.scale - bits);
        low_bits(shifted(full, self.inverse))
    }
}

/// A number of so many bits, raised to 62.
fn filled(z: i64, bits: u32) -> i64
    requires bits { bits ≤ 62 }
    requires z { unsigned_abs z ≤ 2 ^ bits }
    ensures value { result ≡ z *ℤ pos (2 ^ (62 - bits)) }
    ensures near { unsigned_abs result ≤ 2 ^ 62 }
{
    z * small_power(62 - bits) as i64
}

/// The floor of a product by 2^62.
fn shifted(z: i64, inverse: u64) -> i128
    requires z { unsigned_abs z ≤ 2 ^ 62 }
    requires inverse { inverse < 2 ^ 63 }
    ensures { result ≡ int_div_euclid (z *ℤ pos inverse) (pos (2 ^ 62)) }
{
    z as i128 * inverse as i64 as i128 >> 62
}

/// The number modulo 2^64.
pub(crate) fn low_bits(z: i128) -> u64
    ensures { pos result ≡ int_rem_euclid z (pos (2 ^ 64)) }
{
    z.rem_euclid(1 << 64) as u64
}

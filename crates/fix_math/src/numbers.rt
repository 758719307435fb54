// Floors of quotients, and numbers cut to a range.
ghost use Rattle.std.specs.Prelude.{◌≡◌, pos, ◌<ℤ◌, unsigned_abs};
ghost use Rattle.gfx_model.specs.Number.{floor_div, clamp_i32 as clamped};

/// The greatest whole number that is not above `a` divided by `b`. `b` is above 0.
pub fn div_floor(a: i128, b: i128) -> i128
    requires { pos 0 <ℤ b }
    ensures { result ≡ floor_div a (unsigned_abs b) }
{
    a.div_euclid(b)
}

/// `a`, or the nearer end of `i32` where `a` lies outside it.
pub fn clamp_i32(a: i128) -> i32
    ensures { result ≡ clamped a }
{
    if a < i32::MIN as i128 {
        i32::MIN
    } else if a > i32::MAX as i128 {
        i32::MAX
    } else {
        a as i32
    }
}

// Signed sums and products with the bounds that keep them from overflowing.
ghost use Rattle.std.specs.Prelude.{◌≡◌, ◌≤◌, ◌<◌, ◌^◌, pos, ◌+ℤ◌, ◌-ℤ◌, ◌*ℤ◌, ◌<ℤ◌, unsigned_abs, IfSome, IsSome};
ghost use Rattle.std.specs.Int.{int_div_euclid};

pub(crate) fn difference(a: i32, b: i32) -> i64
    requires a { unsigned_abs a ≤ 2 ^ 27 }
    requires b { unsigned_abs b ≤ 2 ^ 27 }
    ensures value { result ≡ a -ℤ b }
    ensures near { unsigned_abs result < 2 ^ 29 }
{
    a as i64 - b as i64
}

pub(crate) fn product(a: i64, b: i64) -> i64
    requires a { unsigned_abs a < 2 ^ 29 }
    requires b { unsigned_abs b < 2 ^ 29 }
    ensures value { result ≡ a *ℤ b }
    ensures near { unsigned_abs result < 2 ^ 58 }
{
    a * b
}

pub(crate) fn less(a: i64, b: i64, c: i64) -> i64
    requires a { unsigned_abs a < 2 ^ 58 }
    requires b { unsigned_abs b < 2 ^ 58 }
    requires c { unsigned_abs c < 2 ^ 58 }
    ensures value { result ≡ a -ℤ b -ℤ c }
    ensures near { unsigned_abs result < 2 ^ 60 }
{
    a - b - c
}

/// The floor of a number by 256.
#[inline(always)]
pub(crate) fn floor_by_256(z: i64) -> i64
    ensures value { result ≡ int_div_euclid z (pos 256) }
    ensures near { unsigned_abs result ≤ 2 ^ 55 }
{
    z >> 8
}

fn wide_product(a: i64, b: i64) -> i128
    requires a { unsigned_abs a < 2 ^ 60 }
    requires b { unsigned_abs b < 2 ^ 32 }
    ensures value { result ≡ a *ℤ b }
    ensures near { unsigned_abs result < 2 ^ 92 }
{
    a as i128 * b as i128
}

fn wide_sum(a: i128, b: i128, c: i128) -> i128
    requires a { unsigned_abs a < 2 ^ 92 }
    requires b { unsigned_abs b < 2 ^ 92 }
    requires c { unsigned_abs c < 2 ^ 92 }
    ensures value { result ≡ a +ℤ b +ℤ c }
    ensures near { unsigned_abs result < 2 ^ 94 }
{
    a + b + c
}

/// The sum of three values u, v and w by their weights p, q and r.
pub(crate) fn weighted(p: i64, q: i64, r: i64, u: i64, v: i64, w: i64) -> i128
    requires p { unsigned_abs p < 2 ^ 60 }
    requires q { unsigned_abs q < 2 ^ 60 }
    requires r { unsigned_abs r < 2 ^ 60 }
    requires u { unsigned_abs u < 2 ^ 32 }
    requires v { unsigned_abs v < 2 ^ 32 }
    requires w { unsigned_abs w < 2 ^ 32 }
    ensures value { result ≡ p *ℤ u +ℤ q *ℤ v +ℤ r *ℤ w }
    ensures near { unsigned_abs result < 2 ^ 94 }
{
    wide_sum(wide_product(p, u), wide_product(q, v), wide_product(r, w))
}

fn narrow_product(a: i64, b: i64) -> i64
    requires a { unsigned_abs a < 2 ^ 30 }
    requires b { unsigned_abs b < 2 ^ 32 }
    ensures value { result ≡ a *ℤ b }
    ensures near { unsigned_abs result < 2 ^ 62 }
{
    a * b
}

/// The sum of two values v and w by their small weights q and r.
pub(crate) fn narrow_sum(q: i64, r: i64, v: i64, w: i64) -> i64
    requires q { unsigned_abs q < 2 ^ 30 }
    requires r { unsigned_abs r < 2 ^ 30 }
    requires v { unsigned_abs v < 2 ^ 32 }
    requires w { unsigned_abs w < 2 ^ 32 }
    ensures { result ≡ q *ℤ v +ℤ r *ℤ w }
{
    narrow_product(q, v) + narrow_product(r, w)
}

/// The sum of two values v and w by their weights q and r.
pub(crate) fn pair_sum(q: i64, r: i64, v: i64, w: i64) -> i128
    requires q { unsigned_abs q < 2 ^ 60 }
    requires r { unsigned_abs r < 2 ^ 60 }
    requires v { unsigned_abs v < 2 ^ 32 }
    requires w { unsigned_abs w < 2 ^ 32 }
    ensures { result ≡ q *ℤ v +ℤ r *ℤ w }
{
    wide_product(q, v) + wide_product(r, w)
}

/// The number, unless it is further from 0 than a limit.
pub(crate) fn limited(z: i64, limit: u64) -> Option<i64>
    ensures value { IfSome result (λ r. r ≡ z) }
    ensures near { IfSome result (λ r. unsigned_abs r ≤ limit) }
    ensures some { unsigned_abs z ≤ limit → IsSome result }
{
    if z.unsigned_abs() <= limit {
        Some(z)
    } else {
        None
    }
}

/// The number in 64 bits, unless it is further from 0 than a limit.
pub(crate) fn wide_limited(z: i128, limit: u64) -> Option<i64>
    requires { limit ≤ 2 ^ 62 }
    ensures value { IfSome result (λ r. r ≡ z) }
    ensures near { IfSome result (λ r. unsigned_abs r ≤ limit) }
    ensures some { unsigned_abs z ≤ limit → IsSome result }
{
    if z.unsigned_abs() <= limit as u128 {
        Some(z as i64)
    } else {
        None
    }
}

/// The floor of a quotient that is known to be small.
pub(crate) fn floor_of(z: i128, n: i64) -> i64
    requires n { pos 0 <ℤ n }
    requires z { unsigned_abs z < 2 ^ 94 }
    requires small { unsigned_abs (int_div_euclid z n) ≤ 2 ^ 33 }
    ensures { result ≡ int_div_euclid z n }
{
    z.div_euclid(n as i128) as i64
}

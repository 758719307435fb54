// Quotients that are stepped without a division.
ghost use Rattle.std.specs.Prelude.{◌≡◌, ◌≤◌, ◌<◌, ◌^◌, ◌+◌, ℤ, pos, ◌+ℤ◌, ◌*ℤ◌, ◌≤ℤ◌, ◌<ℤ◌, unsigned_abs};
ghost use Rattle.tri_cover.specs.Seen.{IsRest};

/// A whole number and a rest, both by one divisor.
#[derive(Clone, Copy)]
pub struct Quotient {
    pub whole: i64,
    pub rest: i64,
}

#[inline(always)]
fn settled(rest: i64, n: i64) -> Quotient
    requires n { unsigned_abs n < 2 ^ 60 }
    requires low { pos 0 ≤ℤ rest }
    requires high { rest <ℤ (n +ℤ n) }
    ensures rest { IsRest result n }
    ensures near { unsigned_abs result.whole < 2 }
    ensures value { rest ≡ result.whole *ℤ n +ℤ result.rest }
{
    if rest < n {
        Quotient { whole: 0, rest }
    } else {
        Quotient {
            whole: 1,
            rest: rest - n,
        }
    }
}

#[inline(always)]
fn whole_sum(a: i64, b: i64, c: i64) -> i64
    requires a { unsigned_abs a < 2 ^ 62 }
    requires b { unsigned_abs b < 2 ^ 40 }
    requires c { unsigned_abs c < 2 }
    ensures value { result ≡ a +ℤ b +ℤ c }
    ensures near { unsigned_abs result ≤ unsigned_abs a + unsigned_abs b + 1 }
{
    a + b + c
}

/// One step of a quotient, without a division.
#[inline(always)]
pub fn advanced(at: Quotient, by: Quotient, n: i64) -> Quotient
    requires n { unsigned_abs n < 2 ^ 60 }
    requires at { IsRest at n }
    requires by { IsRest by n }
    requires whole { unsigned_abs at.whole < 2 ^ 62 }
    requires step { unsigned_abs by.whole < 2 ^ 40 }
    ensures rest { IsRest result n }
    ensures near { unsigned_abs result.whole ≤ unsigned_abs at.whole + unsigned_abs by.whole + 1 }
    ensures steps { (z d : ℤ) → z ≡ at.whole *ℤ n +ℤ at.rest → d ≡ by.whole *ℤ n +ℤ by.rest → z +ℤ d ≡ result.whole *ℤ n +ℤ result.rest }
{
    let sum = settled(at.rest + by.rest, n);
    Quotient {
        whole: whole_sum(at.whole, by.whole, sum.whole),
        rest: sum.rest,
    }
}

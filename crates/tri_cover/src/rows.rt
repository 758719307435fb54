// Rows that a triangle may cover.
ghost use Rattle.std.specs.Prelude.{◌≡◌, ◌≤◌, ◌^◌, ◌+◌, ◌*◌, ℕ, pos, ◌≤ℤ◌, ◌<ℤ◌, unsigned_abs};
ghost use Rattle.std.specs.Int.{int_max, int_min};

/// A row's number that is none below 0 and none above the height.
pub(crate) fn within(row: i32, height: u16) -> u16
    ensures value { pos result ≡ int_max (pos 0) (int_min row (pos height)) }
    ensures high { result ≤ height }
{
    if row < 0 {
        0
    } else if row < height as i32 {
        row as u16
    } else {
        height
    }
}

pub(crate) fn least(a: i32, b: i32, c: i32) -> i32
    requires a { unsigned_abs a ≤ 2 ^ 27 }
    requires b { unsigned_abs b ≤ 2 ^ 27 }
    requires c { unsigned_abs c ≤ 2 ^ 27 }
    ensures a { result ≤ℤ a }
    ensures b { result ≤ℤ b }
    ensures c { result ≤ℤ c }
    ensures near { unsigned_abs result ≤ 2 ^ 27 }
{
    let low = if a < b { a } else { b };
    if low < c { low } else { c }
}

pub(crate) fn greatest(a: i32, b: i32, c: i32) -> i32
    requires a { unsigned_abs a ≤ 2 ^ 27 }
    requires b { unsigned_abs b ≤ 2 ^ 27 }
    requires c { unsigned_abs c ≤ 2 ^ 27 }
    ensures a { a ≤ℤ result }
    ensures b { b ≤ℤ result }
    ensures c { c ≤ℤ result }
    ensures near { unsigned_abs result ≤ 2 ^ 27 }
{
    let high = if a < b { b } else { a };
    if high < c { c } else { high }
}

/// A row that is not behind any row whose centre is at or below a height.
pub(crate) fn row_from(top: i32) -> i32
    requires { unsigned_abs top ≤ 2 ^ 27 }
    ensures { (y : ℕ) → top ≤ℤ pos (256 * y + 128) → result ≤ℤ pos y }
{
    (top + 127).div_euclid(256)
}

/// A row behind each row whose centre is at or above a height.
pub(crate) fn row_after(bottom: i32) -> i32
    requires { unsigned_abs bottom ≤ 2 ^ 27 }
    ensures { (y : ℕ) → pos (256 * y + 128) ≤ℤ bottom → pos y <ℤ result }
{
    (bottom + 128).div_euclid(256)
}

//! Quotients, roots and the index of a covariance, all cut off and never rounded.

ghost use Rattle.std.specs.Prelude.{◌≡◌, ℕ, ◌+◌, ◌*◌, ◌/◌, ◌^◌, ◌<◌, ◌≤◌, unsigned_abs};
ghost use Rattle.mls_model.specs.Indices.{rho6};

/// The quotient `num / den` in units of 10⁻¹², cut off, a digit at a time.
fn digit_by_digit(num: u128, den: u128) -> u64
    requires within { num ≤ den }
    requires some { 0 < den }
    requires small { den < 2 ^ 124 }
    ensures { result ≡ num * 1000000000000 / den }
{
    let mut quotient = (num / den) as u64;
    let mut rest = num % den;
    for _digit in 0..12u32 {
        let tenfold = rest * 10;
        quotient = quotient * 10 + (tenfold / den) as u64;
        rest = tenfold % den;
    }
    quotient
}

/// The same, six digits at a time.
fn six_by_six(num: u128, den: u128) -> u64
    requires within { num ≤ den }
    requires some { 0 < den }
    requires small { den < 2 ^ 108 }
    ensures { result ≡ num * 1000000000000 / den }
{
    let million = num * 1_000_000;
    let front = million / den;
    let rest = million - front * den;
    (front * 1_000_000 + rest * 1_000_000 / den) as u64
}

/// The quotient `num / den` in units of 10⁻¹², cut off.
///
/// A division of 128 bits costs most here, so there are as few as the numbers' sizes allow.
pub fn digits12(num: u128, den: u128) -> u64
    requires within { num ≤ den }
    requires some { 0 < den }
    requires small { den < 2 ^ 124 }
    ensures { result ≡ num * 1000000000000 / den }
{
    if num < 1 << 88 {
        return (num * 1_000_000_000_000 / den) as u64;
    }
    if den < 1 << 108 {
        return six_by_six(num, den);
    }
    digit_by_digit(num, den)
}

/// The greatest whole number whose square is at most `q`, where it is below `end`.
fn root_below(q: u64, end: u64) -> u64
    requires end { q < end * end }
    requires small { end ≤ 2 ^ 32 }
    ensures within { result * result ≤ q }
    ensures greatest { q < (result + 1) * (result + 1) }
{
    let mut low = 0u64;
    let mut high = end;
    while high - low > 1 {
        let middle = low + (high - low) / 2;
        if middle * middle <= q {
            low = middle;
        } else {
            high = middle;
        }
    }
    low
}

/// The greatest whole number whose square is at most `q`.
pub fn root(q: u64) -> u64
    ensures within { result * result ≤ q }
    ensures greatest { q < (result + 1) * (result + 1) }
{
    root_below(q, 1 << 32)
}

/// The index `c / (√v · √w)` in millionths, cut off towards 0, and None where `v` or `w` is 0.
pub fn rho6(c: i128, v: u128, w: u128) -> Option<i32>
    requires within { unsigned_abs c * unsigned_abs c ≤ v * w }
    requires first { v < 2 ^ 62 }
    requires second { w < 2 ^ 62 }
    ensures { result ≡ rho6 c v w }
{
    if v == 0 || w == 0 {
        return None;
    }
    let size = c.unsigned_abs();
    let millionths = root_below(digits12(size * size, v * w), 1 << 20) as i32;
    Some(if c < 0 { -millionths } else { millionths })
}

//! The rules that the sums of rows keep, as tests.

ghost use Rattle.std.specs.Prelude.{◌≡◌, ℕ, ◌+◌, ◌*◌, ◌<◌, ◌≤◌, ◌↔◌, List, length, slice_index, IsTrue};
ghost use Rattle.mls_cov.specs.Rules.{AreSums, AreProducts, KeepsColumn, KeepsRules};

/// Whether `x` can be the sum of so many samples, and `xx` the sum of their squares.
pub fn are_sums(count: u32, x: u64, xx: u64) -> bool
    requires { count ≤ 65535 }
    ensures { IsTrue result ↔ AreSums count x xx }
{
    if x > 65535 * count as u64 {
        return false;
    }
    if xx > 65535 * x {
        return false;
    }
    x as u128 * x as u128 <= count as u128 * xx as u128
}

/// Whether `xy` can be the sum of the products of samples whose sums and sums of squares are `x` and `xx`, `y` and `yy`.
pub fn are_products(count: u32, x: u64, xx: u64, y: u64, yy: u64, xy: u64) -> bool
    requires few { count ≤ 65535 }
    requires left { AreSums count x xx }
    requires right { AreSums count y yy }
    ensures { IsTrue result ↔ AreProducts count x xx y yy xy }
{
    if count == 0 {
        return xy == 0;
    }
    let count = count as u128;
    let covariance = (count * xy as u128).abs_diff(x as u128 * y as u128);
    if covariance >= 1 << 62 {
        return false;
    }
    let left = count * xx as u128 - x as u128 * x as u128;
    let right = count * yy as u128 - y as u128 * y as u128;
    covariance * covariance <= left * right
}

/// Whether the sums of C^k keep their rules.
fn keeps_column(count: u32, k: usize, sums: &[u64]) -> bool
    requires few { count ≤ 65535 }
    requires k_in { k < 16 }
    requires size { 8 + 4 * k ≤ length sums.now }
    requires a { AreSums count (slice_index sums.now 0) (slice_index sums.now 2) }
    requires b { AreSums count (slice_index sums.now 1) (slice_index sums.now 3) }
    ensures { IsTrue result ↔ KeepsColumn count k sums.now }
{
    let at = 4 + 4 * k;
    let (y, yy) = (sums[at], sums[at + 1]);
    are_sums(count, y, yy)
        && are_products(count, sums[0], sums[2], y, yy, sums[at + 2])
        && are_products(count, sums[1], sums[3], y, yy, sums[at + 3])
}

/// Whether sums that stand in the front of a list keep the rules of the sums of so many rows.
pub fn keeps_rules(count: u32, parameters: u32, sums: &[u64]) -> bool
    requires few { count ≤ 65535 }
    requires parameters { parameters ≤ 16 }
    requires size { 4 + 4 * parameters ≤ length sums.now }
    ensures { IsTrue result ↔ KeepsRules count parameters sums.now }
{
    if !are_sums(count, sums[0], sums[2]) {
        return false;
    }
    if !are_sums(count, sums[1], sums[3]) {
        return false;
    }
    for k in 0..parameters as usize {
        if !keeps_column(count, k, sums) {
            return false;
        }
    }
    true
}

/// Whether a list is 0 from a place on.
pub fn is_zero_from(place: usize, sums: &[u64]) -> bool
    ensures { IsTrue result ↔ ((i : ℕ) → place ≤ i → slice_index sums.now i ≡ 0) }
{
    for i in place..sums.len() {
        if sums[i] != 0 {
            return false;
        }
    }
    true
}

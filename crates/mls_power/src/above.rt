//! Numbers of samples above thresholds in packed storage.

ghost use Rattle.std.specs.Prelude.{◌≡◌, ℕ, ◌+◌, ◌≤◌, List, [], ◌∷◌, ◌++◌, length, slice_index, cond, nat_lt};
ghost use Rattle.mls_power.specs.NumbersAbove.{HoldsAbove};
ghost use Rattle.mls_power.specs.Rules.{AreNumbersAbove};

use mls_base::shape::Shape;

/// 1 for a sample above a threshold, and 0 for another. It is added without a branch, which samples in no order would make slow.
pub fn one_if_above(x: u16, threshold: u16) -> u32
    ensures value { result ≡ cond (nat_lt threshold x) 1 0 }
    ensures small { result ≤ 1 }
{
    if x > threshold { 1 } else { 0 }
}

/// Adds a sample, a shifted value, to the numbers above the thresholds of a shape, one number for each threshold. Numbers behind these stay.
pub fn add_above(numbers: &mut [u32], shape: &Shape, x: u16)
    requires size { length shape.now.thresholds ≤ length numbers.old }
    requires room { AreNumbersAbove 131069 numbers.old }
    ensures range { (n : ℕ) → AreNumbersAbove n numbers.old → AreNumbersAbove (n + 1) numbers.new }
    ensures adds { (ws : List ℕ) → HoldsAbove shape.now.thresholds numbers.old ws →
        HoldsAbove shape.now.thresholds numbers.new (ws ++ x ∷ []) }
    ensures behind { (i : ℕ) → length shape.now.thresholds ≤ i → slice_index numbers.new i ≡ slice_index numbers.old i }
{
    for i in 0..shape.thresholds() {
        numbers[i as usize] += one_if_above(x, shape.threshold(i));
    }
}

/// Adds two samples, the one after the other, in one walk over the thresholds.
pub fn add_pair_above(numbers: &mut [u32], shape: &Shape, x: u16, y: u16)
    requires size { length shape.now.thresholds ≤ length numbers.old }
    requires room { AreNumbersAbove 131068 numbers.old }
    ensures range { (n : ℕ) → AreNumbersAbove n numbers.old → AreNumbersAbove (n + 2) numbers.new }
    ensures adds { (ws : List ℕ) → HoldsAbove shape.now.thresholds numbers.old ws →
        HoldsAbove shape.now.thresholds numbers.new ((ws ++ x ∷ []) ++ y ∷ []) }
    ensures behind { (i : ℕ) → length shape.now.thresholds ≤ i → slice_index numbers.new i ≡ slice_index numbers.old i }
{
    for i in 0..shape.thresholds() {
        let threshold = shape.threshold(i);
        let more = one_if_above(x, threshold) + one_if_above(y, threshold);
        numbers[i as usize] += more;
    }
}

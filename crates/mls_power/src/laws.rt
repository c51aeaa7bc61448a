//! Laws of the statistics by two passes, for every list of values.

ghost use Rattle.std.specs.Prelude.{◌≡◌, ℕ, ◌*◌, ◌+◌, ◌<◌, ◌≤◌, Bool, List, length, map, sum_by, ℤ, pos, ◌*ℤ◌};
ghost use Rattle.std.specs.Prelude.{◌-ℤ◌, ◌≤ℤ◌, FitsSigned, IsTrue};
ghost use Rattle.std.specs.List.{AllByRecursion};
ghost use Rattle.std.specs.Int.{w128};
ghost use Rattle.mls_model.specs.Numbers.{sum_ints, square, cube};
ghost use Rattle.mls_model.specs.Samples.{unshifted};
ghost use Rattle.mls_model.specs.Statistics.{size, deviation, variance_top, third_top};
ghost use Rattle.mls_model.specs.Studies.{rises};
ghost use Rattle.mls_power.specs.Extremes.{least_in, greatest_in, HoldsExtrema};
ghost use Rattle.mls_power.specs.NumbersAbove.{HoldsAbove};
ghost use Rattle.mls_power.specs.Rules.{AreSums, AreExtrema, AreNumbersOf};

/// The divisions in V and U leave no rest.
pub fn tops_are_whole()
    ensures variance { (ws : List ℤ) → size ws *ℤ variance_top ws ≡ sum_ints (λ w. square (deviation ws w)) ws }
    ensures third { (ws : List ℤ) → size ws *ℤ third_top ws ≡ sum_ints (λ w. cube (deviation ws w)) ws }
{}

/// V and U in one pass, from power sums.
pub fn tops_in_one_pass()
    ensures variance { (ws : List ℕ) → variance_top (map pos ws) ≡
        pos (length ws * sum_by (λ w. w * w) ws) -ℤ pos (sum_by (λ w. w) ws * sum_by (λ w. w) ws) }
    ensures third { (ws : List ℕ) → let n = length ws in let p1 = sum_by (λ w. w) ws in third_top (map pos ws) ≡
        pos (n * n * sum_by (λ w. w * w * w) ws + 2 * (p1 * p1 * p1)) -ℤ pos (3 * (n * p1 * sum_by (λ w. w * w) ws)) }
{}

/// V and U are the same over shifted values and over values.
pub fn tops_of_shifted_values()
    ensures variance { (signed : Bool) (ws : List ℕ) → variance_top (map (unshifted signed) ws) ≡ variance_top (map pos ws) }
    ensures third { (signed : Bool) (ws : List ℕ) → third_top (map (unshifted signed) ws) ≡ third_top (map pos ws) }
{}

/// V is not negative.
pub fn variance_top_is_from_zero()
    ensures { (ws : List ℤ) → pos 0 ≤ℤ variance_top ws }
{}

/// U of at most 131,070 samples of 16 bits fits 128 bits.
pub fn third_top_fits()
    ensures { (signed : Bool) (ws : List ℕ) → length ws ≤ 131070 → AllByRecursion (λ w. w < 65536) ws →
        FitsSigned w128 (third_top (map (unshifted signed) ws)) }
{}

/// The rules on sums, extrema and numbers above thresholds hold of those of every list of samples of 16 bits.
pub fn rules_of_samples()
    ensures sums { (ws : List ℕ) → AllByRecursion (λ w. w < 65536) ws →
        AreSums (length ws) (sum_by (λ w. w) ws) (sum_by (λ w. w * w) ws) (sum_by (λ w. w * w * w) ws) (sum_by (λ w. w * w * (w * w)) ws) }
    ensures extrema { (ends ws : List ℕ) → HoldsExtrema ends ws → AreExtrema (length ws) (least_in ends) (greatest_in ends) }
    ensures above { (thresholds numbers ws : List ℕ) → IsTrue (rises thresholds) → length numbers ≡ length thresholds →
        HoldsAbove thresholds numbers ws → AreNumbersOf (length thresholds) (length ws) numbers }
{}

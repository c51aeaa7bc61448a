//! Extrema in two numbers of packed storage.

ghost use Rattle.std.specs.Prelude.{◌≡◌, ℕ, ◌+◌, List, [], ◌∷◌, ◌++◌, length};
ghost use Rattle.mls_power.specs.Extremes.{least_in, greatest_in, HoldsExtrema};
ghost use Rattle.mls_power.specs.Rules.{AreExtrema};

/// How many numbers hold the extrema of a list of samples.
pub const EXTREMA_NUMBERS: usize = 2;

/// The two numbers of no samples.
pub const NO_EXTREMA: [u16; EXTREMA_NUMBERS] = [65535, 0];

/// Adds a sample to the extrema that the numbers hold: the least first, then the greatest.
pub fn add_to_extrema(ends: &mut [u16], x: u16)
    requires { length ends.old ≡ 2 }
    ensures range { (n : ℕ) → AreExtrema n (least_in ends.old) (greatest_in ends.old) →
        AreExtrema (n + 1) (least_in ends.new) (greatest_in ends.new) }
    ensures adds { (ws : List ℕ) → HoldsExtrema ends.old ws → HoldsExtrema ends.new (ws ++ x ∷ []) }
{
    ends[0] = ends[0].min(x);
    ends[1] = ends[1].max(x);
}

//! What holds of the index and of the number of millionths as they are defined.

ghost use Rattle.std.specs.Prelude.{◌≡◌, ℕ, ◌+◌, ◌*◌, ◌<◌, ◌≤◌, ℤ, pos, negsuc, ◌≤ℤ◌, unsigned_abs, IfSome};
ghost use Rattle.mls_model.specs.Indices.{millionths, rho6};

/// The number of millionths is the greatest whole number q with q² · v · w ≤ 10¹² · c².
pub fn millionths_are_greatest()
    ensures within { (c v w : ℕ) → c * c ≤ v * w →
        let q = millionths c v w in q * q * (v * w) ≤ 1000000000000 * (c * c) }
    ensures greatest { (c v w : ℕ) → c * c ≤ v * w → 0 < v * w →
        let q = millionths c v w in 1000000000000 * (c * c) < (q + 1) * (q + 1) * (v * w) }
{}

/// An index lies between -1 and 1.
pub fn index_is_bounded()
    ensures low { (c : ℤ) (v w : ℕ) → unsigned_abs c * unsigned_abs c ≤ v * w →
        IfSome (rho6 c v w) (λ r. negsuc 999999 ≤ℤ r) }
    ensures high { (c : ℤ) (v w : ℕ) → unsigned_abs c * unsigned_abs c ≤ v * w →
        IfSome (rho6 c v w) (λ r. r ≤ℤ pos 1000000) }
{}

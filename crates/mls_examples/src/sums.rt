//! What is said from the sums of a cell, without its rows.

ghost use Rattle.std.specs.Prelude.{◌≡◌, [], ◌∷◌, pos, negsuc, false, true, codes};
ghost use Rattle.mls_model.specs.CellSums.{sums_of};
ghost use Rattle.mls_model.specs.ResultText.{exceed_words};
ghost use Rattle.mls_model.specs.SumsText.{sums_powers, sums_extrema, cov_a, cov_b, var_a, var_b, var_c};
ghost use Rattle.mls_examples.specs.Statistics.{two_groups_power};
ghost use Rattle.mls_examples.specs.Sums.{two_rows, two_rows_sums, signed_rows, signed_power, no_power};

/// The sums of two groups with the thresholds 1 and 3, and the lines that they give.
pub fn two_rows()
    ensures sums { sums_of 1 (1 ∷ 3 ∷ []) two_rows ≡ two_rows_sums }
    ensures powers { sums_powers false two_rows_sums ≡ two_groups_power }
    ensures extrema { sums_extrema false two_rows_sums ≡ codes "extrema 1 5\n" }
    ensures exceed { exceed_words two_rows_sums.above ≡ codes "exceed 2 1\n" }
    ensures cov_b { cov_b two_rows_sums 0 ≡ pos 4 }
    ensures cov_a { cov_a two_rows_sums 0 ≡ negsuc 7 }
    ensures var_a { var_a two_rows_sums ≡ 16 }
    ensures var_b { var_b two_rows_sums ≡ 4 }
    ensures var_c { var_c two_rows_sums 0 ≡ 4 }
{}

/// Sums are kept over shifted values, and the lines print what belongs to values.
pub fn signed_rows()
    ensures powers { sums_powers true (sums_of 1 [] signed_rows) ≡ signed_power }
    ensures extrema { sums_extrema true (sums_of 1 [] signed_rows) ≡ codes "extrema -1 5\n" }
    ensures cov_a { cov_a (sums_of 1 [] signed_rows) 0 ≡ negsuc 23 }
    ensures var_a { var_a (sums_of 1 [] signed_rows) ≡ 36 }
{}

/// No rows.
pub fn no_rows()
    ensures powers { sums_powers false (sums_of 1 [] []) ≡ no_power }
    ensures extrema { sums_extrema false (sums_of 1 [] []) ≡ codes "extrema -\n" }
{}

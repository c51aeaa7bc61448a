//! Rows in another order.

ghost use Rattle.std.specs.Prelude.{◌≡◌, ℕ, ℤ, List, length};
ghost use Rattle.std.specs.List.Sorted.{IsPermutation};
ghost use Rattle.mls_model.specs.Studies.{Study};
ghost use Rattle.mls_model.specs.Statistics.{column, outputs, total, squares, cubes, fourths, variance_top, third_top, least, most, above, covariance_top, spread_top};
ghost use Rattle.mls_model.specs.Indices.{first_index, total_index};
ghost use Rattle.mls_model.specs.CellSums.{sums_of};
ghost use Rattle.mls_model.specs.ResultText.{cell_text};

/// The batch statistics of a list of rows are those of the same rows in any other order.
pub fn statistics_of_permuted_rows()
    ensures number { (xs ys : List (List ℤ)) → IsPermutation xs ys → length xs ≡ length ys }
    ensures first { (xs ys : List (List ℤ)) → IsPermutation xs ys → total (outputs xs) ≡ total (outputs ys) }
    ensures second { (xs ys : List (List ℤ)) → IsPermutation xs ys → squares (outputs xs) ≡ squares (outputs ys) }
    ensures third { (xs ys : List (List ℤ)) → IsPermutation xs ys → cubes (outputs xs) ≡ cubes (outputs ys) }
    ensures fourth { (xs ys : List (List ℤ)) → IsPermutation xs ys → fourths (outputs xs) ≡ fourths (outputs ys) }
    ensures variance { (xs ys : List (List ℤ)) → IsPermutation xs ys →
        variance_top (outputs xs) ≡ variance_top (outputs ys) }
    ensures third_moment { (xs ys : List (List ℤ)) → IsPermutation xs ys →
        third_top (outputs xs) ≡ third_top (outputs ys) }
    ensures least { (xs ys : List (List ℤ)) → IsPermutation xs ys → least (outputs xs) ≡ least (outputs ys) }
    ensures most { (xs ys : List (List ℤ)) → IsPermutation xs ys → most (outputs xs) ≡ most (outputs ys) }
    ensures above { (threshold : ℤ) (xs ys : List (List ℤ)) → IsPermutation xs ys →
        above threshold (outputs xs) ≡ above threshold (outputs ys) }
    ensures covariance { (i j : ℕ) (xs ys : List (List ℤ)) → IsPermutation xs ys →
        covariance_top (column i xs) (column j xs) ≡ covariance_top (column i ys) (column j ys) }
    ensures spread { (i : ℕ) (xs ys : List (List ℤ)) → IsPermutation xs ys →
        spread_top (column i xs) ≡ spread_top (column i ys) }
    ensures first_index { (k : ℕ) (xs ys : List (List ℤ)) → IsPermutation xs ys →
        first_index k xs ≡ first_index k ys }
    ensures total_index { (k : ℕ) (xs ys : List (List ℤ)) → IsPermutation xs ys →
        total_index k xs ≡ total_index k ys }
{}

/// The sums that are kept of a list of rows of shifted values are those of the same rows in any other order.
pub fn sums_of_permuted_rows()
    ensures { (parameters : ℕ) (thresholds : List ℕ) (xs ys : List (List ℕ)) → IsPermutation xs ys →
        sums_of parameters thresholds xs ≡ sums_of parameters thresholds ys }
{}

/// What is printed of a cell is the same for its rows in any order.
pub fn text_of_permuted_rows()
    ensures { (study : Study) (step field x : ℕ) (xs ys : List (List ℤ)) → IsPermutation xs ys →
        cell_text study step field x xs ≡ cell_text study step field x ys }
{}

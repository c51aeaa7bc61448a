//! Laws of the covariance by two passes, for every list of rows.

ghost use Rattle.std.specs.Prelude.{◌≡◌, ℕ, ◌+◌, ◌*◌, ◌^◌, ◌<◌, ◌≤◌, Bool, List, [], length, map, slice_index, ℤ};
ghost use Rattle.std.specs.Prelude.{pos, ◌*ℤ◌, ◌-ℤ◌, unsigned_abs};
ghost use Rattle.std.specs.List.{AllByRecursion};
ghost use Rattle.mls_model.specs.Samples.{unshifted};
ghost use Rattle.mls_model.specs.Statistics.{size, column, deviation, sum_pairs, covariance_top, spread_top};
ghost use Rattle.mls_cov.specs.Rules.{KeepsRules};
ghost use Rattle.mls_cov.specs.Sums.{sum_of, products_of, HoldsSums};

/// The division in a covariance leaves no rest.
pub fn covariance_is_whole()
    ensures { (rows : List (List ℤ)) (i j : ℕ) → let xs = column i rows in let ys = column j rows in
        size xs *ℤ covariance_top xs ys ≡ sum_pairs (λ x y. deviation xs x *ℤ deviation ys y) xs ys }
{}

/// The covariance in one pass, from sums.
pub fn covariance_in_one_pass()
    ensures { (rows : List (List ℕ)) (i j : ℕ) → let values = map (map pos) rows in
        covariance_top (column i values) (column j values) ≡
        pos (length rows * products_of i j rows) -ℤ pos (sum_of i rows * sum_of j rows) }
{}

/// The covariance is the same over shifted values and over values.
pub fn covariance_of_shifted_values()
    ensures { (signed : Bool) (rows : List (List ℕ)) (i j : ℕ) → AllByRecursion (λ row. i < length row) rows →
        AllByRecursion (λ row. j < length row) rows → let values = map (map (unshifted signed)) rows in
        let shifted = map (map pos) rows in covariance_top (column i values) (column j values) ≡
        covariance_top (column i shifted) (column j shifted) }
{}

/// The square of a covariance is at most the product of the variances.
pub fn covariance_is_bounded()
    ensures { (rows : List (List ℤ)) (i j : ℕ) →
        let c = unsigned_abs (covariance_top (column i rows) (column j rows)) in
        c * c ≤ spread_top (column i rows) * spread_top (column j rows) }
{}

/// The variance of at most 65,535 samples of 16 bits has at most 62 bits.
pub fn variance_is_small()
    ensures { (signed : Bool) (rows : List (List ℕ)) (j : ℕ) → length rows ≤ 65535 →
        AllByRecursion (λ row. (j < length row) × AllByRecursion (λ x. x < 65536) row) rows →
        spread_top (column j (map (map (unshifted signed)) rows)) < 2 ^ 62 }
{}

/// The sums of rows of samples of 16 bits keep the rules.
pub fn sums_of_rows_keep_rules()
    ensures { (p : ℕ) (sums : List ℕ) (rows : List (List ℕ)) → HoldsSums p sums rows →
        AllByRecursion (λ row. AllByRecursion (λ x. x < 65536) row) rows → KeepsRules (length rows) p sums }
{}

/// The sums of no rows are 0.
pub fn sums_of_no_rows()
    ensures holds { (p : ℕ) (sums : List ℕ) → ((i : ℕ) → i < 4 + 4 * p → slice_index sums i ≡ 0) → HoldsSums p sums [] }
    ensures rules { (p : ℕ) (sums : List ℕ) → ((i : ℕ) → i < 4 + 4 * p → slice_index sums i ≡ 0) → KeepsRules 0 p sums }
{}

/// What is said of sums in the front of a list speaks of the front alone.
pub fn sums_stand_in_the_front()
    ensures holds { (p : ℕ) (sums other : List ℕ) → ((i : ℕ) → i < 4 + 4 * p → slice_index other i ≡ slice_index sums i) →
        (rows : List (List ℕ)) → HoldsSums p sums rows → HoldsSums p other rows }
    ensures rules { (p : ℕ) (sums other : List ℕ) → ((i : ℕ) → i < 4 + 4 * p → slice_index other i ≡ slice_index sums i) →
        (n : ℕ) → KeepsRules n p sums → KeepsRules n p other }
{}

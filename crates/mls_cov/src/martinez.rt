//! The sums of a list of rows, and the parts of the indices that are read from them.

ghost use Rattle.std.specs.Prelude.{◌≡◌, ℕ, ◌+◌, ◌-◌, ◌*◌, ◌<◌, ◌≤◌, List, length, take, slice_index, ℤ, pos, ◌-ℤ◌};
ghost use Rattle.mls_cov.specs.Rules.{AreSums, KeepsRules};

use crate::ranges::{is_zero_from, keeps_rules};
use crate::sums::{SUM_COUNT, add_row};
use mls_base::row::Row;

/// The name of a sum: of A, B or C^k, or of the products of two of them.
#[derive(Clone, Copy, Debug, PartialEq, Eq)]
pub enum Sum {
    /// Of A.
    A,
    /// Of B.
    B,
    /// Of the squares of A.
    AA,
    /// Of the squares of B.
    BB,
    /// Of C^k.
    C { k: u32 },
    /// Of the squares of C^k.
    CC { k: u32 },
    /// Of the products of A and C^k.
    AC { k: u32 },
    /// Of the products of B and C^k.
    BC { k: u32 },
}

/// What the indices of a parameter are made of, each n² times a covariance or a variance of n rows, so a whole number.
#[derive(Clone, Copy, Debug, PartialEq, Eq)]
pub struct IndexParts {
    /// The covariance of B and C^k.
    pub cov_b: i128,
    /// The covariance of A and C^k.
    pub cov_a: i128,
    /// The variance of A.
    pub var_a: u128,
    /// The variance of B.
    pub var_b: u128,
    /// The variance of C^k.
    pub var_c: u128,
}

/// The sums of a list of rows of p + 2 samples.
#[derive(Clone, Copy, Debug)]
pub struct Martinez {
    count: u32,
    parameters: u32,
    sums: [u64; SUM_COUNT],
    ghost few: { count ≤ 65535 },
    ghost sized: { parameters ≤ 16 },
    ghost rules: { KeepsRules count parameters sums },
    ghost none_beyond: { (i : ℕ) → 4 + 4 * parameters ≤ i → slice_index sums i ≡ 0 },
}

// The samples of a row, in the front of an array.
fn samples_of(row: &Row) -> [u16; 18]
    ensures { take (length row.now) result ≡ row.now }
{
    let mut samples = [0; 18];
    for i in 0..row.len() {
        samples[i as usize] = row.at(i);
    }
    samples
}

fn no_sums() -> [u64; SUM_COUNT]
    ensures { (i : ℕ) → slice_index result i ≡ 0 }
{
    [0; SUM_COUNT]
}

// n times a sum of products less the product of two sums.
fn covariance_top(count: u32, x: u64, y: u64, products: u64) -> i128
    requires few { count ≤ 65535 }
    requires first { x ≤ 65535 * count }
    requires second { y ≤ 65535 * count }
    requires third { products ≤ 281462092005375 }
    ensures { result ≡ pos (count * products) -ℤ pos (x * y) }
{
    let over = count as u128 * products as u128;
    let under = x as u128 * y as u128;
    over as i128 - under as i128
}

fn spread_top(count: u32, x: u64, squares: u64) -> u128
    requires few { count ≤ 65535 }
    requires range { AreSums count x squares }
    ensures { result ≡ count * squares - x * x }
{
    count as u128 * squares as u128 - x as u128 * x as u128
}

impl Martinez {
    ghost use Rattle.std.specs.Prelude.{◌≡◌, ℕ, ◌+◌, ◌*◌, ◌^◌, ◌<◌, ◌≤◌, ◌↔◌, Bool, List, [], ◌∷◌, ◌++◌, length};
    ghost use Rattle.std.specs.Prelude.{map, slice_index, unsigned_abs, IsSome, IfSome};
    ghost use Rattle.mls_model.specs.Samples.{unshifted};
    ghost use Rattle.mls_model.specs.Statistics.{column, covariance_top, spread_top};
    ghost use Rattle.mls_cov.specs.Sums.{HoldsSums};
    ghost use Rattle.mls_cov.specs.Rules.{KeepsRules};
    ghost use Rattle.mls_cov.specs.Standing.{count_of, parameters_of, sums_in, place_of, StandsFor, ArePartsOf};

    /// The sums of no rows of so many parameters.
    pub fn new(parameters: u32) -> Martinez
        requires { parameters ≤ 16 }
        ensures parameters { parameters_of result ≡ parameters }
        ensures stands { StandsFor result [] }
    {
        Martinez {
            count: 0,
            parameters,
            sums: no_sums(),
        }
    }

    /// The sums that stand in the front of a list, as `add_row` keeps them, of so many rows.
    pub fn unpacked(count: u32, parameters: u32, words: &[u64]) -> Martinez
        requires few { count ≤ 65535 }
        requires parameters { parameters ≤ 16 }
        requires size { 4 + 4 * parameters ≤ length words.now }
        requires rules { KeepsRules count parameters words.now }
        ensures count { count_of result ≡ count }
        ensures parameters { parameters_of result ≡ parameters }
        ensures sums { (i : ℕ) → i < 4 + 4 * parameters → slice_index (sums_in result) i ≡ slice_index words.now i }
        ensures stands { (rows : List (List ℕ)) → length rows ≡ count → HoldsSums parameters words.now rows →
            StandsFor result rows }
    {
        let mut sums = no_sums();
        for i in 0..4 + 4 * parameters as usize {
            sums[i] = words[i];
        }
        Martinez {
            count,
            parameters,
            sums,
        }
    }

    /// Adds a row.
    pub fn add(&mut self, row: &Row)
        requires row { length row.now ≡ parameters_of self.old + 2 }
        requires room { count_of self.old < 65535 }
        ensures count { count_of self.new ≡ count_of self.old + 1 }
        ensures parameters { parameters_of self.new ≡ parameters_of self.old }
        ensures adds { (rows : List (List ℕ)) → StandsFor self.old rows → StandsFor self.new (rows ++ row.now ∷ []) }
    {
        let samples = samples_of(row);
        add_row(
            &mut self.sums,
            self.parameters,
            &samples[..row.len() as usize],
        );
        self.count += 1;
    }

    /// The number of rows.
    pub fn count(&self) -> u32
        ensures { result ≡ count_of self.now }
    {
        self.count
    }

    /// A sum; those of a `k` that is no parameter's are 0.
    pub fn sum(&self, which: Sum) -> u64
        requires { place_of which < 68 }
        ensures { result ≡ slice_index (sums_in self.now) (place_of which) }
    {
        let (k, at) = match which {
            Sum::A => (0, 0),
            Sum::B => (0, 1),
            Sum::AA => (0, 2),
            Sum::BB => (0, 3),
            Sum::C { k } => (k, 4),
            Sum::CC { k } => (k, 5),
            Sum::AC { k } => (k, 6),
            Sum::BC { k } => (k, 7),
        };
        self.sums[4 * k as usize + at]
    }

    /// The covariances and variances of which the indices of parameter `k` are made.
    pub fn index(&self, k: u32) -> IndexParts
        requires { k < parameters_of self.now }
        ensures formulas { ArePartsOf (count_of self.now) k (sums_in self.now) result }
        ensures cov_b { (signed : Bool) (rows : List (List ℕ)) → StandsFor self.now rows →
            let values = map (map (unshifted signed)) rows in result.cov_b ≡
            covariance_top (column 1 values) (column (2 + k) values) }
        ensures cov_a { (signed : Bool) (rows : List (List ℕ)) → StandsFor self.now rows →
            let values = map (map (unshifted signed)) rows in result.cov_a ≡
            covariance_top (column 0 values) (column (2 + k) values) }
        ensures var_a { (signed : Bool) (rows : List (List ℕ)) → StandsFor self.now rows → result.var_a ≡
            spread_top (column 0 (map (map (unshifted signed)) rows)) }
        ensures var_b { (signed : Bool) (rows : List (List ℕ)) → StandsFor self.now rows → result.var_b ≡
            spread_top (column 1 (map (map (unshifted signed)) rows)) }
        ensures var_c { (signed : Bool) (rows : List (List ℕ)) → StandsFor self.now rows → result.var_c ≡
            spread_top (column (2 + k) (map (map (unshifted signed)) rows)) }
        ensures within_b { unsigned_abs result.cov_b * unsigned_abs result.cov_b ≤ result.var_b * result.var_c }
        ensures within_a { unsigned_abs result.cov_a * unsigned_abs result.cov_a ≤ result.var_a * result.var_c }
        ensures small_a { result.var_a < 2 ^ 62 }
        ensures small_b { result.var_b < 2 ^ 62 }
        ensures small_c { result.var_c < 2 ^ 62 }
    {
        let at = 4 + 4 * k as usize;
        let (a, b, c) = (self.sums[0], self.sums[1], self.sums[at]);
        IndexParts {
            cov_b: covariance_top(self.count, b, c, self.sums[at + 3]),
            cov_a: covariance_top(self.count, a, c, self.sums[at + 2]),
            var_a: spread_top(self.count, a, self.sums[2]),
            var_b: spread_top(self.count, b, self.sums[3]),
            var_c: spread_top(self.count, c, self.sums[at + 1]),
        }
    }

    /// The value with these sums, as `sum` reads them: of A, B, AA and BB, then of C, CC, AC and BC for each `k` from 0 to 15. None exactly where they break a rule that the sums of so many rows keep, or one from `k = parameters` on is not 0.
    pub fn of(count: u32, parameters: u32, sums: [u64; SUM_COUNT]) -> Option<Martinez>
        requires few { count ≤ 65535 }
        requires parameters { parameters ≤ 16 }
        ensures decides { IsSome result ↔
            (KeepsRules count parameters sums × ((i : ℕ) → 4 + 4 * parameters ≤ i → slice_index sums i ≡ 0)) }
        ensures read { IfSome result (λ m. (count_of m ≡ count) × (parameters_of m ≡ parameters) × (sums_in m ≡ sums)) }
    {
        if !keeps_rules(count, parameters, &sums) {
            return None;
        }
        if !is_zero_from(4 + 4 * parameters as usize, &sums) {
            return None;
        }
        Some(Martinez {
            count,
            parameters,
            sums,
        })
    }
}

//! The numbers of samples of a list above thresholds.

ghost use Rattle.std.specs.Prelude.{◌≡◌, ℕ, ◌+◌, ◌≤◌, ◌↔◌, length, slice_index, IsTrue};
ghost use Rattle.mls_power.specs.Rules.{AreNumbersAbove};

use crate::above::add_above;
use mls_base::shape::Shape;

/// The greatest number of thresholds.
pub const MOST_THRESHOLDS: usize = 8;

/// The number of samples, and for each threshold how many of them are greater.
#[derive(Clone, Copy, Debug)]
pub struct Exceed {
    count: u32,
    numbers: [u32; MOST_THRESHOLDS],
    ghost few: { count ≤ 131070 },
    ghost range: { AreNumbersAbove count numbers },
}

impl Exceed {
    ghost use Rattle.std.specs.Prelude.{◌≡◌, ℕ, ◌+◌, ◌<◌, ◌≤◌, ◌↔◌, Bool, List, [], ◌∷◌, ◌++◌, length, map};
    ghost use Rattle.std.specs.Prelude.{slice_index, IsSome, IfSome};
    ghost use Rattle.mls_model.specs.Samples.{unshifted};
    ghost use Rattle.mls_model.specs.Statistics.{above};
    ghost use Rattle.mls_power.specs.NumbersAbove.{HoldsAbove};
    ghost use Rattle.mls_power.specs.ExceedStanding.{exceed_count_of, numbers_of, ExceedStandsFor};
    ghost use Rattle.mls_power.specs.Rules.{AreNumbersAbove, AreNumbersOf};

    /// The numbers of no samples.
    pub fn new() -> Exceed
        ensures { (thresholds : List ℕ) → ExceedStandsFor thresholds result [] }
    {
        Exceed {
            count: 0,
            numbers: [0; MOST_THRESHOLDS],
        }
    }

    /// So many samples with these numbers above the thresholds of a shape, or None exactly where a number is more than the samples
    /// or than the number before it, or a number behind the thresholds isn't 0.
    pub fn of(shape: &Shape, count: u32, above: [u32; 8]) -> Option<Exceed>
        requires { count ≤ 131070 }
        ensures valid { IsSome result ↔ AreNumbersOf (length shape.now.thresholds) count above }
        ensures count { IfSome result (λ e. exceed_count_of e ≡ count) }
        ensures numbers { IfSome result (λ e. numbers_of e ≡ above) }
    {
        if are_at_most(&above, count)
            && are_falling(&above)
            && are_zero_from(&above, shape.thresholds() as usize)
        {
            Some(Exceed {
                count,
                numbers: above,
            })
        } else {
            None
        }
    }

    /// The numbers that packed storage holds, as `add_above` keeps them, one for each threshold.
    pub fn unpacked(count: u32, numbers: &[u32]) -> Exceed
        requires few { count ≤ 131070 }
        requires size { length numbers.now ≤ 8 }
        requires range { AreNumbersAbove count numbers.now }
        ensures count { exceed_count_of result ≡ count }
        ensures numbers { (i : ℕ) → slice_index (numbers_of result) i ≡ slice_index numbers.now i }
        ensures stands { (thresholds ws : List ℕ) → length thresholds ≡ length numbers.now → length ws ≡ count →
            HoldsAbove thresholds numbers.now ws → ExceedStandsFor thresholds result ws }
    {
        Exceed {
            count,
            numbers: in_eight(numbers),
        }
    }

    /// Adds a sample, a shifted value, by the thresholds of a shape.
    pub fn add(&mut self, shape: &Shape, x: u16)
        requires { exceed_count_of self.old < 131070 }
        ensures count { exceed_count_of self.new ≡ exceed_count_of self.old + 1 }
        ensures adds { (ws : List ℕ) → ExceedStandsFor shape.now.thresholds self.old ws →
            ExceedStandsFor shape.now.thresholds self.new (ws ++ x ∷ []) }
    {
        shape.valid();
        add_above(&mut self.numbers, shape, x);
        self.count += 1;
    }

    /// The rules on numbers above thresholds hold of every value, and where it stands for a list also that of the places behind them.
    pub fn rules(&self)
        ensures few { exceed_count_of self.now ≤ 131070 }
        ensures numbers { AreNumbersAbove (exceed_count_of self.now) (numbers_of self.now) }
        ensures stands { (thresholds ws : List ℕ) → ExceedStandsFor thresholds self.now ws →
            AreNumbersOf (length thresholds) (length ws) (numbers_of self.now) }
    {
        let _few = self.count;
    }

    /// The number of samples.
    pub fn count(&self) -> u32
        ensures { result ≡ exceed_count_of self.now }
    {
        self.count
    }

    /// How many samples are greater than a threshold, and 0 behind the thresholds.
    pub fn above(&self, i: u32) -> u32
        ensures value { result ≡ slice_index (numbers_of self.now) i }
        ensures above { (signed : Bool) (thresholds ws : List ℕ) → ExceedStandsFor thresholds self.now ws →
            i < length thresholds → result ≡
            above (unshifted signed (slice_index thresholds i)) (map (unshifted signed) ws) }
    {
        self.numbers.get(i as usize).copied().unwrap_or(0)
    }
}

/// Up to eight numbers in eight places, and 0 behind them.
fn in_eight(numbers: &[u32]) -> [u32; MOST_THRESHOLDS]
    requires { length numbers.now ≤ 8 }
    ensures { (i : ℕ) → slice_index result i ≡ slice_index numbers.now i }
{
    let mut places = [0; MOST_THRESHOLDS];
    places[..numbers.len()].copy_from_slice(numbers);
    places
}

/// Whether each number is at most `most`.
fn are_at_most(numbers: &[u32], most: u32) -> bool
    ensures { IsTrue result ↔ ((i : ℕ) → slice_index numbers.now i ≤ most) }
{
    for i in 0..numbers.len() {
        if numbers[i] > most {
            return false;
        }
    }
    true
}

/// Whether each number is at most the one before it.
fn are_falling(numbers: &[u32]) -> bool
    ensures { IsTrue result ↔ ((i : ℕ) → slice_index numbers.now (i + 1) ≤ slice_index numbers.now i) }
{
    for i in 1..numbers.len() {
        if numbers[i] > numbers[i - 1] {
            return false;
        }
    }
    true
}

/// Whether each number from a place on is 0.
fn are_zero_from(numbers: &[u32], first: usize) -> bool
    ensures { IsTrue result ↔ ((i : ℕ) → first ≤ i → slice_index numbers.now i ≡ 0) }
{
    for i in first..numbers.len() {
        if numbers[i] != 0 {
            return false;
        }
    }
    true
}

//! Power sums of a list of samples.

ghost use Rattle.std.specs.Prelude.{◌≡◌, ◌≤◌};
ghost use Rattle.mls_power.specs.PowerSums.{AreInRange};

use crate::sums::{POWER_WORDS, add_sample, are_sums, halves, wide};

/// The number of samples, and the sums of their first to fourth powers.
#[derive(Clone, Copy, Debug)]
pub struct Power {
    count: u32,
    sums: [u64; POWER_WORDS],
    ghost few: { count ≤ 131070 },
    ghost range: { AreInRange count sums },
}

/// The sums of the first to fourth powers of values.
#[derive(Clone, Copy, Debug, PartialEq, Eq)]
pub struct Powers {
    pub p1: i64,
    pub p2: u64,
    pub p3: i128,
    pub p4: i128,
}

// How much more a sample is than its value, where values are signed, and the square of that.
const SHIFT: u64 = 32768;

const SQUARE: u128 = 1073741824;

impl Power {
    ghost use Rattle.std.specs.Prelude.{◌≡◌, ℕ, ◌+◌, ◌*◌, ◌<◌, ◌≤◌, ◌↔◌, Bool, true, List, [], ◌∷◌, ◌++◌, length};
    ghost use Rattle.std.specs.Prelude.{map, pos, IsSome, IfSome};
    ghost use Rattle.mls_model.specs.Samples.{unshifted};
    ghost use Rattle.mls_model.specs.Statistics.{variance_top, third_top};
    ghost use Rattle.mls_power.specs.Rules.{AreSums};
    ghost use Rattle.mls_power.specs.Standing.{count_of, first_of, second_of, third_of, fourth_of, StandsFor};
    ghost use Rattle.mls_power.specs.Standing.{ArePowers, AreLowered, variance_top_in, third_top_in};
    ghost use Rattle.mls_model.specs.SumsText.{height};

    /// The sums of no samples.
    pub fn new() -> Power
        ensures { StandsFor result [] }
    {
        Power {
            count: 0,
            sums: [0; POWER_WORDS],
        }
    }

    /// So many samples with these sums of their first to fourth powers, which keep the rules on such sums.
    pub fn from_sums(count: u32, p1: u64, p2: u64, p3: u128, p4: u128) -> Power
        requires few { count ≤ 131070 }
        requires sums { AreSums count p1 p2 p3 p4 }
        ensures count { count_of result ≡ count }
        ensures first { first_of result ≡ p1 }
        ensures second { second_of result ≡ p2 }
        ensures third { third_of result ≡ p3 }
        ensures fourth { fourth_of result ≡ p4 }
    {
        let (third_low, third_high) = halves(p3);
        let (fourth_low, fourth_high) = halves(p4);
        Power {
            count,
            sums: [p1, p2, third_low, third_high, fourth_low, fourth_high],
        }
    }

    /// So many samples with these sums of their first to fourth powers, or None exactly where a rule on such sums fails:
    /// each is at most 65,535 times the one before it, the first at most 65,535 times the count, and the square of the first at most the count times the second.
    pub fn of(count: u32, p1: u64, p2: u64, p3: u128, p4: u128) -> Option<Power>
        requires { count ≤ 131070 }
        ensures valid { IsSome result ↔ AreSums count p1 p2 p3 p4 }
        ensures count { IfSome result (λ p. count_of p ≡ count) }
        ensures first { IfSome result (λ p. first_of p ≡ p1) }
        ensures second { IfSome result (λ p. second_of p ≡ p2) }
        ensures third { IfSome result (λ p. third_of p ≡ p3) }
        ensures fourth { IfSome result (λ p. fourth_of p ≡ p4) }
    {
        if are_sums(count, p1, p2, p3, p4) {
            Some(Power::from_sums(count, p1, p2, p3, p4))
        } else {
            None
        }
    }

    /// Adds a sample.
    pub fn add(&mut self, x: u16)
        requires { count_of self.old < 131070 }
        ensures count { count_of self.new ≡ count_of self.old + 1 }
        ensures adds { (ws : List ℕ) → StandsFor self.old ws → StandsFor self.new (ws ++ x ∷ []) }
    {
        add_sample(&mut self.sums, x);
        self.count += 1;
    }

    /// The number of samples.
    pub fn count(&self) -> u32
        ensures { result ≡ count_of self.now }
    {
        self.count
    }

    /// What holds of the sums of every value, also where it stands for no list.
    pub fn range(&self)
        ensures few { count_of self.now ≤ 131070 }
        ensures first { first_of self.now ≤ 65535 * count_of self.now }
        ensures second { second_of self.now ≤ 65535 * first_of self.now }
        ensures third { third_of self.now ≤ 65535 * second_of self.now }
        ensures fourth { fourth_of self.now ≤ 65535 * third_of self.now }
        ensures spread { first_of self.now * first_of self.now ≤ count_of self.now * second_of self.now }
    {
        let _few = self.count;
    }

    /// The rules on sums hold of every value.
    pub fn rules(&self)
        ensures { AreSums (count_of self.now) (first_of self.now) (second_of self.now) (third_of self.now) (fourth_of self.now) }
    {
        let _count = self.count;
    }

    /// The sum of the samples.
    pub fn p1(&self) -> u64
        ensures { result ≡ first_of self.now }
    {
        self.sums[0]
    }

    /// The sum of their squares.
    pub fn p2(&self) -> u64
        ensures { result ≡ second_of self.now }
    {
        self.sums[1]
    }

    /// The sum of their cubes.
    pub fn p3(&self) -> u128
        ensures { result ≡ third_of self.now }
    {
        wide(self.sums[2], self.sums[3])
    }

    /// The sum of their fourth powers.
    pub fn p4(&self) -> u128
        ensures { result ≡ fourth_of self.now }
    {
        wide(self.sums[4], self.sums[5])
    }

    /// The power sums of the values that the samples are kept for. Where these are signed a sample is its value plus 32,768.
    pub fn powers(&self, signed: bool) -> Powers
        ensures formulas { AreLowered (height signed) self.now result }
        ensures values { (ws : List ℕ) → StandsFor self.now ws → ArePowers result (map (unshifted signed) ws) }
    {
        if signed {
            self.signed_powers()
        } else {
            Powers {
                p1: self.p1() as i64,
                p2: self.p2(),
                p3: self.p3() as i128,
                p4: self.p4() as i128,
            }
        }
    }

    // The power sums of numbers that are each 32,768 less.
    fn signed_powers(&self) -> Powers
        ensures formulas { AreLowered 32768 self.now result }
        ensures values { (ws : List ℕ) → StandsFor self.now ws → ArePowers result (map (unshifted true) ws) }
    {
        let count = self.count as u64;
        let first = self.p1();
        let second = self.p2();
        let third_over = self.p3() + 3 * SQUARE * first as u128;
        let third_under = 3 * SHIFT as u128 * second as u128
            + SHIFT as u128 * SQUARE * count as u128;
        let fourth_over = self.p4() + 6 * SQUARE * second as u128 + SQUARE * SQUARE * count as u128;
        let fourth_under = 4 * SHIFT as u128 * self.p3()
            + 4 * SHIFT as u128 * SQUARE * first as u128;
        Powers {
            p1: first as i64 - (SHIFT * count) as i64,
            p2: second + SHIFT * SHIFT * count - 2 * SHIFT * first,
            p3: third_over as i128 - third_under as i128,
            p4: fourth_over as i128 - fourth_under as i128,
        }
    }

    /// V of the samples: with N samples, N · V is the sum of (N · w − p1)², and the variance is V / (N · (N − 1)). It is the same for the values that they are kept for.
    pub fn variance_top(&self) -> i128
        ensures formula { result ≡ variance_top_in self.now }
        ensures samples { (ws : List ℕ) → StandsFor self.now ws → result ≡ variance_top (map pos ws) }
        ensures values { (signed : Bool) (ws : List ℕ) → StandsFor self.now ws → result ≡
            variance_top (map (unshifted signed) ws) }
    {
        let count = self.count as u128;
        let first = self.p1() as u128;
        let over = count * self.p2() as u128;
        let under = first * first;
        over as i128 - under as i128
    }

    /// U of the samples: with N samples, N · U is the sum of (N · w − p1)³, and the third central moment is U / N³. It is the same for the values that they are kept for.
    pub fn third_top(&self) -> i128
        ensures formula { result ≡ third_top_in self.now }
        ensures samples { (ws : List ℕ) → StandsFor self.now ws → result ≡ third_top (map pos ws) }
        ensures values { (signed : Bool) (ws : List ℕ) → StandsFor self.now ws → result ≡
            third_top (map (unshifted signed) ws) }
    {
        let count = self.count as u128;
        let first = self.p1() as u128;
        let over = count * count * self.p3() + 2 * (first * first * first);
        let under = 3 * (count * first * self.p2() as u128);
        over as i128 - under as i128
    }
}

//! The least and the greatest of a list of samples.

use crate::ends::{EXTREMA_NUMBERS, NO_EXTREMA, add_to_extrema};

/// The least and the greatest of a list of samples.
#[derive(Clone, Copy, Debug)]
pub struct Extrema {
    ends: [u16; EXTREMA_NUMBERS],
}

impl Extrema {
    ghost use Rattle.std.specs.Prelude.{◌≡◌, ℕ, ◌+◌, ◌<◌, ◌↔◌, Bool, List, [], ◌∷◌, ◌++◌, length, map, IsSome, IfSome};
    ghost use Rattle.mls_model.specs.Samples.{unshifted};
    ghost use Rattle.mls_model.specs.Statistics.{least, most};
    ghost use Rattle.mls_power.specs.Extremes.{least_in, greatest_in, HoldsExtrema};
    ghost use Rattle.mls_power.specs.ExtremaStanding.{least_of, greatest_of, ExtremaStandFor};
    ghost use Rattle.mls_power.specs.Rules.{AreExtrema};

    /// The extrema of no samples.
    pub fn new() -> Extrema
        ensures { ExtremaStandFor result [] }
    {
        Extrema { ends: NO_EXTREMA }
    }

    /// The extrema with this least and greatest number, or None exactly where they can't be those of so many samples:
    /// of none the least is 65,535 and the greatest 0, and else the least is at most the greatest.
    pub fn of(count: u32, least: u16, greatest: u16) -> Option<Extrema>
        ensures valid { IsSome result ↔ AreExtrema count least greatest }
        ensures least { IfSome result (λ e. least_of e ≡ least) }
        ensures greatest { IfSome result (λ e. greatest_of e ≡ greatest) }
    {
        let valid = if count == 0 {
            least == 65535 && greatest == 0
        } else {
            least <= greatest
        };
        if valid {
            Some(Extrema {
                ends: [least, greatest],
            })
        } else {
            None
        }
    }

    /// The extrema that two numbers hold, as `add_to_extrema` keeps them.
    pub fn unpacked(ends: &[u16]) -> Extrema
        requires { length ends.now ≡ 2 }
        ensures least { least_of result ≡ least_in ends.now }
        ensures greatest { greatest_of result ≡ greatest_in ends.now }
        ensures stands { (ws : List ℕ) → HoldsExtrema ends.now ws → ExtremaStandFor result ws }
    {
        Extrema {
            ends: [ends[0], ends[1]],
        }
    }

    /// Adds a sample.
    pub fn add(&mut self, x: u16)
        ensures range { (n : ℕ) → AreExtrema n (least_of self.old) (greatest_of self.old) →
            AreExtrema (n + 1) (least_of self.new) (greatest_of self.new) }
        ensures adds { (ws : List ℕ) → ExtremaStandFor self.old ws → ExtremaStandFor self.new (ws ++ x ∷ []) }
    {
        add_to_extrema(&mut self.ends, x);
    }

    /// The rules on extrema hold of every value that stands for a list.
    pub fn rules(&self)
        ensures { (ws : List ℕ) → ExtremaStandFor self.now ws →
            AreExtrema (length ws) (least_of self.now) (greatest_of self.now) }
    {
        let _ends = &self.ends;
    }

    /// The least sample, and 65,535 for none.
    pub fn least(&self) -> u16
        ensures value { result ≡ least_of self.now }
        ensures none { ExtremaStandFor self.now [] → result ≡ 65535 }
        ensures least { (signed : Bool) (ws : List ℕ) → ExtremaStandFor self.now ws → 0 < length ws →
            least (map (unshifted signed) ws) ≡ Some (unshifted signed result) }
    {
        self.ends[0]
    }

    /// The greatest sample, and 0 for none.
    pub fn greatest(&self) -> u16
        ensures value { result ≡ greatest_of self.now }
        ensures none { ExtremaStandFor self.now [] → result ≡ 0 }
        ensures greatest { (signed : Bool) (ws : List ℕ) → ExtremaStandFor self.now ws → 0 < length ws →
            most (map (unshifted signed) ws) ≡ Some (unshifted signed result) }
    {
        self.ends[1]
    }
}

//! The range of a parameter.

ghost use Rattle.std.specs.Prelude.{◌≡◌, ◌<◌, ◌≤◌, ◌*◌, ◌/◌, ◌^◌, Some, option_map};
ghost use Rattle.mls_model.specs.Numbers.{element};
ghost use Rattle.mls_model.specs.Designs.{choices, scaled, value_of};
ghost use Rattle.mls_design.specs.Ranges.{nameless};

use mls_study::Study;
use std::marker::Model;

/// The least and the greatest value of a parameter. Contracts see it as the parameter without its name.
#[derive(Debug, Drop)]
pub struct Range {
    low: i64,
    high: i64,
}

impl Model for Range {
    ghost use Rattle.std.specs.Prelude.{[]};
    ghost use Rattle.mls_model.specs.Studies.{Parameter};
    ghost use Rattle.mls_design.specs.Ranges.{IsRange};

    ghost Value = { Parameter };

    ghost view = { λ r. record { name = []; low = r.low; high = r.high } };

    ghost invariant = { λ r. IsRange (record { name = []; low = r.low; high = r.high }) };
}

impl Range {
    /// The range of a parameter of a study.
    pub fn of(study: &Study, k: u32) -> Range
        requires { k < study.now.sizes.parameters }
        ensures { option_map nameless (element study.now.parameters k) ≡ Some result }
    {
        study.valid();
        Range {
            low: study.low(k),
            high: study.high(k),
        }
    }

    /// How many values there are.
    fn choices(&self) -> u64
        ensures value { result ≡ choices self.now }
        ensures some { 0 < result }
        ensures few { result ≤ 4294967296 }
    {
        (self.high - self.low) as u64 + 1
    }

    /// How many values further than the least one the value is that a word of 32 bits gives.
    fn steps(&self, word: u32) -> u64
        ensures value { result ≡ (word * choices self.now) / 2 ^ 32 }
        ensures below { result < choices self.now }
        ensures few { result < 4294967296 }
    {
        (word as u64 * self.choices()) >> 32
    }

    /// The value that a word of 32 bits gives: the values further are to all values as the word is to all words.
    pub fn value(&self, word: u32) -> i64
        ensures { result ≡ value_of self.now word }
    {
        self.low + self.steps(word) as i64
    }

    /// Where that value stands between the least and the greatest, from 0 to 1023.
    #[tactic(auto, using(crate::proofs::Bounds::scaled_small, crate::proofs::Bounds::distance))]
    pub fn input(&self, word: u32) -> u16
        ensures { result ≡ scaled self.now (value_of self.now word) }
    {
        (self.steps(word) * 1024 / self.choices()) as u16
    }
}

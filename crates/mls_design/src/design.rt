//! A design.

ghost use Rattle.std.specs.Prelude.{◌≡◌, ◌<◌, ◌≤◌, map, length, Some, IfOk};
ghost use Rattle.mls_model.specs.Numbers.{element};
ghost use Rattle.mls_model.specs.Studies.{Study as Stated};
ghost use Rattle.mls_model.specs.Designs.{inputs, values, word_of, takes_b};
ghost use Rattle.mls_design.specs.Ranges.{nameless};

use crate::range::Range;
use crate::words::{Pair, drawn_pairs};
use arrayvec::ArrayVec;
use mls_base::faults::NoMemory;
use mls_study::Study;
use std::alloc::Global;
use std::marker::Model;

/// The design of a study: two words for each group and parameter, and the parameters' ranges.
#[derive(Debug, Drop)]
pub struct Design {
    groups: u32,
    ranges: Vec<Range>,
    pairs: Vec<Pair>,
}

impl Model for Design {
    ghost use Rattle.mls_design.specs.Kept.{Kept, IsKept};

    ghost Value = { Kept };

    ghost view = { λ d. record { groups = d.groups; ranges = d.ranges.items; pairs = d.pairs.items } };

    ghost invariant = { λ d. IsKept (record { groups = d.groups; ranges = d.ranges.items; pairs = d.pairs.items }) };
}

/// The ranges of a study's parameters.
fn ranges_of(alloc: Global, study: &Study, count: u32) -> Result<Vec<Range>, NoMemory>
    requires { count ≡ study.now.sizes.parameters }
    ensures { IfOk result (λ ranges. ranges.items ≡ map nameless study.now.parameters) }
{
    study.valid();
    let mut ranges = Vec::with_capacity(alloc, count as usize)?;
    for k in 0..count {
        ranges.push(Range::of(study, k))?;
    }
    Ok(ranges)
}

impl Design {
    ghost use Rattle.mls_design.specs.Kept.{design_of};

    /// Draws the words of a study's design.
    pub fn new(alloc: Global, study: &Study) -> Result<Design, NoMemory>
        ensures { IfOk result (λ design. design ≡ design_of study.now) }
    {
        study.valid();
        let shape = study.shape();
        let groups = shape.groups();
        let count = shape.parameters();
        let ranges = ranges_of(alloc, study, count)?;
        let pairs = drawn_pairs(alloc, study.seed(), groups as usize * count as usize)?;
        Ok(Design {
            groups,
            ranges,
            pairs,
        })
    }

    /// The word that gives a simulation's value of a parameter.
    fn word(&self, group: u32, sim: u32, parameter: u32) -> u32
        requires group { group < self.now.groups }
        requires parameter { parameter < length self.now.ranges }
        ensures { (study : Stated) → self.now ≡ design_of study → result ≡ word_of study group sim parameter }
    {
        let pair = self.pairs[group as usize * self.ranges.len() + parameter as usize];
        if takes_b(sim, parameter) {
            pair.b
        } else {
            pair.a
        }
    }

    /// A simulation's value of a parameter. Simulation 0 is A, 1 is B, and 2 + k is A with the k-th value of B.
    pub fn value(&self, group: u32, sim: u32, parameter: u32) -> i64
        requires group { group < self.now.groups }
        requires parameter { parameter < length self.now.ranges }
        ensures { (study : Stated) → self.now ≡ design_of study →
            element (values study group sim) parameter ≡ Some result }
    {
        let range = &self.ranges[parameter as usize];
        range.value(self.word(group, sim, parameter))
    }

    /// That value scaled, from 0 to 1023.
    fn input(&self, group: u32, sim: u32, parameter: u32) -> u16
        requires group { group < self.now.groups }
        requires parameter { parameter < length self.now.ranges }
        ensures { (study : Stated) → self.now ≡ design_of study →
            element (inputs study group sim) parameter ≡ Some result }
    {
        let range = &self.ranges[parameter as usize];
        range.input(self.word(group, sim, parameter))
    }

    /// A simulation's values scaled, parameter by parameter.
    pub fn inputs(&self, group: u32, sim: u32) -> ArrayVec<u16, 16>
        requires { group < self.now.groups }
        ensures value { (study : Stated) → self.now ≡ design_of study → result.items ≡ inputs study group sim }
        ensures count { length result.items ≡ length self.now.ranges }
        ensures some { 1 ≤ length result.items }
        ensures few { length result.items ≤ 16 }
    {
        let count = self.ranges.len() as u32;
        let mut inputs = ArrayVec::new();
        for parameter in 0..count {
            inputs.push(self.input(group, sim, parameter));
        }
        inputs
    }
}

/// Whether a simulation takes B's word of a parameter.
fn takes_b(sim: u32, parameter: u32) -> bool
    requires { parameter < 16 }
    ensures { result ≡ takes_b sim parameter }
{
    sim == 1 || sim == 2 + parameter
}

//! A study.

ghost use Rattle.std.specs.Prelude.{◌≡◌, ℕ, ◌≤◌, ◌<◌, ◌↔◌, List, [], None, Some, length, map, false, position, slice_index, option_map, option_and_then, is_some, bytes_eq, IsSome, IsNone};
ghost use Rattle.std.specs.List.{list_any};
ghost use Rattle.mls_model.specs.Numbers.{element};
ghost use Rattle.mls_model.specs.Samples.{unshifted};
ghost use Rattle.mls_model.specs.Studies.{IsStudy, Parameter as Declared, shows};

use crate::keys::has_statistic;
use crate::parameter::Parameter;
use indexmap::IndexMap;
use mls_base::samples::unshifted;
use mls_base::shape::Shape;
use mls_model::studies::Statistic;
use std::marker::Model;

/// A study: the numbers that its ranks work by, and what only its readers use.
#[derive(Debug, Drop)]
pub struct Study {
    pub(crate) shape: Shape,
    pub(crate) seed: u64,
    pub(crate) field_names: Option<Vec<String>>,
    pub(crate) statistics: Vec<Statistic>,
    pub(crate) parameters: Vec<Parameter>,
    pub(crate) places: IndexMap<String, u32>,
}

impl Model for Study {
    ghost use Rattle.mls_model.specs.Studies as studies;

    ghost Value = { studies.Study };

    ghost use Rattle.mls_study.specs.Kept.{kept_study, KeepsStudy};

    ghost view = { kept_study };

    ghost invariant = { KeepsStudy };
}

impl Study {
    /// A study's parts are in the ranges of a study file.
    pub fn valid(&self)
        ensures { IsStudy self.now }
    {
        let _ = &self.seed;
    }

    /// The numbers that the ranks work by.
    pub fn shape(&self) -> Shape
        ensures { result ≡ self.now.sizes }
    {
        self.shape
    }

    /// The seed of the design.
    pub fn seed(&self) -> u64
        ensures { result ≡ self.now.seed }
    {
        self.seed
    }

    /// The name of a parameter.
    pub fn name(&self, k: u32) -> &str
        requires { k < self.now.sizes.parameters }
        ensures { option_map (λ (p : Declared). p.name) (element self.now.parameters k) ≡ Some result.now }
    {
        self.parameters[k as usize].name.as_str()
    }

    /// The least value of a parameter.
    pub fn low(&self, k: u32) -> i64
        requires { k < self.now.sizes.parameters }
        ensures { option_map (λ (p : Declared). p.low) (element self.now.parameters k) ≡ Some result }
    {
        self.parameters[k as usize].low
    }

    /// The greatest value of a parameter.
    pub fn high(&self, k: u32) -> i64
        requires { k < self.now.sizes.parameters }
        ensures { option_map (λ (p : Declared). p.high) (element self.now.parameters k) ≡ Some result }
    {
        self.parameters[k as usize].high
    }

    /// The place of the parameter with a name, or None exactly where no parameter has it.
    pub fn place(&self, name: &str) -> Option<u32>
        ensures place { result ≡ position (λ (p : Declared). bytes_eq name.now p.name) self.now.parameters }
        ensures absent { IsNone result ↔ (list_any (λ (p : Declared). bytes_eq name.now p.name) self.now.parameters ≡ false) }
    {
        self.places.get(name).copied()
    }

    /// Whether the study shows a statistic.
    pub fn shows(&self, statistic: Statistic) -> bool
        ensures { result ≡ shows self.now statistic }
    {
        has_statistic(&self.statistics, statistic)
    }

    /// A threshold as the study file has it.
    pub fn threshold_value(&self, i: u32) -> i32
        requires { i < length self.now.sizes.thresholds }
        ensures { result ≡ unshifted self.now.sizes.signed (slice_index self.now.sizes.thresholds i) }
    {
        unshifted(self.shape.signed(), self.shape.threshold(i))
    }

    /// Whether the study file has the key `fields`.
    pub fn named(&self) -> bool
        ensures { result ≡ is_some self.now.field_names }
    {
        self.field_names.is_some()
    }

    /// The name of a field.
    pub fn field_name(&self, field: u32) -> &str
        requires named { IsSome self.now.field_names }
        requires in_range { field < self.now.sizes.fields }
        ensures { option_and_then (λ names. element names field) self.now.field_names ≡ Some result.now }
    {
        match &self.field_names {
            Some(names) => names[field as usize].as_str(),
            None => unreachable!(),
        }
    }
}

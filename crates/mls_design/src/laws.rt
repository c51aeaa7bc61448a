//! Laws of the design, for every study.

ghost use Rattle.std.specs.Prelude.{◌≡◌, ℕ, ◌+◌, ◌≤◌, cond, ◌==◌, ℤ, ◌≤ℤ◌, Some, Ok, true, false, List};
ghost use Rattle.mls_model.specs.Numbers.{element};
ghost use Rattle.mls_model.specs.Studies.{Study, Sizes, AreSizes, Parameter, IsStudy};
ghost use Rattle.mls_model.specs.Designs.{values, solve};
ghost use Rattle.mls_model.specs.Lanes.{Lane, tape_of};
ghost use Rattle.mls_model.specs.Schedules.{is_complete};
ghost use Rattle.mls_model.specs.ResultText.{histories_of};
ghost use Rattle.mls_design.specs.Trial.{trial_bytes, trial_lanes};
ghost use Rattle.mls_design.specs.TrialSizes.{is_too_large};
ghost use Rattle.mls_design.specs.TrialSchedule.{trial_orders};
ghost use Rattle.mls_design.specs.TrialText.{AcceptsAll, groups_text, groups_line};

/// Column j of C^k is A's column, or B's where j is k. A is simulation 0, B is 1 and C^k is 2 + k.
pub fn columns()
    ensures { (study : Study) (group k j : ℕ) →
        element (values study group (2 + k)) j ≡ element (values study group (cond (j == k) 1 0)) j }
{}

/// Each value lies from its parameter's least to its greatest.
pub fn values_in_range()
    ensures { (study : Study) (group sim k : ℕ) (p : Parameter) (v : ℤ) → IsStudy study →
        element study.parameters k ≡ Some p → element (values study group sim) k ≡ Some v →
        (p.low ≤ℤ v) × (v ≤ℤ p.high) }
{}

/// A sample is a number of 16 bits.
pub fn samples_fit()
    ensures { (study : Study) (group sim step field cell : ℕ) → IsStudy study →
        solve study group sim step field cell ≤ 65535 }
{}

/// The bytes of trial, where they pass no limit, are read as its lanes.
pub fn trial_tapes_are_read()
    ensures { (study : Study) (number : ℕ) → IsStudy study → is_too_large study number ≡ false →
        tape_of study.sizes.ranks study.sizes.signed (trial_bytes study number) ≡ Ok (trial_lanes study number) }
{}

/// The schedule of trial is legal, and complete: each lane stands as often as it has events.
pub fn trial_schedules_are_complete()
    ensures { (study : Study) (number : ℕ) → IsStudy study →
        is_complete study.sizes.ranks (trial_lanes study number) (trial_orders study number) ≡ true }
{}

/// Under the schedule of trial each rank accepts all groups in each plane, so the line `groups` of the summary has the
/// study's number of groups twice.
pub fn trials_accept_all_groups()
    ensures accepted { (study : Study) (number : ℕ) → IsStudy study →
        AcceptsAll study.sizes (trial_lanes study number) (trial_orders study number) }
    ensures line { (s : Sizes) (lanes : List Lane) (orders : List (List ℕ)) → AreSizes s →
        AcceptsAll s lanes orders → groups_line s (histories_of lanes orders) ≡ groups_text s.groups s.groups }
{}

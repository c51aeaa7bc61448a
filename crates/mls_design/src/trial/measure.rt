//! The size of the whole tape, before anything of it is made.

ghost use Rattle.std.specs.Prelude.{◌≡◌, ℕ, ◌++◌, ◌≤◌, [], List, cond, true, false, IfOk, IfErr, IfSome, IfNone};
ghost use Rattle.mls_model.specs.Lanes.{Lane};
ghost use Rattle.mls_design.specs.Trial.{routes, first_lanes, control_lanes, resent_lanes, trial_lanes};
ghost use Rattle.mls_design.specs.TrialSizes.{HasDrawn, IsPlan, size_of, is_over, is_too_large};
ghost use Rattle.mls_design.specs.declared.trial.faults.MakeFault.TheVariants.{TooLarge};

use crate::trial::faults::MakeFault;
use crate::trial::plan::Plan;
use crate::trial::planning::plan_of;
use crate::trial::route::Route;
use crate::trial::routes::routes;
use crate::trial::size::Size;
use crate::trial::sizes::{first_lane_size, resent_lane_size, with_lane};
use crate::trial::words::restarts;
use crate::words::STREAM;
use mls_study::Study;
use rand_pcg::Lcg64Xsh32;
use std::alloc::Global;

/// The size with the first lanes, where it passes no limit.
fn with_first_lanes(
    total: Size,
    study: &Study,
    plan: Plan,
    words: &mut Lcg64Xsh32,
    all: &[Route],
) -> Option<Size>
    requires total { is_over total ≡ false }
    requires are_routes { all.now ≡ routes study.now.sizes }
    requires beats { plan.beats ≤ 131070 }
    requires pieces { plan.pieces ≤ 2147483648 }
    ensures some { (number : ℕ) → IsPlan study.now number plan → HasDrawn number study.now.sizes.groups words.old →
        total ≡ size_of study.now.sizes.signed [] →
        IfSome result (λ size. size ≡ size_of study.now.sizes.signed (first_lanes study.now number)) }
    ensures fits { IfSome result (λ size. is_over size ≡ false) }
    ensures none { (number : ℕ) → IsPlan study.now number plan → HasDrawn number study.now.sizes.groups words.old →
        total ≡ size_of study.now.sizes.signed [] →
        IfNone result (is_over (size_of study.now.sizes.signed (first_lanes study.now number)) ≡ true) }
{
    let mut size = total;
    for k in 0..all.len() {
        let lane = first_lane_size(study, plan, words, all[k]);
        size = with_lane(size, lane)?;
    }
    Some(size)
}

/// The size with the control lanes, where it passes no limit.
fn with_control_lanes(total: Size, study: &Study) -> Option<Size>
    requires total { is_over total ≡ false }
    ensures some { (before : List Lane) → total ≡ size_of study.now.sizes.signed before → IfSome result (λ size.
        size ≡ size_of study.now.sizes.signed (before ++ control_lanes study.now.sizes)) }
    ensures fits { IfSome result (λ size. is_over size ≡ false) }
    ensures none { (before : List Lane) → total ≡ size_of study.now.sizes.signed before → IfNone result
        (is_over (size_of study.now.sizes.signed (before ++ control_lanes study.now.sizes)) ≡ true) }
{
    let mut size = total;
    for _rank in 0..study.shape().ranks() {
        size = with_lane(
            size,
            Size {
                bytes: 20,
                events: 4,
            },
        )?;
    }
    Some(size)
}

/// The size with the resent lanes, where it passes no limit.
fn with_resent_lanes(total: Size, study: &Study, all: &[Route]) -> Option<Size>
    requires total { is_over total ≡ false }
    requires are_routes { all.now ≡ routes study.now.sizes }
    ensures some { (before : List Lane) → total ≡ size_of study.now.sizes.signed before → IfSome result (λ size.
        size ≡ size_of study.now.sizes.signed (before ++ resent_lanes study.now)) }
    ensures fits { IfSome result (λ size. is_over size ≡ false) }
    ensures none { (before : List Lane) → total ≡ size_of study.now.sizes.signed before → IfNone result
        (is_over (size_of study.now.sizes.signed (before ++ resent_lanes study.now)) ≡ true) }
{
    let mut size = total;
    for k in 0..all.len() {
        let lane = resent_lane_size(study, all[k]);
        size = with_lane(size, lane)?;
    }
    Some(size)
}

/// The bytes of a tape before its lanes.
fn header_bytes(signed: bool) -> u64
    ensures { result ≡ cond signed 11 10 }
{
    if signed { 11 } else { 10 }
}

/// The size of a tape with no lane.
fn empty_size(study: &Study) -> Size
    ensures value { result ≡ size_of study.now.sizes.signed [] }
    ensures small { is_over result ≡ false }
{
    Size {
        bytes: header_bytes(study.shape().signed()),
        events: 0,
    }
}

/// The size of all lanes, where it passes no limit.
fn all_lanes(study: &Study, plan: Plan, words: &mut Lcg64Xsh32, all: &[Route]) -> Option<Size>
    requires are_routes { all.now ≡ routes study.now.sizes }
    requires beats { plan.beats ≤ 131070 }
    requires pieces { plan.pieces ≤ 2147483648 }
    ensures some { (number : ℕ) → IsPlan study.now number plan → HasDrawn number study.now.sizes.groups words.old →
        IfSome result (λ size. (size ≡ size_of study.now.sizes.signed (trial_lanes study.now number))
        × (is_too_large study.now number ≡ false)) }
    ensures none { (number : ℕ) → IsPlan study.now number plan → HasDrawn number study.now.sizes.groups words.old →
        IfNone result (is_too_large study.now number ≡ true) }
{
    let first = with_first_lanes(empty_size(study), study, plan, words, all)?;
    let earlier = with_control_lanes(first, study)?;
    with_resent_lanes(earlier, study, all)
}

/// The size of the tape that `make_tape` makes, found before anything of it is made.
pub fn tape_size(alloc: Global, study: &Study, number: u64) -> Result<Size, MakeFault>
    ensures size { IfOk result (λ size. size ≡ size_of study.now.sizes.signed (trial_lanes study.now number)) }
    ensures fits { IfOk result (λ size. is_too_large study.now number ≡ false) }
    ensures too_large { IfErr result (λ fault. fault ≡ TooLarge → is_too_large study.now number ≡ true) }
{
    let shape = study.shape();
    let mut words = Lcg64Xsh32::new(number, STREAM);
    let restarted = restarts(alloc, &mut words, shape.groups())?;
    let all = routes(alloc, &shape)?;
    let plan = plan_of(study, restarted.as_slice());
    match all_lanes(study, plan, &mut words, all.as_slice()) {
        Some(size) => Ok(size),
        None => Err(MakeFault::TooLarge),
    }
}

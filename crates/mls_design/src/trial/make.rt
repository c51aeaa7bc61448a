//! The tape and the schedule of trial.

ghost use Rattle.std.specs.Prelude.{◌≡◌, ℕ, ◌≤◌, length, true, false, IfOk, IfErr};
ghost use Rattle.mls_model.specs.Schedules.{is_complete};
ghost use Rattle.mls_design.specs.Trial.{routes, words_before, earlier_lanes, trial_lanes, trial_bytes};
ghost use Rattle.mls_design.specs.TrialSchedule.{trial_orders};
ghost use Rattle.mls_design.specs.TrialSizes.{HasDrawn, is_too_large};
ghost use Rattle.mls_design.specs.TrialText.{AcceptsAll};
ghost use Rattle.mls_design.specs.declared.trial.faults.MakeFault.TheVariants.{TooLarge};

use crate::trial::faults::MakeFault;
use crate::trial::measure::tape_size;
use crate::trial::mixing::rank_order;
use crate::trial::planning::plan_of;
use crate::trial::routes::routes;
use crate::trial::words::restarts;
use crate::trial::writing::trial_bytes;
use crate::words::STREAM;
use mls_base::faults::NoMemory;
use mls_study::Study;
use mls_tape::faults::TapeFault;
use mls_tape::{Schedule, Tape};
use rand_pcg::Lcg64Xsh32;
use std::alloc::Global;

/// What trial makes.
#[derive(Drop)]
pub struct Made {
    pub tape: Tape,
    pub schedule: Schedule,
}

/// The schedule: each rank's list.
fn trial_schedule(
    alloc: Global,
    words: &mut Lcg64Xsh32,
    study: &Study,
    tape: &Tape,
    earlier: u32,
) -> Result<Schedule, NoMemory>
    requires { earlier ≤ length tape.now.lanes }
    ensures { (number : ℕ) → tape.now.lanes ≡ trial_lanes study.now number →
        earlier ≡ length (earlier_lanes study.now number) →
        HasDrawn number (words_before study.now number (routes study.now.sizes)) words.old →
        IfOk result (λ schedule. schedule ≡ trial_orders study.now number) }
{
    let ranks = study.shape().ranks();
    let mut lists = Vec::with_capacity(alloc, ranks as usize)?;
    for rank in 0..ranks {
        lists.push(rank_order(alloc, tape, rank, earlier, words)?)?;
    }
    Ok(Schedule::of(lists))
}

/// The tape of the bytes that were made.
fn made_tape(alloc: Global, study: &Study, number: u64, bytes: Vec<u8>) -> Result<Tape, NoMemory>
    requires small { is_too_large study.now number ≡ false }
    requires are_bytes { bytes.items ≡ trial_bytes study.now number }
    ensures { IfOk result (λ tape. (tape.bytes ≡ trial_bytes study.now number)
        × (tape.lanes ≡ trial_lanes study.now number)
        × (tape.ranks ≡ study.now.sizes.ranks) × (tape.signed ≡ study.now.sizes.signed)) }
{
    study.valid();
    let shape = study.shape();
    match Tape::read(alloc, shape.ranks(), shape.signed(), bytes) {
        Ok(tape) => Ok(tape),
        Err(TapeFault::Memory) => Err(NoMemory),
        Err(TapeFault::Bad { .. }) => unreachable!(),
    }
}

/// The tape and the schedule that the number makes of the study. `TooLarge` is exactly where the tape would pass
/// 1,073,741,824 bytes or 16,777,216 events, and then nothing of it is made.
pub fn make_tape(alloc: Global, study: &Study, number: u64) -> Result<Made, MakeFault>
    ensures bytes { IfOk result (λ made. made.tape.bytes ≡ trial_bytes study.now number) }
    ensures lanes { IfOk result (λ made. made.tape.lanes ≡ trial_lanes study.now number) }
    ensures read_for { IfOk result (λ made.
        (made.tape.ranks ≡ study.now.sizes.ranks) × (made.tape.signed ≡ study.now.sizes.signed)) }
    ensures schedule { IfOk result (λ made. made.schedule ≡ trial_orders study.now number) }
    ensures complete { IfOk result (λ made.
        is_complete study.now.sizes.ranks made.tape.lanes made.schedule ≡ true) }
    ensures accepts { IfOk result (λ made.
        AcceptsAll study.now.sizes made.tape.lanes made.schedule) }
    ensures fits { IfOk result (λ made. is_too_large study.now number ≡ false) }
    ensures too_large { IfErr result (λ fault. fault ≡ TooLarge → is_too_large study.now number ≡ true) }
{
    study.valid();
    let size = tape_size(alloc, study, number)?;
    let shape = study.shape();
    let mut words = Lcg64Xsh32::new(number, STREAM);
    let restarted = restarts(alloc, &mut words, shape.groups())?;
    let all = routes(alloc, &shape)?;
    let plan = plan_of(study, restarted.as_slice());
    let bytes = trial_bytes(
        alloc,
        &mut words,
        study,
        number,
        plan,
        restarted.as_slice(),
        all.as_slice(),
        size.bytes,
    )?;
    let tape = made_tape(alloc, study, number, bytes)?;
    let earlier = all.len() as u32 + shape.ranks();
    let schedule = trial_schedule(alloc, &mut words, study, &tape, earlier)?;
    Ok(Made { tape, schedule })
}

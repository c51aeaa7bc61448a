//! What a fold begins with: a study, a tape and a schedule.

ghost use Rattle.std.specs.Prelude.{◌≡◌, ◌≤◌, length, true, Ok, IfOk, IfErr, vec_len};
ghost use Rattle.mls_model.specs.Schedules.{plain, is_legal};
ghost use Rattle.mls_tape.specs.ScheduleReading.{longest_schedule};
ghost use Rattle.mls_tape.specs.Tapes.{longest_tape};
ghost use Rattle.mls_cli.specs.Fold.{Ending, fold_over, content_lanes, content_schedule, right_lanes, right_orders, right_inputs};
ghost use Rattle.mls_export.specs.Files.{seen};
ghost use Rattle.mls_cli.specs.Refusals.{Agrees, IsOfContent, Loads};

use crate::loading::{load, load_study};
use crate::refusal::Refusal;
use mls_base::outside::Files;
use mls_result::FileRole;
use mls_study::{Name, Study};
use mls_tape::schedule::LONGEST_SCHEDULE;
use mls_tape::tape::LONGEST_TAPE;
use mls_tape::{SchedFault, Schedule, Tape, TapeFault};
use std::alloc::Global;

/// What a fold begins with.
#[derive(Drop)]
pub(crate) struct FoldInputs {
    pub(crate) study: Study,
    pub(crate) tape: Tape,
    pub(crate) schedule: Schedule,
}

/// The tape in these bytes.
fn tape_in(alloc: Global, study: &Study, bytes: Vec<u8>) -> Result<Tape, Refusal>
    requires { vec_len bytes ≤ longest_tape }
    ensures right { Agrees true (λ t. t.lanes) result (content_lanes study.now bytes.items) }
    ensures ranks { IfOk result (λ t. t.ranks ≡ study.now.sizes.ranks) }
    ensures content { IfErr result IsOfContent }
{
    let shape = study.shape();
    match Tape::read(alloc, shape.ranks(), shape.signed(), bytes) {
        Ok(tape) => return Ok(tape),
        Err(TapeFault::Bad { at, why }) => return Err(Refusal::Tape { at, why }),
        Err(TapeFault::Memory) => return Err(Refusal::Memory),
    }
}

/// The tape of a name, for the study's ranks and samples.
pub(crate) fn load_tape<F: Files>(
    alloc: Global,
    files: &mut F,
    study: &Study,
    name: &str,
) -> Result<Tape, Refusal>
    ensures loads { Loads (λ t. t.lanes) (right_lanes study.now name.now)
        (seen F.held F.sound F.load_faults F.save_faults files.old)
        (seen F.held F.sound F.load_faults F.save_faults files.new) result }
    ensures ranks { IfOk result (λ t. t.ranks ≡ study.now.sizes.ranks) }
{
    let bytes = load(alloc, files, name, LONGEST_TAPE, FileRole::Tape)?;
    tape_in(alloc, study, bytes)
}

/// The schedule in these bytes.
fn schedule_in(alloc: Global, tape: &Tape, bytes: &[u8]) -> Result<Schedule, Refusal>
    requires { length bytes.now ≤ longest_schedule }
    ensures right { Agrees true (λ s. s) result (content_schedule tape.now.ranks tape.now.lanes bytes.now) }
    ensures legal { IfOk result (λ s. is_legal tape.now.ranks tape.now.lanes s ≡ true) }
    ensures content { IfErr result IsOfContent }
{
    match Schedule::read(alloc, bytes, tape) {
        Ok(schedule) => return Ok(schedule),
        Err(SchedFault::Bad { line, why }) => return Err(Refusal::Schedule { line, why }),
        Err(SchedFault::Memory) => return Err(Refusal::Memory),
    }
}

/// The schedule of a name, for the tape.
fn load_named_schedule<F: Files>(
    alloc: Global,
    files: &mut F,
    tape: &Tape,
    name: &str,
) -> Result<Schedule, Refusal>
    ensures loads { Loads (λ s. s) (right_orders tape.now.ranks tape.now.lanes (Some name.now))
        (seen F.held F.sound F.load_faults F.save_faults files.old)
        (seen F.held F.sound F.load_faults F.save_faults files.new) result }
    ensures legal { IfOk result (λ s. is_legal tape.now.ranks tape.now.lanes s ≡ true) }
{
    let bytes = load(alloc, files, name, LONGEST_SCHEDULE, FileRole::Schedule)?;
    schedule_in(alloc, tape, bytes.as_slice())
}

/// The plain schedule of the tape.
fn plain_schedule(alloc: Global, tape: &Tape) -> Result<Schedule, Refusal>
    ensures right { Agrees true (λ s. s) result (Ok (plain tape.now.ranks tape.now.lanes)) }
    ensures legal { IfOk result (λ s. is_legal tape.now.ranks tape.now.lanes s ≡ true) }
    ensures content { IfErr result IsOfContent }
{
    match Schedule::plain(alloc, tape) {
        Ok(schedule) => return Ok(schedule),
        Err(_) => return Err(Refusal::Memory),
    }
}

/// The schedule of a name, or the plain one where there is no name.
pub(crate) fn load_schedule<F: Files>(
    alloc: Global,
    files: &mut F,
    tape: &Tape,
    name: &Option<Name>,
) -> Result<Schedule, Refusal>
    ensures loads { Loads (λ s. s) (right_orders tape.now.ranks tape.now.lanes name.now)
        (seen F.held F.sound F.load_faults F.save_faults files.old)
        (seen F.held F.sound F.load_faults F.save_faults files.new) result }
    ensures legal { IfOk result (λ s. is_legal tape.now.ranks tape.now.lanes s ≡ true) }
{
    match name {
        Some(name) => return load_named_schedule(alloc, files, tape, name.as_str()),
        None => return plain_schedule(alloc, tape),
    }
}

/// The study, the tape and the schedule of these names.
pub(crate) fn load_inputs<F: Files>(
    alloc: Global,
    files: &mut F,
    study_name: &str,
    tape_name: &str,
    schedule_name: &Option<Name>,
) -> Result<FoldInputs, Refusal>
    ensures loads { (ending : Ending) → Loads (λ (inputs : FoldInputs).
        fold_over ending inputs.study inputs.tape.lanes inputs.schedule)
        (right_inputs ending study_name.now tape_name.now schedule_name.now)
        (seen F.held F.sound F.load_faults F.save_faults files.old)
        (seen F.held F.sound F.load_faults F.save_faults files.new) result }
    ensures legal { IfOk result
        (λ inputs. is_legal inputs.study.sizes.ranks inputs.tape.lanes inputs.schedule ≡ true) }
{
    let study = load_study(alloc, files, study_name)?;
    let tape = load_tape(alloc, files, &study, tape_name)?;
    let schedule = load_schedule(alloc, files, &tape, schedule_name)?;
    Ok(FoldInputs {
        study,
        tape,
        schedule,
    })
}

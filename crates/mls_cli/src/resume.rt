//! The command `resume`.

ghost use Rattle.std.specs.Prelude.{◌≡◌, true, IfOk, vec_len};
ghost use Rattle.mls_model.specs.Schedules.{is_legal};
ghost use Rattle.mls_text.specs.Writing.{sink_seen};
ghost use Rattle.mls_ckpt.specs.CellParts.{part_at};
ghost use Rattle.mls_book.specs.Keepers.{keepers_seen};
ghost use Rattle.mls_export.specs.Files.{seen};
ghost use Rattle.mls_resume.specs.Opening.{AreOpenings};
ghost use Rattle.mls_resume.specs.Reads.{lists_of};
ghost use Rattle.mls_cli.specs.Answers.{Carries, IsUncalled};
ghost use Rattle.mls_cli.specs.Refusals.{Loads};
ghost use Rattle.mls_cli.specs.Resume.{resumed_over, right_resume};
ghost use Rattle.mls_cli.specs.Tasks.{resume_task, resume_text, saves_none};

use crate::fold_inputs::{load_schedule, load_tape};
use crate::loading::load_study;
use crate::openings::load_openings;
use crate::refusal::Refusal;
use crate::written::fold_status;
use mls_base::outside::{Files, Keeper, Sink};
use mls_result::Status;
use mls_resumed::resume_fold;
use mls_study::{Name, Study};
use mls_tape::{Schedule, Tape};
use std::alloc::Global;

/// What a resume begins with: what its ranks go on from, and what they go on with.
#[derive(Drop)]
struct ResumeInputs {
    study: Study,
    openings: Vec<Vec<u8>>,
    tape: Tape,
    schedule: Schedule,
}

/// The study, what its ranks go on from, the tape and the schedule.
fn load_inputs<F: Files>(
    alloc: Global,
    files: &mut F,
    study_name: &str,
    ranks: u32,
    prefix: &str,
    tape_name: &str,
    schedule_name: &Option<Name>,
) -> Result<ResumeInputs, Refusal>
    ensures loads { Loads (λ (inputs : ResumeInputs). resumed_over inputs.study (lists_of inputs.openings.items)
        inputs.tape.lanes inputs.schedule)
        (right_resume study_name.now ranks prefix.now tape_name.now schedule_name.now)
        (seen F.held F.sound F.load_faults F.save_faults files.old)
        (seen F.held F.sound F.load_faults F.save_faults files.new) result }
    ensures legal { IfOk result
        (λ inputs. is_legal inputs.study.sizes.ranks inputs.tape.lanes inputs.schedule ≡ true) }
    ensures openings { IfOk result
        (λ inputs. AreOpenings part_at inputs.study.sizes (lists_of inputs.openings.items)) }
{
    let study = load_study(alloc, files, study_name)?;
    let shape = study.shape();
    let openings = load_openings(alloc, files, &shape, ranks, prefix)?;
    let tape = load_tape(alloc, files, &study, tape_name)?;
    let schedule = load_schedule(alloc, files, &tape, schedule_name)?;
    Ok(ResumeInputs {
        study,
        openings,
        tape,
        schedule,
    })
}

/// Goes on from the files of so many old ranks with the tape of a name, under its schedule or under the plain one.
pub(crate) fn run_resume<F: Files, O: Sink, K: Keeper + Drop>(
    alloc: Global,
    study_name: &str,
    ranks: u32,
    prefix: &str,
    tape_name: &str,
    schedule_name: &Option<Name>,
    files: &mut F,
    out: &mut O,
    keepers: Vec<K>,
) -> (Status, Vec<K>)
    requires { vec_len keepers ≡ 64 }
    ensures carried { Carries saves_none
        (λ held. resume_text (right_resume study_name.now ranks prefix.now tape_name.now schedule_name.now held))
        (λ held. resume_task (right_resume study_name.now ranks prefix.now tape_name.now schedule_name.now held))
        (seen F.held F.sound F.load_faults F.save_faults files.old)
        (seen F.held F.sound F.load_faults F.save_faults files.new)
        (sink_seen O.told O.faults O.sure out.old) (sink_seen O.told O.faults O.sure out.new)
        (keepers_seen K.Keeper keepers.items) (keepers_seen K.Keeper result.1.items) result.0 }
    ensures no_usage { result.0 ≡ Status.Usage → ⊥ }
    ensures places { vec_len result.1 ≡ 64 }
    ensures uncalled { IsUncalled result.0 → result.1 ≡ keepers }
{
    let inputs = match load_inputs(
        alloc,
        files,
        study_name,
        ranks,
        prefix,
        tape_name,
        schedule_name,
    ) {
        Ok(inputs) => inputs,
        Err(refusal) => return (refusal.into(), keepers),
    };
    let ResumeInputs {
        study,
        openings,
        tape,
        schedule,
    } = inputs;
    let (answer, keepers) = resume_fold(alloc, &study, &tape, &schedule, openings, keepers, out);
    (fold_status(answer), keepers)
}

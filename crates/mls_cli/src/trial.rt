//! The command `trial`.

ghost use Rattle.std.specs.Prelude.{◌≡◌, true, IfOk, IfErr, vec_len};
ghost use Rattle.mls_model.specs.Schedules.{is_legal};
ghost use Rattle.mls_text.specs.Writing.{sink_seen};
ghost use Rattle.mls_book.specs.Keepers.{keepers_seen};
ghost use Rattle.mls_cli.specs.Answers.{Carries, HasAllGroups, IsUncalled};
ghost use Rattle.mls_cli.specs.Fold.{fold_over, summary, asked_text};
ghost use Rattle.mls_export.specs.Files.{seen};
ghost use Rattle.mls_cli.specs.Refusals.{Agrees, IsOfContent, Loads};
ghost use Rattle.mls_cli.specs.Tasks.{fold_task, saving_of};
ghost use Rattle.mls_cli.specs.Trial.{content_trial, folded_tape, right_trial};

use crate::loading::load_study;
use crate::refusal::Refusal;
use crate::saving::{save_made, save_status};
use crate::words::NamePair;
use crate::written::fold_status;
use mls_base::outside::{Files, Keeper, Sink};
use mls_design::laws::trials_accept_all_groups;
use mls_design::{Made, MakeFault, make_tape};
use mls_result::Status;
use mls_study::Study;
use mls_trial::{complete_schedules_are_legal, fold_trial};
use std::alloc::Global;

/// What a trial begins with: a study, and the tape and the schedule that were made of it.
#[derive(Drop)]
pub(crate) struct TrialInputs {
    pub(crate) study: Study,
    pub(crate) made: Made,
}

/// The tape and the schedule that a number makes of the study.
fn made_of(alloc: Global, study: &Study, number: u64) -> Result<Made, Refusal>
    ensures right { Agrees true (λ (made : Made).
        fold_over (summary number) study.now made.tape.lanes made.schedule)
        result (content_trial number study.now) }
    ensures tape { IfOk result (λ made. made.tape.bytes ≡
        folded_tape (fold_over (summary number) study.now made.tape.lanes made.schedule)) }
    ensures legal { IfOk result (λ made. is_legal study.now.sizes.ranks made.tape.lanes made.schedule ≡ true) }
    ensures groups { IfOk result (λ made. HasAllGroups (summary number) study.now made.tape.lanes made.schedule) }
    ensures content { IfErr result IsOfContent }
{
    study.valid();
    trials_accept_all_groups();
    complete_schedules_are_legal();
    match make_tape(alloc, study, number) {
        Ok(made) => return Ok(made),
        Err(MakeFault::TooLarge) => return Err(Refusal::TooLarge),
        Err(MakeFault::Memory) => return Err(Refusal::Memory),
    }
}

/// The study of a name, with the tape and the schedule that the number makes of it.
fn load_trial<F: Files>(
    alloc: Global,
    files: &mut F,
    study_name: &str,
    number: u64,
) -> Result<TrialInputs, Refusal>
    ensures loads { Loads (λ (inputs : TrialInputs).
        fold_over (summary number) inputs.study inputs.made.tape.lanes inputs.made.schedule)
        (right_trial study_name.now number)
        (seen F.held F.sound F.load_faults F.save_faults files.old)
        (seen F.held F.sound F.load_faults F.save_faults files.new) result }
    ensures tape { IfOk result (λ inputs. inputs.made.tape.bytes ≡
        folded_tape (fold_over (summary number) inputs.study inputs.made.tape.lanes inputs.made.schedule)) }
    ensures legal { IfOk result
        (λ inputs. is_legal inputs.study.sizes.ranks inputs.made.tape.lanes inputs.made.schedule ≡ true) }
    ensures groups { IfOk result
        (λ inputs. HasAllGroups (summary number) inputs.study inputs.made.tape.lanes inputs.made.schedule) }
{
    let study = load_study(alloc, files, study_name)?;
    let made = made_of(alloc, &study, number)?;
    Ok(TrialInputs { study, made })
}

/// Makes a tape and a schedule of the study of a name, saves them where there are names for them, and folds them.
pub(crate) fn run_trial<F: Files, O: Sink, K: Keeper + Drop>(
    alloc: Global,
    study_name: &str,
    number: u64,
    names: &Option<NamePair>,
    files: &mut F,
    out: &mut O,
    keepers: Vec<K>,
) -> (Status, Vec<K>)
    requires { vec_len keepers ≡ 64 }
    ensures carried { Carries (saving_of names.now) (λ held. asked_text (right_trial study_name.now number held))
        (λ held. fold_task (right_trial study_name.now number held))
        (seen F.held F.sound F.load_faults F.save_faults files.old)
        (seen F.held F.sound F.load_faults F.save_faults files.new)
        (sink_seen O.told O.faults O.sure out.old) (sink_seen O.told O.faults O.sure out.new)
        (keepers_seen K.Keeper keepers.items) (keepers_seen K.Keeper result.1.items) result.0 }
    ensures no_usage { result.0 ≡ Status.Usage → ⊥ }
    ensures places { vec_len result.1 ≡ 64 }
    ensures uncalled { IsUncalled result.0 → result.1 ≡ keepers }
{
    let inputs = match load_trial(alloc, files, study_name, number) {
        Ok(inputs) => inputs,
        Err(refusal) => return (refusal.into(), keepers),
    };
    match save_made(alloc, files, names, &inputs.made) {
        Ok(()) => {}
        Err(fault) => return (save_status(fault), keepers),
    }
    let (answer, keepers) = fold_trial(
        alloc,
        &inputs.study,
        number,
        &inputs.made.tape,
        &inputs.made.schedule,
        keepers,
        out,
    );
    (fold_status(answer), keepers)
}

//! The command `bins`.

ghost use Rattle.std.specs.Prelude.{◌≡◌, vec_len};
ghost use Rattle.mls_text.specs.Writing.{sink_seen};
ghost use Rattle.mls_book.specs.Keepers.{keepers_seen};
ghost use Rattle.mls_cli.specs.Fold.{histograms, right_inputs, right_fold};
ghost use Rattle.mls_cli.specs.Tasks.{saves_none, fold_task};
ghost use Rattle.mls_cli.specs.Answers.{Carries, IsUncalled};
ghost use Rattle.mls_export.specs.Files.{seen};

use crate::fold_inputs::load_inputs;
use crate::written::fold_status;
use mls_base::outside::{Files, Keeper, Sink};
use mls_bins::fold_bins;
use mls_result::Status;
use mls_study::Name;
use std::alloc::Global;

/// Folds the study and the tape of these names over histograms, under their schedule or under the plain one.
pub(crate) fn run_bins<F: Files, O: Sink, K: Keeper + Drop>(
    alloc: Global,
    study_name: &str,
    tape_name: &str,
    schedule_name: &Option<Name>,
    files: &mut F,
    out: &mut O,
    keepers: Vec<K>,
) -> (Status, Vec<K>)
    requires { vec_len keepers ≡ 64 }
    ensures carried { Carries saves_none (right_fold histograms study_name.now tape_name.now schedule_name.now)
        (λ held. fold_task (right_inputs histograms study_name.now tape_name.now schedule_name.now held))
        (seen F.held F.sound F.load_faults F.save_faults files.old)
        (seen F.held F.sound F.load_faults F.save_faults files.new)
        (sink_seen O.told O.faults O.sure out.old) (sink_seen O.told O.faults O.sure out.new)
        (keepers_seen K.Keeper keepers.items) (keepers_seen K.Keeper result.1.items) result.0 }
    ensures no_usage { result.0 ≡ Status.Usage → ⊥ }
    ensures places { vec_len result.1 ≡ 64 }
    ensures uncalled { IsUncalled result.0 → result.1 ≡ keepers }
{
    let inputs = match load_inputs(alloc, files, study_name, tape_name, schedule_name) {
        Ok(inputs) => inputs,
        Err(refusal) => return (refusal.into(), keepers),
    };
    let (answer, keepers) = fold_bins(
        alloc,
        &inputs.study,
        &inputs.tape,
        &inputs.schedule,
        keepers,
        out,
    );
    (fold_status(answer), keepers)
}

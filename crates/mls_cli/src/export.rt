//! The command `export`.

ghost use Rattle.std.specs.Prelude.{◌≡◌, vec_len};
ghost use Rattle.mls_text.specs.Writing.{SinkState};
ghost use Rattle.mls_book.specs.Keepers.{keepers_seen};
ghost use Rattle.mls_export.specs.Files.{seen};
ghost use Rattle.mls_cli.specs.Tasks.{export_task, export_text, saves_states};
ghost use Rattle.mls_cli.specs.Export.{export_status, right_export};
ghost use Rattle.mls_cli.specs.Answers.{Carries, IsUncalled};

use crate::loading::load_study;
use mls_base::outside::{Files, Keeper};
use mls_ckpt::CkptWhy;
use mls_export::{ExportFault, export};
use mls_result::Status;
use std::alloc::Global;

/// What the command answers after an export.
fn export_status(answer: Result<(), ExportFault>) -> Status
    ensures { result ≡ export_status answer }
{
    match answer {
        Ok(()) => Status::Done,
        Err(ExportFault::KeeperFault { rank }) => Status::KeeperFault { rank },
        Err(ExportFault::Absent { rank }) => Status::CheckpointBad {
            rank,
            at: 0,
            why: CkptWhy::Absent,
        },
        Err(ExportFault::WriteFault) => Status::WriteFault,
        Err(ExportFault::Memory) => Status::Memory,
    }
}

/// Saves what the keepers of the ranks of a study hold as files whose names begin with the prefix.
pub(crate) fn run_export<F: Files, K: Keeper + Drop>(
    alloc: Global,
    study_name: &str,
    prefix: &str,
    files: &mut F,
    keepers: Vec<K>,
) -> (Status, Vec<K>)
    requires { vec_len keepers ≡ 64 }
    ensures carried { (out : SinkState) →
        Carries saves_states (λ held. export_text (right_export study_name.now prefix.now held))
        (λ held. export_task (right_export study_name.now prefix.now held))
        (seen F.held F.sound F.load_faults F.save_faults files.old)
        (seen F.held F.sound F.load_faults F.save_faults files.new) out out
        (keepers_seen K.Keeper keepers.items) (keepers_seen K.Keeper result.1.items) result.0 }
    ensures no_usage { result.0 ≡ Status.Usage → ⊥ }
    ensures places { vec_len result.1 ≡ 64 }
    ensures uncalled { IsUncalled result.0 → result.1 ≡ keepers }
{
    let study = match load_study(alloc, files, study_name) {
        Ok(study) => study,
        Err(refusal) => return (refusal.into(), keepers),
    };
    let shape = study.shape();
    let (answer, keepers) = export(alloc, &shape, prefix, files, keepers);
    (export_status(answer), keepers)
}

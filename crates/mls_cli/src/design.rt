//! The command `design`.

ghost use Rattle.std.specs.Prelude.{◌≡◌, List};
ghost use Rattle.mls_model.specs.Designs.{design_text};
ghost use Rattle.mls_launch.specs.Writing.{WritesOut};
ghost use Rattle.mls_cli.specs.Design.{right_design};
ghost use Rattle.mls_text.specs.Writing.{sink_seen};
ghost use Rattle.mls_book.specs.Keepers.{KeeperState};
ghost use Rattle.mls_cli.specs.Tasks.{nothing, saves_none};
ghost use Rattle.mls_cli.specs.Answers.{Carries};
ghost use Rattle.mls_export.specs.Files.{seen};

use crate::loading::load_study;
use crate::written::out_status;
use mls_base::outside::{Files, Sink};
use mls_design::{Design, write_design};
use mls_launch::OutFault;
use mls_result::Status;
use mls_study::Study;
use std::alloc::Global;

/// Draws the design and writes its text.
fn write_drawn<O: Sink>(alloc: Global, study: &Study, out: &mut O) -> Result<(), OutFault>
    ensures { WritesOut result (design_text study.now)
        (sink_seen O.told O.faults O.sure out.old) (sink_seen O.told O.faults O.sure out.new) }
{
    let design = Design::new(alloc, study)?;
    match write_design(study, &design, out) {
        Ok(()) => return Ok(()),
        Err(_) => return Err(OutFault::WriteFault),
    }
}

/// Prints the design of the study of a name.
pub(crate) fn run_design<F: Files, O: Sink>(
    alloc: Global,
    study_name: &str,
    files: &mut F,
    out: &mut O,
) -> Status
    ensures carried { (keepers : List KeeperState) → Carries saves_none (right_design study_name.now) (λ held. nothing)
        (seen F.held F.sound F.load_faults F.save_faults files.old)
        (seen F.held F.sound F.load_faults F.save_faults files.new)
        (sink_seen O.told O.faults O.sure out.old) (sink_seen O.told O.faults O.sure out.new) keepers keepers result }
    ensures no_usage { result ≡ Status.Usage → ⊥ }
{
    match load_study(alloc, files, study_name) {
        Ok(study) => {
            let answer = write_drawn(alloc, &study, out);
            return out_status(answer);
        }
        Err(refusal) => return refusal.into(),
    }
}

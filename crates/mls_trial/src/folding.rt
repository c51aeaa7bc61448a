//! All ranks, and the summary of their cores.

ghost use Rattle.std.specs.Prelude.{◌≡◌, ℕ, List, vec_len, true, false, IfErr};
ghost use Rattle.std.specs.List.{list_any};
ghost use Rattle.mls_model.specs.Numbers.{element};
ghost use Rattle.mls_model.specs.Schedules.{is_legal};
ghost use Rattle.mls_model.specs.Survival.{is_save};
ghost use Rattle.mls_model.specs.ResultText.{histories_of};
ghost use Rattle.mls_book.specs.Keepers.{AreSure, keepers_seen};
ghost use Rattle.mls_result.specs.Histories.{AreCores, AllStand};
ghost use Rattle.mls_design.specs.TrialText.{trial_summary};
ghost use Rattle.mls_replay.specs.Folding.{FoldsTo, KeepersAfter};
ghost use Rattle.mls_trial.specs.Folding.{FoldsTrialTo};

use crate::summary::write_trial;
use mls_base::outside::{Keeper, Sink};
use mls_field::field::Field;
use mls_field::fold::RowFold;
use mls_rank::RankCore;
use mls_replay::fold_cores;
use mls_result::FoldFault;
use mls_study::Study;
use mls_tape::{Schedule, Tape};
use std::alloc::Global;

/// Writes the summary of the cores.
fn write_cores<O: Sink>(
    study: &Study,
    number: u64,
    tape: &Tape,
    cores: &[RankCore<Field>],
    out: &mut O,
) -> Result<(), FoldFault>
    requires cores { AreCores study.now.sizes cores.now }
    ensures histories { (orders : List (List ℕ)) → AllStand cores.now (histories_of tape.now.lanes orders) →
        FoldsTo O.told O.faults O.sure out.old out.new result
        (trial_summary study.now number tape.now.lanes orders) }
    ensures states { FoldsTrialTo ⟦<Field as RowFold>⟧ O.told O.faults O.sure out.old out.new result study.now number
        tape.now.lanes }
    ensures fault { IfErr result (λ fault. fault ≡ FoldFault.WriteFault) }
{
    match write_trial(study, number, tape, cores, out) {
        Ok(()) => return Ok(()),
        Err(_) => return Err(FoldFault::WriteFault),
    }
}

/// Folds the tape of a trial under its schedule and writes the summary: each rank runs over its whole list, in rising
/// number, and then the summary is written. Each keeper comes back in its place.
///
/// The summary is the one of the ranks' histories where each keeper tells what it holds, or no crash of its rank stands
/// behind a save; whatever the keepers tell it is the summary of one core for each rank. After a fault of a keeper and
/// after want of memory nothing was written.
pub fn fold_trial<K: Keeper + Drop, O: Sink>(
    alloc: Global,
    study: &Study,
    number: u64,
    tape: &Tape,
    schedule: &Schedule,
    keepers: Vec<K>,
    out: &mut O,
) -> (Result<(), FoldFault>, Vec<K>)
    requires keepers { vec_len keepers ≡ 64 }
    requires legal { is_legal study.now.sizes.ranks tape.now.lanes schedule.now ≡ true }
    ensures text { AreSure (histories_of tape.now.lanes schedule.now) (keepers_seen K.Keeper keepers.items) →
        FoldsTo O.told O.faults O.sure out.old out.new result.0
        (trial_summary study.now number tape.now.lanes schedule.now) }
    ensures cores { FoldsTrialTo ⟦<Field as RowFold>⟧ O.told O.faults O.sure out.old out.new result.0 study.now number
        tape.now.lanes }
    ensures places { vec_len result.1 ≡ 64 }
    ensures untouched { (rank : ℕ) → list_any is_save (histories_of tape.now.lanes schedule.now rank) ≡ false →
        element result.1.items rank ≡ element keepers.items rank }
    ensures keepers { KeepersAfter result.0 ⟦<Field as RowFold>⟧.part_of ⟦<Field as RowFold>⟧.part_at study.now.sizes
        (histories_of tape.now.lanes schedule.now)
        (keepers_seen K.Keeper keepers.items) (keepers_seen K.Keeper result.1.items) }
{
    let (answer, keepers) = fold_cores(alloc, study, tape, schedule, keepers);
    let cores = match answer {
        Ok(cores) => cores,
        Err(fault) => return (Err(fault), keepers),
    };
    let answer = write_cores(study, number, tape, cores.as_slice(), out);
    (answer, keepers)
}

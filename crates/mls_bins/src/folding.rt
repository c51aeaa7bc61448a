//! All ranks over histograms, and the bins text of their cores.

ghost use Rattle.std.specs.Prelude.{◌≡◌, ℕ, List, map, vec_len, true, false, IfOk, IfErr};
ghost use Rattle.std.specs.List.{list_any};
ghost use Rattle.mls_model.specs.Numbers.{element};
ghost use Rattle.mls_model.specs.Lanes.{Lane};
ghost use Rattle.mls_model.specs.Schedules.{is_legal};
ghost use Rattle.mls_model.specs.Survival.{is_save};
ghost use Rattle.mls_model.specs.ResultText.{histories_of, lines_of};
ghost use Rattle.mls_book.specs.Keepers.{AreSure, keepers_seen};
ghost use Rattle.mls_hist.specs.BinsText.{bins_text};
ghost use Rattle.mls_rank.specs.Cores.{counts_of};
ghost use Rattle.mls_result.specs.Histories.{AreCores, AllStand};
ghost use Rattle.mls_replay.specs.Folding.{FoldsTo, KeepersAfter};
ghost use Rattle.mls_bins.specs.Folding.{FoldsBinsTo};

use crate::text::write_bins;
use mls_base::outside::{Keeper, Sink};
use mls_field::fold::RowFold;
use mls_hist::Hist;
use mls_rank::{Counts, RankCore};
use mls_replay::{lines_of, run_ranks};
use mls_result::FoldFault;
use mls_study::Study;
use mls_tape::{LaneLine, Schedule, Tape};
use std::alloc::Global;

/// How many pieces of each core had each outcome.
fn counts_of(alloc: Global, cores: &[RankCore<Hist>]) -> Result<Vec<Counts>, FoldFault>
    ensures value { IfOk result (λ counts. counts.items ≡ map counts_of cores.now) }
    ensures fault { IfErr result (λ fault. fault ≡ FoldFault.Memory) }
{
    let mut counts = Vec::new(alloc);
    for rank in 0..cores.len() {
        match counts.push(cores[rank].counts()) {
            Ok(()) => {}
            Err(_) => return Err(FoldFault::Memory),
        }
    }
    Ok(counts)
}

/// Writes the bins text of the cores, with their counts, and of the lanes' lines.
fn write_cores<O: Sink>(
    study: &Study,
    cores: &[RankCore<Hist>],
    counts: &[Counts],
    lines: &[LaneLine],
    out: &mut O,
) -> Result<(), FoldFault>
    requires cores { AreCores study.now.sizes cores.now }
    requires counts { counts.now ≡ map counts_of cores.now }
    ensures histories { (lanes : List Lane) → (orders : List (List ℕ)) → lines.now ≡ lines_of lanes →
        AllStand cores.now (histories_of lanes orders) →
        FoldsTo O.told O.faults O.sure out.old out.new result (bins_text study.now lanes orders) }
    ensures states { FoldsBinsTo ⟦<Hist as RowFold>⟧ O.told O.faults O.sure out.old out.new result study.now lines.now }
    ensures fault { IfErr result (λ fault. fault ≡ FoldFault.WriteFault) }
{
    match write_bins(study, cores, counts, lines, out) {
        Ok(()) => return Ok(()),
        Err(_) => return Err(FoldFault::WriteFault),
    }
}

/// Folds a tape under a schedule over histograms and writes the bins text: each rank runs over its whole list, in
/// rising number, and then the text is written. Each keeper comes back in its place.
///
/// The text is the one of the ranks' histories where each keeper tells what it holds, or no crash of its rank stands
/// behind a save; whatever the keepers tell it is the text of one core for each rank. After a fault of a keeper and
/// after want of memory nothing was written.
pub fn fold_bins<K: Keeper + Drop, O: Sink>(
    alloc: Global,
    study: &Study,
    tape: &Tape,
    schedule: &Schedule,
    keepers: Vec<K>,
    out: &mut O,
) -> (Result<(), FoldFault>, Vec<K>)
    requires keepers { vec_len keepers ≡ 64 }
    requires legal { is_legal study.now.sizes.ranks tape.now.lanes schedule.now ≡ true }
    ensures text { AreSure (histories_of tape.now.lanes schedule.now) (keepers_seen K.Keeper keepers.items) →
        FoldsTo O.told O.faults O.sure out.old out.new result.0 (bins_text study.now tape.now.lanes schedule.now) }
    ensures cores { FoldsBinsTo ⟦<Hist as RowFold>⟧ O.told O.faults O.sure out.old out.new result.0 study.now
        (lines_of tape.now.lanes) }
    ensures places { vec_len result.1 ≡ 64 }
    ensures untouched { (rank : ℕ) → list_any is_save (histories_of tape.now.lanes schedule.now rank) ≡ false →
        element result.1.items rank ≡ element keepers.items rank }
    ensures keepers { KeepersAfter result.0 ⟦<Hist as RowFold>⟧.part_of ⟦<Hist as RowFold>⟧.part_at study.now.sizes
        (histories_of tape.now.lanes schedule.now)
        (keepers_seen K.Keeper keepers.items) (keepers_seen K.Keeper result.1.items) }
{
    let lines = match lines_of(alloc, tape) {
        Ok(lines) => lines,
        Err(fault) => return (Err(fault), keepers),
    };
    let mut keepers = keepers;
    let cores = match run_ranks(alloc, study, tape, schedule, &mut keepers) {
        Ok(cores) => cores,
        Err(fault) => return (Err(fault), keepers),
    };
    let counts = match counts_of(alloc, cores.as_slice()) {
        Ok(counts) => counts,
        Err(fault) => return (Err(fault), keepers),
    };
    let answer = write_cores(
        study,
        cores.as_slice(),
        counts.as_slice(),
        lines.as_slice(),
        out,
    );
    (answer, keepers)
}

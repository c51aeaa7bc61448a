//! All ranks, and the text of their cores.

ghost use Rattle.std.specs.Prelude.{◌≡◌, ◌≢◌, ℕ, ◌<◌, ◌≤◌, ◌+◌, List, [], length, get_or, vec_len, Some, true, false, IfOk, IfErr};
ghost use Rattle.std.specs.List.{list_any};
ghost use Rattle.mls_model.specs.Numbers.{element};
ghost use Rattle.mls_model.specs.Lanes.{Lane};
ghost use Rattle.mls_model.specs.Histories.{history};
ghost use Rattle.mls_model.specs.Schedules.{is_complete, is_legal, is_legal_order};
ghost use Rattle.mls_model.specs.Survival.{is_save};
ghost use Rattle.mls_model.specs.ResultText.{histories_of, order_at, result_text, lines_of};
ghost use Rattle.mls_orders.specs.OrderFree.{IsOrderFree};
ghost use Rattle.mls_orders.specs.CellLines.{text_with_plain_lines};
ghost use Rattle.mls_book.specs.Histories.{Sure};
ghost use Rattle.mls_book.specs.Keepers.{AtRank, AreSure, keepers_seen};
ghost use Rattle.mls_rank.specs.Cores.{sizes_of, rank_of};
ghost use Rattle.mls_rank.specs.Standing.{StandsFor};
ghost use Rattle.mls_result.specs.Histories.{AreCores, AllStand};
ghost use Rattle.mls_replay.specs.Folding.{FoldsTo, FoldsCoresTo, KeepersAfter, RankEnds, StandSure};

use crate::ranks::run_rank;
use mls_base::faults::NoMemory;
use mls_base::outside::{Keeper, Sink};
use mls_base::shape::Shape;
use mls_field::field::Field;
use mls_field::fold::RowFold;
use mls_orders::completed_keys::no_rank_crashes;
use mls_orders::result_lines::result_text_has_the_plain_lines;
use mls_rank::RankCore;
use mls_result::{FoldFault, write_result};
use mls_study::Study;
use mls_tape::{LaneLine, Schedule, Tape};
use std::alloc::Global;

/// The core of a rank after the events of its list. Its keeper comes back in its place.
fn fold_rank<F: RowFold, K: Keeper + Drop>(
    alloc: Global,
    shape: &Shape,
    tape: &Tape,
    rank: u32,
    order: &[u32],
    keepers: &mut Vec<K>,
) -> Result<RankCore<F>, FoldFault>
    requires rank_in { rank < shape.now.ranks }
    requires place { rank < vec_len keepers.old }
    requires legal { is_legal_order tape.now.lanes rank order.now ≡ true }
    ensures sizes { IfOk result (λ core. sizes_of core ≡ shape.now) }
    ensures rank { IfOk result (λ core. rank_of core ≡ rank) }
    ensures stands { IfOk result (λ core. (keeper : K) → element keepers.new.items rank ≡ Some keeper →
        Sure (K.held keeper) (history tape.now.lanes order.now) → StandsFor core (history tape.now.lanes order.now)) }
    ensures own { AtRank rank (keepers_seen K.Keeper keepers.old.items) (keepers_seen K.Keeper keepers.new.items)
        (RankEnds result F.part_of F.part_at shape.now rank (history tape.now.lanes order.now)) }
    ensures others { (other : ℕ) → other ≢ rank → element keepers.new.items other ≡ element keepers.old.items other }
    ensures quiet { list_any is_save (history tape.now.lanes order.now) ≡ false →
        element keepers.new.items rank ≡ element keepers.old.items rank }
    ensures places { vec_len keepers.new ≡ vec_len keepers.old }
{
    let keeper = keepers.remove(rank as usize);
    let (answer, keeper) = run_rank(alloc, shape, tape, rank, order, keeper);
    match keepers.insert(rank as usize, keeper) {
        Ok(()) => return answer,
        Err(_) => unreachable!(),
    }
}

/// An empty list with room for so many cores.
fn room_for<F: RowFold>(alloc: Global, ranks: u32) -> Result<Vec<RankCore<F>>, NoMemory>
    ensures { IfOk result (λ cores. cores.items ≡ []) }
{
    let cores = Vec::with_capacity(alloc, ranks as usize)?;
    Ok(cores)
}

/// The core of each rank after the events of its list, in rising rank. Each keeper comes back in its place.
///
/// A core stands for its rank's history where its keeper tells what it holds, or no crash of the history stands behind a
/// save. The first event that meets a fault of its keeper ends the run; the later ranks then don't begin.
pub fn run_ranks<F: RowFold, K: Keeper + Drop>(
    alloc: Global,
    study: &Study,
    tape: &Tape,
    schedule: &Schedule,
    keepers: &mut Vec<K>,
) -> Result<Vec<RankCore<F>>, FoldFault>
    requires keepers { vec_len keepers.old ≡ 64 }
    requires legal { is_legal study.now.sizes.ranks tape.now.lanes schedule.now ≡ true }
    ensures cores { IfOk result (λ cores. AreCores study.now.sizes cores.items) }
    ensures stand { IfOk result (λ cores.
        StandSure K.Keeper cores.items keepers.new.items (histories_of tape.now.lanes schedule.now)) }
    ensures no_write { IfErr result (λ fault. fault ≡ FoldFault.WriteFault → ⊥) }
    ensures places { vec_len keepers.new ≡ 64 }
    ensures untouched { (rank : ℕ) → list_any is_save (histories_of tape.now.lanes schedule.now rank) ≡ false →
        element keepers.new.items rank ≡ element keepers.old.items rank }
    ensures keepers { KeepersAfter result F.part_of F.part_at study.now.sizes (histories_of tape.now.lanes schedule.now)
        (keepers_seen K.Keeper keepers.old.items) (keepers_seen K.Keeper keepers.new.items) }
{
    study.valid();
    let shape = study.shape();
    let mut cores = room_for(alloc, shape.ranks())?;
    for rank in 0..shape.ranks() {
        let core = match fold_rank(alloc, &shape, tape, rank, schedule.order(rank), keepers) {
            Ok(core) => core,
            Err(fault) => return Err(fault),
        };
        match cores.push(core) {
            Ok(()) => {}
            Err(_) => return Err(FoldFault::Memory),
        }
    }
    Ok(cores)
}

/// What the text says of each lane, in rising number.
pub fn lines_of(alloc: Global, tape: &Tape) -> Result<Vec<LaneLine>, FoldFault>
    ensures value { IfOk result (λ lines. lines.items ≡ lines_of tape.now.lanes) }
    ensures fault { IfErr result (λ fault. fault ≡ FoldFault.Memory) }
{
    let mut lines = Vec::new(alloc);
    for lane in 0..tape.lane_count() {
        match lines.push(tape.lane_line(lane)) {
            Ok(()) => {}
            Err(_) => return Err(FoldFault::Memory),
        }
    }
    Ok(lines)
}

/// The cores of a fold without its text: each rank runs over its whole list, in rising number. Each keeper comes back in
/// its place.
///
/// A core stands for its rank's history where its keeper tells what it holds, or no crash of the history stands behind a
/// save. The first event that meets a fault of its keeper ends the fold; the later ranks then don't begin.
pub fn fold_cores<F: RowFold, K: Keeper + Drop>(
    alloc: Global,
    study: &Study,
    tape: &Tape,
    schedule: &Schedule,
    keepers: Vec<K>,
) -> (Result<Vec<RankCore<F>>, FoldFault>, Vec<K>)
    requires keepers { vec_len keepers ≡ 64 }
    requires legal { is_legal study.now.sizes.ranks tape.now.lanes schedule.now ≡ true }

    // A core for each rank, which stands for the rank's history where its keeper tells or no crash stands behind a save.
    // They all do where this was so of each keeper at the beginning.
    ensures cores { IfOk result.0 (λ cores. AreCores study.now.sizes cores.items) }
    ensures stand { IfOk result.0 (λ cores.
        StandSure K.Keeper cores.items result.1.items (histories_of tape.now.lanes schedule.now)) }
    ensures all { AreSure (histories_of tape.now.lanes schedule.now) (keepers_seen K.Keeper keepers.items) →
        IfOk result.0 (λ cores. AllStand cores.items (histories_of tape.now.lanes schedule.now)) }
    ensures no_write { IfErr result.0 (λ fault. fault ≡ FoldFault.WriteFault → ⊥) }

    // Each keeper comes back in its place. Those of ranks without a save, and those of no rank, are never called.
    ensures places { vec_len result.1 ≡ 64 }
    ensures untouched { (rank : ℕ) → list_any is_save (histories_of tape.now.lanes schedule.now rank) ≡ false →
        element result.1.items rank ≡ element keepers.items rank }
    ensures keepers { KeepersAfter result.0 F.part_of F.part_at study.now.sizes
        (histories_of tape.now.lanes schedule.now)
        (keepers_seen K.Keeper keepers.items) (keepers_seen K.Keeper result.1.items) }
{
    let mut keepers = keepers;
    let answer = run_ranks(alloc, study, tape, schedule, &mut keepers);
    (answer, keepers)
}

/// Writes the text of the cores and of the lanes' lines.
fn write_cores<O: Sink>(
    study: &Study,
    cores: &[RankCore<Field>],
    lines: &[LaneLine],
    out: &mut O,
) -> Result<(), FoldFault>
    requires cores { AreCores study.now.sizes cores.now }
    ensures histories { (lanes : List Lane) → (orders : List (List ℕ)) → lines.now ≡ lines_of lanes →
        AllStand cores.now (histories_of lanes orders) →
        FoldsTo O.told O.faults O.sure out.old out.new result (result_text study.now lanes orders) }
    ensures states { FoldsCoresTo ⟦<Field as RowFold>⟧ O.told O.faults O.sure out.old out.new result study.now lines.now }
    ensures fault { IfErr result (λ fault. fault ≡ FoldFault.WriteFault) }
{
    match write_result(study, cores, lines, out) {
        Ok(()) => return Ok(()),
        Err(_) => return Err(FoldFault::WriteFault),
    }
}

/// Folds a tape under a schedule and writes the result text: each rank runs over its whole list, in rising number, and
/// then the text is written. Each keeper comes back in its place.
///
/// The text is the one of the ranks' histories where each keeper tells what it holds, or no crash of its rank stands
/// behind a save; whatever the keepers tell it is the text of one core for each rank. After a fault of a keeper and
/// after want of memory nothing was written.
///
/// Where the order of the tape doesn't matter and the schedule is complete, the text has the step and cell lines of the
/// plain schedule, whatever the keepers tell.
pub fn fold<K: Keeper + Drop, O: Sink>(
    alloc: Global,
    study: &Study,
    tape: &Tape,
    schedule: &Schedule,
    keepers: Vec<K>,
    out: &mut O,
) -> (Result<(), FoldFault>, Vec<K>)
    requires keepers { vec_len keepers ≡ 64 }
    requires legal { is_legal study.now.sizes.ranks tape.now.lanes schedule.now ≡ true }
    ensures text { AreSure (histories_of tape.now.lanes schedule.now) (keepers_seen K.Keeper keepers.items) →
        FoldsTo O.told O.faults O.sure out.old out.new result.0 (result_text study.now tape.now.lanes schedule.now) }
    ensures orders { IsOrderFree study.now.sizes tape.now.lanes →
        is_complete study.now.sizes.ranks tape.now.lanes schedule.now ≡ true →
        FoldsTo O.told O.faults O.sure out.old out.new result.0
        (text_with_plain_lines study.now tape.now.lanes schedule.now) }
    ensures cores { FoldsCoresTo ⟦<Field as RowFold>⟧ O.told O.faults O.sure out.old out.new result.0 study.now
        (lines_of tape.now.lanes) }
    ensures places { vec_len result.1 ≡ 64 }
    ensures untouched { (rank : ℕ) → list_any is_save (histories_of tape.now.lanes schedule.now rank) ≡ false →
        element result.1.items rank ≡ element keepers.items rank }
    ensures keepers { KeepersAfter result.0 ⟦<Field as RowFold>⟧.part_of ⟦<Field as RowFold>⟧.part_at study.now.sizes
        (histories_of tape.now.lanes schedule.now)
        (keepers_seen K.Keeper keepers.items) (keepers_seen K.Keeper result.1.items) }
{
    no_rank_crashes();
    result_text_has_the_plain_lines();
    let lines = match lines_of(alloc, tape) {
        Ok(lines) => lines,
        Err(fault) => return (Err(fault), keepers),
    };
    let mut keepers = keepers;
    let cores = match run_ranks(alloc, study, tape, schedule, &mut keepers) {
        Ok(cores) => cores,
        Err(fault) => return (Err(fault), keepers),
    };
    let answer = write_cores(study, cores.as_slice(), lines.as_slice(), out);
    (answer, keepers)
}

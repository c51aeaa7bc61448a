//! All ranks, and the text of their cores.

ghost use Rattle.std.specs.Prelude.{◌≡◌, ◌≢◌, ℕ, ◌<◌, ◌≤◌, ◌+◌, ◌^◌, List, [], length, get_or, vec_len, Some, true, false, IfOk, IfErr};
ghost use Rattle.std.specs.List.{list_any};
ghost use Rattle.mls_model.specs.Numbers.{element};
ghost use Rattle.mls_model.specs.Histories.{LaneEvent, history};
ghost use Rattle.mls_model.specs.Schedules.{is_legal, is_legal_order};
ghost use Rattle.mls_model.specs.Survival.{is_save};
ghost use Rattle.mls_model.specs.ResultText.{histories_of, history_text, lines_of};
ghost use Rattle.mls_book.specs.Histories.{Sure};
ghost use Rattle.mls_book.specs.Keepers.{AtRank, AreSure, keepers_seen};
ghost use Rattle.mls_rank.specs.Cores.{sizes_of, rank_of};
ghost use Rattle.mls_rank.specs.Standing.{StandsFor};
ghost use Rattle.mls_result.specs.Histories.{AreCores, AllStand};
ghost use Rattle.mls_replay.specs.Folding.{FoldsTo, FoldsCoresTo};
ghost use Rattle.mls_resume.specs.Opening.{IsOpening, AreOpenings, OpensWith};
ghost use Rattle.mls_resume.specs.Reads.{lists_of};
ghost use Rattle.mls_resumed.specs.GoingOn.{whole_of, wholes_of, resumed_text, AllOpen, StandOn, RankStops, KeepersGoOn};

use crate::ranks::run_rank;
use mls_base::faults::NoMemory;
use mls_base::outside::{Keeper, Sink};
use mls_base::shape::Shape;
use mls_field::field::Field;
use mls_field::fold::RowFold;
use mls_rank::RankCore;
use mls_replay::lines_of;
use mls_result::{FoldFault, write_result};
use mls_study::Study;
use mls_tape::{LaneLine, Schedule, Tape};
use std::alloc::Global;

/// The core of a rank that went on from the bytes over the events of its list. Its keeper comes back in its place.
fn fold_rank<F: RowFold, K: Keeper + Drop>(
    alloc: Global,
    shape: &Shape,
    tape: &Tape,
    rank: u32,
    order: &[u32],
    opening: Vec<u8>,
    keepers: &mut Vec<K>,
) -> Result<RankCore<F>, FoldFault>
    requires rank_in { rank < shape.now.ranks }
    requires place { rank < vec_len keepers.old }
    requires legal { is_legal_order tape.now.lanes rank order.now ≡ true }
    requires opening { IsOpening F.part_at shape.now rank (2 ^ 61) opening.items }
    ensures sizes { IfOk result (λ core. sizes_of core ≡ shape.now) }
    ensures rank { IfOk result (λ core. rank_of core ≡ rank) }
    ensures stands { IfOk result (λ core. (keeper : K) → element keepers.new.items rank ≡ Some keeper →
        Sure (K.held keeper) (history tape.now.lanes order.now) → (before : List LaneEvent) →
        OpensWith F.RowFold shape.now rank opening.items before →
        StandsFor core (whole_of before (history tape.now.lanes order.now))) }
    ensures own { AtRank rank (keepers_seen K.Keeper keepers.old.items) (keepers_seen K.Keeper keepers.new.items)
        (RankStops result F.part_of F.part_at shape.now rank (OpensWith F.RowFold shape.now rank opening.items)
        (history tape.now.lanes order.now)) }
    ensures others { (other : ℕ) → other ≢ rank → element keepers.new.items other ≡ element keepers.old.items other }
    ensures quiet { list_any is_save (history tape.now.lanes order.now) ≡ false →
        element keepers.new.items rank ≡ element keepers.old.items rank }
    ensures places { vec_len keepers.new ≡ vec_len keepers.old }
{
    let keeper = keepers.remove(rank as usize);
    let (answer, keeper) = run_rank(alloc, shape, tape, rank, order, opening, keeper);
    match keepers.insert(rank as usize, keeper) {
        Ok(()) => return answer,
        Err(_) => unreachable!(),
    }
}

/// An empty list with room for so many cores.
fn room_for<F: RowFold>(alloc: Global, ranks: u32) -> Result<Vec<RankCore<F>>, NoMemory>
    ensures { IfOk result (λ cores. cores.items ≡ []) }
{
    let cores = Vec::with_capacity(alloc, ranks as usize)?;
    Ok(cores)
}

/// The core of each rank, in rising rank. The bytes of a rank go when its turn is over.
fn run_ranks<F: RowFold, K: Keeper + Drop>(
    alloc: Global,
    study: &Study,
    tape: &Tape,
    schedule: &Schedule,
    openings: Vec<Vec<u8>>,
    keepers: &mut Vec<K>,
) -> Result<Vec<RankCore<F>>, FoldFault>
    requires keepers { vec_len keepers.old ≡ 64 }
    requires legal { is_legal study.now.sizes.ranks tape.now.lanes schedule.now ≡ true }
    requires openings { AreOpenings F.part_at study.now.sizes (lists_of openings.items) }
    ensures cores { IfOk result (λ cores. AreCores study.now.sizes cores.items) }
    ensures stand { IfOk result (λ cores. StandOn K.Keeper cores.items keepers.new.items
        (AllOpen F.RowFold study.now.sizes (lists_of openings.items)) (histories_of tape.now.lanes schedule.now)) }
    ensures no_write { IfErr result (λ fault. fault ≡ FoldFault.WriteFault → ⊥) }
    ensures places { vec_len keepers.new ≡ 64 }
    ensures untouched { (rank : ℕ) → list_any is_save (histories_of tape.now.lanes schedule.now rank) ≡ false →
        element keepers.new.items rank ≡ element keepers.old.items rank }
    ensures keepers { KeepersGoOn result F.part_of F.part_at study.now.sizes
        (AllOpen F.RowFold study.now.sizes (lists_of openings.items)) (histories_of tape.now.lanes schedule.now)
        (keepers_seen K.Keeper keepers.old.items) (keepers_seen K.Keeper keepers.new.items) }
{
    study.valid();
    let shape = study.shape();
    let mut openings = openings;
    let mut cores = room_for(alloc, shape.ranks())?;
    for rank in 0..shape.ranks() {
        let opening = openings.remove(0);
        let core = match fold_rank(
            alloc,
            &shape,
            tape,
            rank,
            schedule.order(rank),
            opening,
            keepers,
        ) {
            Ok(core) => core,
            Err(fault) => return Err(fault),
        };
        match cores.push(core) {
            Ok(()) => {}
            Err(_) => return Err(FoldFault::Memory),
        }
    }
    Ok(cores)
}

/// The cores of ranks that go on from lists of bytes, without a text: each rank runs over its whole list, in rising
/// number. Each keeper comes back in its place.
///
/// A core stands for what stood before, a save and its rank's history of this run, where its keeper tells what it
/// holds, or no crash of this run stands behind a save of it. A crash before any save of this run goes back to the
/// bytes and calls no keeper. The first event that meets a fault of its keeper ends the run; the later ranks then don't
/// begin.
pub fn resume_cores<F: RowFold, K: Keeper + Drop>(
    alloc: Global,
    study: &Study,
    tape: &Tape,
    schedule: &Schedule,
    openings: Vec<Vec<u8>>,
    keepers: Vec<K>,
) -> (Result<Vec<RankCore<F>>, FoldFault>, Vec<K>)
    requires keepers { vec_len keepers ≡ 64 }
    requires legal { is_legal study.now.sizes.ranks tape.now.lanes schedule.now ≡ true }
    requires openings { AreOpenings F.part_at study.now.sizes (lists_of openings.items) }

    // A core for each rank, which stands for the whole history where its keeper tells or no crash stands behind a save.
    // They all do where this was so of each keeper at the beginning.
    ensures cores { IfOk result.0 (λ cores. AreCores study.now.sizes cores.items) }
    ensures stand { IfOk result.0 (λ cores. StandOn K.Keeper cores.items result.1.items
        (AllOpen F.RowFold study.now.sizes (lists_of openings.items)) (histories_of tape.now.lanes schedule.now)) }
    ensures all { (before : ℕ → List LaneEvent) → ((rank : ℕ) → rank < study.now.sizes.ranks →
        AllOpen F.RowFold study.now.sizes (lists_of openings.items) rank (before rank)) →
        AreSure (histories_of tape.now.lanes schedule.now) (keepers_seen K.Keeper keepers.items) →
        IfOk result.0 (λ cores.
        AllStand cores.items (wholes_of before (histories_of tape.now.lanes schedule.now))) }
    ensures no_write { IfErr result.0 (λ fault. fault ≡ FoldFault.WriteFault → ⊥) }

    // Each keeper comes back in its place. Those of ranks without a save, and those of no rank, are never called.
    ensures places { vec_len result.1 ≡ 64 }
    ensures untouched { (rank : ℕ) → list_any is_save (histories_of tape.now.lanes schedule.now rank) ≡ false →
        element result.1.items rank ≡ element keepers.items rank }
    ensures keepers { KeepersGoOn result.0 F.part_of F.part_at study.now.sizes
        (AllOpen F.RowFold study.now.sizes (lists_of openings.items)) (histories_of tape.now.lanes schedule.now)
        (keepers_seen K.Keeper keepers.items) (keepers_seen K.Keeper result.1.items) }
{
    let mut keepers = keepers;
    let answer = run_ranks(alloc, study, tape, schedule, openings, &mut keepers);
    (answer, keepers)
}

/// Writes the text of the cores and of the lanes' lines.
fn write_cores<O: Sink>(
    study: &Study,
    cores: &[RankCore<Field>],
    lines: &[LaneLine],
    out: &mut O,
) -> Result<(), FoldFault>
    requires cores { AreCores study.now.sizes cores.now }
    ensures histories { (histories : ℕ → List LaneEvent) → AllStand cores.now histories →
        FoldsTo O.told O.faults O.sure out.old out.new result (history_text study.now histories lines.now) }
    ensures states { FoldsCoresTo ⟦<Field as RowFold>⟧ O.told O.faults O.sure out.old out.new result study.now lines.now }
    ensures fault { IfErr result (λ fault. fault ≡ FoldFault.WriteFault) }
{
    match write_result(study, cores, lines, out) {
        Ok(()) => return Ok(()),
        Err(_) => return Err(FoldFault::WriteFault),
    }
}

/// Runs ranks that go on from lists of bytes, and writes the result text of their cores. Each keeper comes back in its
/// place.
///
/// For all histories that stood before, the text is the one of what stood before, a save and the histories of this
/// run, where each keeper tells what it holds, or no crash of this run stands behind a save of its rank. Whatever the
/// keepers tell it is the text of one core for each rank. After a fault of a keeper and after want of memory nothing
/// was written.
pub fn resume_fold<K: Keeper + Drop, O: Sink>(
    alloc: Global,
    study: &Study,
    tape: &Tape,
    schedule: &Schedule,
    openings: Vec<Vec<u8>>,
    keepers: Vec<K>,
    out: &mut O,
) -> (Result<(), FoldFault>, Vec<K>)
    requires keepers { vec_len keepers ≡ 64 }
    requires legal { is_legal study.now.sizes.ranks tape.now.lanes schedule.now ≡ true }
    requires openings { AreOpenings ⟦<Field as RowFold>⟧.part_at study.now.sizes (lists_of openings.items) }
    ensures text { (before : ℕ → List LaneEvent) → ((rank : ℕ) → rank < study.now.sizes.ranks →
        AllOpen ⟦<Field as RowFold>⟧ study.now.sizes (lists_of openings.items) rank (before rank)) →
        AreSure (histories_of tape.now.lanes schedule.now) (keepers_seen K.Keeper keepers.items) →
        FoldsTo O.told O.faults O.sure out.old out.new result.0
        (resumed_text study.now tape.now.lanes schedule.now before) }
    ensures cores { FoldsCoresTo ⟦<Field as RowFold>⟧ O.told O.faults O.sure out.old out.new result.0 study.now
        (lines_of tape.now.lanes) }
    ensures places { vec_len result.1 ≡ 64 }
    ensures untouched { (rank : ℕ) → list_any is_save (histories_of tape.now.lanes schedule.now rank) ≡ false →
        element result.1.items rank ≡ element keepers.items rank }
    ensures keepers { KeepersGoOn result.0 ⟦<Field as RowFold>⟧.part_of ⟦<Field as RowFold>⟧.part_at study.now.sizes
        (AllOpen ⟦<Field as RowFold>⟧ study.now.sizes (lists_of openings.items))
        (histories_of tape.now.lanes schedule.now)
        (keepers_seen K.Keeper keepers.items) (keepers_seen K.Keeper result.1.items) }
{
    let lines = match lines_of(alloc, tape) {
        Ok(lines) => lines,
        Err(fault) => return (Err(fault), keepers),
    };
    let mut keepers = keepers;
    let cores = match run_ranks(alloc, study, tape, schedule, openings, &mut keepers) {
        Ok(cores) => cores,
        Err(fault) => return (Err(fault), keepers),
    };
    let answer = write_cores(study, cores.as_slice(), lines.as_slice(), out);
    (answer, keepers)
}

//! One rank that goes on from bytes over its list of lanes.

ghost use Rattle.std.specs.Prelude.{◌≡◌, ℕ, ◌+◌, ◌^◌, ◌<◌, ◌≤◌, List, length, replicate, vec_len, true, false, IfOk, OnOk, MatchResult};
ghost use Rattle.std.specs.List.{list_any};
ghost use Rattle.mls_model.specs.Studies.{Sizes};
ghost use Rattle.mls_model.specs.Schedules.{is_legal_order};
ghost use Rattle.mls_model.specs.Histories.{LaneEvent, history};
ghost use Rattle.mls_model.specs.Survival.{is_save};
ghost use Rattle.mls_rank.specs.Cores.{sizes_of, rank_of};
ghost use Rattle.mls_rank.specs.Standing.{StandsFor};
ghost use Rattle.mls_book.specs.Histories.{Sure};
ghost use Rattle.mls_book.specs.SavedRanks.{number_of, total_of, keeper_of};
ghost use Rattle.mls_book.specs.Keepers.{FaultSays, keeper_seen};
ghost use Rattle.mls_replay.specs.Folding.{fault_at};
ghost use Rattle.mls_resume.specs.Opening.{IsOpening, OpensWith};
ghost use Rattle.mls_resumed.specs.GoingOn.{whole_of, RankStops, IsGoingOn, AreTaken};

use mls_base::faults::NoMemory;
use mls_base::outside::Keeper;
use mls_base::shape::Shape;
use mls_book::{BookFault, SavedRank};
use mls_field::fold::RowFold;
use mls_rank::RankCore;
use mls_result::FoldFault;
use mls_resume::open_rank;
use mls_tape::Tape;
use std::alloc::Global;

/// Why a fold ends whose rank refused an event.
fn fault_at(rank: u32, fault: BookFault) -> FoldFault
    ensures { result ≡ fault_at rank fault }
{
    match fault {
        BookFault::KeeperFault => FoldFault::KeeperFault { rank },
        BookFault::CheckpointBad { at, why } => FoldFault::CheckpointBad { rank, at, why },
        BookFault::Memory => FoldFault::Memory,
    }
}

/// No event of any of so many lanes.
fn none_taken(alloc: Global, lanes: u32) -> Result<Vec<u32>, NoMemory>
    ensures { IfOk result (λ taken. taken.items ≡ replicate lanes 0) }
{
    let taken = vec![in alloc; 0u32; lanes as usize]?;
    Ok(taken)
}

/// What a machine can address has fewer than 2^61 places of four bytes each.
fn few_places(order: &[u32])
    ensures { length order.now < 2 ^ 61 }
{
    let _count = order.len();
}

/// The event that a place of the order names is taken: of its lane the one after those that were taken.
fn take_event<F: RowFold, K: Keeper + Drop>(
    alloc: Global,
    saved: &mut SavedRank<F, K>,
    tape: &Tape,
    order: &[u32],
    place: usize,
    taken: &mut Vec<u32>,
) -> Result<(), BookFault>
    requires here { place < length order.now }
    requires short { length order.now < 2 ^ 61 }
    requires legal { is_legal_order tape.now.lanes (number_of saved.old) order.now ≡ true }
    requires total { total_of saved.old ≤ 2 ^ 62 + place }
    requires taken { AreTaken tape.now.lanes order.now place taken.old.items }
    ensures taken { OnOk result (AreTaken tape.now.lanes order.now (place + 1) taken.new.items) }
    ensures number { number_of saved.new ≡ number_of saved.old }
    ensures total { OnOk result (total_of saved.new ≤ 2 ^ 62 + (place + 1)) }
    ensures goes_on { (s : Sizes) (rank : ℕ) (opening : List ℕ) (entry : K) →
        IsGoingOn F.RowFold K.Keeper s rank opening tape.now.lanes order.now place entry saved.old →
        MatchResult result
        (λ _. IsGoingOn F.RowFold K.Keeper s rank opening tape.now.lanes order.now (place + 1) entry saved.new)
        (FaultSays F.part_at s rank (history tape.now.lanes order.now)
        (keeper_seen K.Keeper entry) (keeper_seen K.Keeper (keeper_of saved.new))) }
    ensures quiet { (s : Sizes) (rank : ℕ) (opening : List ℕ) (entry : K) →
        IsGoingOn F.RowFold K.Keeper s rank opening tape.now.lanes order.now place entry saved.old →
        list_any is_save (history tape.now.lanes order.now) ≡ false → keeper_of saved.new ≡ entry }
{
    let lane = order[place];
    let number = taken[lane as usize];
    let _events = tape.events(lane);
    let event = tape.event(lane, number);
    match saved.take(alloc, event.kind(), event.view()) {
        Ok(_) => {
            taken[lane as usize] = number + 1;
            return Ok(());
        }
        Err(fault) => return Err(fault),
    }
}

/// All events of a rank's list are taken in turn.
fn take_all<F: RowFold, K: Keeper + Drop>(
    alloc: Global,
    saved: &mut SavedRank<F, K>,
    tape: &Tape,
    order: &[u32],
) -> Result<(), BookFault>
    requires legal { is_legal_order tape.now.lanes (number_of saved.old) order.now ≡ true }
    requires total { total_of saved.old ≤ 2 ^ 62 }
    ensures goes_on { (s : Sizes) (rank : ℕ) (opening : List ℕ) (entry : K) →
        IsGoingOn F.RowFold K.Keeper s rank opening tape.now.lanes order.now 0 entry saved.old →
        MatchResult result
        (λ _. IsGoingOn F.RowFold K.Keeper s rank opening tape.now.lanes order.now (length order.now) entry saved.new)
        (FaultSays F.part_at s rank (history tape.now.lanes order.now)
        (keeper_seen K.Keeper entry) (keeper_seen K.Keeper (keeper_of saved.new))) }
    ensures quiet { (s : Sizes) (rank : ℕ) (opening : List ℕ) (entry : K) →
        IsGoingOn F.RowFold K.Keeper s rank opening tape.now.lanes order.now 0 entry saved.old →
        list_any is_save (history tape.now.lanes order.now) ≡ false → keeper_of saved.new ≡ entry }
{
    few_places(order);
    let mut taken = match none_taken(alloc, tape.lane_count()) {
        Ok(taken) => taken,
        Err(_) => return Err(BookFault::Memory),
    };
    for place in 0..order.len() {
        match take_event(alloc, saved, tape, order, place, &mut taken) {
            Ok(()) => {}
            Err(fault) => return Err(fault),
        }
    }
    Ok(())
}

/// The core of a rank that went on from the bytes over the events of its list, and its keeper.
pub(crate) fn run_rank<F: RowFold, K: Keeper + Drop>(
    alloc: Global,
    shape: &Shape,
    tape: &Tape,
    rank: u32,
    order: &[u32],
    opening: Vec<u8>,
    keeper: K,
) -> (Result<RankCore<F>, FoldFault>, K)
    requires rank_in { rank < shape.now.ranks }
    requires legal { is_legal_order tape.now.lanes rank order.now ≡ true }
    requires opening { IsOpening F.part_at shape.now rank (2 ^ 61) opening.items }
    ensures sizes { IfOk result.0 (λ core. sizes_of core ≡ shape.now) }
    ensures rank { IfOk result.0 (λ core. rank_of core ≡ rank) }
    ensures stands { IfOk result.0 (λ core. Sure (K.held result.1) (history tape.now.lanes order.now) →
        (before : List LaneEvent) → OpensWith F.RowFold shape.now rank opening.items before →
        StandsFor core (whole_of before (history tape.now.lanes order.now))) }
    ensures keeper { RankStops result.0 F.part_of F.part_at shape.now rank
        (OpensWith F.RowFold shape.now rank opening.items) (history tape.now.lanes order.now)
        (keeper_seen K.Keeper keeper) (keeper_seen K.Keeper result.1) }
    ensures quiet { list_any is_save (history tape.now.lanes order.now) ≡ false → result.1 ≡ keeper }
{
    let mut saved = match open_rank(alloc, shape, rank, opening, keeper) {
        Ok(saved) => saved,
        Err(refused) => return (Err(FoldFault::Memory), refused.keeper),
    };
    let answer = take_all(alloc, &mut saved, tape, order);
    let (core, keeper) = saved.into_parts();
    match answer {
        Ok(()) => return (Ok(core), keeper),
        Err(fault) => return (Err(fault_at(rank, fault)), keeper),
    }
}

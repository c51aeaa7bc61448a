//! One rank over its list of lanes.

ghost use Rattle.std.specs.Prelude.{◌≡◌, ℕ, ◌+◌, ◌<◌, ◌≤◌, [], length, true, false, take, IfOk, OnOk, MatchResult};
ghost use Rattle.std.specs.List.{list_any};
ghost use Rattle.mls_model.specs.Schedules.{is_legal_order};
ghost use Rattle.mls_model.specs.Histories.{history};
ghost use Rattle.mls_model.specs.Survival.{is_save};
ghost use Rattle.mls_rank.specs.Cores.{sizes_of, rank_of};
ghost use Rattle.mls_rank.specs.Standing.{StandsFor};
ghost use Rattle.mls_book.specs.Histories.{Sure};
ghost use Rattle.mls_book.specs.Keepers.{HasRun, FaultSays, keeper_seen};
ghost use Rattle.mls_replay.specs.Folding.{RankEnds, fault_at};

use mls_base::outside::Keeper;
use mls_base::shape::Shape;
use mls_book::{Book, BookFault, Offered};
use mls_field::fold::RowFold;
use mls_rank::RankCore;
use mls_result::FoldFault;
use mls_tape::Tape;
use std::alloc::Global;

/// Why a fold ends whose rank's book refused an event.
fn fault_at(rank: u32, fault: BookFault) -> FoldFault
    ensures { result ≡ fault_at rank fault }
{
    match fault {
        BookFault::KeeperFault => FoldFault::KeeperFault { rank },
        BookFault::CheckpointBad { at, why } => FoldFault::CheckpointBad { rank, at, why },
        BookFault::Memory => FoldFault::Memory,
    }
}

/// The number of places that are reserved for a list. No tape has more events than a u32 counts.
fn places(order: &[u32]) -> u32 {
    let most = u32::MAX as usize;
    if order.len() < most {
        return order.len() as u32;
    }
    u32::MAX
}

/// The event that a place of the order names is offered: of its lane the one after those that were taken.
fn take_event<'t, F: RowFold, K: Keeper + Drop>(
    alloc: Global,
    book: &mut Book<&'t Tape, F, K>,
    tape: &'t Tape,
    order: &[u32],
    place: usize,
) -> Result<(), BookFault>
    requires here { place < length order.now }
    requires tape { book.old.lanes.now ≡ tape.now }
    requires legal { is_legal_order tape.now.lanes book.old.core.rank order.now ≡ true }
    requires journal { book.old.journal ≡ take place order.now }
    ensures lanes { book.new.lanes ≡ book.old.lanes }
    ensures sizes { book.new.core.sizes ≡ book.old.core.sizes }
    ensures rank { book.new.core.rank ≡ book.old.core.rank }
    ensures journal { OnOk result (book.new.journal ≡ take (place + 1) order.now) }
    ensures runs { (entry : K) →
        HasRun F.part_of book.old.core.sizes book.old.core.rank (history tape.now.lanes (take place order.now))
        (keeper_seen K.Keeper entry) (keeper_seen K.Keeper book.old.keeper) →
        MatchResult result
        (λ _. HasRun F.part_of book.old.core.sizes book.old.core.rank
        (history tape.now.lanes (take (place + 1) order.now))
        (keeper_seen K.Keeper entry) (keeper_seen K.Keeper book.new.keeper))
        (FaultSays F.part_at book.old.core.sizes book.old.core.rank (history tape.now.lanes order.now)
        (keeper_seen K.Keeper entry) (keeper_seen K.Keeper book.new.keeper)) }
    ensures quiet { list_any is_save (history tape.now.lanes order.now) ≡ false → book.new.keeper ≡ book.old.keeper }
{
    book.valid();
    book.on_tape();
    let lane = order[place];
    let number = match book.next(lane) {
        Some(number) => number,
        None => unreachable!(),
    };
    let event = tape.event(lane, number);
    match book.offer(alloc, &event) {
        Ok(Offered::Taken { .. }) => {
            book.on_tape();
            return Ok(());
        }
        Ok(Offered::Stale { .. }) => unreachable!(),
        Err(fault) => return Err(fault),
    }
}

/// All events of a rank's list are offered in turn, with room in the journal for all of them.
fn take_all<'t, F: RowFold, K: Keeper + Drop>(
    alloc: Global,
    book: &mut Book<&'t Tape, F, K>,
    tape: &'t Tape,
    order: &[u32],
) -> Result<(), BookFault>
    requires tape { book.old.lanes.now ≡ tape.now }
    requires legal { is_legal_order tape.now.lanes book.old.core.rank order.now ≡ true }
    requires journal { book.old.journal ≡ [] }
    ensures lanes { book.new.lanes ≡ book.old.lanes }
    ensures sizes { book.new.core.sizes ≡ book.old.core.sizes }
    ensures rank { book.new.core.rank ≡ book.old.core.rank }
    ensures journal { OnOk result (book.new.journal ≡ order.now) }
    ensures runs { MatchResult result
        (λ _. HasRun F.part_of book.old.core.sizes book.old.core.rank (history tape.now.lanes order.now)
        (keeper_seen K.Keeper book.old.keeper) (keeper_seen K.Keeper book.new.keeper))
        (FaultSays F.part_at book.old.core.sizes book.old.core.rank (history tape.now.lanes order.now)
        (keeper_seen K.Keeper book.old.keeper) (keeper_seen K.Keeper book.new.keeper)) }
    ensures quiet { list_any is_save (history tape.now.lanes order.now) ≡ false → book.new.keeper ≡ book.old.keeper }
{
    match book.reserve(places(order)) {
        Ok(()) => {}
        Err(_) => return Err(BookFault::Memory),
    }
    for place in 0..order.len() {
        take_event(alloc, book, tape, order, place)?;
    }
    Ok(())
}

/// The core of a rank after the events of its list, and its keeper.
pub fn run_rank<F: RowFold, K: Keeper + Drop>(
    alloc: Global,
    shape: &Shape,
    tape: &Tape,
    rank: u32,
    order: &[u32],
    keeper: K,
) -> (Result<RankCore<F>, FoldFault>, K)
    requires rank_in { rank < shape.now.ranks }
    requires legal { is_legal_order tape.now.lanes rank order.now ≡ true }
    ensures sizes { IfOk result.0 (λ core. sizes_of core ≡ shape.now) }
    ensures rank { IfOk result.0 (λ core. rank_of core ≡ rank) }
    ensures stands { IfOk result.0 (λ core. Sure (K.held result.1) (history tape.now.lanes order.now) →
        StandsFor core (history tape.now.lanes order.now)) }
    ensures keeper { RankEnds result.0 F.part_of F.part_at shape.now rank (history tape.now.lanes order.now)
        (keeper_seen K.Keeper keeper) (keeper_seen K.Keeper result.1) }
    ensures quiet { list_any is_save (history tape.now.lanes order.now) ≡ false → result.1 ≡ keeper }
{
    let mut book = match Book::new(alloc, tape, shape, rank, keeper) {
        Ok(book) => book,
        Err(refused) => return (Err(FoldFault::Memory), refused.keeper),
    };
    let answer = take_all(alloc, &mut book, tape, order);
    book.on_tape();
    let finished = book.finish();
    match answer {
        Ok(()) => return (Ok(finished.core), finished.keeper),
        Err(fault) => return (Err(fault_at(rank, fault)), finished.keeper),
    }
}

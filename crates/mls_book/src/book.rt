//! One rank of a run: its lanes, the journal of what it took of them, its core, and the keeper of its checkpoint.

ghost use Rattle.std.specs.Prelude.{◌≡◌, ◌≢◌, ℕ, ◌<◌, ◌≤◌, ◌+◌, ◌^◌, List, [], length, replicate, slice_index, None, Some, Ok, true, false, IfOk, IfErr, IfSome, IfNone, OnOk, OnErr, vec_len, vec_capacity};
ghost use Rattle.mls_model.specs.Studies.{Sizes};
ghost use Rattle.mls_model.specs.Histories.{LaneEvent, history};
ghost use Rattle.mls_model.specs.Schedules.{event_count, is_legal_order};
ghost use Rattle.mls_rank.specs.Cores.{sizes_of, rank_of, counts_of};
ghost use Rattle.mls_rank.specs.Counting.{no_counts};
ghost use Rattle.mls_rank.specs.Standing.{StandsFor};
ghost use Rattle.mls_book.specs.Cores.{parts_of, Stands};
ghost use Rattle.mls_book.specs.Books.{BookView, IsBook, IsCarried, with_spare};
ghost use Rattle.mls_book.specs.Offers.{IfTaken, WasTaken, IsNext, IsTaken, IsRefused, recorded};
ghost use Rattle.mls_book.specs.declared.offered.Offered.TheVariants.{Taken, Stale};

use crate::faults::{BookFault, Refused};
use crate::offered::Offered;
use crate::saved_rank::SavedRank;
use mls_base::faults::NoMemory;
use mls_base::outside::Keeper;
use mls_base::shape::Shape;
use mls_field::fold::RowFold;
use mls_rank::RankCore;
use mls_tape::{Decoded, Lanes, Tape};
use std::alloc::Global;
use std::marker::Model;

/// No event of any of so many lanes.
fn none_taken(alloc: Global, lanes: u32) -> Result<Vec<u64>, NoMemory>
    ensures { IfOk result (λ taken. taken.items ≡ replicate lanes 0) }
{
    let taken = vec![in alloc; 0u64; lanes as usize]?;
    Ok(taken)
}

/// The number of places of a journal. What a machine can address has fewer than 2^61 of four bytes each.
fn place_count(journal: &[u32]) -> u64
    ensures value { result ≡ length journal.now }
    ensures small { result ≤ 2 ^ 62 }
{
    journal.len() as u64
}

/// Makes room for one more place. With spare left nothing changes.
fn make_room(journal: &mut Vec<u32>) -> Result<(), NoMemory>
    ensures items { journal.new.items ≡ journal.old.items }
    ensures len { vec_len journal.new ≡ vec_len journal.old }
    ensures room { OnOk result (vec_len journal.new < vec_capacity journal.new) }
    ensures full { OnErr result (vec_capacity journal.old ≤ vec_len journal.old) }
    ensures spare { vec_len journal.old < vec_capacity journal.old
        → vec_capacity journal.new ≡ vec_capacity journal.old }
{
    if journal.len() < journal.capacity() {
        return Ok(());
    }
    journal.reserve(1)?;
    Ok(())
}

/// The record of store faults after a fault: want of memory is none of the store.
fn recorded(fault: BookFault, before: Option<BookFault>) -> Option<BookFault>
    ensures { result ≡ recorded fault before }
{
    match fault {
        BookFault::Memory => before,
        _ => Some(fault),
    }
}

/// What a book ends with: the lanes taken in order, the core, and the keeper.
#[derive(Drop)]
pub struct Finished<F: RowFold, K: Keeper + Drop> {
    pub journal: Vec<u32>,
    pub core: RankCore<F>,
    pub keeper: K,
}

/// A rank's lanes, the numbers of the lanes taken so far in order, which is the journal, and the core after them with
/// its keeper.
///
/// Its type keeps that each lane of the journal belongs to the rank and stands there as often as events were taken of
/// it. Where the lanes tell, the core stands for the history of the journal, if the keeper tells too or no crash in it
/// follows a save, and a keeper that tells holds the checkpoint up to the last save of the journal.
#[derive(Drop)]
pub struct Book<T: Lanes, F: RowFold, K: Keeper + Drop> {
    lanes: T,
    saved: SavedRank<F, K>,
    journal: Vec<u32>,
    taken: Vec<u64>,
    fault: Option<BookFault>,
}

impl<T: Lanes, F: RowFold, K: Keeper + Drop> Model for Book<T, F, K> {
    ghost use Rattle.std.specs.Prelude.{◌-◌, vec_len, vec_capacity};
    ghost use Rattle.mls_book.specs.Cores.{parts_of};
    ghost use Rattle.mls_book.specs.Books.{BookView, BookKept};
    ghost use Rattle.mls_book.specs.SavedRanks.{core_of, keeper_of, saved_of};

    ghost Value = { BookView T F K };

    ghost view = { λ b. record {
      lanes = b.lanes;
      core = parts_of (core_of b.saved);
      keeper = keeper_of b.saved;
      saved = saved_of b.saved;
      journal = b.journal.items;
      taken = b.taken.items;
      fault = b.fault;
      spare = vec_capacity b.journal - vec_len b.journal;
    } };

    ghost invariant = { λ b. BookKept (T.told b.lanes) (T.belongs_to b.lanes) (T.lane_count b.lanes) b.saved b.journal.items b.taken.items b.fault };
}

impl<T: Lanes, F: RowFold, K: Keeper + Drop> Book<T, F, K> {
    /// Nothing is taken yet, and the keeper isn't called.
    pub fn new(
        alloc: Global,
        lanes: T,
        shape: &Shape,
        rank: u32,
        keeper: K,
    ) -> Result<Book<T, F, K>, Refused<K>>
        requires { rank < shape.now.ranks }
        ensures lanes { IfOk result (λ book. book.lanes ≡ lanes) }
        ensures sizes { IfOk result (λ book. book.core.sizes ≡ shape.now) }
        ensures rank { IfOk result (λ book. book.core.rank ≡ rank) }
        ensures counts { IfOk result (λ book. book.core.counts ≡ no_counts) }
        ensures stands { IfOk result (λ book. Stands F.RowFold book.core []) }
        ensures keeper { IfOk result (λ book. book.keeper ≡ keeper) }
        ensures saved { IfOk result (λ book. book.saved ≡ false) }
        ensures journal { IfOk result (λ book. book.journal ≡ []) }
        ensures fault { IfOk result (λ book. book.fault ≡ None) }
        ensures refused { IfErr result (λ refused. refused.keeper ≡ keeper) }
    {
        let taken = match none_taken(alloc, lanes.lanes()) {
            Ok(taken) => taken,
            Err(_) => return Err(Refused { keeper }),
        };
        let saved = match SavedRank::new(alloc, shape, rank, keeper) {
            Ok(saved) => saved,
            Err(refused) => return Err(refused),
        };
        Ok(Book {
            lanes,
            saved,
            journal: Vec::new(alloc),
            taken,
            fault: None,
        })
    }

    /// What each book keeps.
    pub fn valid(&self)
        ensures { IsBook T.Lanes F.RowFold K.Keeper self.now }
    {
        let _ = &self.saved;
    }

    /// The lanes.
    pub fn lanes(&self) -> &T
        ensures { result.now ≡ self.now.lanes }
    {
        &self.lanes
    }

    /// The number of events taken of a lane.
    pub fn taken(&self, lane: u32) -> u64
        requires { lane < T.lane_count self.now.lanes }
        ensures { result ≡ slice_index self.now.taken lane }
    {
        self.taken[lane as usize]
    }

    /// The numbers of the lanes taken so far, in order.
    pub fn journal(&self) -> &[u32]
        ensures { result.now ≡ self.now.journal }
    {
        self.journal.as_slice()
    }

    /// The core.
    pub fn core(&self) -> &RankCore<F>
        ensures parts { parts_of result.now ≡ self.now.core }
        ensures stands { (history : List LaneEvent) → Stands F.RowFold self.now.core history
            → StandsFor result.now history }
    {
        self.saved.core()
    }

    /// The keeper.
    pub fn keeper(&self) -> &K
        ensures { result.now ≡ self.now.keeper }
    {
        self.saved.keeper()
    }

    /// Whether this run had a save.
    pub fn had_save(&self) -> bool
        ensures { result ≡ self.now.saved }
    {
        self.saved.had_save()
    }

    /// The last store fault of an offer, if there was one.
    pub fn store_fault(&self) -> Option<BookFault>
        ensures { result ≡ self.now.fault }
    {
        self.fault
    }

    /// Makes room for so many more places of the journal. An offer with spare places takes no memory for the journal.
    pub fn reserve(&mut self, events: u32) -> Result<(), NoMemory>
        ensures same { self.new ≡ with_spare self.old self.new.spare }
        ensures spare { OnOk result (events ≤ self.new.spare) }
        ensures fewer { self.old.spare ≤ self.new.spare }
        ensures full { OnErr result (self.old.spare < events) }
        ensures err { OnErr result (self.new.spare ≡ self.old.spare) }
    {
        self.journal.reserve(events as usize)?;
        Ok(())
    }

    /// Takes an event of a lane of this rank, where it is the next of its lane; else it answers `Stale` and changes
    /// nothing. A save of a control lane then puts the checkpoint of the core into the keeper, and a crash goes back to
    /// the last save of this run, or to no events where there was none.
    ///
    /// `KeeperFault` comes only of a save or crash that calls the keeper, `CheckpointBad` only of a crash after a save
    /// whose keeper doesn't tell what it holds. After each fault the book is as before, but that a store fault is
    /// recorded. With spare places of the journal an event takes memory only where it is a piece of a part of the
    /// rank's block, or calls the keeper.
    pub fn offer(&mut self, alloc: Global, event: &Decoded<'_, T>) -> Result<Offered, BookFault>
        requires lane_in { event.now.lane < T.lane_count self.old.lanes }
        requires own { T.belongs_to self.old.lanes self.old.core.rank event.now.lane ≡ true }
        requires told { T.told event.now.lanes event.now.lane ≡ T.told self.old.lanes event.now.lane }
        ensures stale { event.now.number ≢ slice_index self.old.taken event.now.lane →
            (result ≡ Ok (Stale (slice_index self.old.taken event.now.lane))) × (self.new ≡ self.old) }
        ensures next { IsNext self.old event.now → IfOk result WasTaken }
        ensures taken { IfOk result (λ answer. IfTaken answer
            (IsTaken F.RowFold K.Keeper self.old self.new event.now)) }
        ensures refused { IfErr result (IsRefused F.RowFold K.Keeper self.old self.new event.now) }
    {
        event.told();
        let lane = event.lane();
        let taken = self.taken[lane as usize];
        if event.number() != taken {
            return Ok(Offered::Stale { taken });
        }
        let place = place_count(self.journal.as_slice());
        match make_room(&mut self.journal) {
            Ok(()) => {}
            Err(_) => return Err(BookFault::Memory),
        }
        match self.saved.take(alloc, event.kind(), event.view()) {
            Ok(outcome) => {
                self.journal.push_reserved(lane);
                self.taken[lane as usize] = taken + 1;
                return Ok(Offered::Taken { place, outcome });
            }
            Err(fault) => {
                self.fault = recorded(fault, self.fault);
                return Err(fault);
            }
        }
    }

    /// The lanes taken in order, the core and the keeper.
    pub fn finish(self) -> Finished<F, K>
        ensures journal { result.journal.items ≡ self.journal }
        ensures core { parts_of result.core ≡ self.core }
        ensures stands { (history : List LaneEvent) → Stands F.RowFold self.core history
            → StandsFor result.core history }
        ensures keeper { result.keeper ≡ self.keeper }
    {
        let Book { saved, journal, .. } = self;
        let (core, keeper) = saved.into_parts();
        Finished {
            journal,
            core,
            keeper,
        }
    }
}

impl<'a, F: RowFold, K: Keeper + Drop> Book<&'a Tape, F, K> {
    /// The number of the lane's next event. None exactly where all its events are taken.
    pub fn next(&self, lane: u32) -> Option<u32>
        requires { lane < length self.now.lanes.now.lanes }
        ensures some { IfSome result (λ number. (number ≡ slice_index self.now.taken lane)
            × (number < event_count self.now.lanes.now.lanes lane)) }
        ensures none { IfNone result (slice_index self.now.taken lane ≡ event_count self.now.lanes.now.lanes lane) }
    {
        self.valid();
        let number = self.taken(lane);
        if number < self.lanes().events(lane) as u64 {
            return Some(number as u32);
        }
        None
    }

    /// The journal is a legal list of the tape for this rank, and the book carries its history.
    pub fn on_tape(&self)
        ensures legal { is_legal_order self.now.lanes.now.lanes self.now.core.rank self.now.journal ≡ true }
        ensures carried { IsCarried F.RowFold K.Keeper self.now
            (history self.now.lanes.now.lanes self.now.journal) }
    {
        self.valid();
    }
}

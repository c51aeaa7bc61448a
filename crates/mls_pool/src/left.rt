//! The events that are left, offered one after another.

ghost use Rattle.std.specs.Prelude.{◌≡◌, ◌≢◌, ℕ, ◌+◌, ◌<◌, ◌≤◌, true, length, slice_index, vec_len, Some, None, IfErr, IfSome, OnOk};
ghost use Rattle.mls_model.specs.Schedules.{is_lane_of, event_count};
ghost use Rattle.mls_pool.specs.Pools.{IsShown, IsReported, AreClean};
ghost use Rattle.mls_pool.specs.Moving.{GoesOn, GoOn, IsDrained, AreDrained};

use crate::begin::events_of;
use crate::faults::{NO_WORKER, PoolFault};
use mls_base::outside::Keeper;
use mls_book::{Book, BookFault, Offered};
use mls_field::field::Field;
use mls_held::laws::beginnings_go_on;
use mls_tape::{Lanes, Tape};
use std::alloc::Global;

/// Offers the next event of a lane, which has this number.
fn drain_one<'t, K: Keeper + Drop>(
    alloc: Global,
    book: &mut Book<&'t Tape, Field, K>,
    lane: u32,
    number: u32,
) -> Result<(), BookFault>
    requires lane_in { lane < length book.old.lanes.now.lanes }
    requires own { is_lane_of book.old.lanes.now.lanes book.old.core.rank lane ≡ true }
    requires next { number ≡ slice_index book.old.taken lane }
    requires left { number < event_count book.old.lanes.now.lanes lane }
    ensures goes_on { GoesOn K.Keeper book.old book.new }
    ensures more { OnOk result (slice_index book.new.taken lane ≡ number + 1) }
    ensures others { OnOk result ((k : ℕ) → k ≢ lane → slice_index book.new.taken k ≡ slice_index book.old.taken k) }
    ensures clean { OnOk result (book.new.fault ≡ book.old.fault) }
    ensures shown { IfErr result (λ fault. IsShown fault book.new.fault) }
{
    beginnings_go_on::<&'t Tape, Field, K>();
    book.valid();
    let tape: &'t Tape = *book.lanes();
    let event = tape.event(lane, number);
    match book.offer(alloc, &event) {
        Ok(Offered::Taken { .. }) => Ok(()),
        Ok(Offered::Stale { .. }) => unreachable!(),
        Err(fault) => Err(fault),
    }
}

/// Offers the events that are left of a lane.
fn drain_lane<'t, K: Keeper + Drop>(
    alloc: Global,
    book: &mut Book<&'t Tape, Field, K>,
    lane: u32,
) -> Result<(), BookFault>
    requires lane_in { lane < length book.old.lanes.now.lanes }
    requires own { is_lane_of book.old.lanes.now.lanes book.old.core.rank lane ≡ true }
    ensures goes_on { GoesOn K.Keeper book.old book.new }
    ensures whole { OnOk result (slice_index book.new.taken lane ≡ event_count book.old.lanes.now.lanes lane) }
    ensures others { OnOk result ((k : ℕ) → k ≢ lane → slice_index book.new.taken k ≡ slice_index book.old.taken k) }
    ensures clean { OnOk result (book.new.fault ≡ book.old.fault) }
    ensures shown { IfErr result (λ fault. IsShown fault book.new.fault) }
{
    let events = book.lanes().events(lane);
    let Some(first) = book.next(lane) else {
        return Ok(());
    };
    for number in first..events {
        match drain_one(alloc, book, lane, number) {
            Ok(()) => {}
            Err(fault) => return Err(fault),
        }
    }
    Ok(())
}

/// Offers the events that are left of a rank's lanes, with room in the journal for all its events.
fn drain_book<'t, K: Keeper + Drop>(
    alloc: Global,
    book: &mut Book<&'t Tape, Field, K>,
) -> Result<(), BookFault>
    ensures goes_on { GoesOn K.Keeper book.old book.new }
    ensures drained { OnOk result (IsDrained book.new) }
    ensures clean { OnOk result (book.new.fault ≡ book.old.fault) }
    ensures shown { IfErr result (λ fault. IsShown fault book.new.fault) }
{
    let tape: &'t Tape = *book.lanes();
    let rank = book.core().rank();
    match book.reserve(events_of(tape, rank)) {
        Ok(()) => {}
        Err(_) => return Err(BookFault::Memory),
    }
    for lane in 0..tape.lane_count() {
        if tape.belongs(rank, lane) {
            match drain_lane(alloc, book, lane) {
                Ok(()) => {}
                Err(fault) => return Err(fault),
            }
        }
    }
    book.valid();
    book.on_tape();
    Ok(())
}

/// Offers the events that are left, rank by rank, up to the first fault.
pub fn drain_books<'t, K: Keeper + Drop>(
    alloc: Global,
    books: &mut Vec<Book<&'t Tape, Field, K>>,
) -> Option<PoolFault>
    requires { vec_len books.old ≤ 64 }
    ensures go_on { GoOn K.Keeper books.old.items books.new.items }
    ensures drained { result ≡ None → AreDrained books.new.items }
    ensures clean { result ≡ None → AreClean books.old.items → AreClean books.new.items }
    ensures reported { IfSome result (IsReported books.new.items) }
    ensures worker { IfSome result (λ fault. fault.worker ≡ 64) }
{
    for rank in 0..books.len() {
        match drain_book(alloc, &mut books[rank]) {
            Ok(()) => {}
            Err(fault) => {
                return Some(PoolFault {
                    worker: NO_WORKER,
                    rank: rank as u32,
                    fault,
                });
            }
        }
    }
    None
}

//! The workers: each offers the next events of its lanes, one at a time and under the rank's lock.

ghost use Rattle.std.specs.Prelude.{◌≡◌, ◌<◌, ◌≤◌, length, true};
ghost use Rattle.mls_model.specs.Schedules.{is_lane_of};

use crate::faults::PoolFault;
use crate::rota::{Place, Rota};
use mls_base::faults::NoMemory;
use mls_base::gate::Gate;
use mls_base::outside::Keeper;
use mls_book::{BookFault, Offered};
use mls_field::field::Field;
use mls_held::{Held, RankCell, Run};
use mls_tape::{Lanes, Tape};
use std::alloc::Global;
use std::sync::Wait;
use std::thread;
use std::thread::Threads;

/// A worker: its number, its lanes, and the fault that it met.
#[derive(Drop)]
pub struct Worker {
    pub number: u32,
    pub rota: Rota,
    pub fault: Option<PoolFault>,
}

/// So many workers with their lanes.
pub fn workers_of(alloc: Global, tape: &Tape, workers: u32) -> Result<Vec<Worker>, NoMemory>
    requires { 1 ≤ workers }
{
    let mut all = Vec::new(alloc);
    for number in 0..workers {
        let rota = Rota::new(alloc, tape, workers, number)?;
        all.push(Worker {
            number,
            rota,
            fault: None,
        })?;
    }
    Ok(all)
}

/// Offers the next event of a lane of the book's rank, where one is left.
fn offer_next<'t, K: Keeper + Drop, N: Run>(
    alloc: Global,
    held: &mut Held<&'t Tape, Field, K, N>,
    lane: u32,
) -> Result<(), BookFault>
    requires lane_in { lane < length held.old.lanes.now.lanes }
    requires own { is_lane_of held.old.lanes.now.lanes held.old.core.rank lane ≡ true }
{
    let tape: &'t Tape = *held.book().lanes();
    let Some(number) = held.book().next(lane) else {
        return Ok(());
    };
    let event = tape.event(lane, number);
    match held.offer(alloc, &event) {
        Ok(Offered::Taken { .. }) => Ok(()),
        Ok(Offered::Stale { .. }) => unreachable!(),
        Err(fault) => Err(fault),
    }
}

/// Takes the lock of a lane's rank and offers the lane's next event there. A cell that has no book of the lane's rank
/// is let go and tried again.
fn take_next<'t, R: Wait, K: Keeper + Drop, N: Run>(
    rt: &R,
    alloc: Global,
    cell: &RankCell<&'t Tape, Field, K, N>,
    lane: u32,
) -> Result<(), BookFault> {
    for _ in rt.forever() {
        let mut guard = cell.lock(rt);
        if let Some(held) = &mut *guard {
            let tape: &'t Tape = *held.book().lanes();
            let rank = held.book().core().rank();
            if lane < tape.lane_count() && tape.belongs(rank, lane) {
                return offer_next(alloc, held, lane);
            }
        }
    }
    unreachable!()
}

/// A worker's turns, up to its first fault. No lock is held at the gate.
fn work<'t, R: Wait, K: Keeper + Drop, N: Run, G: Gate>(
    rt: &R,
    alloc: Global,
    cells: &[RankCell<&'t Tape, Field, K, N>],
    gate: &G,
    worker: &mut Worker,
) {
    for turn in 0..u32::MAX {
        let Some(Place { rank, lane }) = worker.rota.turn() else {
            return;
        };
        let Some(cell) = cells.get(rank as usize) else {
            return;
        };
        gate.pass(worker.number, turn);
        match take_next(rt, alloc, cell, lane) {
            Ok(()) => {}
            Err(fault) => {
                worker.fault = Some(PoolFault {
                    worker: worker.number,
                    rank,
                    fault,
                });
                return;
            }
        }
    }
}

/// Runs the workers, each in a thread of its own, until all have returned.
pub fn run_workers<
    't,
    R: Threads + Wait + Sync,
    K: Keeper + Drop + Send,
    N: Run + Send + Sync,
    G: Gate + Sync,
>(
    rt: &R,
    alloc: Global,
    cells: &[RankCell<&'t Tape, Field, K, N>],
    gate: &G,
    workers: &mut [Worker],
) {
    let threads = workers.len();
    if threads == 0 {
        return;
    }
    thread::for_each_mut(
        rt,
        workers,
        threads,
        &|_, worker| { work(rt, alloc, cells, gate, worker) },
    );
}

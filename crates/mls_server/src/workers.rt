//! The workers of a server.

ghost use Rattle.std.specs.Prelude.{◌≡◌, IfOk, vec_len};

use crate::board::BoardCell;
use crate::doorway::{DoorCell, Doorway};
use crate::faults::ServeFault;
use crate::names::Server;
use crate::serving::{Turn, serve_alone, serve_shared};
use mls_base::clock::Clock;
use mls_base::faults::NoMemory;
use mls_base::gate::Gate;
use mls_base::outside::Keeper;
use mls_desk::{Desk, DeskPost};
use mls_wire::Door;
use std::alloc::Global;
use std::sync::Wait;
use std::thread;
use std::thread::Threads;

/// The most workers of a server.
pub const MOST_WORKERS: u32 = 8;

/// A worker: its number, and the fault that it met.
#[derive(Drop)]
pub struct Worker {
    pub number: u32,
    pub fault: Option<ServeFault>,
}

/// A worker for each connection, up to eight.
pub fn workers_for(alloc: Global, connections: u32) -> Result<Vec<Worker>, NoMemory> {
    let mut workers = Vec::new(alloc);
    for number in 0..connections.min(MOST_WORKERS) {
        workers.push(Worker {
            number,
            fault: None,
        })?;
    }
    Ok(workers)
}

/// A worker's turns: each accepts and serves a connection, until none is left or at the first fault.
fn work<R: Wait, D: Door + Drop, K: Keeper + Drop, C: Clock + Drop, N: Server, G: Gate>(
    rt: &R,
    alloc: Global,
    desk: &Desk<K, C, N>,
    door: &DoorCell<D, N>,
    board: &BoardCell<N>,
    gate: &G,
    worker: &mut Worker,
) {
    desk.valid();
    let shape = desk.shape();
    for number in 0..u32::MAX {
        let mut post = DeskPost::new(rt, desk);
        let turn = Turn {
            worker: worker.number,
            number,
        };
        match serve_shared(rt, alloc, &shape, door, &mut post, board, gate, turn) {
            Ok(true) => {}
            Ok(false) => return,
            Err(fault) => {
                worker.fault = Some(fault);
                return;
            }
        }
    }
}

/// Runs the workers, each in a thread of its own, until all have returned.
pub fn run_workers<
    R: Threads + Wait + Sync,
    D: Door + Drop + Send,
    K: Keeper + Drop + Send,
    C: Clock + Drop + Send,
    N: Server + Send + Sync,
    G: Gate + Sync,
>(
    rt: &R,
    alloc: Global,
    desk: &Desk<K, C, N>,
    door: &DoorCell<D, N>,
    board: &BoardCell<N>,
    gate: &G,
    workers: &mut [Worker],
)
where
    D::L: Send,
{
    let threads = workers.len();
    if threads == 0 {
        return;
    }
    thread::for_each_mut(
        rt,
        workers,
        threads,
        &|_, worker| { work(rt, alloc, desk, door, board, gate, worker) },
    );
}

/// Accepts and serves what is left, up to the first fault.
pub fn serve_left<R: Wait, D: Door + Drop, K: Keeper + Drop, C: Clock + Drop, N: Server>(
    rt: &R,
    alloc: Global,
    desk: &Desk<K, C, N>,
    door: &mut Doorway<D, N>,
    board: &BoardCell<N>,
) -> Option<ServeFault> {
    desk.valid();
    let shape = desk.shape();
    for number in 0..u32::MAX {
        let mut post = DeskPost::new(rt, desk);
        let turn = Turn {
            worker: MOST_WORKERS,
            number,
        };
        match serve_alone(rt, alloc, &shape, door, &mut post, board, turn) {
            Ok(true) => {}
            Ok(false) => return None,
            Err(fault) => return Some(fault),
        }
    }
    None
}

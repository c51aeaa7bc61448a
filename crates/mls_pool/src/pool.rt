//! A run of a tape by workers, and the drain of what they left.

ghost use Rattle.std.specs.Prelude.{◌≡◌, ◌≤◌, List, vec_len, vec_capacity, None, IfOk, IfErr, IfSome};
ghost use Rattle.mls_model.specs.Lanes.{Lane};
ghost use Rattle.mls_model.specs.Studies.{Sizes};
ghost use Rattle.mls_book.specs.Keepers.{keepers_seen};
ghost use Rattle.mls_pool.specs.Pools.{IsPool, IsEnded};
ghost use Rattle.mls_pool.specs.Named.{IsRunOf};

use crate::begin::{Begun, begin, room_for_books};
use crate::faults::{PoolFault, Unstarted};
use crate::left::drain_books;
use crate::reports::reported;
use crate::seats::{room_for_cells, seat, unseat};
use crate::workers::{run_workers, workers_of};
use mls_base::gate::Gate;
use mls_base::outside::Keeper;
use mls_book::Book;
use mls_field::field::Field;
use mls_held::Run;
use mls_study::Study;
use mls_tape::Tape;
use std::alloc::Global;
use std::marker::Brand;
use std::sync::Wait;
use std::thread::Threads;

/// The books of a run in rank order, the keepers that no rank took, and the fault that ended the run.
#[derive(Drop)]
pub struct Pooled<'t, K: Keeper + Drop> {
    pub books: Vec<Book<&'t Tape, Field, K>>,
    pub spare: Vec<K>,
    pub fault: Option<PoolFault>,
}

/// Runs the lanes of a tape under the names of one run.
fn run_named<
    't,
    N: Run + Send + Sync,
    R: Threads + Wait + Sync,
    K: Keeper + Drop + Send,
    G: Gate + Sync,
>(
    rt: &R,
    alloc: Global,
    study: &Study,
    tape: &'t Tape,
    workers: u32,
    keepers: Vec<K>,
    gate: &G,
) -> Result<Pooled<'t, K>, Unstarted<K>>
    requires keepers { vec_len keepers ≡ 64 }
    requires ranks { tape.now.ranks ≡ study.now.sizes.ranks }
    requires some { 1 ≤ workers }
    requires names { IsRunOf N.Run tape.now.lanes study.now.sizes (keepers_seen K.Keeper keepers.items) }
    ensures pool { IfOk result (λ pooled. IsPool K.Keeper tape.now.lanes study.now.sizes keepers.items
        pooled.books.items pooled.spare.items pooled.fault) }
    ensures room { IfOk result (λ pooled. 64 ≤ vec_capacity pooled.spare) }
    ensures unstarted { IfErr result (λ unstarted. unstarted.keepers.items ≡ keepers.items) }
{
    study.valid();
    tape.valid();
    let shape = study.shape();
    let mut slots = match workers_of(alloc, tape, workers) {
        Ok(slots) => slots,
        Err(_) => return Err(Unstarted { keepers }),
    };
    let mut cells = match room_for_cells::<K, N>(alloc) {
        Ok(cells) => cells,
        Err(_) => return Err(Unstarted { keepers }),
    };
    let mut books = match room_for_books(alloc) {
        Ok(books) => books,
        Err(_) => return Err(Unstarted { keepers }),
    };
    let begun = match begin::<K, N>(alloc, tape, &shape, keepers) {
        Ok(begun) => begun,
        Err(unstarted) => return Err(unstarted),
    };
    let Begun {
        books: fresh,
        spare,
    } = begun;
    seat(fresh, &mut cells);
    run_workers(rt, alloc, cells.as_slice(), gate, slots.as_mut_slice());
    unseat(rt, cells.as_slice(), &mut books);
    let fault = reported(slots.as_slice(), books.as_slice());
    Ok(Pooled {
        books,
        spare,
        fault,
    })
}

/// Runs the tape's lanes on so many workers; lane k is worker k mod `workers`'s. A worker passes the gate before each
/// of its offers, with its turn from 0, and holds no lock meanwhile. It stops at its first fault.
///
/// The fault that is answered is the one of the least worker that met one, store faults that their book doesn't show
/// left out; where none is left, the store fault of the least rank whose book shows one, with `NO_WORKER`.
pub fn run_lanes<'t, R: Threads + Wait + Sync, K: Keeper + Drop + Send, G: Gate + Sync>(
    rt: &R,
    alloc: Global,
    study: &Study,
    tape: &'t Tape,
    workers: u32,
    keepers: Vec<K>,
    gate: &G,
) -> Result<Pooled<'t, K>, Unstarted<K>>
    requires keepers { vec_len keepers ≡ 64 }
    requires ranks { tape.now.ranks ≡ study.now.sizes.ranks }
    requires some { 1 ≤ workers }
    requires few { workers ≤ 64 }
    ensures pool { IfOk result (λ pooled. IsPool K.Keeper tape.now.lanes study.now.sizes keepers.items
        pooled.books.items pooled.spare.items pooled.fault) }
    ensures room { IfOk result (λ pooled. 64 ≤ vec_capacity pooled.spare) }
    ensures unstarted { IfErr result (λ unstarted. unstarted.keepers.items ≡ keepers.items) }
{
    run_named::<Brand, R, K, G>(rt, alloc, study, tape, workers, keepers, gate)
}

/// Offers all events that are left, one after another, where there is no fault; a fault of its own is `NO_WORKER`'s.
pub fn drain<'t, K: Keeper + Drop>(alloc: Global, pooled: Pooled<'t, K>) -> Pooled<'t, K>
    requires { vec_len pooled.books ≤ 64 }
    ensures ended { (tape : List Lane) (s : Sizes) (keepers : List _)
        → IsPool K.Keeper tape s keepers pooled.entry.books.items pooled.entry.spare.items pooled.entry.fault
        → IsEnded K.Keeper tape s keepers result.books.items result.spare.items result.fault }
    ensures handed { IfSome pooled.entry.fault (λ fault. result ≡ pooled.entry) }
    ensures own { pooled.entry.fault ≡ None → IfSome result.fault (λ fault. fault.worker ≡ 64) }
    ensures spare { result.spare ≡ pooled.entry.spare }
{
    match pooled.fault {
        Some(_) => return pooled,
        None => {}
    }
    let Pooled { books, spare, .. } = pooled;
    let mut books = books;
    let fault = drain_books(alloc, &mut books);
    Pooled {
        books,
        spare,
        fault,
    }
}

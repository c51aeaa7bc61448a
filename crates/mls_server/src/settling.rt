//! Which fault of a server is answered, and what is served after the workers have returned.

ghost use Rattle.std.specs.Prelude.{◌≡◌, ◌≤◌, true, length, vec_len, vec_capacity, None, IfSome};
ghost use Rattle.mls_desk.specs.Books.{AreClean, AreSeated};
ghost use Rattle.mls_server.specs.Settled.{IsShown};

use crate::board::BoardCell;
use crate::doorway::Doorway;
use crate::faults::ServeFault;
use crate::names::Server;
use crate::workers::{Worker, serve_left};
use mls_base::clock::Clock;
use mls_base::outside::Keeper;
use mls_book::Book;
use mls_desk::{Desk, is_reported, least_rank};
use mls_field::field::Field;
use mls_tape::Wire;
use mls_wire::Door;
use std::alloc::Global;
use std::sync::Wait;

/// Whether a fault is want of memory, or is shown: a failed accept by the door, a rank's fault by its book.
fn is_shown<K: Keeper + Drop>(
    fault: ServeFault,
    books: &[Book<Wire, Field, K>],
    failed: bool,
) -> bool
    ensures { result ≡ true → IsShown books.now failed fault }
{
    match fault {
        ServeFault::DoorFault => failed,
        ServeFault::Rank(fault) => is_reported(books, fault),
        ServeFault::Memory => true,
    }
}

/// The fault of the least worker whose fault is shown.
fn least_worker<K: Keeper + Drop>(
    workers: &[Worker],
    books: &[Book<Wire, Field, K>],
    failed: bool,
) -> Option<ServeFault>
    ensures { IfSome result (IsShown books.now failed) }
{
    for worker in workers {
        if let Some(fault) = worker.fault {
            if is_shown(fault, books, failed) {
                return Some(fault);
            }
        }
    }
    None
}

/// The fault that is answered: that of the least worker whose fault is shown, then the last worker's where it is, then
/// the store fault of the least rank whose book shows one.
fn answered<K: Keeper + Drop>(
    workers: &[Worker],
    last: Option<ServeFault>,
    books: &[Book<Wire, Field, K>],
    failed: bool,
) -> Option<ServeFault>
    requires { length books.now ≤ 64 }
    ensures shown { IfSome result (IsShown books.now failed) }
    ensures clean { result ≡ None → AreClean books.now }
{
    if let Some(fault) = least_worker(workers, books, failed) {
        return Some(fault);
    }
    if let Some(fault) = last {
        if is_shown(fault, books, failed) {
            return Some(fault);
        }
    }
    match least_rank(books) {
        Some(fault) => Some(ServeFault::Rank(fault)),
        None => None,
    }
}

/// Takes the books out of their locks and finds the fault that is answered. Where there is none and accepts are left,
/// the caller serves these as one last worker, and the books are taken out again.
pub fn settle<R: Wait, D: Door + Drop, K: Keeper + Drop, C: Clock + Drop, N: Server>(
    rt: &R,
    alloc: Global,
    desk: &Desk<K, C, N>,
    door: &mut Doorway<D, N>,
    board: &BoardCell<N>,
    workers: &[Worker],
    books: &mut Vec<Book<Wire, Field, K>>,
) -> Option<ServeFault>
    requires none { vec_len books.old ≡ 0 }
    requires room { 64 ≤ vec_capacity books.old }
    ensures count { length books.new.items ≡ desk.now.sizes.ranks }
    ensures seated { AreSeated K.Keeper N.Run books.new.items }
    ensures shown { IfSome result (IsShown books.new.items door.new.failed) }
    ensures whole { result ≡ None → door.new.left ≡ 0 }
    ensures clean { result ≡ None → AreClean books.new.items }
{
    desk.valid();
    let mut last = None;
    for _ in rt.forever() {
        desk.take_books(rt, books);
        let fault = answered(workers, last, books.as_slice(), door.has_failed());
        if fault.is_some() || door.left() == 0 {
            return fault;
        }
        desk.put_books(rt, books);
        last = serve_left(rt, alloc, desk, door, board);
    }
    unreachable!()
}

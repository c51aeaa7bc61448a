//! Which fault of a run is answered.

ghost use Rattle.std.specs.Prelude.{◌≡◌, ℕ, ◌<◌, ◌≤◌, true, length, Some, None, IfSome};
ghost use Rattle.mls_pool.specs.Pools.{IsShown, IsReported, AreClean};

use crate::faults::{NO_WORKER, PoolFault};
use crate::workers::Worker;
use mls_base::outside::Keeper;
use mls_book::{Book, BookFault};
use mls_field::field::Field;
use mls_tape::Tape;

/// Whether a fault is want of memory, or is the one that a book's record shows.
fn is_shown(fault: BookFault, recorded: Option<BookFault>) -> bool
    ensures { result ≡ true → IsShown fault recorded }
{
    match fault {
        BookFault::Memory => true,
        _ => match recorded {
            Some(shown) => shown == fault,
            None => false,
        },
    }
}

/// Whether a fault is of one of the ranks, and its book shows it where it is one of the store.
fn is_reported<'t, K: Keeper + Drop>(books: &[Book<&'t Tape, Field, K>], fault: PoolFault) -> bool
    ensures { result ≡ true → IsReported books.now fault }
{
    match books.get(fault.rank as usize) {
        Some(book) => is_shown(fault.fault, book.store_fault()),
        None => false,
    }
}

/// The fault of the least worker whose fault its book shows.
fn least_worker<'t, K: Keeper + Drop>(
    workers: &[Worker],
    books: &[Book<&'t Tape, Field, K>],
) -> Option<PoolFault>
    ensures { IfSome result (IsReported books.now) }
{
    for worker in workers {
        if let Some(fault) = worker.fault {
            if is_reported(books, fault) {
                return Some(fault);
            }
        }
    }
    None
}

/// The store fault of the least rank whose book shows one.
fn least_rank<'t, K: Keeper + Drop>(books: &[Book<&'t Tape, Field, K>]) -> Option<PoolFault>
    requires { length books.now ≤ 64 }
    ensures reported { IfSome result (IsReported books.now) }
    ensures clean { result ≡ None → AreClean books.now }
{
    for rank in 0..books.len() {
        match books[rank].store_fault() {
            Some(fault) => {
                return Some(PoolFault {
                    worker: NO_WORKER,
                    rank: rank as u32,
                    fault,
                });
            }
            None => {}
        }
    }
    None
}

/// The fault of a run: that of the least worker whose fault its book shows, and where there is none the store fault of
/// the least rank whose book shows one.
pub fn reported<'t, K: Keeper + Drop>(
    workers: &[Worker],
    books: &[Book<&'t Tape, Field, K>],
) -> Option<PoolFault>
    requires { length books.now ≤ 64 }
    ensures reported { IfSome result (IsReported books.now) }
    ensures clean { result ≡ None → AreClean books.now }
{
    match least_worker(workers, books) {
        Some(fault) => Some(fault),
        None => least_rank(books),
    }
}

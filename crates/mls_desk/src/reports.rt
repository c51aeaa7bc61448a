//! Which faults of a server's ranks are answered.

ghost use Rattle.std.specs.Prelude.{◌≡◌, ◌≤◌, true, length, None, IfSome};
ghost use Rattle.mls_desk.specs.Books.{IsShown, IsReported, AreClean};

use mls_base::outside::Keeper;
use mls_book::{Book, BookFault};
use mls_field::field::Field;
use mls_serve::LaneFault;
use mls_tape::Wire;

/// Whether a fault is want of memory, or is the one that a book's record shows.
fn is_shown(fault: BookFault, recorded: Option<BookFault>) -> bool
    ensures { result ≡ true → IsShown fault recorded }
{
    match fault {
        BookFault::Memory => true,
        _ => match recorded {
            Some(shown) => shown == fault,
            None => false,
        },
    }
}

/// Whether a fault is of one of the ranks, and its book shows it where it is one of the store.
pub fn is_reported<K: Keeper + Drop>(books: &[Book<Wire, Field, K>], fault: LaneFault) -> bool
    ensures { result ≡ true → IsReported books.now fault }
{
    match books.get(fault.rank as usize) {
        Some(book) => is_shown(fault.fault, book.store_fault()),
        None => false,
    }
}

/// The store fault of the least rank whose book shows one.
pub fn least_rank<K: Keeper + Drop>(books: &[Book<Wire, Field, K>]) -> Option<LaneFault>
    requires { length books.now ≤ 64 }
    ensures reported { IfSome result (IsReported books.now) }
    ensures clean { result ≡ None → AreClean books.now }
{
    for rank in 0..books.len() {
        match books[rank].store_fault() {
            Some(fault) => {
                return Some(LaneFault {
                    rank: rank as u32,
                    fault,
                });
            }
            None => {}
        }
    }
    None
}

//! The books of a run under their locks, and out of them again.

ghost use Rattle.std.specs.Prelude.{◌≡◌, ◌+◌, ◌≤◌, length, vec_len, vec_capacity};
ghost use Rattle.mls_desk.specs.Books.{IsNamed, AreNamed, AreSeated};

use mls_base::outside::Keeper;
use mls_book::Book;
use mls_field::field::Field;
use mls_held::{Held, RankCell, Run};
use mls_tape::Wire;
use std::sync::{Mutex, Wait};

/// The book as one of the run.
fn held_of<K: Keeper + Drop, N: Run>(book: Book<Wire, Field, K>) -> Held<Wire, Field, K, N>
    requires { IsNamed K.Keeper N.Run book }
{
    Held::new(book)
}

/// Puts each book under a lock of its own, in order.
pub(crate) fn seat<K: Keeper + Drop, N: Run>(
    books: Vec<Book<Wire, Field, K>>,
    cells: &mut Vec<RankCell<Wire, Field, K, N>>,
)
    requires named { AreNamed K.Keeper N.Run books.items }
    requires room { vec_len cells.old + vec_len books ≤ vec_capacity cells.old }
    ensures { vec_len cells.new ≡ vec_len cells.old + vec_len books }
{
    let mut books = books;
    for _ in 0..books.len() {
        let book = books.remove(0);
        cells.push_reserved(Mutex::new(Some(held_of(book))));
    }
}

/// Puts a book back into its cell.
fn put_one<R: Wait, K: Keeper + Drop, N: Run>(
    rt: &R,
    cell: &RankCell<Wire, Field, K, N>,
    book: Book<Wire, Field, K>,
)
    requires { IsNamed K.Keeper N.Run book }
{
    let mut guard = cell.lock(rt);
    *guard = Some(held_of(book));
}

/// Takes a rank's book out of its cell. A cell that has no book of this rank is let go and tried again.
fn take_one<R: Wait, K: Keeper + Drop, N: Run>(
    rt: &R,
    cell: &RankCell<Wire, Field, K, N>,
    rank: u32,
) -> Book<Wire, Field, K>
    ensures named { IsNamed K.Keeper N.Run result }
    ensures rank { result.core.rank ≡ rank }
{
    for _ in rt.forever() {
        let mut guard = cell.lock(rt);
        match guard.take() {
            Some(held) => {
                if held.book().core().rank() == rank {
                    return held.into_book();
                }
                *guard = Some(held);
            }
            None => {}
        }
    }
    unreachable!()
}

/// Takes the books out of their cells, in rising rank. There is room for them.
pub(crate) fn unseat<R: Wait, K: Keeper + Drop, N: Run>(
    rt: &R,
    cells: &[RankCell<Wire, Field, K, N>],
    books: &mut Vec<Book<Wire, Field, K>>,
)
    requires none { vec_len books.old ≡ 0 }
    requires few { length cells.now ≤ 64 }
    requires room { length cells.now ≤ vec_capacity books.old }
    ensures count { length books.new.items ≡ length cells.now }
    ensures seated { AreSeated K.Keeper N.Run books.new.items }
    ensures capacity { vec_capacity books.new ≡ vec_capacity books.old }
{
    for rank in 0..cells.len() {
        let book = take_one(rt, &cells[rank], rank as u32);
        books.push_reserved(book);
    }
}

/// Puts the books back into their cells.
pub(crate) fn reseat<R: Wait, K: Keeper + Drop, N: Run>(
    rt: &R,
    cells: &[RankCell<Wire, Field, K, N>],
    books: &mut Vec<Book<Wire, Field, K>>,
)
    requires named { AreNamed K.Keeper N.Run books.old.items }
    requires count { vec_len books.old ≡ length cells.now }
    ensures none { vec_len books.new ≡ 0 }
    ensures capacity { vec_capacity books.new ≡ vec_capacity books.old }
{
    for rank in 0..cells.len() {
        let book = books.remove(0);
        put_one(rt, &cells[rank], book);
    }
}

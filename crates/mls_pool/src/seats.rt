//! The books of a run under their locks, and out of them again.

ghost use Rattle.std.specs.Prelude.{◌≡◌, ℕ, ◌+◌, ◌<◌, ◌≤◌, [], ◌∷◌, ◌++◌, length, vec_len, vec_capacity, Some, IfOk};
ghost use Rattle.mls_pool.specs.Named.{IsNamed, AreNamed, AreSeated};

use mls_base::faults::NoMemory;
use mls_base::outside::Keeper;
use mls_book::Book;
use mls_field::field::Field;
use mls_held::{Held, RankCell, Run};
use mls_tape::Tape;
use std::alloc::Global;
use std::sync::{Mutex, Wait};

/// An empty list with room for the cells of all ranks.
pub fn room_for_cells<'t, K: Keeper + Drop, N: Run>(
    alloc: Global,
) -> Result<Vec<RankCell<&'t Tape, Field, K, N>>, NoMemory>
    ensures len { IfOk result (λ cells. vec_len cells ≡ 0) }
    ensures room { IfOk result (λ cells. 64 ≤ vec_capacity cells) }
{
    let cells = Vec::with_capacity(alloc, 64)?;
    Ok(cells)
}

/// The book under a lock of its own.
fn cell_of<'t, K: Keeper + Drop, N: Run>(
    book: Book<&'t Tape, Field, K>,
) -> RankCell<&'t Tape, Field, K, N>
    requires { IsNamed K.Keeper N.Run book }
{
    Mutex::new(Some(Held::new(book)))
}

/// Puts each book under a lock of its own, in order.
pub fn seat<'t, K: Keeper + Drop, N: Run>(
    books: Vec<Book<&'t Tape, Field, K>>,
    cells: &mut Vec<RankCell<&'t Tape, Field, K, N>>,
)
    requires named { AreNamed K.Keeper N.Run books.items }
    requires room { vec_len cells.old + vec_len books ≤ vec_capacity cells.old }
    ensures { vec_len cells.new ≡ vec_len cells.old + vec_len books.entry }
{
    let mut books = books;
    for _ in 0..books.len() {
        let book = books.remove(0);
        cells.push_reserved(cell_of(book));
    }
}

/// Takes a rank's book out of its cell. A cell that has no book of this rank is let go and tried again.
fn unseat_one<'t, R: Wait, K: Keeper + Drop, N: Run>(
    rt: &R,
    cell: &RankCell<&'t Tape, Field, K, N>,
    rank: u32,
) -> Book<&'t Tape, Field, K>
    ensures named { IsNamed K.Keeper N.Run result }
    ensures rank { result.core.rank ≡ rank }
{
    for _ in rt.forever() {
        let mut guard = cell.lock(rt);
        match guard.take() {
            Some(held) => {
                if held.book().core().rank() == rank {
                    return held.into_book();
                }
                *guard = Some(held);
            }
            None => {}
        }
    }
    unreachable!()
}

/// Takes the books out of their cells, in rising rank.
pub fn unseat<'t, R: Wait, K: Keeper + Drop, N: Run>(
    rt: &R,
    cells: &[RankCell<&'t Tape, Field, K, N>],
    books: &mut Vec<Book<&'t Tape, Field, K>>,
)
    requires none { vec_len books.old ≡ 0 }
    requires few { length cells.now ≤ 64 }
    requires room { length cells.now ≤ vec_capacity books.old }
    ensures count { length books.new.items ≡ length cells.now }
    ensures seated { AreSeated K.Keeper N.Run books.new.items }
{
    for rank in 0..cells.len() {
        let book = unseat_one(rt, &cells[rank], rank as u32);
        books.push_reserved(book);
    }
}

//! The books of a run before their first event.

ghost use Rattle.std.specs.Prelude.{◌≡◌, ◌+◌, ◌<◌, ◌≤◌, [], ◌∷◌, ◌++◌, drop, vec_len, vec_capacity, IfOk, IfErr, OnErr};
ghost use Rattle.mls_book.specs.Keepers.{keepers_seen};
ghost use Rattle.mls_pool.specs.Named.{IsFresh, IsRunOf, AreNamed, keepers_of};

use crate::faults::Unstarted;
use mls_base::faults::NoMemory;
use mls_base::outside::Keeper;
use mls_base::shape::Shape;
use mls_book::Book;
use mls_field::field::Field;
use mls_held::Run;
use mls_held::laws::beginnings_go_on;
use mls_tape::Tape;
use std::alloc::Global;

/// The number of the events of a rank's lanes. No tape has more events than a u32 counts.
pub fn events_of(tape: &Tape, rank: u32) -> u32 {
    let mut events = 0u32;
    for lane in 0..tape.lane_count() {
        if tape.lane_rank(lane) == rank {
            events = events.saturating_add(tape.events(lane));
        }
    }
    events
}

/// The book of a rank with the first of the keepers, and with room in its journal for all its events.
fn begin_one<'t, K: Keeper + Drop>(
    alloc: Global,
    tape: &'t Tape,
    shape: &Shape,
    rank: u32,
    keepers: &mut Vec<K>,
) -> Result<Book<&'t Tape, Field, K>, NoMemory>
    requires rank_in { rank < shape.now.ranks }
    requires some { 0 < vec_len keepers.old }
    ensures fresh { IfOk result (λ book. IsFresh tape.now.lanes shape.now rank book.keeper book) }
    ensures took { IfOk result (λ book. book.keeper ∷ keepers.new.items ≡ keepers.old.items) }
    ensures same { OnErr result (keepers.new.items ≡ keepers.old.items) }
    ensures room { vec_capacity keepers.old ≤ vec_capacity keepers.new }
{
    let keeper = keepers.remove(0);
    let mut book = match Book::new(alloc, tape, shape, rank, keeper) {
        Ok(book) => book,
        Err(refused) => {
            put_back(keepers, refused.keeper);
            return Err(NoMemory);
        }
    };
    match book.reserve(events_of(tape, rank)) {
        Ok(()) => return Ok(book),
        Err(_) => {
            put_back(keepers, book.finish().keeper);
            return Err(NoMemory);
        }
    }
}

/// Puts a keeper back to the front, where there is room for it.
fn put_back<K: Keeper + Drop>(keepers: &mut Vec<K>, keeper: K)
    requires { vec_len keepers.old < vec_capacity keepers.old }
    ensures items { keepers.new.items ≡ keeper ∷ keepers.old.items }
    ensures len { vec_len keepers.new ≡ vec_len keepers.old + 1 }
    ensures room { vec_capacity keepers.old ≤ vec_capacity keepers.new }
{
    match keepers.insert(0, keeper) {
        Ok(()) => {}
        Err(_) => unreachable!(),
    }
}

/// Takes the books apart again: their keepers come back to the front, in order.
fn end_all<'t, K: Keeper + Drop>(books: Vec<Book<&'t Tape, Field, K>>, keepers: &mut Vec<K>)
    requires { vec_len books + vec_len keepers.old ≤ vec_capacity keepers.old }
    ensures { keepers.new.items ≡ keepers_of books.entry.items ++ keepers.old.items }
{
    let mut books = books;
    for _ in 0..books.len() {
        match books.pop() {
            Some(book) => put_back(keepers, book.finish().keeper),
            None => unreachable!(),
        }
    }
}

/// The books of a run in rank order, and the keepers that are left.
#[derive(Drop)]
pub struct Begun<'t, K: Keeper + Drop> {
    pub books: Vec<Book<&'t Tape, Field, K>>,
    pub spare: Vec<K>,
}

/// An empty list with room for the books of all ranks.
pub fn room_for_books<'t, K: Keeper + Drop>(
    alloc: Global,
) -> Result<Vec<Book<&'t Tape, Field, K>>, NoMemory>
    ensures none { IfOk result (λ books. books.items ≡ []) }
    ensures len { IfOk result (λ books. vec_len books ≡ 0) }
    ensures room { IfOk result (λ books. 64 ≤ vec_capacity books) }
{
    let books = Vec::with_capacity(alloc, 64)?;
    Ok(books)
}

/// A book for each rank, with the keepers in order.
pub fn begin<'t, K: Keeper + Drop, N: Run>(
    alloc: Global,
    tape: &'t Tape,
    shape: &Shape,
    keepers: Vec<K>,
) -> Result<Begun<'t, K>, Unstarted<K>>
    requires all { vec_len keepers ≡ 64 }
    requires few { shape.now.ranks ≤ 64 }
    requires names { IsRunOf N.Run tape.now.lanes shape.now (keepers_seen K.Keeper keepers.items) }
    ensures named { IfOk result (λ begun. AreNamed K.Keeper N.Run begun.books.items) }
    ensures count { IfOk result (λ begun. vec_len begun.books ≡ shape.now.ranks) }
    ensures left { IfOk result (λ begun. begun.spare.items ≡ drop shape.now.ranks keepers.items) }
    ensures room { IfOk result (λ begun. 64 ≤ vec_capacity begun.spare) }
    ensures unstarted { IfErr result (λ unstarted. unstarted.keepers.items ≡ keepers.items) }
{
    beginnings_go_on::<&'t Tape, Field, K>();
    let mut keepers = keepers;
    let mut books = match room_for_books(alloc) {
        Ok(books) => books,
        Err(_) => return Err(Unstarted { keepers }),
    };
    for rank in 0..shape.ranks() {
        match begin_one(alloc, tape, shape, rank, &mut keepers) {
            Ok(book) => books.push_reserved(book),
            Err(_) => {
                end_all(books, &mut keepers);
                return Err(Unstarted { keepers });
            }
        }
    }
    Ok(Begun {
        books,
        spare: keepers,
    })
}

//! The desk of a server before its first connection.

ghost use Rattle.std.specs.Prelude.{◌≡◌, ◌+◌, ◌<◌, ◌≤◌, ◌∷◌, ◌++◌, drop, vec_len, vec_capacity, IfOk, IfErr, OnErr};
ghost use Rattle.mls_book.specs.Keepers.{keepers_seen};
ghost use Rattle.mls_desk.specs.Desks.{HasRoom, IsDeskRun};
ghost use Rattle.mls_desk.specs.Books.{IsFresh, AreNamed, keepers_of};

use crate::desk::Desk;
use crate::faults::DeskUnstarted;
use crate::seats::seat;
use mls_base::clock::Clock;
use mls_base::faults::NoMemory;
use mls_base::outside::Keeper;
use mls_base::shape::Shape;
use mls_book::Book;
use mls_field::field::Field;
use mls_held::laws::beginnings_go_on;
use mls_held::{RankCell, Run};
use mls_rank::RankCore;
use mls_serve::Watched;
use mls_tape::Wire;
use std::alloc::Global;
use std::sync::Mutex;

/// Empty lists with room for the books of all ranks and for their cores, which the end of a server needs.
#[derive(Drop)]
pub struct Rooms<K: Keeper + Drop> {
    pub books: Vec<Book<Wire, Field, K>>,
    pub cores: Vec<RankCore<Field>>,
}

/// A desk, room for what is taken from it at its end, and the keepers that no rank has.
#[derive(Drop)]
pub struct BegunDesk<K: Keeper + Drop, C: Clock + Drop, N: Run> {
    pub desk: Desk<K, C, N>,
    pub rooms: Rooms<K>,
    pub spare: Vec<K>,
}

/// What a desk takes memory for besides its books: room for their cells, room at its end, and the watch.
#[derive(Drop)]
struct Furniture<K: Keeper + Drop, N: Run> {
    cells: Vec<RankCell<Wire, Field, K, N>>,
    fresh: Vec<Book<Wire, Field, K>>,
    rooms: Rooms<K>,
    watched: Watched,
}

/// What a desk takes memory for besides its books.
fn furnish<K: Keeper + Drop, N: Run>(
    alloc: Global,
    shape: &Shape,
) -> Result<Furniture<K, N>, NoMemory>
    ensures cells { IfOk result (λ made. HasRoom made.cells) }
    ensures fresh { IfOk result (λ made. HasRoom made.fresh) }
    ensures books { IfOk result (λ made. HasRoom made.rooms.books) }
    ensures cores { IfOk result (λ made. HasRoom made.rooms.cores) }
{
    let cells = Vec::with_capacity(alloc, 64)?;
    let fresh = Vec::with_capacity(alloc, 64)?;
    let books = Vec::with_capacity(alloc, 64)?;
    let cores = Vec::with_capacity(alloc, 64)?;
    let watched = Watched::new(alloc, shape)?;
    Ok(Furniture {
        cells,
        fresh,
        rooms: Rooms { books, cores },
        watched,
    })
}

/// Puts an item before the others. There is room for it.
pub(crate) fn put_first<T: Drop>(items: &mut Vec<T>, item: T)
    requires { vec_len items.old < vec_capacity items.old }
    ensures items { items.new.items ≡ item ∷ items.old.items }
    ensures len { vec_len items.new ≡ vec_len items.old + 1 }
    ensures room { vec_capacity items.old ≤ vec_capacity items.new }
{
    match items.insert(0, item) {
        Ok(()) => {}
        Err(_) => unreachable!(),
    }
}

/// The book of a rank with the first of the keepers.
fn begin_one<K: Keeper + Drop>(
    alloc: Global,
    lanes: u32,
    shape: &Shape,
    rank: u32,
    keepers: &mut Vec<K>,
) -> Result<Book<Wire, Field, K>, NoMemory>
    requires rank_in { rank < shape.now.ranks }
    requires some { 0 < vec_len keepers.old }
    ensures fresh { IfOk result (λ book. IsFresh lanes shape.now rank book.keeper book) }
    ensures took { IfOk result (λ book. book.keeper ∷ keepers.new.items ≡ keepers.old.items) }
    ensures same { OnErr result (keepers.new.items ≡ keepers.old.items) }
    ensures room { vec_capacity keepers.old ≤ vec_capacity keepers.new }
{
    let keeper = keepers.remove(0);
    match Book::new(alloc, Wire::new(lanes), shape, rank, keeper) {
        Ok(book) => return Ok(book),
        Err(refused) => {
            put_first(keepers, refused.keeper);
            return Err(NoMemory);
        }
    }
}

/// Takes the books apart again: their keepers come back to the front, in order.
fn end_all<K: Keeper + Drop>(books: Vec<Book<Wire, Field, K>>, keepers: &mut Vec<K>)
    requires { vec_len books + vec_len keepers.old ≤ vec_capacity keepers.old }
    ensures { keepers.new.items ≡ keepers_of books.items ++ keepers.old.items }
{
    let mut books = books;
    for _ in 0..books.len() {
        match books.pop() {
            Some(book) => put_first(keepers, book.finish().keeper),
            None => unreachable!(),
        }
    }
}

/// The books of a run in rank order, and the keepers that are left.
#[derive(Drop)]
struct Begun<K: Keeper + Drop> {
    books: Vec<Book<Wire, Field, K>>,
    spare: Vec<K>,
}

/// A book for each rank, with the keepers in order.
fn begin_books<K: Keeper + Drop, N: Run>(
    alloc: Global,
    lanes: u32,
    shape: &Shape,
    fresh: Vec<Book<Wire, Field, K>>,
    keepers: Vec<K>,
) -> Result<Begun<K>, DeskUnstarted<K>>
    requires all { vec_len keepers ≡ 64 }
    requires few { shape.now.ranks ≤ 64 }
    requires fresh { HasRoom fresh }
    requires names { IsDeskRun N.Run lanes shape.now (keepers_seen K.Keeper keepers.items) }
    ensures named { IfOk result (λ begun. AreNamed K.Keeper N.Run begun.books.items) }
    ensures count { IfOk result (λ begun. vec_len begun.books ≡ shape.now.ranks) }
    ensures left { IfOk result (λ begun. begun.spare.items ≡ drop shape.now.ranks keepers.items) }
    ensures room { IfOk result (λ begun. 64 ≤ vec_capacity begun.spare) }
    ensures unstarted { IfErr result (λ unstarted. unstarted.keepers.items ≡ keepers.items) }
{
    beginnings_go_on::<Wire, Field, K>();
    let mut keepers = keepers;
    let mut books = fresh;
    for rank in 0..shape.ranks() {
        match begin_one(alloc, lanes, shape, rank, &mut keepers) {
            Ok(book) => books.push_reserved(book),
            Err(_) => {
                end_all(books, &mut keepers);
                return Err(DeskUnstarted { keepers });
            }
        }
    }
    Ok(Begun {
        books,
        spare: keepers,
    })
}

/// The desk of a server for so many connections: a book for each rank, with the keepers in order. Want of memory hands
/// all keepers back in order.
pub fn begin_desk<K: Keeper + Drop, C: Clock + Drop, N: Run>(
    alloc: Global,
    shape: &Shape,
    connections: u32,
    keepers: Vec<K>,
    clock: C,
) -> Result<BegunDesk<K, C, N>, DeskUnstarted<K>>
    requires all { vec_len keepers ≡ 64 }
    requires few { shape.now.ranks ≤ 64 }
    requires lanes { connections ≤ 65535 }
    requires names { IsDeskRun N.Run (shape.now.ranks + connections) shape.now (keepers_seen K.Keeper keepers.items) }
    ensures sizes { IfOk result (λ begun. begun.desk.sizes ≡ shape.now) }
    ensures lanes { IfOk result (λ begun. begun.desk.lanes ≡ shape.now.ranks + connections) }
    ensures books { IfOk result (λ begun. HasRoom begun.rooms.books) }
    ensures cores { IfOk result (λ begun. HasRoom begun.rooms.cores) }
    ensures left { IfOk result (λ begun. begun.spare.items ≡ drop shape.now.ranks keepers.items) }
    ensures room { IfOk result (λ begun. 64 ≤ vec_capacity begun.spare) }
    ensures unstarted { IfErr result (λ unstarted. unstarted.keepers.items ≡ keepers.items) }
{
    let Furniture {
        mut cells,
        fresh,
        rooms,
        watched,
    } = match furnish::<K, N>(alloc, shape) {
        Ok(made) => made,
        Err(_) => return Err(DeskUnstarted { keepers }),
    };
    let lanes = shape.ranks() + connections;
    let Begun { books, spare } = match begin_books::<K, N>(alloc, lanes, shape, fresh, keepers) {
        Ok(begun) => begun,
        Err(unstarted) => return Err(unstarted),
    };
    seat(books, &mut cells);
    let desk = Desk {
        shape: *shape,
        cells,
        watch: Mutex::new(watched),
        clock: Mutex::new(clock),
        lanes,
    };
    Ok(BegunDesk { desk, rooms, spare })
}

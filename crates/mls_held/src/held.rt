//! A rank's book in a run.

ghost use Rattle.std.specs.Prelude.{◌≡◌, ◌≢◌, ◌<◌, slice_index, true, Ok, IfOk, IfErr};
ghost use Rattle.mls_book.specs.Offers.{IfTaken, WasTaken, IsNext, IsTaken, IsRefused};
ghost use Rattle.mls_book.specs.declared.offered.Offered.TheVariants.{Stale};
ghost use Rattle.mls_held.specs.Begun.{IsOfRun};

use crate::run::Run;
use mls_base::outside::Keeper;
use mls_book::{Book, BookFault, Offered};
use mls_field::fold::RowFold;
use mls_tape::{Decoded, Lanes};
use std::alloc::Global;
use std::marker::{Model, PhantomData};
use std::sync::Mutex;

/// A book of a run. Contracts see it as the book.
///
/// Its type keeps that the book's lanes and shape are those that the run names, and of its keeper: its count of faults
/// isn't below the one at the run's beginning; a fault of the keeper is recorded only where that count rose; a keeper
/// that told when the run began tells still, unless that count rose, and wherever no store fault is recorded; where this
/// run had no save, a keeper that tells holds what it held when the run began; and a keeper that was sound is sound, and
/// tells still where it told.
#[derive(Drop)]
pub struct Held<T: Lanes, F: RowFold, K: Keeper + Drop, R: Run> {
    book: Book<T, F, K>,
    run: PhantomData<R>,
}

/// A rank's book of a run under its lock, or nothing.
///
/// The lock's type doesn't tell which rank's book it is, or that there is one: whoever takes it looks.
pub type RankCell<T, F, K, R> = Mutex<Option<Held<T, F, K, R>>>;

impl<T: Lanes, F: RowFold, K: Keeper + Drop, R: Run> Model for Held<T, F, K, R> {
    ghost use Rattle.mls_book.specs.Books.{BookView};
    ghost use Rattle.mls_held.specs.Begun.{IsOfRun};

    ghost Value = { BookView T F K };

    ghost view = { λ h. h.book };

    ghost invariant = { λ h. IsOfRun T.Lanes K.Keeper R.Run h.book };
}

impl<T: Lanes, F: RowFold, K: Keeper + Drop, R: Run> Held<T, F, K, R> {
    /// The book as one of the run.
    pub fn new(book: Book<T, F, K>) -> Held<T, F, K, R>
        requires { IsOfRun T.Lanes K.Keeper R.Run book }
        ensures { result ≡ book }
    {
        Held {
            book,
            run: PhantomData,
        }
    }

    /// What each book of the run keeps.
    pub fn valid(&self)
        ensures { IsOfRun T.Lanes K.Keeper R.Run self.now }
    {
        let _ = &self.book;
    }

    /// The book.
    pub fn book(&self) -> &Book<T, F, K>
        ensures { result.now ≡ self.now }
    {
        &self.book
    }

    /// The book, and what the run kept of it.
    pub fn into_book(self) -> Book<T, F, K>
        ensures book { result ≡ self }
        ensures of_run { IsOfRun T.Lanes K.Keeper R.Run self }
    {
        self.book
    }

    /// Offers an event to the book, which takes or refuses it as `Book::offer` says.
    pub fn offer(&mut self, alloc: Global, event: &Decoded<'_, T>) -> Result<Offered, BookFault>
        requires lane_in { event.now.lane < T.lane_count self.old.lanes }
        requires own { T.belongs_to self.old.lanes self.old.core.rank event.now.lane ≡ true }
        requires told { T.told event.now.lanes event.now.lane ≡ T.told self.old.lanes event.now.lane }
        ensures stale { event.now.number ≢ slice_index self.old.taken event.now.lane →
            (result ≡ Ok (Stale (slice_index self.old.taken event.now.lane))) × (self.new ≡ self.old) }
        ensures next { IsNext self.old event.now → IfOk result WasTaken }
        ensures taken { IfOk result (λ answer. IfTaken answer
            (IsTaken F.RowFold K.Keeper self.old self.new event.now)) }
        ensures refused { IfErr result (IsRefused F.RowFold K.Keeper self.old self.new event.now) }
    {
        self.book.offer(alloc, event)
    }
}

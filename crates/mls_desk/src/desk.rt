//! The desk that a server's workers share.

ghost use Rattle.std.specs.Prelude.{◌≡◌, ◌<◌, ◌≤◌, length, vec_len, vec_capacity};
ghost use Rattle.mls_desk.specs.Desks.{IsDesk, event_at};
ghost use Rattle.mls_desk.specs.Books.{AreSeated};

use crate::seats::{reseat, unseat};
use mls_base::clock::Clock;
use mls_base::faults::NoMemory;
use mls_base::outside::Keeper;
use mls_base::shape::Shape;
use mls_book::{Book, BookFault, Offered};
use mls_field::field::Field;
use mls_frame::FrameView;
use mls_held::{Held, RankCell, Run};
use mls_launch::Event;
use mls_model::lanes::LaneKind;
use mls_serve::{Note, WatchCell};
use mls_tape::Wire;
use std::alloc::Global;
use std::marker::Model;
use std::sync::{Mutex, Wait};

/// What the workers of a server share: each rank's book under a lock of its own, the watch under another, and the
/// clock. Lane r below the number of ranks is rank r's control lane, and the others are the connections'.
///
/// Its type keeps that the study and the number of lanes are the run's, and that it has a cell for each rank.
#[derive(Drop)]
pub struct Desk<K: Keeper + Drop, C: Clock + Drop, N: Run> {
    pub(crate) shape: Shape,
    pub(crate) cells: Vec<RankCell<Wire, Field, K, N>>,
    pub(crate) watch: WatchCell,
    pub(crate) clock: Mutex<C>,
    pub(crate) lanes: u32,
}

impl<K: Keeper + Drop, C: Clock + Drop, N: Run> Model for Desk<K, C, N> {
    ghost use Rattle.std.specs.Prelude.{◌≡◌, vec_len};
    ghost use Rattle.mls_desk.specs.Desks.{DeskView, IsDesk};

    ghost Value = { DeskView };

    ghost view = { λ d. record { sizes = d.shape; lanes = d.lanes } };

    ghost invariant = { λ d. (vec_len d.cells ≡ d.shape.ranks) × IsDesk N.Run (record { sizes = d.shape; lanes = d.lanes }) };
}

/// Offers the next event of a lane to a rank's book.
fn offer_next<K: Keeper + Drop, N: Run>(
    alloc: Global,
    held: &mut Held<Wire, Field, K, N>,
    lane: u32,
    kind: LaneKind,
    view: &FrameView<'_>,
) -> Result<(), BookFault>
    requires { lane < N.Run.lane_count }
{
    held.valid();
    let wire = *held.book().lanes();
    let number = held.book().taken(lane);
    let event = wire.decoded(lane, number, kind, view.lent());
    match held.offer(alloc, &event) {
        Ok(Offered::Taken { .. }) => Ok(()),
        Ok(Offered::Stale { .. }) => unreachable!(),
        Err(fault) => Err(fault),
    }
}

/// What the launcher hears of a note at a time.
fn event_of(note: Note, now: u32) -> Event
    ensures { result ≡ event_at note now }
{
    match note {
        Note::Tick => Event::Tick { now },
        Note::Beat { group, life } => Event::Beat { group, life, now },
        Note::Done { group, life } => Event::Done { group, life, now },
        Note::RankBeat { rank } => Event::RankBeat { rank, now },
    }
}

impl<K: Keeper + Drop, C: Clock + Drop, N: Run> Desk<K, C, N> {
    /// What each desk of the run keeps.
    pub fn valid(&self)
        ensures { IsDesk N.Run self.now }
    {
        let _ = &self.lanes;
    }

    /// The numbers of the study.
    pub fn shape(&self) -> Shape
        ensures { result ≡ self.now.sizes }
    {
        self.shape
    }

    /// The number of lanes, the ranks' control lanes among them.
    pub fn lanes(&self) -> u32
        ensures { result ≡ self.now.lanes }
    {
        self.lanes
    }

    /// Takes the rank's lock and offers the frame as the lane's next event there. A cell that has no book of the rank is
    /// let go and tried again.
    pub(crate) fn offer<R: Wait>(
        &self,
        rt: &R,
        alloc: Global,
        rank: u32,
        lane: u32,
        kind: LaneKind,
        view: &FrameView<'_>,
    ) -> Result<(), BookFault>
        requires rank_in { rank < self.now.sizes.ranks }
        requires lane_in { lane < self.now.lanes }
    {
        let cell = &self.cells[rank as usize];
        for _ in rt.forever() {
            let mut guard = cell.lock(rt);
            if let Some(held) = &mut *guard {
                if held.book().core().rank() == rank {
                    return offer_next(alloc, held, lane, kind, view);
                }
            }
        }
        unreachable!()
    }

    /// The watch hears the note. Its lock is held while the clock is read, so the times stand in the order of the clock.
    pub(crate) fn hear<R: Wait>(&self, rt: &R, note: Note) -> Result<(), NoMemory> {
        let mut watched = self.watch.lock(rt);
        let now = self.clock.lock(rt).now();
        watched.hear(&event_of(note, now))
    }

    /// Takes the books out of their cells, in rising rank. There is room for them.
    pub fn take_books<R: Wait>(&self, rt: &R, books: &mut Vec<Book<Wire, Field, K>>)
        requires none { vec_len books.old ≡ 0 }
        requires room { 64 ≤ vec_capacity books.old }
        ensures count { length books.new.items ≡ self.now.sizes.ranks }
        ensures seated { AreSeated K.Keeper N.Run books.new.items }
        ensures capacity { vec_capacity books.new ≡ vec_capacity books.old }
    {
        unseat(rt, self.cells.as_slice(), books)
    }

    /// Puts the books back into their cells.
    pub fn put_books<R: Wait>(&self, rt: &R, books: &mut Vec<Book<Wire, Field, K>>)
        requires seated { AreSeated K.Keeper N.Run books.old.items }
        requires count { vec_len books.old ≡ self.now.sizes.ranks }
        ensures none { vec_len books.new ≡ 0 }
        ensures capacity { vec_capacity books.new ≡ vec_capacity books.old }
    {
        reseat(rt, self.cells.as_slice(), books)
    }

    /// The events that the watch heard, in order.
    pub fn into_events(self) -> Vec<Event> {
        let Desk { watch, .. } = self;
        watch.into_inner().into_events()
    }
}

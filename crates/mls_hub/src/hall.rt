//! The books of all ranks with the connections, and the steps of a connection.

ghost use Rattle.std.specs.Prelude.{◌≡◌, ◌≢◌, ℕ, ◌+◌, ◌^◌, ◌≤◌, ◌<◌, true, false, length, Some, OnOk, OnErr, IfOk, IfErr, IfSome};
ghost use Rattle.futures.specs.Task.{IsArmed, Keeps};
ghost use Rattle.futures.specs.Poll.{IfReady, OnPending};
ghost use Rattle.mls_model.specs.declared.lanes.LaneKind.TheVariants.{Client};
ghost use Rattle.mls_model.specs.Numbers.{element, times};
ghost use Rattle.mls_model.specs.Survival.{is_crash};
ghost use Rattle.mls_frame.specs.Views.{frame_of};
ghost use Rattle.mls_rank.specs.Standing.{as_event};
ghost use Rattle.mls_tape.specs.Wires.{wire_lanes};
ghost use Rattle.mls_hub.specs.declared.connection.Stage.TheVariants.{Lane};
ghost use Rattle.mls_hub.specs.Connections.{behind};
ghost use Rattle.mls_hub.specs.Lanes.{save_event};
ghost use Rattle.mls_hub.specs.Books.{WireBook, IsCaused, TookAt, RefusedAt, AreWired};
ghost use Rattle.mls_hub.specs.Halls.{HallKept, Leaves, HasGone, OnGoneWaits, WasPending, EndsAt, StageAt};

use crate::answering::behind;
use crate::connection::{Connection, Heard, Stage};
use crate::faults::{Fault, Refusal};
use crate::offering::offer;
use crate::settling::Settled;
use futures::task::{Context, Poll};
use mls_base::outside::Keeper;
use mls_base::shape::Shape;
use mls_book::Book;
use mls_field::fold::RowFold;
use mls_frame::FrameView;
use mls_held::Run;
use mls_model::lanes::{LaneEnd, LaneKind, LaneLine};
use mls_poll::PollLink;
use mls_tape::Wire;
use std::alloc::Global;

/// What one step of a connection did.
#[derive(Clone, Copy, Debug)]
pub enum Went {
    /// A frame came and was taken.
    Took,
    /// Nothing came yet.
    Waits,
    /// The connection has its end.
    Ended,
}

/// Offers the next frame of a lane to the book of a rank.
pub fn offer_at<F: RowFold, K: Keeper + Drop>(
    alloc: Global,
    books: &mut Vec<Book<Wire, F, K>>,
    rank: u32,
    lane: u32,
    kind: LaneKind,
    view: FrameView<'_>,
) -> Result<(), Fault>
    requires rank_in { rank < length books.old.items }
    requires lane_in { (book : WireBook _ _) → element books.old.items rank ≡ Some book → lane < wire_lanes book.lanes }
    requires quiet { is_crash (as_event kind (frame_of view)) ≡ false }
    ensures took { OnOk result (TookAt F.RowFold K.Keeper rank lane (as_event kind (frame_of view.entry)) books.old.items books.new.items) }
    ensures refused { IfErr result (λ fault. RefusedAt F.RowFold K.Keeper rank fault books.old.items books.new.items) }
{
    match offer(alloc, &mut books[rank as usize], lane, kind, view) {
        Ok(()) => Ok(()),
        Err(Refusal::Keeper) => Err(Fault::Keeper { rank }),
        Err(Refusal::Memory) => Err(Fault::Memory),
    }
}

/// How often a lane was taken at a rank.
fn taken_at<F: RowFold, K: Keeper + Drop>(
    books: &Vec<Book<Wire, F, K>>,
    rank: u32,
    lane: u32,
) -> u64
    requires rank_in { rank < length books.now.items }
    requires lane_in { (book : WireBook _ _) → element books.now.items rank ≡ Some book → lane < wire_lanes book.lanes }
    ensures { (book : WireBook _ _) → element books.now.items rank ≡ Some book → result ≡ times lane book.journal }
{
    books[rank as usize].valid();
    books[rank as usize].taken(lane)
}

/// The line of a lane that ended, whose first byte came behind so many.
fn line_of(rank: u32, lane: u32, events: u64, head: u64, end: LaneEnd) -> LaneLine
    requires { events < 2 ^ 32 }
    ensures { result ≡ record { lane = lane; rank = rank; kind = Client; events = events; end = behind head end } }
{
    LaneLine {
        lane,
        rank,
        kind: LaneKind::Client,
        events: events as u32,
        end: behind(head, end),
    }
}

/// Polls a lane for its next frame and offers it. At the lane's end the rank saves its state.
fn take_event<L: PollLink + Drop, F: RowFold, K: Keeper + Drop, N: Run>(
    alloc: Global,
    books: &mut Vec<Book<Wire, F, K>>,
    connections: &mut Vec<Connection<L>>,
    i: usize,
    lane: u32,
    rank: u32,
    head: u64,
    cx: &mut Context<'_>,
) -> Result<Went, Fault>
    requires kept { HallKept L.PollLink F.RowFold K.Keeper N.Run true books.old.items connections.old.items }
    requires here { i < length connections.old.items }
    requires lane { lane ≡ N.sizes.ranks + i }
    requires stage { StageAt (Lane rank head) i connections.old.items }
    ensures kept { OnOk result (Leaves L.PollLink F.RowFold K.Keeper N.Run true i books.old.items books.new.items connections.old.items connections.new.items) }
    ensures stopped { OnErr result (Leaves L.PollLink F.RowFold K.Keeper N.Run false i books.old.items books.new.items connections.old.items connections.new.items) }
    ensures caused { IfErr result (λ fault. IsCaused K.Keeper fault books.old.items books.new.items) }
    ensures gone { IfOk result (λ went. HasGone L.PollLink went i connections.old.items connections.new.items) }
    ensures armed { IfOk result (λ went. OnGoneWaits went (IsArmed cx.new)) }
    ensures cx_kept { Keeps cx.old cx.new }
{
    match connections[i].listen(cx) {
        Heard::Waits => Ok(Went::Waits),
        Heard::Memory => Err(Fault::Memory),
        Heard::Frame(frame) => {
            match offer_at(alloc, books, rank, lane, LaneKind::Client, frame.view()) {
                Ok(()) => Ok(Went::Took),
                Err(fault) => {
                    connections[i].stage = Stage::Stopped;
                    Err(fault)
                }
            }
        }
        Heard::End(end) => {
            let events = taken_at(books, rank, lane);
            let line = line_of(rank, lane, events, head, end);
            connections[i].stage = Stage::Ended(Some(line));
            match offer_at(alloc, books, rank, rank, LaneKind::Control, FrameView::Save) {
                Ok(()) => Ok(Went::Ended),
                Err(fault) => Err(fault),
            }
        }
    }
}

/// One step of a connection: its beginning, or its next frame.
fn go_on<L: PollLink + Drop, F: RowFold, K: Keeper + Drop, N: Run>(
    alloc: Global,
    shape: &Shape,
    books: &mut Vec<Book<Wire, F, K>>,
    connections: &mut Vec<Connection<L>>,
    i: usize,
    cx: &mut Context<'_>,
) -> Result<Went, Fault>
    requires kept { HallKept L.PollLink F.RowFold K.Keeper N.Run true books.old.items connections.old.items }
    requires here { i < length connections.old.items }
    requires sizes { shape.now ≡ N.sizes }
    ensures kept { OnOk result (Leaves L.PollLink F.RowFold K.Keeper N.Run true i books.old.items books.new.items connections.old.items connections.new.items) }
    ensures stopped { OnErr result (Leaves L.PollLink F.RowFold K.Keeper N.Run false i books.old.items books.new.items connections.old.items connections.new.items) }
    ensures caused { IfErr result (λ fault. IsCaused K.Keeper fault books.old.items books.new.items) }
    ensures gone { IfOk result (λ went. HasGone L.PollLink went i connections.old.items connections.new.items) }
    ensures armed { IfOk result (λ went. OnGoneWaits went (IsArmed cx.new)) }
    ensures cx_kept { Keeps cx.old cx.new }
{
    let lane = shape.ranks() + i as u32;
    match connections[i].settle(alloc, shape, lane, cx) {
        Err(_) => Err(Fault::Memory),
        Ok(Settled::Took) => Ok(Went::Took),
        Ok(Settled::Waits) => Ok(Went::Waits),
        Ok(Settled::Ended) => Ok(Went::Ended),
        Ok(Settled::Lane { rank, head }) => {
            take_event::<L, F, K, N>(alloc, books, connections, i, lane, rank, head, cx)
        }
    }
}

/// Polls a connection for at most 64 frames. It is ready where the connection has its end.
pub fn poll_connection<L: PollLink + Drop, F: RowFold, K: Keeper + Drop, N: Run>(
    alloc: Global,
    shape: &Shape,
    books: &mut Vec<Book<Wire, F, K>>,
    connections: &mut Vec<Connection<L>>,
    i: usize,
    cx: &mut Context<'_>,
) -> Result<Poll<()>, Fault>
    requires kept { HallKept L.PollLink F.RowFold K.Keeper N.Run true books.old.items connections.old.items }
    requires here { i < length connections.old.items }
    requires sizes { shape.now ≡ N.sizes }
    ensures kept { OnOk result (Leaves L.PollLink F.RowFold K.Keeper N.Run true i books.old.items books.new.items connections.old.items connections.new.items) }
    ensures stopped { OnErr result (Leaves L.PollLink F.RowFold K.Keeper N.Run false i books.old.items books.new.items connections.old.items connections.new.items) }
    ensures caused { IfErr result (λ fault. IsCaused K.Keeper fault books.old.items books.new.items) }
    ensures ended { IfOk result (λ polled. IfReady polled (λ _. EndsAt i connections.new.items)) }
    ensures pending { IfOk result (λ polled. OnPending polled (WasPending L.PollLink i connections.old.items connections.new.items)) }
    ensures armed { IfOk result (λ polled. OnPending polled (IsArmed cx.new)) }
    ensures cx_kept { Keeps cx.old cx.new }
{
    for _ in 0..64u32 {
        match go_on::<L, F, K, N>(alloc, shape, books, connections, i, cx) {
            Err(fault) => return Err(fault),
            Ok(Went::Took) => {}
            Ok(Went::Waits) => return Ok(Poll::Pending),
            Ok(Went::Ended) => return Ok(Poll::Ready(())),
        }
    }
    Ok(cx.yield_now())
}

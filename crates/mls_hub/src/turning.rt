//! Calls over all connections of a hub, and over the books of all its ranks.

ghost use Rattle.std.specs.Prelude.{◌≡◌, ℕ, ◌<◌, true, false, length, OnOk, OnErr, IfOk, IfErr, ◌↔◌};
ghost use Rattle.futures.specs.Task.{IsArmed, Keeps};
ghost use Rattle.mls_hub.specs.Connections.{has_end};
ghost use Rattle.mls_hub.specs.Books.{GoOn, IsCaused};
ghost use Rattle.mls_hub.specs.Halls.{HallKept, Leaves, WasPending, EndsAt};
ghost use Rattle.mls_hub.specs.Turns.{AreSaved, AllEnded, SomeWaits};

use crate::connection::{Connection, Stage};
use crate::faults::Fault;
use crate::hall::{offer_at, poll_connection};
use futures::task::Context;
use mls_base::outside::Keeper;
use mls_base::shape::Shape;
use mls_book::Book;
use mls_field::fold::RowFold;
use mls_frame::FrameView;
use mls_held::Run;
use mls_model::lanes::LaneKind;
use mls_poll::PollLink;
use mls_tape::Wire;
use std::alloc::Global;

/// Whether a connection that has come so far has its end.
fn has_end(stage: Stage) -> bool
    ensures { result ≡ has_end stage }
{
    matches!(stage, Stage::Ended(_))
}

/// Polls a connection that has no end, and tells whether it has its end then.
fn poll_one<L: PollLink + Drop, F: RowFold, K: Keeper + Drop, N: Run>(
    alloc: Global,
    shape: &Shape,
    books: &mut Vec<Book<Wire, F, K>>,
    connections: &mut Vec<Connection<L>>,
    i: usize,
    cx: &mut Context<'_>,
) -> Result<bool, Fault>
    requires kept { HallKept L.PollLink F.RowFold K.Keeper N.Run true books.old.items connections.old.items }
    requires here { i < length connections.old.items }
    requires sizes { shape.now ≡ N.sizes }
    ensures kept { OnOk result (Leaves L.PollLink F.RowFold K.Keeper N.Run true i
        books.old.items books.new.items connections.old.items connections.new.items) }
    ensures stopped { OnErr result (Leaves L.PollLink F.RowFold K.Keeper N.Run false i
        books.old.items books.new.items connections.old.items connections.new.items) }
    ensures caused { IfErr result (λ fault. IsCaused K.Keeper fault books.old.items books.new.items) }
    ensures ended { IfOk result (λ ended. (ended ≡ true) ↔ EndsAt i connections.new.items) }
    ensures pending { IfOk result (λ ended. ended ≡ false → WasPending L.PollLink i connections.old.items connections.new.items) }
    ensures armed { IfOk result (λ ended. ended ≡ false → IsArmed cx.new) }
    ensures cx_kept { Keeps cx.old cx.new }
{
    if has_end(connections[i].stage) {
        return Ok(true);
    }
    match poll_connection::<L, F, K, N>(alloc, shape, books, connections, i, cx) {
        Ok(_) => Ok(has_end(connections[i].stage)),
        Err(fault) => Err(fault),
    }
}

/// Polls each connection that has no end once, for at most 64 frames, up to the first fault. It tells whether all have
/// their ends then.
pub fn poll_all<L: PollLink + Drop, F: RowFold, K: Keeper + Drop, N: Run>(
    alloc: Global,
    shape: &Shape,
    books: &mut Vec<Book<Wire, F, K>>,
    connections: &mut Vec<Connection<L>>,
    cx: &mut Context<'_>,
) -> Result<bool, Fault>
    requires kept { HallKept L.PollLink F.RowFold K.Keeper N.Run true books.old.items connections.old.items }
    requires sizes { shape.now ≡ N.sizes }
    ensures kept { OnOk result (HallKept L.PollLink F.RowFold K.Keeper N.Run true books.new.items connections.new.items) }
    ensures stopped { OnErr result (HallKept L.PollLink F.RowFold K.Keeper N.Run false books.new.items connections.new.items) }
    ensures count { length connections.new.items ≡ length connections.old.items }
    ensures go_on { GoOn K.Keeper books.old.items books.new.items }
    ensures caused { IfErr result (λ fault. IsCaused K.Keeper fault books.old.items books.new.items) }
    ensures ended { IfOk result (λ all. (all ≡ true) ↔ AllEnded connections.new.items) }
    ensures waits { IfOk result (λ all. all ≡ false → SomeWaits L.PollLink connections.old.items connections.new.items) }
    ensures armed { IfOk result (λ all. all ≡ false → IsArmed cx.new) }
    ensures cx_kept { Keeps cx.old cx.new }
{
    let mut all = true;
    for i in 0..connections.len() {
        match poll_one::<L, F, K, N>(alloc, shape, books, connections, i, cx) {
            Ok(ended) => all &= ended,
            Err(fault) => return Err(fault),
        }
    }
    Ok(all)
}

/// Offers one last Save on each rank's control lane, in rising rank, up to the first fault.
pub fn save_all<L: PollLink + Drop, F: RowFold, K: Keeper + Drop, N: Run>(
    alloc: Global,
    books: &mut Vec<Book<Wire, F, K>>,
    connections: &Vec<Connection<L>>,
) -> Result<(), Fault>
    requires kept { HallKept L.PollLink F.RowFold K.Keeper N.Run true books.old.items connections.now.items }
    ensures kept { OnOk result (HallKept L.PollLink F.RowFold K.Keeper N.Run true books.new.items connections.now.items) }
    ensures stopped { OnErr result (HallKept L.PollLink F.RowFold K.Keeper N.Run false books.new.items connections.now.items) }
    ensures saved { OnOk result (AreSaved F.RowFold K.Keeper books.new.items) }
    ensures go_on { GoOn K.Keeper books.old.items books.new.items }
    ensures caused { IfErr result (λ fault. IsCaused K.Keeper fault books.old.items books.new.items) }
{
    for rank in 0..books.len() {
        let own = rank as u32;
        match offer_at(alloc, books, own, own, LaneKind::Control, FrameView::Save) {
            Ok(()) => {}
            Err(fault) => return Err(fault),
        }
    }
    Ok(())
}

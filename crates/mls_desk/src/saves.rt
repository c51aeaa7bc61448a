//! The last saves of a server.

ghost use Rattle.std.specs.Prelude.{◌≡◌, ◌<◌, ◌≤◌, [], ◌∷◌, ◌++◌, vec_len, None, IfErr, IfSome, OnOk};
ghost use Rattle.mls_desk.specs.Books.{IsNamed, AreSeated, AreClean, IsShown, IsReported, HoldsOwn, HaveSaved, AreSaved, StoppedAt};

use mls_base::outside::Keeper;
use mls_book::{Book, BookFault, Offered};
use mls_field::field::Field;
use mls_frame::FrameView;
use mls_held::Run;
use mls_held::laws::beginnings_go_on;
use mls_model::lanes::LaneKind;
use mls_serve::LaneFault;
use mls_tape::Wire;
use std::alloc::Global;

/// Offers one Save on the control lane of the book's rank.
fn save_last<K: Keeper + Drop, N: Run>(
    alloc: Global,
    book: &mut Book<Wire, Field, K>,
) -> Result<(), BookFault>
    requires named { IsNamed K.Keeper N.Run book.old }
    requires control { book.old.core.rank < N.Run.lane_count }
    ensures named { IsNamed K.Keeper N.Run book.new }
    ensures rank { book.new.core.rank ≡ book.old.core.rank }
    ensures journal { OnOk result (book.new.journal ≡ book.old.journal ++ book.old.core.rank ∷ []) }
    ensures fault { OnOk result (book.new.fault ≡ book.old.fault) }
    ensures holds { OnOk result (HoldsOwn K.Keeper book.new) }
    ensures shown { IfErr result (λ fault. IsShown fault book.new.fault) }
{
    beginnings_go_on::<Wire, Field, K>();
    let lane = book.core().rank();
    let wire = *book.lanes();
    let event = wire.decoded(lane, book.taken(lane), LaneKind::Control, FrameView::Save);
    match book.offer(alloc, &event) {
        Ok(Offered::Taken { .. }) => Ok(()),
        Ok(Offered::Stale { .. }) => unreachable!(),
        Err(fault) => Err(fault),
    }
}

/// Offers one Save on each rank's control lane, in rising rank, up to the first fault.
pub fn last_saves<K: Keeper + Drop, N: Run>(
    alloc: Global,
    books: &mut Vec<Book<Wire, Field, K>>,
) -> Option<LaneFault>
    requires few { vec_len books.old ≤ 64 }
    requires control { vec_len books.old ≤ N.Run.lane_count }
    requires seated { AreSeated K.Keeper N.Run books.old.items }
    ensures count { vec_len books.new ≡ vec_len books.old }
    ensures seated { AreSeated K.Keeper N.Run books.new.items }
    ensures saved { result ≡ None → HaveSaved K.Keeper books.old.items books.new.items }
    ensures kept { result ≡ None → AreClean books.old.items → AreSaved K.Keeper books.new.items }
    ensures stopped { IfSome result (StoppedAt K.Keeper books.old.items books.new.items) }
    ensures reported { IfSome result (IsReported books.new.items) }
{
    for rank in 0..books.len() {
        match save_last::<K, N>(alloc, &mut books[rank]) {
            Ok(()) => {}
            Err(fault) => {
                return Some(LaneFault {
                    rank: rank as u32,
                    fault,
                });
            }
        }
    }
    None
}

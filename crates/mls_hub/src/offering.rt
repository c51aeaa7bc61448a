//! Offering events to the books of the ranks.

ghost use Rattle.std.specs.Prelude.{◌≡◌, ℕ, ◌<◌, false, length, slice_index, OnOk, IfErr};
ghost use Rattle.mls_model.specs.Survival.{is_crash};
ghost use Rattle.mls_model.specs.Frames.{save};
ghost use Rattle.mls_frame.specs.Views.{frame_of};
ghost use Rattle.mls_rank.specs.Standing.{as_event};
ghost use Rattle.mls_tape.specs.Wires.{wire_lanes};
ghost use Rattle.mls_hub.specs.Lanes.{save_event};
ghost use Rattle.mls_hub.specs.Books.{Took, Refused};

use crate::faults::Refusal;
use mls_base::outside::Keeper;
use mls_book::{Book, BookFault, Offered};
use mls_field::fold::RowFold;
use mls_frame::FrameView;
use mls_held::laws::beginnings_go_on;
use mls_tape::{LaneKind, Wire};
use std::alloc::Global;

/// Offers a frame of a lane, which is the lane's next event. No crash of a control lane is offered.
pub fn offer<F: RowFold, K: Keeper + Drop>(
    alloc: Global,
    book: &mut Book<Wire, F, K>,
    lane: u32,
    kind: LaneKind,
    view: FrameView<'_>,
) -> Result<(), Refusal>
    requires lane_in { lane < wire_lanes book.old.lanes }
    requires quiet { is_crash (as_event kind (frame_of view)) ≡ false }
    ensures took { OnOk result (Took F.RowFold K.Keeper lane (as_event kind (frame_of view.entry)) book.old book.new) }
    ensures refused { IfErr result (λ refusal. Refused F.RowFold K.Keeper refusal book.old book.new) }
{
    beginnings_go_on::<Wire, F, K>();
    book.valid();
    let wire = *book.lanes();
    let number = book.taken(lane);
    let event = wire.decoded(lane, number, kind, view);
    match book.offer(alloc, &event) {
        Ok(Offered::Taken { .. }) => Ok(()),
        Ok(Offered::Stale { .. }) => unreachable!(),
        Err(BookFault::KeeperFault) => Err(Refusal::Keeper),
        Err(BookFault::CheckpointBad { .. }) => unreachable!(),
        Err(BookFault::Memory) => Err(Refusal::Memory),
    }
}

//! Lanes that come over connections.

ghost use Rattle.std.specs.Prelude.{◌≡◌};
ghost use Rattle.mls_frame.specs.Views.{frame_of};
ghost use Rattle.mls_tape.specs.Wires.{wire_of};

use crate::decoded::{Decoded, Lanes};
use mls_frame::FrameView;
use mls_model::lanes::LaneKind;

/// Lanes that come over connections. They tell nothing of what stands on a lane, and each rank may take events of
/// each of them.
#[derive(Clone, Copy, Debug, PartialEq, Eq)]
pub struct Wire {
    lanes: u32,
}

impl Wire {
    /// So many lanes.
    pub fn new(lanes: u32) -> Wire
        ensures { result ≡ wire_of lanes }
    {
        Wire { lanes }
    }

    /// A frame that came on a lane, with its number there.
    pub fn decoded<'a>(
        &self,
        lane: u32,
        number: u64,
        kind: LaneKind,
        view: FrameView<'a>,
    ) -> Decoded<'a, Wire>
        ensures lanes { result.lanes ≡ self.now }
        ensures place { (result.lane ≡ lane) × (result.number ≡ number) }
        ensures event { (result.kind ≡ kind) × (result.frame ≡ frame_of view.entry) }
    {
        Decoded::new(*self, lane, number, kind, view)
    }
}

impl Lanes for Wire {
    ghost use Rattle.std.specs.Prelude.{None, nat_lt};
    ghost use Rattle.mls_tape.specs.Wires.{wire_lanes};

    ghost told = { λ wire k. None };

    ghost lane_count = { wire_lanes };

    ghost belongs_to = { λ wire rank k. nat_lt k (wire_lanes wire) };

    fn lanes(&self) -> u32 {
        self.lanes
    }

    fn belongs(&self, _rank: u32, lane: u32) -> bool {
        lane < self.lanes
    }
}

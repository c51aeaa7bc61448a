//! Events of lanes, wherever the lanes come from.

ghost use Rattle.std.specs.Prelude.{◌≡◌, ℕ, Bool, List, Option};
ghost use Rattle.mls_model.specs.declared.lanes.LaneKind.{LaneKind};
ghost use Rattle.mls_model.specs.Frames.{Frame};
ghost use Rattle.mls_frame.specs.Views.{frame_of};
ghost use Rattle.mls_tape.specs.Events.{decoded_event, IsToldEvent};

use mls_frame::FrameView;
use mls_model::lanes::LaneKind;
use std::marker::Model;

/// Lanes that events come on. They may tell what stands on a lane, as a tape does, or tell nothing, as wires do.
pub trait Lanes: Sized + Drop {
    /// The kind of a lane with the list of its frames, where that is told.
    ghost told: { Self → ℕ → Option (LaneKind × List Frame) };

    /// The number of lanes.
    ghost lane_count: { Self → ℕ };

    /// Whether a rank (first) may take events of a lane (second).
    ghost belongs_to: { Self → ℕ → ℕ → Bool };

    /// The number of lanes.
    fn lanes(&self) -> u32
        ensures { result ≡ lane_count self.now };

    /// Whether a rank may take events of a lane.
    fn belongs(&self, rank: u32, lane: u32) -> bool
        ensures { result ≡ belongs_to self.now rank lane };
}

/// An event of a lane: a frame with its place. It keeps that it is event `number` of the lane, where the lanes
/// tell that.
#[derive(Drop)]
pub struct Decoded<'a, T: Lanes> {
    lanes: T,
    lane: u32,
    number: u64,
    kind: LaneKind,
    view: FrameView<'a>,
}

impl<'a, T: Lanes> Model for Decoded<'a, T> {
    ghost use Rattle.std.specs.Prelude.{ℕ};
    ghost use Rattle.mls_tape.specs.Events.{DecodedEvent, decoded_event, IsToldEvent};
    ghost use Rattle.mls_frame.specs.Views.{frame_of};

    ghost Value = { DecodedEvent T };

    ghost view = { λ e. decoded_event e.lanes e.lane e.number e.kind (frame_of e.view) };

    ghost invariant = { λ e. IsToldEvent (T.told e.lanes e.lane) e.number e.kind (frame_of e.view) };
}

impl<'a, T: Lanes> Decoded<'a, T> {
    /// The event of a lane with this number, of which the lanes must tell nothing else.
    pub(crate) fn new(
        lanes: T,
        lane: u32,
        number: u64,
        kind: LaneKind,
        view: FrameView<'a>,
    ) -> Decoded<'a, T>
        requires { IsToldEvent (T.told lanes lane) number kind (frame_of view) }
        ensures { result ≡ decoded_event lanes lane number kind (frame_of view.entry) }
    {
        Decoded {
            lanes,
            lane,
            number,
            kind,
            view,
        }
    }

    /// The lanes that the event is of.
    pub fn lanes(&self) -> &T
        ensures { result.now ≡ self.now.lanes }
    {
        &self.lanes
    }

    /// The lane's number.
    pub fn lane(&self) -> u32
        ensures { result ≡ self.now.lane }
    {
        self.lane
    }

    /// The event's number on its lane, from 0.
    pub fn number(&self) -> u64
        ensures { result ≡ self.now.number }
    {
        self.number
    }

    /// The lane's kind.
    pub fn kind(&self) -> LaneKind
        ensures { result ≡ self.now.kind }
    {
        self.kind
    }

    /// The event's frame.
    pub fn view(&self) -> &FrameView<'a>
        ensures { frame_of result.now ≡ self.now.frame }
    {
        &self.view
    }

    /// Where the lanes tell what stands on the lane, the event is the one of this number there.
    pub fn told(&self)
        ensures { IsToldEvent (T.told self.now.lanes self.now.lane) self.now.number self.now.kind self.now.frame }
    {
        let _ = &self.lane;
    }
}

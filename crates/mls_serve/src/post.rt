//! Where the frames of served lanes go.

ghost use Rattle.std.specs.Prelude.{◌≡◌, ℕ, ◌<◌, [], ◌∷◌, List, Option, OnOk, OnErr, IfErr};
ghost use Rattle.mls_frame.specs.Views.{frame_of};
ghost use Rattle.mls_serve.specs.Posts.{Posted, offered, noted, posted, CountsPost};

use crate::served::LaneFault;
use mls_base::faults::NoMemory;
use mls_frame::FrameView;
use mls_model::lanes::LaneKind;
use std::alloc::Global;

/// What the watch over the groups and ranks is told.
#[derive(Clone, Copy, Debug, PartialEq, Eq)]
pub enum Note {
    /// A connection came or ended.
    Tick,
    /// The group gave a sign.
    Beat { group: u32, life: u32 },
    /// The group's life is done.
    Done { group: u32, life: u32 },
    /// The rank gave a sign.
    RankBeat { rank: u32 },
}

/// Where the frames of served lanes go. Its numbers of ranks and lanes never change.
pub trait Post {
    /// The number of ranks.
    ghost ranks: { Self → ℕ };

    /// The number of lanes.
    ghost lanes: { Self → ℕ };

    /// How many offers ended with a store fault.
    ghost faults: { Self → ℕ };

    /// The offers and notes that were taken, in order, where the post tells them.
    ghost told: { Self → Option (List Posted) };

    /// Offers a frame of a lane to a rank's book. After a fault, which is the rank's, nothing was posted.
    fn offer(
        &mut self,
        alloc: Global,
        rank: u32,
        lane: u32,
        kind: LaneKind,
        view: &FrameView<'_>,
    ) -> Result<(), LaneFault>
        requires rank_in { rank < ranks self.old }
        requires lane_in { lane < lanes self.old }
        ensures posted { OnOk result (told self.new ≡ posted (told self.old) (offered rank lane kind (frame_of view.now) ∷ [])) }
        ensures kept { OnErr result (told self.new ≡ told self.old) }
        ensures named { IfErr result (λ fault. fault.rank ≡ rank) }
        ensures faults { CountsPost result (faults self.old) (faults self.new) }
        ensures ranks { ranks self.new ≡ ranks self.old }
        ensures lanes { lanes self.new ≡ lanes self.old };

    /// Tells the watch. After `NoMemory` nothing was posted.
    fn note(&mut self, alloc: Global, note: Note) -> Result<(), NoMemory>
        ensures posted { OnOk result (told self.new ≡ posted (told self.old) (noted note ∷ [])) }
        ensures kept { OnErr result (told self.new ≡ told self.old) }
        ensures faults { faults self.new ≡ faults self.old }
        ensures ranks { ranks self.new ≡ ranks self.old }
        ensures lanes { lanes self.new ≡ lanes self.old };
}

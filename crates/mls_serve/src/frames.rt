//! The frames of a lane, up to its end.

ghost use Rattle.std.specs.Prelude.{◌≡◌, ℕ, ◌+◌, ◌<◌, ◌≤◌, ◌^◌, length, IfOk, IfErr, OnErr};
ghost use Rattle.mls_serve.specs.Posts.{CountsPost};
ghost use Rattle.mls_serve.specs.Readings.{most_bytes};
ghost use Rattle.mls_serve.specs.Serving.{FramesServed, FramesStopped};

use crate::post::Post;
use crate::served::LaneFault;
use crate::stepping::{Step, advance};
use crate::taking::Seat;
use mls_frame::Feeder;
use mls_model::lanes::LaneEnd;
use mls_wire::Link;
use std::alloc::Global;

/// The number of a lane's events, and its end.
#[derive(Clone, Copy, Debug)]
pub struct Taken {
    pub events: u32,
    pub end: LaneEnd,
}

/// Posts the frames of a lane up to its end. The feeder has the bytes that came with Hello.
pub fn serve_frames<L: Link, P: Post>(
    alloc: Global,
    link: &mut L,
    feeder: &mut Feeder,
    post: &mut P,
    seat: Seat,
) -> Result<Taken, LaneFault>
    requires rank_in { seat.rank < P.ranks post.old }
    requires lane_in { seat.lane < P.lanes post.old }
    requires few { length feeder.old.rest ≤ most_bytes }
    requires near { feeder.old.offset < 2 ^ 32 }
    ensures served { IfOk result (λ taken. FramesServed seat.rank seat.lane taken.events taken.end feeder.old.rest
        (record { told = L.told link.old; faults = L.faults link.old; posts = P.told post.old; fed = feeder.old })
        (record { told = L.told link.new; faults = L.faults link.new; posts = P.told post.new; fed = feeder.new })) }
    ensures stopped { OnErr result (FramesStopped seat.rank seat.lane feeder.old.rest
        (record { told = L.told link.old; faults = L.faults link.old; posts = P.told post.old; fed = feeder.old })
        (record { told = L.told link.new; faults = L.faults link.new; posts = P.told post.new; fed = feeder.new })) }
    ensures unfailed { OnErr result (L.faults link.new ≡ L.faults link.old) }
    ensures named { IfErr result (λ fault. fault.rank ≡ seat.rank) }
    ensures faults { CountsPost result (P.faults post.old) (P.faults post.new) }
    ensures ranks { P.ranks post.new ≡ P.ranks post.old }
    ensures lanes { P.lanes post.new ≡ P.lanes post.old }
{
    feeder.valid();
    let head = feeder.offset();
    let mut events = 0;
    loop {
        match advance(alloc, link, feeder, post, seat, head)? {
            Step::Took => events += 1,
            Step::Read => {}
            Step::Ended(end) => return Ok(Taken { events, end }),
        }
    }
}

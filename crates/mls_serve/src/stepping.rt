//! One step of a lane that is served: a frame, more bytes, or its end.

ghost use Rattle.std.specs.Prelude.{◌≡◌, ℕ, ◌+◌, ◌<◌, ◌≤◌, ◌^◌, length, IfOk, IfErr, OnErr};
ghost use Rattle.mls_model.specs.Frames.{sight};
ghost use Rattle.mls_model.specs.Lanes.{end_by};
ghost use Rattle.mls_model.specs.Frames.{bad};
ghost use Rattle.mls_serve.specs.Posts.{CountsPost};
ghost use Rattle.mls_serve.specs.Readings.{most_bytes};
ghost use Rattle.mls_serve.specs.Steps.{HasStepped, StepStopped};

use crate::post::Post;
use crate::reading::read_on;
use crate::served::LaneFault;
use crate::taking::{Look, Seat, take_next};
use mls_book::BookFault;
use mls_frame::{Feeder, FrameFault};
use mls_model::lanes::LaneEnd;
use mls_wire::Link;
use std::alloc::Global;

/// What a step did.
#[derive(Clone, Copy, Debug)]
pub enum Step {
    /// A frame was taken off and posted.
    Took,
    /// More bytes were read.
    Read,
    /// The lane ended.
    Ended(LaneEnd),
}

/// How a lane ends whose next bytes are bad.
pub fn bad_end(fault: FrameFault, at: u64) -> LaneEnd
    ensures { result ≡ end_by at (bad fault) }
{
    match fault {
        FrameFault::BadKind => LaneEnd::BadKind { at },
        FrameFault::BadLength => LaneEnd::BadLength { at },
    }
}

/// Takes the next frame off a lane's bytes and posts it, or reads more bytes, or says how the lane ends. Its first
/// bytes up to `head` were a Hello.
pub fn advance<L: Link, P: Post>(
    alloc: Global,
    link: &mut L,
    feeder: &mut Feeder,
    post: &mut P,
    seat: Seat,
    head: u64,
) -> Result<Step, LaneFault>
    requires rank_in { seat.rank < P.ranks post.old }
    requires lane_in { seat.lane < P.lanes post.old }
    requires head { head ≤ feeder.old.offset }
    requires few { feeder.old.offset + length feeder.old.rest ≤ head + most_bytes }
    requires near { head < 2 ^ 32 }
    ensures stepped { IfOk result (λ step. HasStepped step seat.rank seat.lane head
        (record { told = L.told link.old; faults = L.faults link.old; posts = P.told post.old; fed = feeder.old })
        (record { told = L.told link.new; faults = L.faults link.new; posts = P.told post.new; fed = feeder.new })) }
    ensures stopped { OnErr result (StepStopped seat.rank seat.lane
        (record { told = L.told link.old; faults = L.faults link.old; posts = P.told post.old; fed = feeder.old })
        (record { told = L.told link.new; faults = L.faults link.new; posts = P.told post.new; fed = feeder.new })) }
    ensures unfailed { OnErr result (L.faults link.new ≡ L.faults link.old) }
    ensures named { IfErr result (λ fault. fault.rank ≡ seat.rank) }
    ensures faults { CountsPost result (P.faults post.old) (P.faults post.new) }
    ensures ranks { P.ranks post.new ≡ P.ranks post.old }
    ensures lanes { P.lanes post.new ≡ P.lanes post.old }
{
    match take_next(alloc, feeder, post, seat)? {
        Look::Took => Ok(Step::Took),
        Look::Bad(fault) => Ok(Step::Ended(bad_end(fault, feeder.offset() - head))),
        Look::More => match read_on(alloc, link, feeder, head) {
            Ok(Some(end)) => Ok(Step::Ended(end)),
            Ok(None) => Ok(Step::Read),
            Err(_) => Err(LaneFault {
                rank: seat.rank,
                fault: BookFault::Memory,
            }),
        },
    }
}

//! A connection that is served.

ghost use Rattle.std.specs.Prelude.{◌≡◌, ℕ, ◌+◌, ◌<◌, ◌≤◌, ◌^◌, length, IfOk, IfErr, OnOk, OnErr};
ghost use Rattle.mls_serve.specs.Posts.{PostedFront, posted, end_posts, CountsPost};
ghost use Rattle.mls_serve.specs.Readings.{most_bytes};
ghost use Rattle.mls_serve.specs.Lanes.{LaneServed, LaneStopped, WelcomesBelow, GreetedServed, GreetedStopped, IsServed, IsStopped, IsShortIfEarly, talking};

use crate::frames::serve_frames;
use crate::opening::{Opening, answer_bytes, hear_first};
use crate::post::{Note, Post};
use crate::served::{LaneFault, Served};
use crate::taking::{Seat, tell};
use mls_base::shape::Shape;
use mls_book::BookFault;
use mls_frame::{Feeder, FrameView};
use mls_model::lanes::{LaneEnd, LaneKind, LaneLine};
use mls_wire::{Greeting, Link, send_all};
use std::alloc::Global;

/// Want of memory before a welcome.
const UNWELCOMED: LaneFault = LaneFault {
    rank: 0,
    fault: BookFault::Memory,
};

/// At a lane's end the rank saves its state, and the watch is told that the rank runs.
fn end_lane<P: Post>(alloc: Global, post: &mut P, rank: u32) -> Result<(), LaneFault>
    requires rank_in { rank < P.ranks post.old }
    requires lane_in { rank < P.lanes post.old }
    ensures posted { OnOk result (P.told post.new ≡ posted (P.told post.old) (end_posts rank)) }
    ensures part { OnErr result (PostedFront (P.told post.old) (P.told post.new) (end_posts rank)) }
    ensures named { IfErr result (λ fault. fault.rank ≡ rank) }
    ensures faults { CountsPost result (P.faults post.old) (P.faults post.new) }
    ensures ranks { P.ranks post.new ≡ P.ranks post.old }
    ensures lanes { P.lanes post.new ≡ P.lanes post.old }
{
    post.offer(alloc, rank, rank, LaneKind::Control, &FrameView::Save)?;
    tell(alloc, post, rank, Note::RankBeat { rank })
}

/// Serves a lane that was welcomed. The feeder has the bytes that came with Hello.
fn serve_welcomed<L: Link, P: Post>(
    alloc: Global,
    link: &mut L,
    feeder: &mut Feeder,
    post: &mut P,
    seat: Seat,
    group: u32,
    life: u32,
) -> Result<LaneLine, LaneFault>
    requires rank_in { seat.rank < P.ranks post.old }
    requires lane_in { seat.lane < P.lanes post.old }
    requires control { P.ranks post.old ≤ seat.lane }
    requires few { length feeder.old.rest ≤ most_bytes }
    requires near { feeder.old.offset < 2 ^ 32 }
    ensures served { IfOk result (λ line. LaneServed line group life seat.rank seat.lane feeder.old.rest
        (record { told = L.told link.old; faults = L.faults link.old; posts = P.told post.old; fed = feeder.old })
        (record { told = L.told link.new; faults = L.faults link.new; posts = P.told post.new; fed = feeder.new })) }
    ensures stopped { OnErr result (LaneStopped group life seat.rank seat.lane feeder.old.rest
        (record { told = L.told link.old; faults = L.faults link.old; posts = P.told post.old; fed = feeder.old })
        (record { told = L.told link.new; faults = L.faults link.new; posts = P.told post.new; fed = feeder.new })) }
    ensures named { IfErr result (λ fault. fault.rank ≡ seat.rank) }
    ensures faults { CountsPost result (P.faults post.old) (P.faults post.new) }
    ensures ranks { P.ranks post.new ≡ P.ranks post.old }
    ensures lanes { P.lanes post.new ≡ P.lanes post.old }
{
    tell(alloc, post, seat.rank, Note::Beat { group, life })?;
    let taken = serve_frames(alloc, link, feeder, post, seat)?;
    end_lane(alloc, post, seat.rank)?;
    Ok(LaneLine {
        lane: seat.lane,
        rank: seat.rank,
        kind: LaneKind::Client,
        events: taken.events,
        end: taken.end,
    })
}

/// Answers a connection's first frame, and serves the lane that is welcomed.
fn serve_greeted<L: Link, P: Post>(
    alloc: Global,
    link: &mut L,
    feeder: &mut Feeder,
    post: &mut P,
    lane: u32,
    greeting: Greeting,
) -> Result<Served, LaneFault>
    requires lane_in { lane < P.lanes post.old }
    requires control { P.ranks post.old ≤ lane }
    requires known { WelcomesBelow greeting (P.ranks post.old) }
    requires few { length feeder.old.rest ≤ most_bytes }
    requires near { feeder.old.offset < 2 ^ 32 }
    ensures served { IfOk result (λ served. GreetedServed served greeting lane feeder.old.rest
        (record { told = L.told link.old; faults = L.faults link.old; posts = P.told post.old; fed = feeder.old })
        (record { told = L.told link.new; faults = L.faults link.new; posts = P.told post.new; fed = feeder.new })) }
    ensures stopped { IfErr result (λ fault. GreetedStopped fault greeting lane feeder.old.rest
        (record { told = L.told link.old; faults = L.faults link.old; posts = P.told post.old; fed = feeder.old })
        (record { told = L.told link.new; faults = L.faults link.new; posts = P.told post.new; fed = feeder.new })) }
    ensures faults { CountsPost result (P.faults post.old) (P.faults post.new) }
    ensures ranks { P.ranks post.new ≡ P.ranks post.old }
    ensures lanes { P.lanes post.new ≡ P.lanes post.old }
{
    let Ok(answer) = answer_bytes(alloc, &greeting, lane) else {
        return Err(UNWELCOMED);
    };
    if send_all(link, answer.as_slice()).is_err() {
        return Ok(Served::Early(LaneEnd::Fault { at: 0 }));
    }
    match greeting {
        Greeting::Welcome {
            group,
            life,
            rank,
            ..
        } => {
            let seat = Seat { rank, lane };
            let line = serve_welcomed(alloc, link, feeder, post, seat, group, life)?;
            Ok(Served::Lane(line))
        }
        Greeting::Refuse { reason, value } => Ok(Served::Refused { reason, value }),
    }
}

/// Serves a connection: reads its first frame, answers it, and posts the frames of the lane that is welcomed, each
/// before it reads on. At the lane's end the rank's Save is posted on its control lane. Offsets of the lane count from
/// the byte after Hello.
///
/// After a `LaneFault` before a welcome nothing was written or posted; after one later a front of the lane's posts was
/// made.
pub fn serve_lane<L: Link, P: Post>(
    alloc: Global,
    shape: &Shape,
    lane: u32,
    link: &mut L,
    post: &mut P,
) -> Result<Served, LaneFault>
    requires ranks { P.ranks post.old ≡ shape.now.ranks }
    requires lane_in { lane < P.lanes post.old }
    requires control { shape.now.ranks ≤ lane }
    ensures served { IfOk result (λ served. IsServed served shape.now lane
        (talking (L.told link.old) (L.faults link.old) (P.told post.old))
        (talking (L.told link.new) (L.faults link.new) (P.told post.new))) }
    ensures stopped { IfErr result (λ fault. IsStopped fault shape.now lane
        (talking (L.told link.old) (L.faults link.old) (P.told post.old))
        (talking (L.told link.new) (L.faults link.new) (P.told post.new))) }
    // `Early` never has `Full`: a first frame shows before a lane is that long.
    ensures short { IfOk result (λ served. IsShortIfEarly served) }
    ensures faults { CountsPost result (P.faults post.old) (P.faults post.new) }
    ensures ranks { P.ranks post.new ≡ P.ranks post.old }
    ensures lanes { P.lanes post.new ≡ P.lanes post.old }
{
    let mut feeder = Feeder::new(alloc);
    let Ok(opening) = hear_first(alloc, shape, link, &mut feeder) else {
        return Err(UNWELCOMED);
    };
    match opening {
        Opening::Greeted(greeting) => {
            serve_greeted(alloc, link, &mut feeder, post, lane, greeting)
        }
        Opening::Ended(end) => Ok(Served::Early(end)),
    }
}

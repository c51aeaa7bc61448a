//! Taking a frame off a lane's bytes, and posting it.

ghost use Rattle.std.specs.Prelude.{◌≡◌, ℕ, ◌<◌, ◌≤◌, [], ◌∷◌, IfOk, IfErr, OnOk, OnErr};
ghost use Rattle.mls_model.specs.Frames.{sight, whole};
ghost use Rattle.mls_frame.specs.Views.{frame_of};
ghost use Rattle.mls_frame.specs.Feeding.{after_next};
ghost use Rattle.mls_serve.specs.Posts.{posted, noted, frame_posts, sign_of, PostedFront, CountsPost};
ghost use Rattle.mls_serve.specs.Takings.{HasLooked, LostFrame};

use crate::post::{Note, Post};
use crate::served::LaneFault;
use mls_book::BookFault;
use mls_frame::{Feeder, FrameFault, FrameView, Seen};
use mls_model::lanes::LaneKind;
use std::alloc::Global;

/// The number of a lane, and its rank's.
#[derive(Clone, Copy, Debug)]
pub struct Seat {
    pub rank: u32,
    pub lane: u32,
}

/// What a look at a lane's bytes gave.
#[derive(Clone, Copy, Debug)]
pub enum Look {
    /// A whole frame, which was taken off and posted.
    Took,
    /// Too little to tell.
    More,
    /// No frame's front.
    Bad(FrameFault),
}

/// Tells the watch. Want of memory is the rank's fault.
pub fn tell<P: Post>(alloc: Global, post: &mut P, rank: u32, note: Note) -> Result<(), LaneFault>
    ensures posted { OnOk result (P.told post.new ≡ posted (P.told post.old) (noted note ∷ [])) }
    ensures kept { OnErr result (P.told post.new ≡ P.told post.old) }
    ensures named { IfErr result (λ fault. fault.rank ≡ rank) }
    ensures faults { CountsPost result (P.faults post.old) (P.faults post.new) }
    ensures ranks { P.ranks post.new ≡ P.ranks post.old }
    ensures lanes { P.lanes post.new ≡ P.lanes post.old }
{
    match post.note(alloc, note) {
        Ok(()) => Ok(()),
        Err(_) => Err(LaneFault {
            rank,
            fault: BookFault::Memory,
        }),
    }
}

/// What the watch is told of a frame.
fn sign_of(view: &FrameView<'_>) -> Option<Note>
    ensures { sign_of (frame_of view.now) ≡ (elim result [ None ↦ [] | Some note ↦ noted note ∷ [] ]) }
{
    match view {
        FrameView::Beat { group, life } => Some(Note::Beat {
            group: *group,
            life: *life,
        }),
        FrameView::Bye { group, life } => Some(Note::Done {
            group: *group,
            life: *life,
        }),
        _ => None,
    }
}

/// Offers a frame to the lane's rank, and after a Beat or a Bye tells the watch.
fn post_frame<P: Post>(
    alloc: Global,
    post: &mut P,
    seat: Seat,
    view: &FrameView<'_>,
) -> Result<(), LaneFault>
    requires rank_in { seat.rank < P.ranks post.old }
    requires lane_in { seat.lane < P.lanes post.old }
    ensures posted { OnOk result (P.told post.new ≡ posted (P.told post.old) (frame_posts seat.rank seat.lane (frame_of view.now))) }
    ensures part { OnErr result (PostedFront (P.told post.old) (P.told post.new) (frame_posts seat.rank seat.lane (frame_of view.now))) }
    ensures named { IfErr result (λ fault. fault.rank ≡ seat.rank) }
    ensures faults { CountsPost result (P.faults post.old) (P.faults post.new) }
    ensures ranks { P.ranks post.new ≡ P.ranks post.old }
    ensures lanes { P.lanes post.new ≡ P.lanes post.old }
{
    post.offer(alloc, seat.rank, seat.lane, LaneKind::Client, view)?;
    match sign_of(view) {
        Some(note) => tell(alloc, post, seat.rank, note),
        None => Ok(()),
    }
}

/// Looks at what is left of a lane's bytes. A whole frame is taken off and posted.
pub fn take_next<P: Post>(
    alloc: Global,
    feeder: &mut Feeder,
    post: &mut P,
    seat: Seat,
) -> Result<Look, LaneFault>
    requires rank_in { seat.rank < P.ranks post.old }
    requires lane_in { seat.lane < P.lanes post.old }
    ensures fed { feeder.new ≡ after_next feeder.old }
    ensures looked { IfOk result (λ look.
        HasLooked look seat.rank seat.lane (sight feeder.old.rest) (P.told post.old) (P.told post.new)) }
    ensures part { OnErr result (
        LostFrame seat.rank seat.lane (sight feeder.old.rest) (P.told post.old) (P.told post.new)) }
    ensures named { IfErr result (λ fault. fault.rank ≡ seat.rank) }
    ensures faults { CountsPost result (P.faults post.old) (P.faults post.new) }
    ensures ranks { P.ranks post.new ≡ P.ranks post.old }
    ensures lanes { P.lanes post.new ≡ P.lanes post.old }
{
    match feeder.next() {
        Seen::Whole { frame, .. } => {
            post_frame(alloc, post, seat, &frame)?;
            Ok(Look::Took)
        }
        Seen::More => Ok(Look::More),
        Seen::Bad(fault) => Ok(Look::Bad(fault)),
    }
}

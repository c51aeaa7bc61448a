//! The beginning of a connection: its first frame, and the answer to it.

ghost use Rattle.std.specs.Prelude.{◌≡◌, ◌≢◌, ℕ, ◌≤◌, true, false, List, length, is_ok, IfOk, OnOk, OnErr};
ghost use Rattle.futures.specs.Task.{IsArmed, Keeps};
ghost use Rattle.mls_model.specs.Frames.{Frame};
ghost use Rattle.mls_hub.specs.declared.connection.Stage.TheVariants.{Opening, Stopped};
ghost use Rattle.mls_hub.specs.Connections.{IsConnected, IsSettled, OnSettledWaits, KeepsLane, is_live};

use crate::connection::{Connection, Heard, Stage};
use futures::task::Context;
use mls_base::faults::NoMemory;
use mls_base::shape::Shape;
use mls_poll::PollLink;
use std::alloc::Global;

/// What became of a connection's beginning.
#[derive(Clone, Copy, Debug)]
pub enum Settled {
    /// The first frame came.
    Took,
    /// Nothing came, or the answer couldn't be written yet.
    Waits,
    /// The connection has its end.
    Ended,
    /// It is a lane of a rank, whose first byte came behind so many.
    Lane { rank: u32, head: u64 },
}

impl<L: PollLink + Drop> Connection<L> {
    /// Polls for the first frame. A connection that ends before one has its end.
    fn open(
        &mut self,
        alloc: Global,
        shape: &Shape,
        lane: u32,
        cx: &mut Context<'_>,
    ) -> Result<Settled, NoMemory>
        requires opening { self.old.stage ≡ Opening }
        requires open { self.old.stream.ended ≡ false }
        ensures kept { (frames : List Frame) → IsConnected L.PollLink shape.now true lane frames self.old
            → IsConnected L.PollLink shape.now (is_ok result) lane frames self.new }
        ensures settled { IfOk result (λ settled. IsSettled L.PollLink settled self.old self.new) }
        ensures lanes { KeepsLane self.old.stage self.new.stage }
        ensures armed { IfOk result (λ settled. OnSettledWaits settled (IsArmed cx.new)) }
        ensures cx_kept { Keeps cx.old cx.new }
    {
        match self.listen(cx) {
            Heard::Waits => Ok(Settled::Waits),
            Heard::Memory => Err(NoMemory),
            Heard::End(_) => {
                self.stage = Stage::Ended(None);
                Ok(Settled::Ended)
            }
            Heard::Frame(frame) => match self.greet(alloc, shape, lane, &frame) {
                Ok(()) => Ok(Settled::Took),
                Err(_) => Err(NoMemory),
            },
        }
    }

    /// Goes on with the answer to the first frame, or polls for that frame.
    pub fn settle(
        &mut self,
        alloc: Global,
        shape: &Shape,
        lane: u32,
        cx: &mut Context<'_>,
    ) -> Result<Settled, NoMemory>
        requires running { self.old.stage ≢ Stopped }
        requires live { is_live self.old.stage ≡ true → self.old.stream.ended ≡ false }
        requires fits { self.old.written ≤ length self.old.answer.items }
        ensures kept { (frames : List Frame) → IsConnected L.PollLink shape.now true lane frames self.old
            → IsConnected L.PollLink shape.now (is_ok result) lane frames self.new }
        ensures settled { IfOk result (λ settled. IsSettled L.PollLink settled self.old self.new) }
        ensures lanes { KeepsLane self.old.stage self.new.stage }
        ensures armed { IfOk result (λ settled. OnSettledWaits settled (IsArmed cx.new)) }
        ensures cx_kept { Keeps cx.old cx.new }
    {
        if self.reply(cx).is_pending() {
            return Ok(Settled::Waits);
        }
        match self.stage {
            Stage::Opening => self.open(alloc, shape, lane, cx),
            Stage::Answering(_) => unreachable!(),
            Stage::Lane { rank, head } => Ok(Settled::Lane { rank, head }),
            Stage::Stopped => unreachable!(),
            Stage::Ended(_) => Ok(Settled::Ended),
        }
    }
}

//! One connection of a hub: what comes over it, and how it is answered.

ghost use Rattle.std.specs.Prelude.{◌≡◌, ◌≢◌, ℕ, ◌+◌, ◌≤◌, ◌<◌, true, false, List, [], ◌∷◌, ◌++◌, length, is_ok, IfOk, OnOk, OnErr};
ghost use Rattle.mls_poll.specs.Polls.{IfGiven, OnFailed, CountsWait};
ghost use Rattle.mls_hub.specs.declared.connection.Stage.TheVariants.{Opening, Stopped};
ghost use Rattle.futures.specs.Task.{IsArmed, Keeps};
ghost use Rattle.futures.specs.Poll.{IfReady, OnPending};
ghost use Rattle.mls_model.specs.Studies.{Sizes};
ghost use Rattle.mls_model.specs.Frames.{Frame};
ghost use Rattle.mls_poll.specs.Streams.{most_bytes, HasGiven};
ghost use Rattle.mls_hub.specs.Connections.{stage_after, WroteMore, EndsAs, Says, is_live, listens, is_answering, frames_heard, is_end_heard, IfEndHeard, OnWaits, KeepsLane};
ghost use Rattle.mls_base.specs.Told.{Rose};

use crate::answering::answer_bytes;
use futures::Stream;
use futures::task::{Context, Poll};
use mls_base::faults::{Failed, NoMemory};
use mls_base::shape::Shape;
use mls_model::lanes::{LaneEnd, LaneLine};
use mls_poll::{FrameStream, PollLink, StreamItem, WholeFrame};
use mls_wire::{Greeting, greet};
use std::alloc::Global;

/// How far a connection has come.
#[derive(Clone, Copy, Debug)]
pub enum Stage {
    /// No whole frame came yet.
    Opening,
    /// The first frame came and is answered so.
    Answering(Greeting),
    /// It is a rank's lane. So many bytes came before the lane's first.
    Lane { rank: u32, head: u64 },
    /// A frame wasn't taken, for a fault that ended the hub.
    Stopped,
    /// It has its end, and a line where it was a lane.
    Ended(Option<LaneLine>),
}

/// A connection: the frames that come over it, how far it has come, the answer to its first frame, and how many bytes
/// of it were written.
#[derive(Drop)]
pub struct Connection<L: PollLink + Drop> {
    pub stream: FrameStream<L>,
    pub stage: Stage,
    pub answer: Vec<u8>,
    pub written: usize,
}

/// What one poll for a frame gave.
#[derive(Drop)]
pub enum Heard {
    /// Nothing yet.
    Waits,
    /// The next frame.
    Frame(WholeFrame),
    /// How the frames end.
    End(LaneEnd),
    /// Memory ran out.
    Memory,
}

/// How far a connection has come whose answer was written. The bytes so far were its first frame's.
fn after_answer(greeting: Greeting, offset: u64) -> Stage
    ensures { result ≡ stage_after greeting offset }
{
    match greeting {
        Greeting::Welcome { rank, .. } => Stage::Lane { rank, head: offset },
        Greeting::Refuse { .. } => Stage::Ended(None),
    }
}

impl<L: PollLink + Drop> Connection<L> {
    /// Polls for the next frame.
    pub fn listen(&mut self, cx: &mut Context<'_>) -> Heard
        requires open { self.old.stream.ended ≡ false }
        requires listens { listens self.old.stage ≡ true }
        ensures says { (s : Sizes) (lane : ℕ) (given frames : List Frame)
            → Says L.PollLink s true lane given frames [] self.old
            → Says L.PollLink s true lane (given ++ frames_heard result) frames (frames_heard result) self.new }
        ensures ends { IfEndHeard result (λ end. (given : List Frame)
            → HasGiven (L.told self.old.stream.link) self.old.stream.offset self.old.stream.held given
            → EndsAs L.PollLink end given self.new) }
        ensures bound { IfEndHeard result (λ _. self.new.stream.offset + length self.new.stream.held ≤ most_bytes) }
        ensures ended { self.new.stream.ended ≡ is_end_heard result }
        ensures stage { self.new.stage ≡ self.old.stage }
        ensures gave { (given : List Frame)
            → HasGiven (L.told self.old.stream.link) self.old.stream.offset self.old.stream.held given
            → HasGiven (L.told self.new.stream.link) self.new.stream.offset self.new.stream.held (given ++ frames_heard result) }
        ensures later { L.waits self.old.stream.link ≤ L.waits self.new.stream.link }
        ensures waits { OnWaits result (Rose (L.waits self.old.stream.link) (L.waits self.new.stream.link)) }
        ensures armed { OnWaits result (IsArmed cx.new) }
        ensures kept { Keeps cx.old cx.new }
    {
        match self.stream.poll_next(cx) {
            Poll::Pending => Heard::Waits,
            Poll::Ready(None) => unreachable!(),
            Poll::Ready(Some(StreamItem::Event(frame))) => Heard::Frame(frame),
            Poll::Ready(Some(StreamItem::End { end })) => {
                self.stream.valid();
                Heard::End(end)
            }
            Poll::Ready(Some(StreamItem::Memory)) => Heard::Memory,
        }
    }

    /// Greets the first frame, and makes the answer. For want of memory the frame is lost.
    pub fn greet(
        &mut self,
        alloc: Global,
        shape: &Shape,
        lane: u32,
        frame: &WholeFrame,
    ) -> Result<(), NoMemory>
        requires { self.old.stage ≡ Opening }
        ensures says { (given : List Frame)
            → Says L.PollLink shape.now true lane given [] (frame.now ∷ []) self.old
            → Says L.PollLink shape.now (is_ok result) lane given [] [] self.new }
        ensures stage { OnOk result (is_answering self.new.stage ≡ true) }
        ensures stopped { OnErr result (self.new.stage ≡ Stopped) }
        ensures stream { self.new.stream ≡ self.old.stream }
    {
        let greeting = greet(shape, &frame.view());
        match answer_bytes(alloc, greeting, lane) {
            Ok(answer) => {
                self.answer = answer;
                self.written = 0;
                self.stage = Stage::Answering(greeting);
                Ok(())
            }
            Err(_) => {
                self.stage = Stage::Stopped;
                Err(NoMemory)
            }
        }
    }

    /// Writes more of the answer, up to its end or a failed write.
    fn write_answer(&mut self, cx: &mut Context<'_>) -> Poll<Result<(), Failed>>
        requires { self.old.written ≤ length self.old.answer.items }
        ensures whole { IfGiven result (λ _. self.new.written ≡ length self.new.answer.items) }
        ensures part { OnFailed result (self.new.written < length self.new.answer.items) }
        ensures wrote { WroteMore L.PollLink self.old self.new }
        ensures waits { CountsWait result (L.waits self.old.stream.link) (L.waits self.new.stream.link) }
        ensures armed { OnPending result (IsArmed cx.new) }
        ensures kept { Keeps cx.old cx.new }
    {
        while self.written < self.answer.len() {
            let rest = self.answer.as_slice().split_at(self.written).1;
            match self.stream.poll_write(cx, rest) {
                Poll::Pending => return Poll::Pending,
                Poll::Ready(Err(_)) => return Poll::Ready(Err(Failed)),
                Poll::Ready(Ok(n)) => self.written += n,
            }
        }
        Poll::Ready(Ok(()))
    }

    /// Goes on with the answer to the first frame. A connection that was welcomed is a lane then; one that was refused,
    /// or whose answer couldn't be written, has its end.
    pub fn reply(&mut self, cx: &mut Context<'_>) -> Poll<()>
        requires { self.old.written ≤ length self.old.answer.items }
        ensures says { (s : Sizes) (lane : ℕ) (given frames : List Frame)
            → Says L.PollLink s true lane given frames [] self.old
            → Says L.PollLink s true lane given frames [] self.new }
        ensures given { (given : List Frame)
            → HasGiven (L.told self.old.stream.link) self.old.stream.offset self.old.stream.held given
            → HasGiven (L.told self.new.stream.link) self.new.stream.offset self.new.stream.held given }
        ensures stage { IfReady result (λ _. is_answering self.new.stage ≡ false) }
        ensures pending { OnPending result (self.new.stage ≡ self.old.stage) }
        ensures running { self.old.stage ≢ Stopped → self.new.stage ≢ Stopped }
        ensures lanes { KeepsLane self.old.stage self.new.stage }
        ensures live { is_live self.new.stage ≡ true → is_live self.old.stage ≡ true }
        ensures ended { self.new.stream.ended ≡ self.old.stream.ended }
        ensures waits { CountsWait result (L.waits self.old.stream.link) (L.waits self.new.stream.link) }
        ensures armed { OnPending result (IsArmed cx.new) }
        ensures kept { Keeps cx.old cx.new }
    {
        let Stage::Answering(greeting) = self.stage else {
            return Poll::Ready(());
        };
        match self.write_answer(cx) {
            Poll::Pending => return Poll::Pending,
            Poll::Ready(Err(_)) => self.stage = Stage::Ended(None),
            Poll::Ready(Ok(())) => self.stage = after_answer(greeting, self.stream.offset()),
        }
        Poll::Ready(())
    }
}

//! Reading more of a polled link, and what bytes begin with.

ghost use Rattle.std.specs.Prelude.{◌≡◌, ℕ, ◌+◌, ◌<◌, ◌≤◌, ◌++◌, length, take, drop, vec_len, vec_capacity, IfSome};
ghost use Rattle.futures.specs.Task.{Covers, Keeps};
ghost use Rattle.futures.specs.Poll.{OnPending};
ghost use Rattle.mls_base.specs.Told.{MayCease, StaysSound};
ghost use Rattle.mls_model.specs.Frames.{sight, more, bad};
ghost use Rattle.mls_model.specs.Lanes.{end_at, end_by};
ghost use Rattle.mls_frame.specs.Views.{AreBytes};
ghost use Rattle.mls_poll.specs.Polls.{IfGiven, CountsWait};
ghost use Rattle.mls_poll.specs.Reads.{HasRead};
ghost use Rattle.mls_poll.specs.Steps.{ReadsPiece, Refuses, CountsRead, is_more};

use crate::outside::PollLink;
use futures::task::{Context, Poll};
use mls_base::faults::Failed;
use mls_frame::{FrameFault, Seen, view};
use mls_model::lanes::LaneEnd;

/// How many bytes are read at once.
pub const CHUNK: usize = 4096;

/// Why nothing was read.
#[derive(Clone, Copy, Debug)]
pub enum ReadFault {
    /// The link failed.
    Failed,
    /// Memory ran out, before the link was asked.
    Memory,
}

/// The items of a slice of bytes are bytes.
pub fn are_bytes(bytes: &[u8])
    ensures { AreBytes bytes.now }
{
    let _ = bytes;
}

/// Whether bytes are too little to tell what they begin with.
pub fn is_more(bytes: &[u8]) -> bool
    ensures { result ≡ is_more (sight bytes.now) }
{
    match view(bytes) {
        Seen::More => true,
        Seen::Whole { .. } | Seen::Bad(_) => false,
    }
}

/// How a stream ends whose input ended.
#[tactic(auto, unfolding(mls_model::specs::Lanes::end_at))]
pub fn input_end(at: u64, rest: &[u8]) -> LaneEnd
    requires { sight rest.now ≡ more }
    ensures { result ≡ end_at at rest.now }
{
    if rest.is_empty() {
        return LaneEnd::Clean;
    }
    LaneEnd::Cut { at }
}

/// How a stream ends whose next bytes are bad.
pub fn bad_end(at: u64, fault: FrameFault) -> LaneEnd
    ensures { result ≡ end_by at (bad fault) }
{
    match fault {
        FrameFault::BadKind => LaneEnd::BadKind { at },
        FrameFault::BadLength => LaneEnd::BadLength { at },
    }
}

/// Appends bytes for which there is room.
pub fn add(out: &mut Vec<u8>, bytes: &[u8])
    requires { vec_len out.old + length bytes.now ≤ vec_capacity out.old }
    ensures { out.new.items ≡ out.old.items ++ bytes.now }
{
    match out.extend_from_slice(bytes) {
        Ok(()) => {}
        Err(_) => unreachable!(),
    }
}

/// Reads at most so many bytes behind those that are held. Their room is taken before the link is asked.
pub fn read_more<L: PollLink>(
    link: &mut L,
    held: &mut Vec<u8>,
    most: usize,
    cx: &mut Context<'_>,
) -> Poll<Result<usize, ReadFault>>
    requires { 0 < most }
    ensures within { IfGiven result (λ n. n ≤ most) }
    ensures read { IfGiven result (λ n. ReadsPiece n (L.told link.old) (L.told link.new) held.old.items held.new.items) }
    ensures refused { Refuses result (L.told link.old) (L.told link.new) held.old.items held.new.items }
    ensures faults { CountsRead result (L.faults link.old) (L.faults link.new) }
    ensures waits { CountsWait result (L.waits link.old) (L.waits link.new) }
    ensures sound { StaysSound (L.sound link.old) (L.sound link.new) }
    ensures sure { L.sure link.old ≤ L.sure link.new }
    ensures registered { OnPending result (Covers cx.new (λ source. source ≡ L.readable link.new)) }
    ensures kept { Keeps cx.old cx.new }
{
    let mut buffer = [0u8; CHUNK];
    if held.reserve(CHUNK).is_err() {
        return Poll::Ready(Err(ReadFault::Memory));
    }
    match link.poll_read(cx, &mut buffer[..most.min(CHUNK)]) {
        Poll::Pending => Poll::Pending,
        Poll::Ready(Err(_)) => Poll::Ready(Err(ReadFault::Failed)),
        Poll::Ready(Ok(n)) => {
            are_bytes(&buffer);
            add(held, buffer.split_at(n).0);
            Poll::Ready(Ok(n))
        }
    }
}

//! The frames of a polled link, one after another, and how they end.

ghost use Rattle.std.specs.Prelude.{◌≡◌, ◌+◌, ◌≤◌, true, false, length, drop, map, IfOk, IfErr, OnErr};
ghost use Rattle.futures.specs.Task.{Covers, Keeps};
ghost use Rattle.futures.specs.Poll.{OnPending};
ghost use Rattle.mls_base.specs.Told.{StaysSound};
ghost use Rattle.mls_model.specs.Numbers.{joined};
ghost use Rattle.mls_model.specs.Frames.{spelling, sight, bad};
ghost use Rattle.mls_poll.specs.Polls.{CountsWait};
ghost use Rattle.mls_poll.specs.Steps.{is_more};
ghost use Rattle.mls_poll.specs.Streams.{most_bytes, frames_of, is_end};
ghost use Rattle.mls_poll.specs.Looks.{SeesWhole, Cuts, Takes, Reads, Advances};

use crate::outside::PollLink;
use crate::reading::{CHUNK, ReadFault, add, are_bytes, bad_end, input_end, is_more, read_more};
use crate::whole_frame::WholeFrame;
use futures::Stream;
use futures::task::{Context, Poll};
use mls_base::faults::{Failed, NoMemory};
use mls_frame::{FrameFault, Seen, view};
use mls_model::lanes::LaneEnd;
use std::alloc::Global;
use std::marker::Model;

/// The most bytes of a stream.
const MOST_BYTES: u64 = 1_073_741_824;

/// What a stream of frames gives.
#[derive(Drop)]
pub enum StreamItem {
    /// The next frame.
    Event(WholeFrame),
    /// How the stream ends. It is given once.
    End { end: LaneEnd },
    /// Memory ran out. No byte is lost, and the stream can be polled again.
    Memory,
}

/// The number of bytes of the whole frame that bytes begin with, or why they are bad.
fn front(bytes: &[u8]) -> Result<u32, FrameFault>
    requires { is_more (sight bytes.now) ≡ false }
    ensures whole { IfOk result (λ used. SeesWhole used (sight bytes.now)) }
    ensures bad { IfErr result (λ fault. sight bytes.now ≡ bad fault) }
{
    match view(bytes) {
        Seen::Whole { used, .. } => Ok(used),
        Seen::Bad(fault) => Err(fault),
        Seen::More => unreachable!(),
    }
}

/// Drops so many bytes at the front.
fn drop_front(held: &mut Vec<u8>, many: usize)
    requires { many ≤ length held.old.items }
    ensures { held.new.items ≡ drop many held.old.items }
{
    held.drain(..many);
}

/// Cuts the whole frame off the front of the bytes. Its room is taken before.
fn cut_off(alloc: Global, held: &mut Vec<u8>, used: u32) -> Result<WholeFrame, NoMemory>
    requires { SeesWhole used (sight held.old.items) }
    ensures cuts { IfOk result (λ frame. Cuts frame held.old.items held.new.items) }
    ensures same { OnErr result (held.new.items ≡ held.old.items) }
{
    let mut bytes = Vec::with_capacity(alloc, used as usize)?;
    let all = held.as_slice();
    are_bytes(all);
    add(&mut bytes, all.split_at(used as usize).0);
    drop_front(held, used as usize);
    Ok(WholeFrame::of(bytes))
}

/// Takes the next frame off the bytes that are held, or says how a stream with them ends.
fn take(alloc: Global, held: &mut Vec<u8>, offset: u64) -> StreamItem
    requires { is_more (sight held.old.items) ≡ false }
    ensures { Takes result offset held.old.items held.new.items }
{
    let used = match front(held.as_slice()) {
        Ok(used) => used,
        Err(fault) => {
            return StreamItem::End {
                end: bad_end(offset, fault),
            };
        }
    };
    match cut_off(alloc, held, used) {
        Ok(frame) => StreamItem::Event(frame),
        Err(_) => StreamItem::Memory,
    }
}

/// Reads more bytes, or says how the stream ends.
fn read_on<L: PollLink>(
    link: &mut L,
    held: &mut Vec<u8>,
    offset: u64,
    cx: &mut Context<'_>,
) -> Poll<Option<StreamItem>>
    requires more { is_more (sight held.old.items) ≡ true }
    requires few { offset + length held.old.items ≤ most_bytes }
    ensures reads { Reads result offset
        (record { told = L.told link.old; faults = L.faults link.old; held = held.old.items })
        (record { told = L.told link.new; faults = L.faults link.new; held = held.new.items }) }
    ensures waits { CountsWait result (L.waits link.old) (L.waits link.new) }
    ensures sound { StaysSound (L.sound link.old) (L.sound link.new) }
    ensures sure { L.sure link.old ≤ L.sure link.new }
    ensures registered { OnPending result (Covers cx.new (λ source. source ≡ L.readable link.new)) }
    ensures kept { Keeps cx.old cx.new }
{
    let room = MOST_BYTES - (offset + held.len() as u64);
    if room == 0 {
        return Poll::Ready(Some(StreamItem::End {
            end: LaneEnd::Full { at: offset },
        }));
    }
    match read_more(link, held, room as usize, cx) {
        Poll::Pending => Poll::Pending,
        Poll::Ready(Err(ReadFault::Failed)) => Poll::Ready(Some(StreamItem::End {
            end: LaneEnd::Fault { at: offset },
        })),
        Poll::Ready(Err(ReadFault::Memory)) => Poll::Ready(Some(StreamItem::Memory)),
        Poll::Ready(Ok(0)) => Poll::Ready(Some(StreamItem::End {
            end: input_end(offset, held.as_slice()),
        })),
        Poll::Ready(Ok(_)) => Poll::Ready(None),
    }
}

/// Reads up to the next item.
fn advance<L: PollLink>(
    alloc: Global,
    link: &mut L,
    held: &mut Vec<u8>,
    offset: u64,
    cx: &mut Context<'_>,
) -> Poll<StreamItem>
    requires few { offset + length held.old.items ≤ most_bytes }
    ensures advances { Advances result offset
        (record { told = L.told link.old; faults = L.faults link.old; held = held.old.items })
        (record { told = L.told link.new; faults = L.faults link.new; held = held.new.items }) }
    ensures waits { CountsWait result (L.waits link.old) (L.waits link.new) }
    ensures sound { StaysSound (L.sound link.old) (L.sound link.new) }
    ensures sure { L.sure link.old ≤ L.sure link.new }
    ensures registered { OnPending result (Covers cx.new (λ source. source ≡ L.readable link.new)) }
    ensures kept { Keeps cx.old cx.new }
{
    while is_more(held.as_slice()) {
        match read_on(link, held, offset, cx) {
            Poll::Pending => return Poll::Pending,
            Poll::Ready(Some(item)) => return Poll::Ready(item),
            Poll::Ready(None) => {}
        }
    }
    Poll::Ready(take(alloc, held, offset))
}

/// The number of bytes that an item took off.
fn taken_by(item: &StreamItem) -> u64
    ensures { result ≡ length (joined (map spelling (frames_of item.now))) }
{
    match item {
        StreamItem::Event(frame) => frame.size(),
        StreamItem::End { .. } | StreamItem::Memory => 0,
    }
}

fn is_end(item: &StreamItem) -> bool
    ensures { result ≡ is_end item.now }
{
    match item {
        StreamItem::End { .. } => true,
        StreamItem::Event(_) | StreamItem::Memory => false,
    }
}

/// The frames of a polled link, one after another, and then its end.
#[derive(Drop)]
pub struct FrameStream<L: PollLink + Drop> {
    link: L,
    alloc: Global,
    /// Bytes that were read, behind the frames that were given.
    held: Vec<u8>,
    /// The number of bytes that were taken off as frames.
    offset: u64,
    /// The end was given.
    ended: bool,
}

impl<L: PollLink + Drop> Model for FrameStream<L> {
    ghost use Rattle.std.specs.Prelude.{◌+◌, ◌≤◌, length};
    ghost use Rattle.mls_poll.specs.Streams.{StreamView, most_bytes};

    ghost Value = { StreamView L };

    ghost view = { λ s. record { link = s.link; offset = s.offset; held = s.held.items; ended = s.ended } };

    ghost invariant = { λ s. s.offset + length s.held.items ≤ most_bytes };
}

impl<L: PollLink + Drop> FrameStream<L> {
    ghost use Rattle.std.specs.Prelude.{◌≡◌, ◌≤◌, ◌<◌, ◌+◌, [], List, false, length, take, IfOk, IfErr, IfSome};
    ghost use Rattle.futures.specs.Task.{Covers, Keeps};
    ghost use Rattle.futures.specs.Poll.{OnPending};
    ghost use Rattle.mls_base.specs.Told.{MayCease, StaysSound};
    ghost use Rattle.mls_model.specs.Frames.{Frame};
    ghost use Rattle.mls_wire.specs.Links.{after_write};
    ghost use Rattle.mls_poll.specs.Polls.{IfGiven, OnFailed, CountsFault, CountsWait};
    ghost use Rattle.mls_poll.specs.Streams.{most_bytes, HasGiven, ended_by};
    ghost use Rattle.mls_poll.specs.Looks.{Goes};

    /// A stream that gave nothing yet. For want of memory the link comes back.
    pub fn new(alloc: Global, link: L) -> Result<FrameStream<L>, L>
        requires { IfSome (L.told link) (λ talk. talk.read ≡ []) }
        ensures stream { IfOk result (λ stream. stream ≡ record { link = link; offset = 0; held = []; ended = false }) }
        ensures given { IfOk result (λ stream. HasGiven (L.told stream.link) stream.offset stream.held []) }
        ensures back { IfErr result (λ back. back ≡ link) }
    {
        match Vec::with_capacity(alloc, CHUNK) {
            Ok(held) => Ok(FrameStream {
                link,
                alloc,
                held,
                offset: 0,
                ended: false,
            }),
            Err(_) => Err(link),
        }
    }

    /// A stream has no more bytes than it may have.
    pub fn valid(&self)
        ensures { self.now.offset + length self.now.held ≤ most_bytes }
    {
        let _ = &self.link;
    }

    /// The link, to be looked at.
    pub fn link(&self) -> &L
        ensures { result.now ≡ self.now.link }
    {
        &self.link
    }

    /// The number of bytes that were taken off as frames.
    pub fn offset(&self) -> u64
        ensures { result ≡ self.now.offset }
    {
        self.offset
    }

    /// Writes the first bytes of `piece` to the link, as its own `poll_write` does.
    pub fn poll_write(&mut self, cx: &mut Context<'_>, piece: &[u8]) -> Poll<Result<usize, Failed>>
        requires { 0 < length piece.now }
        ensures some { IfGiven result (λ n. 0 < n) }
        ensures within { IfGiven result (λ n. n ≤ length piece.now) }
        ensures written { IfGiven result (λ n. L.told self.new.link ≡ after_write (take n piece.now) (L.told self.old.link)) }
        ensures ceased { OnFailed result (MayCease (L.told self.old.link) (L.told self.new.link)) }
        ensures still { OnPending result (L.told self.new.link ≡ L.told self.old.link) }
        ensures faults { CountsFault result (L.faults self.old.link) (L.faults self.new.link) }
        ensures waits { CountsWait result (L.waits self.old.link) (L.waits self.new.link) }
        ensures sound { StaysSound (L.sound self.old.link) (L.sound self.new.link) }
        ensures sure { IfGiven result (λ n. L.sure self.old.link ≤ L.sure self.new.link + n) }
        ensures unsure { OnFailed result (L.sure self.old.link ≡ 0) }
        ensures registered { OnPending result (Covers cx.new (λ source. source ≡ L.writable self.new.link)) }
        ensures kept { Keeps cx.old cx.new }
        // What was given, followed by what is held, is what was read, as before.
        ensures given { (frames : List Frame) → HasGiven (L.told self.old.link) self.old.offset self.old.held frames →
            HasGiven (L.told self.new.link) self.new.offset self.new.held frames }
        ensures offset { self.new.offset ≡ self.old.offset }
        ensures held { self.new.held ≡ self.old.held }
        ensures ended { self.new.ended ≡ self.old.ended }
    {
        self.link.poll_write(cx, piece)
    }

    /// Reads up to the next item, and notes what it takes off.
    fn next_item(&mut self, cx: &mut Context<'_>) -> Poll<Option<StreamItem>>
        ensures goes { Goes self.old.ended result self.old.offset self.new.offset
            (record { told = L.told self.old.link; faults = L.faults self.old.link; held = self.old.held })
            (record { told = L.told self.new.link; faults = L.faults self.new.link; held = self.new.held }) }
        ensures ended { self.new.ended ≡ ended_by self.old.ended result }
        ensures waits { CountsWait result (L.waits self.old.link) (L.waits self.new.link) }
        ensures sound { StaysSound (L.sound self.old.link) (L.sound self.new.link) }
        ensures sure { L.sure self.old.link ≤ L.sure self.new.link }
        ensures registered { OnPending result (Covers cx.new (λ source. source ≡ L.readable self.new.link)) }
        ensures kept { Keeps cx.old cx.new }
    {
        if self.ended {
            return Poll::Ready(None);
        }
        match advance(self.alloc, &mut self.link, &mut self.held, self.offset, cx) {
            Poll::Pending => Poll::Pending,
            Poll::Ready(item) => {
                self.offset += taken_by(&item);
                self.ended = is_end(&item);
                Poll::Ready(Some(item))
            }
        }
    }
}

impl<L: PollLink + Drop> Stream for FrameStream<L> {
    type Item = StreamItem;

    ghost use Rattle.std.specs.Prelude.{◌≡◌, ◌≤◌, ◌<◌, ◌+◌, ◌++◌, List, length};
    ghost use Rattle.futures.specs.Task.{Covers, Keeps};
    ghost use Rattle.futures.specs.Poll.{OnPending};
    ghost use Rattle.mls_base.specs.Told.{StaysSound};
    ghost use Rattle.mls_model.specs.Frames.{Frame};
    ghost use Rattle.mls_poll.specs.Polls.{CountsWait};
    ghost use Rattle.mls_poll.specs.Streams.{most_bytes, HasGiven, GivesNone, frames_given, ended_by, IfEnd, EndsBy, EndsLane, OfRead, is_fault_given, CountsEnd, ReadsOn};

    ghost needs = { λ stream source. source ≡ L.readable stream.link };

    /// The next frame, the end once, and then None.
    fn poll_next(&mut self, cx: &mut Context<'_>) -> Poll<Option<StreamItem>>
        // The spellings of the frames given, followed by the bytes that are held, are the bytes read.
        ensures given { (frames : List Frame) → HasGiven (L.told self.old.link) self.old.offset self.old.held frames →
            HasGiven (L.told self.new.link) self.new.offset self.new.held (frames ++ frames_given result) }
        ensures once { GivesNone self.old.ended result }
        ensures ended { self.new.ended ≡ ended_by self.old.ended result }
        // The frames given are the lane's events, and the end is the lane's.
        ensures lane { (frames : List Frame) → HasGiven (L.told self.old.link) self.old.offset self.old.held frames →
            IfEnd result (λ end. OfRead (L.told self.new.link) (λ bytes.
            EndsLane end frames (L.told self.new.link) (L.faults self.old.link) (L.faults self.new.link) bytes)) }
        ensures ends { IfEnd result (λ end. EndsBy end self.new.offset self.new.held
            (self.new.offset + length self.new.held) (L.told self.new.link) (L.faults self.old.link) (L.faults self.new.link)) }
        ensures room { OnPending result (self.new.offset + length self.new.held < most_bytes) }
        ensures faults { CountsEnd (is_fault_given result) (L.faults self.old.link) (L.faults self.new.link) }
        ensures reads { ReadsOn (is_fault_given result) (L.told self.old.link) (L.told self.new.link) }
        ensures waits { CountsWait result (L.waits self.old.link) (L.waits self.new.link) }
        ensures sound { StaysSound (L.sound self.old.link) (L.sound self.new.link) }
        ensures sure { L.sure self.old.link ≤ L.sure self.new.link }
        ensures registered { OnPending result (Covers cx.new (λ source. source ≡ L.readable self.new.link)) }
        ensures kept { Keeps cx.old cx.new }
    {
        self.next_item(cx)
    }
}

//! Tapes: lanes of bytes in one file.

ghost use Rattle.std.specs.Prelude.{◌≡◌, ℕ, ◌+◌, ◌<◌, ◌≤◌, List, length, drop, vec_len, Ok, Some, MatchResult, IfOk};
ghost use Rattle.std.specs.List.{AllByRecursion};
ghost use Rattle.mls_model.specs.Numbers.{element};
ghost use Rattle.mls_model.specs.Frames.{Frame, spelling, sight, whole};
ghost use Rattle.mls_model.specs.Lanes.{Lane, line_of, tape_of};
ghost use Rattle.mls_model.specs.Schedules.{event_count, is_lane_of};
ghost use Rattle.mls_model.specs.Histories.{event_of};
ghost use Rattle.mls_frame.specs.Views.{frame_of};
ghost use Rattle.mls_tape.specs.Reading.{Gives, Fails};
ghost use Rattle.mls_tape.specs.Scans.{TablesFit, IsEntry, IsWholeSight};
ghost use Rattle.mls_tape.specs.Tapes.{longest_tape, told_lane};

use crate::decoded::{Decoded, Lanes};
use crate::faults::TapeFault;
use crate::scanning::{Entry, entries_of, starts_of};
use crate::table::lane_bytes_of;
use mls_frame::{FrameView, Seen, view};
use mls_model::lanes::{LaneEnd, LaneKind, LaneLine};
use std::alloc::Global;
use std::marker::Model;

/// The tables of a tape: what it keeps of each lane, and where each event begins.
fn tables(
    alloc: Global,
    ranks: u32,
    signed: bool,
    bytes: &[u8],
) -> Result<(Vec<Entry>, Vec<u32>), TapeFault>
    requires { length bytes.now ≤ longest_tape }
    ensures { MatchResult result
        (λ x. TablesFit ranks signed bytes.now x.0.items x.1.items)
        (λ e. Fails e (tape_of ranks signed bytes.now)) }
{
    let parts = lane_bytes_of(alloc, ranks, signed, bytes)?;
    let (entries, events) = entries_of(alloc, parts.as_slice())?;
    let starts = starts_of(alloc, events, parts.as_slice())?;
    Ok((entries, starts))
}

/// The most bytes of a tape.
pub const LONGEST_TAPE: u64 = 1_073_741_824;

/// A tape, read for a number of ranks and a sample kind. It keeps its bytes, a line per lane, and the start of
/// each event, four bytes an event.
#[derive(Drop)]
pub struct Tape {
    ranks: u32,
    signed: bool,
    bytes: Vec<u8>,
    lanes: Vec<Entry>,
    starts: Vec<u32>,
}

impl Model for Tape {
    ghost use Rattle.std.specs.Prelude.{◌≡◌, ℕ, ◌≤◌, length};
    ghost use Rattle.mls_tape.specs.Tapes.{TapeView, longest_tape};

    ghost Value = { TapeView };

    ghost use Rattle.mls_tape.specs.Scans.{lanes_in, TablesFit};

    ghost view = { λ t. record {
      bytes = t.bytes.items;
      ranks = t.ranks;
      signed = t.signed;
      lanes = lanes_in t.ranks t.signed t.bytes.items;
    } };

    ghost invariant = { λ t. TablesFit t.ranks t.signed t.bytes.items t.lanes.items t.starts.items
        × (length t.bytes.items ≤ longest_tape) };
}

impl Tape {
    /// The tape that the bytes are, for so many ranks, its samples read as `i16` where `signed` holds and as
    /// `u16` else. `Bad` has the first fault from left to right and its offset. Of at most
    /// `LONGEST_TAPE` bytes.
    pub fn read(alloc: Global, ranks: u32, signed: bool, bytes: Vec<u8>) -> Result<Tape, TapeFault>
        requires { vec_len bytes ≤ longest_tape }
        ensures exact { Gives (λ t. t.lanes) result (tape_of ranks signed bytes.items) }
        ensures kept { IfOk result (λ t. (t.bytes ≡ bytes.items) × (t.ranks ≡ ranks) × (t.signed ≡ signed)) }
    {
        let (lanes, starts) = tables(alloc, ranks, signed, bytes.as_slice())?;
        Ok(Tape {
            ranks,
            signed,
            bytes,
            lanes,
            starts,
        })
    }

    /// The lanes are those of the bytes.
    pub fn valid(&self)
        ensures exact { tape_of self.now.ranks self.now.signed self.now.bytes ≡ Ok self.now.lanes }
        ensures size { length self.now.bytes ≤ longest_tape }
        ensures few { length self.now.lanes ≤ 65535 }
        ensures ranks { AllByRecursion (λ (lane : Lane). lane.rank < self.now.ranks) self.now.lanes }
    {
        let _ = &self.ranks;
    }

    /// The tape's bytes.
    pub fn bytes(&self) -> &[u8]
        ensures { result.now ≡ self.now.bytes }
    {
        self.bytes.as_slice()
    }

    /// The number of ranks that the tape was read for.
    pub fn ranks(&self) -> u32
        ensures { result ≡ self.now.ranks }
    {
        self.ranks
    }

    /// The number of lanes.
    pub fn lane_count(&self) -> u32
        ensures { result ≡ length self.now.lanes }
    {
        self.lanes.len() as u32
    }

    /// What the tape keeps of a lane.
    fn entry(&self, lane: u32) -> Entry
        requires { lane < length self.now.lanes }
        ensures { (l : Lane) → element self.now.lanes lane ≡ Some l → IsEntry result l }
    {
        self.lanes[lane as usize]
    }

    /// The rank that the lane is of.
    pub fn lane_rank(&self, lane: u32) -> u32
        requires { lane < length self.now.lanes }
        ensures { (l : Lane) → element self.now.lanes lane ≡ Some l → result ≡ l.rank }
    {
        self.entry(lane).rank
    }

    /// The lane's kind.
    pub fn lane_kind(&self, lane: u32) -> LaneKind
        requires { lane < length self.now.lanes }
        ensures { (l : Lane) → element self.now.lanes lane ≡ Some l → result ≡ l.kind }
    {
        self.entry(lane).kind
    }

    /// The number of the lane's events.
    pub fn events(&self, lane: u32) -> u32
        requires { lane < length self.now.lanes }
        ensures { result ≡ event_count self.now.lanes lane }
    {
        self.entry(lane).events
    }

    /// How the lane's bytes end.
    pub fn lane_end(&self, lane: u32) -> LaneEnd
        requires { lane < length self.now.lanes }
        ensures { (l : Lane) → element self.now.lanes lane ≡ Some l → result ≡ l.end }
    {
        self.entry(lane).end
    }

    /// What the result text says of the lane.
    pub fn lane_line(&self, lane: u32) -> LaneLine
        requires { lane < length self.now.lanes }
        ensures { (l : Lane) → element self.now.lanes lane ≡ Some l → result ≡ line_of lane l }
    {
        let entry = self.entry(lane);
        LaneLine {
            lane,
            rank: entry.rank,
            kind: entry.kind,
            events: entry.events,
            end: entry.end,
        }
    }

    /// Where an event of a lane begins in the tape's bytes.
    fn start(&self, lane: u32, number: u32) -> u32
        requires { number < event_count self.now.lanes lane }
        ensures within { result ≤ length self.now.bytes }
        ensures whole { (l : Lane) (f : Frame) →
            element self.now.lanes lane ≡ Some l → element l.frames number ≡ Some f →
            sight (drop result self.now.bytes) ≡ whole f (length (spelling f)) }
    {
        let first = self.lanes[lane as usize].first;
        self.starts[first as usize + number as usize]
    }

    /// Event `number` of the lane, with no copy of its samples and in the same time whatever its number is.
    pub fn event(&self, lane: u32, number: u32) -> Decoded<'_, &Tape>
        requires { number < event_count self.now.lanes lane }
        ensures event { event_of self.now.lanes lane number
            ≡ Some (record { kind = result.kind; frame = result.frame }) }
        ensures place { (result.lane ≡ lane) × (result.number ≡ number) }
        ensures lanes { result.lanes.now ≡ self.now }
    {
        let start = self.start(lane, number);
        let kind = self.lane_kind(lane);
        let view = frame_at(self.bytes(), start);
        Decoded::new(self, lane, number as u64, kind, view)
    }
}

/// The frame that begins at a place.
fn frame_at(bytes: &[u8], start: u32) -> FrameView<'_>
    requires within { start ≤ length bytes.now }
    requires whole { IsWholeSight (sight (drop start bytes.now)) }
    ensures { (f : Frame) (used : ℕ) → sight (drop start bytes.now) ≡ whole f used → frame_of result ≡ f }
{
    match view(bytes.split_at(start as usize).1) {
        Seen::Whole { frame, .. } => frame,
        _ => unreachable!(),
    }
}

/// A tape tells its lanes, and a lane belongs to its own rank alone.
impl<'a> Lanes for &'a Tape {
    ghost told = { λ t k. told_lane t.now.lanes k };

    ghost lane_count = { λ t. length t.now.lanes };

    ghost belongs_to = { λ t rank k. is_lane_of t.now.lanes rank k };

    fn lanes(&self) -> u32 {
        self.lane_count()
    }

    fn belongs(&self, rank: u32, lane: u32) -> bool {
        lane < self.lane_count() && self.lane_rank(lane) == rank
    }
}

//! Scans of the lanes' frame heads: how many frames there are, how the lane ends, and where each begins.

ghost use Rattle.std.specs.Prelude.{◌≡◌, ℕ, ◌+◌, ◌<◌, ◌≤◌, ◌^◌, ◌++◌, length, map, Ok, MatchResult, OnOk, IfOk};
ghost use Rattle.mls_model.specs.Numbers.{joined};
ghost use Rattle.mls_model.specs.Frames.{spelling};
ghost use Rattle.mls_model.specs.Lanes.{lane_frames, lane_rest, end_at, with_events};
ghost use Rattle.mls_tape.specs.Reading.{Fails, lane_bytes, all_lane_bytes};
ghost use Rattle.mls_tape.specs.Scans.{starts_from, all_starts, lanes_made, entries_of};

use crate::faults::{TapeFault, bad};
use crate::lane_stretch::LaneStretch;
use mls_base::faults::NoMemory;
use mls_frame::{FrameFault, Seen, view};
use mls_model::lanes::{LaneEnd, LaneKind, TapeWhy};
use std::alloc::Global;

/// The most events of a tape.
const MOST_EVENTS: u64 = 16_777_216;

/// What a tape keeps of a lane.
#[derive(Clone, Copy, Debug)]
pub struct Entry {
    pub rank: u32,
    pub kind: LaneKind,
    /// The number of events of earlier lanes.
    pub first: u32,
    pub events: u32,
    pub end: LaneEnd,
}

/// What a scan of a lane finds.
#[derive(Clone, Copy, Debug)]
pub struct Scanned {
    pub events: u32,
    pub end: LaneEnd,
}

/// How a lane ends whose rest begins at a place.
#[tactic(auto, unfolding(mls_model::specs::Lanes::end_at))]
fn end_at(at: u64, rest: &[u8]) -> LaneEnd
    ensures { result ≡ end_at at rest.now }
{
    if rest.is_empty() {
        return LaneEnd::Clean;
    }
    match view(rest) {
        Seen::Whole { .. } => LaneEnd::Clean,
        Seen::More => LaneEnd::Cut { at },
        Seen::Bad(FrameFault::BadKind) => LaneEnd::BadKind { at },
        Seen::Bad(FrameFault::BadLength) => LaneEnd::BadLength { at },
    }
}

/// The number of a lane's events, and its end.
fn scan(lane: &[u8]) -> Scanned
    requires { length lane.now < 2 ^ 32 }
    ensures events { result.events ≡ length (lane_frames lane.now) }
    ensures end { result.end ≡ end_at (length (joined (map spelling (lane_frames lane.now)))) (lane_rest lane.now) }
{
    let mut rest = lane;
    let mut at = 0;
    let mut events = 0;
    while let Seen::Whole { used, .. } = view(rest) {
        at += used as u64;
        events += 1;
        rest = rest.split_at(used as usize).1;
    }
    Scanned {
        events,
        end: end_at(at, rest),
    }
}

/// Adds the place in the tape of each event of a lane whose bytes begin at a place.
fn add_starts(starts: &mut Vec<u32>, start: u64, lane: &[u8]) -> Result<(), NoMemory>
    requires { start + length lane.now < 2 ^ 32 }
    ensures { OnOk result (starts.new.items ≡ starts.old.items ++ starts_from start (lane_frames lane.now)) }
{
    let mut rest = lane;
    let mut at = start;
    while let Seen::Whole { used, .. } = view(rest) {
        starts.push(at as u32)?;
        at += used as u64;
        rest = rest.split_at(used as usize).1;
    }
    Ok(())
}

/// What a tape keeps of each lane, with the number of all events.
pub fn entries_of(alloc: Global, parts: &[LaneStretch<'_>]) -> Result<(Vec<Entry>, u32), TapeFault>
    ensures { MatchResult result
        (λ x. (with_events 0 (all_lane_bytes parts.now) ≡ Ok (lanes_made (all_lane_bytes parts.now)))
        × (x.0.items ≡ entries_of 0 (lanes_made (all_lane_bytes parts.now))))
        (λ e. Fails e (with_events 0 (all_lane_bytes parts.now))) }
{
    let mut entries = Vec::new(alloc);
    let mut before = 0u32;
    for part in parts {
        let found = scan(part.bytes);
        let sum = before as u64 + found.events as u64;
        if sum > MOST_EVENTS {
            return Err(bad(part.at, TapeWhy::TooManyEvents));
        }
        entries.push(Entry {
            rank: part.rank,
            kind: part.kind,
            first: before,
            events: found.events,
            end: found.end,
        })?;
        before = sum as u32;
    }
    Ok((entries, before))
}

/// The place of each event, lane after lane. All memory is taken at once.
pub fn starts_of(
    alloc: Global,
    events: u32,
    parts: &[LaneStretch<'_>],
) -> Result<Vec<u32>, NoMemory>
    ensures { IfOk result (λ v. v.items ≡ all_starts (all_lane_bytes parts.now)) }
{
    let mut starts = Vec::with_capacity(alloc, events as usize)?;
    for part in parts {
        add_starts(&mut starts, part.at, part.bytes)?;
    }
    Ok(starts)
}

//! The table of lanes at the head of a tape: fields are read in order, and the first fault is answered.

ghost use Rattle.std.specs.Prelude.{◌≡◌, ℕ, ◌+◌, ◌≤◌, ◌<◌, ◌^◌, ◌==◌, ◌&&◌, ◌||◌, not, cond, length, codes, IfOk};
ghost use Rattle.std.specs.Int.{w8, w16, w32};
ghost use Rattle.mls_model.specs.Numbers.{same_bytes};
ghost use Rattle.mls_model.specs.Lanes.{bytes_at, number_at, lane_at, lanes_at, samples_byte, lane_bytes_of, kind_of};
ghost use Rattle.mls_tape.specs.Tapes.{longest_tape};
ghost use Rattle.mls_tape.specs.Reading.{Gives, lane_bytes, all_lane_bytes};

use crate::faults::{TapeFault, bad};
use crate::lane_stretch::LaneStretch;
use mls_model::lanes::{LaneKind, TapeWhy};
use std::alloc::Global;

/// The most lanes of a tape.
const MOST_LANES: u32 = 65_535;

fn u8_at(at: u64, bytes: &[u8]) -> Result<(u8, &[u8]), TapeFault>
    ensures exact { Gives (λ x. (x.0, x.1.now)) result (number_at w8 at bytes.now) }
    ensures left { IfOk result (λ x. length x.1.now + 1 ≡ length bytes.now) }
{
    if bytes.is_empty() {
        return Err(bad(at, TapeWhy::Cut));
    }
    let (front, rest) = bytes.split_at(1);
    Ok((front[0], rest))
}

fn u16_at(at: u64, bytes: &[u8]) -> Result<(u16, &[u8]), TapeFault>
    ensures exact { Gives (λ x. (x.0, x.1.now)) result (number_at w16 at bytes.now) }
    ensures left { IfOk result (λ x. length x.1.now + 2 ≡ length bytes.now) }
{
    if bytes.len() < 2 {
        return Err(bad(at, TapeWhy::Cut));
    }
    let (front, rest) = bytes.split_at(2);
    let number = u16::from_be_bytes([front[0], front[1]]);
    Ok((number, rest))
}

fn u32_at(at: u64, bytes: &[u8]) -> Result<(u32, &[u8]), TapeFault>
    ensures exact { Gives (λ x. (x.0, x.1.now)) result (number_at w32 at bytes.now) }
    ensures left { IfOk result (λ x. length x.1.now + 4 ≡ length bytes.now) }
{
    if bytes.len() < 4 {
        return Err(bad(at, TapeWhy::Cut));
    }
    let (front, rest) = bytes.split_at(4);
    let number = u32::from_be_bytes([front[0], front[1], front[2], front[3]]);
    Ok((number, rest))
}

fn bytes_at(count: usize, at: u64, bytes: &[u8]) -> Result<(&[u8], &[u8]), TapeFault>
    ensures exact { Gives (λ x. (x.0.now, x.1.now)) result (bytes_at count at bytes.now) }
    ensures size { IfOk result (λ x. length x.0.now ≡ count) }
    ensures left { IfOk result (λ x. length x.1.now + count ≡ length bytes.now) }
{
    if bytes.len() < count {
        return Err(bad(at, TapeWhy::Cut));
    }
    Ok(bytes.split_at(count))
}

fn kind_of(code: u8) -> LaneKind
    ensures { result ≡ kind_of code }
{
    if code == 0 {
        LaneKind::Client
    } else {
        LaneKind::Control
    }
}

/// A lane of the table, and the bytes after it.
#[tactic(auto, unfolding(mls_model::specs::Lanes::lane_at))]
fn lane_at(ranks: u32, at: u64, bytes: &[u8]) -> Result<(LaneStretch<'_>, &[u8]), TapeFault>
    requires { at + length bytes.now < 2 ^ 32 }
    ensures exact { Gives (λ x. (lane_bytes x.0, x.1.now)) result (lane_at ranks at bytes.now) }
    ensures left { IfOk result (λ x. 7 + length x.0.bytes.now + length x.1.now ≡ length bytes.now) }
{
    let (kind, rest) = u8_at(at, bytes)?;
    if kind > 1 {
        return Err(bad(at, TapeWhy::LaneKind));
    }
    let (rank, rest) = u16_at(at + 1, rest)?;
    let rank = rank as u32;
    if rank >= ranks {
        return Err(bad(at + 1, TapeWhy::LaneRank));
    }
    let (size, rest) = u32_at(at + 3, rest)?;
    let (lane, rest) = bytes_at(size as usize, at + 7, rest)?;
    Ok((
        LaneStretch {
            rank,
            kind: kind_of(kind),
            at: at + 7,
            bytes: lane,
        },
        rest,
    ))
}

/// So many lanes, one after another, and nothing after them.
fn lanes_at(
    alloc: Global,
    count: u32,
    ranks: u32,
    start: u64,
    bytes: &[u8],
) -> Result<Vec<LaneStretch<'_>>, TapeFault>
    requires { start + length bytes.now < 2 ^ 32 }
    ensures { Gives (λ v. all_lane_bytes v.items) result (lanes_at count ranks start bytes.now) }
{
    let mut parts = Vec::new(alloc);
    let mut rest = bytes;
    let mut at = start;
    for _ in 0..count {
        let (part, after) = lane_at(ranks, at, rest)?;
        at += 7 + part.bytes.len() as u64;
        parts.push(part)?;
        rest = after;
    }
    if !rest.is_empty() {
        return Err(bad(at, TapeWhy::Trailing));
    }
    Ok(parts)
}

fn is_magic(bytes: &[u8]) -> bool
    requires { length bytes.now ≡ 4 }
    ensures { result ≡ same_bytes bytes.now (codes "MTAP") }
{
    bytes[0] == b'M' && bytes[1] == b'T' && bytes[2] == b'A' && bytes[3] == b'P'
}

fn is_known(version: u16, signed: bool) -> bool
    ensures { result ≡ ((version == 2) || ((version == 1) && not signed)) }
{
    version == 2 || (version == 1 && !signed)
}

/// Where the number of lanes stands, after the samples byte that version 2 alone has.
#[tactic(auto, unfolding(mls_model::specs::Lanes::samples_byte))]
fn samples_byte(signed: bool, version: u16, bytes: &[u8]) -> Result<(u64, &[u8]), TapeFault>
    ensures exact { Gives (λ x. (x.0, x.1.now)) result (samples_byte signed version bytes.now) }
    ensures left { IfOk result (λ x. (x.0 ≤ 7) × (length x.1.now ≤ length bytes.now)) }
{
    if version == 1 {
        return Ok((6, bytes));
    }
    let (kind, rest) = u8_at(6, bytes)?;
    if kind != signed as u8 {
        return Err(bad(6, TapeWhy::Samples));
    }
    Ok((7, rest))
}

/// The lanes of a tape, before their events are counted.
#[tactic(auto, unfolding(mls_model::specs::Lanes::lane_bytes_of))]
pub fn lane_bytes_of(
    alloc: Global,
    ranks: u32,
    signed: bool,
    bytes: &[u8],
) -> Result<Vec<LaneStretch<'_>>, TapeFault>
    requires { length bytes.now ≤ longest_tape }
    ensures { Gives (λ v. all_lane_bytes v.items) result (lane_bytes_of ranks signed bytes.now) }
{
    let (magic, rest) = bytes_at(4, 0, bytes)?;
    if !is_magic(magic) {
        return Err(bad(0, TapeWhy::Magic));
    }
    let (version, rest) = u16_at(4, rest)?;
    if !is_known(version, signed) {
        return Err(bad(4, TapeWhy::Version));
    }
    let (at, rest) = samples_byte(signed, version, rest)?;
    let (count, rest) = u32_at(at, rest)?;
    if count > MOST_LANES {
        return Err(bad(at, TapeWhy::TooManyLanes));
    }
    lanes_at(alloc, count, ranks, at + 4, rest)
}

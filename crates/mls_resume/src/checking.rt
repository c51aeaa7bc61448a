//! Whether a rank can go on from a list of bytes.

ghost use Rattle.std.specs.Prelude.{◌≡◌, ℕ, ◌+◌, ◌^◌, ◌<◌, ◌≤◌, ◌==◌, cond, [], true, length, sum, take, IfSome, IsNone, IfErr, OnOk};
ghost use Rattle.mls_model.specs.Studies.{Sizes};
ghost use Rattle.mls_model.specs.Outcomes.{total_count};
ghost use Rattle.mls_ckpt.specs.CellParts.{part_at};
ghost use Rattle.mls_ckpt.specs.States.{State};
ghost use Rattle.mls_ckpt.specs.Spellings.{is_read, spelled_state, head_text, counts_list};
ghost use Rattle.mls_resume.specs.Opening.{IsOpening, RefusesOpening, PassesWith};

use crate::old_ranks::are_bytes;
use mls_base::shape::Shape;
use mls_ckpt::laws::{numbers_read_again, saved_states_are_spelled};
use mls_ckpt::{CkptWhy, RecoverFault, Take};
use mls_field::field::Field;
use mls_rank::{Counts, RankCore};
use std::alloc::Global;

/// The most events that a rank counted which goes on.
const MOST_COUNTED: u64 = 1 << 61;

/// The version of a checkpoint.
fn version_of(bytes: &[u8]) -> u16
    ensures { (s : Sizes) (rank version : ℕ) (state : State) → is_read s version ≡ true →
        bytes.now ≡ spelled_state version s rank state → result ≡ version }
{
    numbers_read_again();
    let mut from = Take::new(bytes);
    match from.u32(u32::MAX) {
        Ok(_) => {}
        Err(_) => return 0,
    }
    match from.u16(u16::MAX) {
        Ok(version) => return version,
        Err(_) => return 0,
    }
}

/// How many bytes the byte of samples has, which version 1 lacks.
fn samples_size(version: u16) -> u64
    ensures value { result ≡ cond (version == 1) 0 1 }
    ensures few { result ≤ 1 }
{
    if version == 1 { 0 } else { 1 }
}

/// How many bytes the number of fields has, which versions 1 and 2 lack.
fn fields_size(version: u16) -> u64
    ensures value { result ≡ cond (version == 3) 4 0 }
    ensures few { result ≤ 4 }
{
    if version == 3 { 4 } else { 0 }
}

/// How many bytes the head has.
fn head_size(shape: &Shape, version: u16) -> u64
    ensures value { (rank : ℕ) → result ≡ length (head_text version shape.now rank []) }
    ensures few { result ≤ 56 }
{
    35 + samples_size(version) + fields_size(version) + 2 * shape.thresholds() as u64
}

/// The first of these counts with which their sum passes the most.
fn passing(counts: &[u64]) -> Option<u64>
    requires { sum counts.now ≤ 2 ^ 62 }
    ensures some { IfSome result (λ count. PassesWith counts.now count) }
    ensures few { IfSome result (λ count. count < length counts.now) }
    ensures none { IsNone result → sum counts.now ≤ 2 ^ 61 }
{
    let mut total = 0;
    for place in 0..counts.len() {
        total += counts[place];
        if total > MOST_COUNTED {
            return Some(place as u64);
        }
    }
    None
}

/// The first of a core's counts with which their sum passes the most.
fn passing_count(counts: &Counts) -> Option<u64>
    requires { total_count counts.now ≤ 2 ^ 62 }
    ensures some { IfSome result (λ count. PassesWith (counts_list counts.now) count) }
    ensures few { IfSome result (λ count. count < 11) }
    ensures none { IsNone result → total_count counts.now ≤ 2 ^ 61 }
{
    let all = [
        counts.accepted,
        counts.kept,
        counts.replay,
        counts.stale,
        counts.repeated,
        counts.f1,
        counts.f2,
        counts.f3,
        counts.f4,
        counts.f5,
        counts.f6,
    ];
    passing(&all)
}

/// Whether a rank can go on from a list of bytes. They are a checkpoint of the rank, and its counts add up to at most
/// 2^61, so that no run makes them pass what a checkpoint may count.
///
/// `Bad` comes exactly where they are no checkpoint, at their first fault, or where the counts add up to more: then as
/// `Range` at the count with which their sum passes it.
pub fn check_opening(
    alloc: Global,
    shape: &Shape,
    rank: u32,
    bytes: &[u8],
) -> Result<(), RecoverFault>
    requires { rank < shape.now.ranks }
    ensures ok { OnOk result (IsOpening part_at shape.now rank (2 ^ 61) bytes.now) }
    ensures err { IfErr result (λ fault. RefusesOpening part_at shape.now rank bytes.now fault) }
{
    saved_states_are_spelled();
    shape.valid();
    are_bytes(bytes);
    let counts = match RankCore::<Field>::recover(alloc, shape, rank, bytes) {
        Ok(core) => core.counts(),
        Err(fault) => return Err(fault),
    };
    match passing_count(&counts) {
        None => return Ok(()),
        Some(count) => {
            let at = head_size(shape, version_of(bytes)) + 8 * count;
            return Err(RecoverFault::Bad {
                at,
                why: CkptWhy::Range,
            });
        }
    }
}

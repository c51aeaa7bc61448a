//! Reading more of a link, or how reading ends.

ghost use Rattle.std.specs.Prelude.{◌≡◌, ℕ, ◌+◌, ◌-◌, ◌<◌, ◌≤◌, ◌^◌, length, take, IfOk, IfErr, OnOk, OnErr, IfSome, IfNone};
ghost use Rattle.mls_base.specs.Told.{MayCease, Rose};
ghost use Rattle.mls_model.specs.Frames.{Sight, more, sight};
ghost use Rattle.mls_model.specs.Lanes.{end_at};
ghost use Rattle.mls_frame.specs.Views.{AreBytes};
ghost use Rattle.mls_serve.specs.Readings.{HasRead, ReadMore, ReadLost, EndsFed, most_bytes};

use mls_base::faults::{Failed, NoMemory};
use mls_frame::Feeder;
use mls_model::lanes::LaneEnd;
use mls_wire::Link;
use std::alloc::Global;

/// The most bytes of a lane.
const MOST_BYTES: u64 = 1_073_741_824;

/// How many bytes are read at once.
const CHUNK: usize = 4096;

/// The items of a slice of bytes are bytes.
fn are_bytes(bytes: &[u8])
    ensures { AreBytes bytes.now }
{
    let _ = bytes;
}

/// How a lane ends whose input ended.
#[tactic(auto, unfolding(mls_model::specs::Lanes::end_at))]
fn input_end(feeder: &Feeder, head: u64) -> LaneEnd
    requires head { head ≤ feeder.now.offset }
    requires more { sight feeder.now.rest ≡ more }
    ensures { result ≡ end_at (feeder.now.offset - head) feeder.now.rest }
{
    if feeder.rest() == 0 {
        return LaneEnd::Clean;
    }
    LaneEnd::Cut {
        at: feeder.offset() - head,
    }
}

/// Reads at most so many bytes to the front of a buffer.
fn read_most<L: Link>(link: &mut L, buffer: &mut [u8], most: usize) -> Result<usize, Failed>
    requires some { 0 < most }
    requires fits { most ≤ length buffer.old }
    ensures within { IfOk result (λ n. n ≤ most) }
    ensures size { length buffer.new ≡ length buffer.old }
    ensures read { IfOk result (λ n. HasRead (take n buffer.new) (L.told link.old) (L.told link.new)) }
    ensures ended { IfOk result (λ n. n ≡ 0 → IfSome (L.told link.old) (λ talk. length talk.left ≡ 0)) }
    ensures faultless { OnOk result (L.faults link.new ≡ L.faults link.old) }
    ensures ceased { OnErr result (MayCease (L.told link.old) (L.told link.new)) }
    ensures rose { OnErr result (Rose (L.faults link.old) (L.faults link.new)) }
{
    let answer = link.read(&mut buffer[..most]);
    are_bytes(buffer);
    answer
}

/// Reads more bytes of a lane and feeds them, or says how the lane ends. Its first bytes up to `head` were a Hello.
/// After `NoMemory` the bytes that were read are lost.
pub fn read_on<L: Link>(
    alloc: Global,
    link: &mut L,
    feeder: &mut Feeder,
    head: u64,
) -> Result<Option<LaneEnd>, NoMemory>
    requires head { head ≤ feeder.old.offset }
    requires few { feeder.old.offset + length feeder.old.rest ≤ head + most_bytes }
    requires near { head < 2 ^ 32 }
    requires more { sight feeder.old.rest ≡ more }
    ensures read { IfOk result (λ end. IfNone end (
        ReadMore (L.told link.old) (L.told link.new) feeder.old feeder.new head)) }
    ensures ended { IfOk result (λ end. IfSome end (λ end.
        EndsFed end head feeder.old (L.told link.old) (L.told link.new) (L.faults link.old) (L.faults link.new))) }
    ensures same { IfOk result (λ end. IfSome end (λ end. feeder.new ≡ feeder.old)) }
    ensures faultless { IfOk result (λ end. IfNone end (L.faults link.new ≡ L.faults link.old)) }
    ensures lost { OnErr result (ReadLost (L.told link.old) (L.told link.new)) }
    ensures unfed { OnErr result (feeder.new ≡ feeder.old) }
    ensures unfailed { OnErr result (L.faults link.new ≡ L.faults link.old) }
{
    let at = feeder.offset() - head;
    let room = MOST_BYTES - (at + feeder.rest());
    if room == 0 {
        return Ok(Some(LaneEnd::Full { at }));
    }
    let mut buffer = [0u8; CHUNK];
    let most = (room as usize).min(CHUNK);
    let Ok(n) = read_most(link, &mut buffer, most) else {
        return Ok(Some(LaneEnd::Fault { at }));
    };
    if n == 0 {
        return Ok(Some(input_end(feeder, head)));
    }
    feeder.feed(buffer.split_at(n).0)?;
    Ok(None)
}

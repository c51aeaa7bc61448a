//! Schedules: for each rank the order in which it takes its lanes' events.

ghost use Rattle.std.specs.Prelude.{◌≡◌, ℕ, ◌<◌, ◌≤◌, ◌++◌, List, length, map, replicate, true, Some, Ok, IfOk, IfErr, OnOk, MatchResult};
ghost use Rattle.mls_model.specs.Numbers.{element};
ghost use Rattle.mls_model.specs.Schedules.{is_legal, plain, plain_order, schedule_text};
ghost use Rattle.mls_tape.specs.ScheduleLines.{IsScheduleOf};
ghost use Rattle.mls_tape.specs.ScheduleFaults.{IsRefused, ReadsLists};
ghost use Rattle.mls_tape.specs.ScheduleReading.{longest_schedule, schedule_of};

use crate::faults::SchedFault;
use crate::lines::{add_order, read_lists};
use crate::tape::Tape;
use mls_base::faults::NoMemory;
use std::alloc::Global;
use std::marker::Model;

/// The most bytes of a schedule's text.
pub const LONGEST_SCHEDULE: u64 = 268_435_456;

/// A schedule: a list of lanes for each rank. The i-th time (from 0) that a lane stands is its event i.
#[derive(Drop)]
pub struct Schedule {
    lists: Vec<Vec<u32>>,
}

impl Model for Schedule {
    ghost use Rattle.std.specs.Prelude.{ℕ, List, map};
    ghost use Rattle.std.specs.Global.{Vec};

    ghost Value = { List (List ℕ) };

    ghost view = { λ s. map (λ (v : Vec ℕ). v.items) s.lists.items };
}

/// Adds a lane so many times.
fn add_lane(order: &mut Vec<u32>, lane: u32, count: u32) -> Result<(), NoMemory>
    ensures { OnOk result (order.new.items ≡ order.old.items ++ replicate count lane) }
{
    for _ in 0..count {
        order.push(lane)?;
    }
    Ok(())
}

/// A rank's lanes in rising number, each whole.
fn plain_order(alloc: Global, tape: &Tape, rank: u32) -> Result<Vec<u32>, NoMemory>
    ensures { IfOk result (λ v. v.items ≡ plain_order tape.now.lanes rank) }
{
    let mut order = Vec::new(alloc);
    for lane in 0..tape.lane_count() {
        if tape.lane_rank(lane) == rank {
            add_lane(&mut order, lane, tape.events(lane))?;
        }
    }
    Ok(order)
}

impl Schedule {
    /// The schedule of these lists, one for each rank.
    pub fn of(lists: Vec<Vec<u32>>) -> Schedule
        ensures { result ≡ map (λ v. v.items) lists.items }
    {
        Schedule { lists }
    }

    /// The rank's lanes in the order in which it takes their events.
    pub fn order(&self, rank: u32) -> &[u32]
        requires { rank < length self.now }
        ensures { element self.now rank ≡ Some result.now }
    {
        self.lists[rank as usize].as_slice()
    }

    /// The plain schedule: each rank's lanes in rising number, each whole.
    pub fn plain(alloc: Global, tape: &Tape) -> Result<Schedule, NoMemory>
        ensures { IfOk result (λ s. s ≡ plain tape.now.ranks tape.now.lanes) }
    {
        let mut lists = Vec::new(alloc);
        for rank in 0..tape.ranks() {
            lists.push(plain_order(alloc, tape, rank)?)?;
        }
        Ok(Schedule { lists })
    }

    /// The schedule of the tape that the bytes are: lines `RANK LANE`. `Bad` has the first line that is refused,
    /// numbered from 1, and why: it is no line, there is no such rank, no such lane of the rank, or the lane stands
    /// oftener than it has events. Of at most `LONGEST_SCHEDULE` bytes.
    pub fn read(alloc: Global, bytes: &[u8], tape: &Tape) -> Result<Schedule, SchedFault>
        requires { length bytes.now ≤ longest_schedule }
        ensures read { IfOk result (λ s. IsScheduleOf tape.now.ranks tape.now.lanes bytes.now s) }
        ensures legal { IfOk result (λ s. is_legal tape.now.ranks tape.now.lanes s ≡ true) }
        ensures refused { IfErr result (λ fault. IsRefused fault tape.now.ranks tape.now.lanes bytes.now) }
        ensures exact { ReadsLists (λ s. s) result (schedule_of tape.now.ranks tape.now.lanes bytes.now) }
    {
        let lists = read_lists(alloc, bytes, tape)?;
        Ok(Schedule { lists })
    }

    /// The schedule's text: rank 0's lines, then rank 1's, and so on.
    pub fn put(&self, alloc: Global) -> Result<Vec<u8>, NoMemory>
        ensures { IfOk result (λ text. text.items ≡ schedule_text self.now) }
    {
        let mut text = Vec::new(alloc);
        for (rank, order) in self.lists.iter().enumerate() {
            add_order(&mut text, rank, order.as_slice())?;
        }
        Ok(text)
    }
}

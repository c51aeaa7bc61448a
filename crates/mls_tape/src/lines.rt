//! The lines of a schedule, a rank and a lane each.

ghost use Rattle.std.specs.Prelude.{◌≡◌, ◌≤◌, ◌<◌, ◌++◌, ◌∷◌, [], ℕ, List, length, map, replicate, get_or, Ok, IfOk, IfErr, OnOk, IfNone, MatchResult};
ghost use Rattle.std.specs.List.{flat_map};
ghost use Rattle.mls_model.specs.Schedules.{schedule_line};
ghost use Rattle.mls_tape.specs.ScheduleLines.{IsScheduleOf};
ghost use Rattle.mls_tape.specs.ScheduleFaults.{IsRefused, ReadsLists};
ghost use Rattle.mls_text.specs.Fronts.{seen};
ghost use Rattle.mls_tape.specs.ScheduleReading.{longest_schedule, line_in, line_refusal, schedule_of};
ghost use Rattle.mls_tape.specs.Passed.{StandsFor, lists_seen};

use crate::faults::SchedFault;
use crate::tape::Tape;
use itoa::Buffer;
use mls_base::faults::NoMemory;
use mls_model::lanes::SchedWhy;
use mls_text::number_before;
use std::alloc::Global;

/// The rank and the lane of the line at the front, and the bytes behind it.
#[tactic(auto, unfolding(crate::specs::ScheduleReading::line_in))]
fn line_in(bytes: &[u8]) -> Option<((u32, u32), &[u8])>
    ensures { seen result ≡ line_in bytes.now }
{
    let (rank, rest) = number_before(bytes, b' ')?;
    let (lane, rest) = number_before(rest, b'\n')?;
    Some(((rank, lane), rest))
}

/// An empty list for each rank.
fn empty_lists(alloc: Global, ranks: u32) -> Result<Vec<Vec<u32>>, NoMemory>
    ensures { IfOk result (λ lists. lists_seen lists.items ≡ replicate ranks []) }
{
    let mut lists = Vec::new(alloc);
    for _rank in 0..ranks {
        lists.push(Vec::new(alloc))?;
    }
    Ok(lists)
}

/// The lines that passed: the list of each rank, and how often each lane stands.
#[derive(Drop)]
struct Passed {
    lists: Vec<Vec<u32>>,
    counts: Vec<u32>,
}

impl Passed {
    /// No line.
    fn none(alloc: Global, tape: &Tape) -> Result<Passed, NoMemory>
        ensures { IfOk result (λ passed. StandsFor tape.now.ranks (length tape.now.lanes) passed []) }
    {
        let lists = empty_lists(alloc, tape.ranks())?;
        let counts = vec![in alloc; 0u32; tape.lane_count() as usize]?;
        Ok(Passed { lists, counts })
    }

    /// Why a line is refused behind those that passed.
    fn refusal(&self, tape: &Tape, rank: u32, lane: u32) -> Option<SchedWhy>
        requires { length self.now.counts.items ≡ length tape.now.lanes }
        ensures exact { (lines : List (ℕ × ℕ)) →
            StandsFor tape.now.ranks (length tape.now.lanes) self.now lines →
            result ≡ line_refusal tape.now.ranks tape.now.lanes lines (rank, lane) }
        ensures room { IfNone result (get_or self.now.counts.items lane 0 < 4294967295) }
    {
        if rank >= tape.ranks() {
            return Some(SchedWhy::Rank);
        }
        if lane >= tape.lane_count() || tape.lane_rank(lane) != rank {
            return Some(SchedWhy::Lane);
        }
        if self.counts[lane as usize] >= tape.events(lane) {
            return Some(SchedWhy::Count);
        }
        None
    }

    /// Takes a line.
    fn take(&mut self, rank: u32, lane: u32) -> Result<(), NoMemory>
        requires rank { rank < length self.old.lists.items }
        requires lane { lane < length self.old.counts.items }
        requires room { get_or self.old.counts.items lane 0 < 4294967295 }
        ensures { (ranks lanes : ℕ) (lines : List (ℕ × ℕ)) → StandsFor ranks lanes self.old lines →
            OnOk result (StandsFor ranks lanes self.new (lines ++ (rank, lane) ∷ [])) }
    {
        self.lists[rank as usize].push(lane)?;
        self.counts[lane as usize] += 1;
        Ok(())
    }
}

/// The list of each rank, or the first line that is refused.
pub(crate) fn read_lists(
    alloc: Global,
    bytes: &[u8],
    tape: &Tape,
) -> Result<Vec<Vec<u32>>, SchedFault>
    requires { length bytes.now ≤ longest_schedule }
    ensures read { IfOk result (λ lists.
        IsScheduleOf tape.now.ranks tape.now.lanes bytes.now (lists_seen lists.items)) }
    ensures refused { IfErr result (λ fault. IsRefused fault tape.now.ranks tape.now.lanes bytes.now) }
    ensures exact { ReadsLists (λ lists. lists_seen lists.items) result
        (schedule_of tape.now.ranks tape.now.lanes bytes.now) }
{
    let mut passed = Passed::none(alloc, tape)?;
    let mut line = 1u32;
    let mut rest = bytes;
    while !rest.is_empty() {
        let ((rank, lane), behind) = match line_in(rest) {
            Some(found) => found,
            None => {
                return Err(SchedFault::Bad {
                    line,
                    why: SchedWhy::Form,
                });
            }
        };
        match passed.refusal(tape, rank, lane) {
            Some(why) => return Err(SchedFault::Bad { line, why }),
            None => passed.take(rank, lane)?,
        }
        line += 1;
        rest = behind;
    }
    Ok(passed.lists)
}

/// Appends a line.
fn add_line(text: &mut Vec<u8>, rank: usize, lane: u32) -> Result<(), NoMemory>
    ensures { OnOk result (text.new.items ≡ text.old.items ++ schedule_line rank lane) }
{
    let mut first = Buffer::new();
    let mut second = Buffer::new();
    text.extend_from_slice(first.format(rank).as_bytes())?;
    text.extend_from_slice(b" ")?;
    text.extend_from_slice(second.format(lane).as_bytes())?;
    text.extend_from_slice(b"\n")?;
    Ok(())
}

/// Appends a rank's lines.
pub(crate) fn add_order(text: &mut Vec<u8>, rank: usize, order: &[u32]) -> Result<(), NoMemory>
    ensures { OnOk result (text.new.items ≡ text.old.items ++ flat_map (schedule_line rank) order.now) }
{
    for lane in order {
        add_line(text, rank, *lane)?;
    }
    Ok(())
}

//! A rank's list: its first lanes and its control lane mixed by words, then its resent lanes.

ghost use Rattle.std.specs.Prelude.{◌≡◌, ℕ, ◌+◌, ◌*◌, ◌<◌, ◌≤◌, ◌++◌, [], List, length, take, drop, replicate, IfOk, OnOk};
ghost use Rattle.mls_design.specs.declared.trial.stock.Stock.{Stock};
ghost use Rattle.mls_design.specs.TrialSchedule.{stocks, whole_lanes};
ghost use Rattle.mls_design.specs.TrialMixing.{rest_by, rests, spend, Rise, IsMixing, IsMixed, IsRankOrder};
ghost use Rattle.mls_design.specs.TrialSizes.{HasDrawn};

use crate::trial::stock::Stock;
use crate::trial::words::next;
use mls_base::faults::NoMemory;
use mls_tape::Tape;
use rand_pcg::Lcg64Xsh32;
use std::alloc::Global;

/// Adds a lane that has events.
fn add_stock(all: &mut Vec<Stock>, stock: Stock) -> Result<(), NoMemory>
    ensures { OnOk result (all.new.items ≡ all.old.items ++ rest_by 0 stock) }
{
    if stock.events > 0 {
        all.push(stock)?;
        return Ok(());
    }
    Ok(())
}

/// The lanes of a rank below one that have events.
fn stocks(alloc: Global, tape: &Tape, rank: u32, end: u32) -> Result<Vec<Stock>, NoMemory>
    requires { end ≤ length tape.now.lanes }
    ensures { IfOk result (λ all. all.items ≡ rests (stocks rank 0 (take end tape.now.lanes)) []) }
{
    let mut all = Vec::new(alloc);
    for lane in 0..end {
        if tape.lane_rank(lane) == rank {
            let events = tape.events(lane);
            add_stock(&mut all, Stock { lane, events })?;
        }
    }
    Ok(all)
}

/// One event less of the lane at a place, which leaves the list where it has no event left.
fn spend(still: &mut Vec<Stock>, place: usize)
    requires { place < length still.old.items }
    ensures { still.new.items ≡ spend place still.old.items }
{
    if still[place].events > 1 {
        still[place].events -= 1;
    } else {
        still.remove(place);
    }
}

/// Appends a lane as often as it has events.
fn add_whole(order: &mut Vec<u32>, stock: Stock) -> Result<(), NoMemory>
    ensures { OnOk result (order.new.items ≡ order.old.items ++ replicate stock.events stock.lane) }
{
    for _ in 0..stock.events {
        order.push(stock.lane)?;
    }
    Ok(())
}

/// Draws a word for each event before which at least two lanes have events left, and takes the event of the lane that
/// it picks.
fn pick_all(
    order: &mut Vec<u32>,
    still: &mut Vec<Stock>,
    words: &mut Lcg64Xsh32,
) -> Result<(), NoMemory>
    ensures picked { (number at : ℕ) (all : List Stock) → Rise all →
        IsMixing number at all order.old.items still.old.items words.old →
        OnOk result (IsMixing number at all order.new.items still.new.items words.new) }
    ensures few { OnOk result (length still.new.items ≤ 1) }
{
    while still.len() > 1 {
        let place = next(words) as usize % still.len();
        order.push(still[place].lane)?;
        spend(still, place);
    }
    Ok(())
}

/// Mixes lanes: at the end one is left alone, which gives all its rest.
fn mix(order: &mut Vec<u32>, mut still: Vec<Stock>, words: &mut Lcg64Xsh32) -> Result<(), NoMemory>
    ensures { (number at : ℕ) (all : List Stock) → Rise all → order.old.items ≡ [] →
        still.items ≡ rests all [] → HasDrawn number at words.old →
        OnOk result (IsMixed number at all order.new.items words.new) }
{
    pick_all(order, &mut still, words)?;
    if still.is_empty() {
        return Ok(());
    }
    add_whole(order, still[0])
}

/// Appends the lanes of a rank from one on, each whole.
fn add_resent(order: &mut Vec<u32>, tape: &Tape, rank: u32, from: u32) -> Result<(), NoMemory>
    ensures { OnOk result (order.new.items
        ≡ order.old.items ++ whole_lanes (stocks rank from (drop from tape.now.lanes))) }
{
    for lane in from..tape.lane_count() {
        if tape.lane_rank(lane) == rank {
            let events = tape.events(lane);
            add_whole(order, Stock { lane, events })?;
        }
    }
    Ok(())
}

/// The number of a rank's events.
fn rank_events(tape: &Tape, rank: u32) -> u64 {
    let mut sum = 0u64;
    for lane in 0..tape.lane_count() {
        if tape.lane_rank(lane) == rank {
            sum += tape.events(lane) as u64;
        }
    }
    sum
}

/// A rank's list, where the lanes before one are mixed and those from it on are whole.
pub fn rank_order(
    alloc: Global,
    tape: &Tape,
    rank: u32,
    earlier: u32,
    words: &mut Lcg64Xsh32,
) -> Result<Vec<u32>, NoMemory>
    requires { earlier ≤ length tape.now.lanes }
    ensures { (number at : ℕ) → HasDrawn number at words.old →
        IfOk result (λ order. IsRankOrder number at rank earlier tape.now.lanes order.items words.new) }
{
    let mut order = Vec::with_capacity(alloc, rank_events(tape, rank) as usize)?;
    let still = stocks(alloc, tape, rank, earlier)?;
    mix(&mut order, still, words)?;
    add_resent(&mut order, tape, rank, earlier)?;
    Ok(order)
}

//! The text of a watch over a list of events.

ghost use Rattle.std.specs.Prelude.{◌≡◌, ◌++◌, ◌≤◌, List, length, IfOk, OnOk, map};
ghost use Rattle.mls_text.specs.Writing.{WritesTo, sink_seen};
ghost use Rattle.mls_model.specs.Launcher.{past_of, timed_actions};
ghost use Rattle.mls_launch.specs.Writing.{AreTotals, WritesOut};
ghost use Rattle.mls_model.specs.WatchText.{watch_title, life_line, number_line, action_line, action_lines, end_words, watch_text};

use crate::faults::OutFault;
use crate::totals::Totals;
use crate::watch::Watch;
use mls_base::faults::{Failed, NoMemory};
use mls_base::outside::Sink;
use mls_base::shape::Shape;
use mls_model::launcher::{Action, Event, Timed};
use mls_text::{Line, put_bytes};
use std::alloc::Global;
use std::marker::Model;

/// Appends the actions with their time.
fn add_timed(lines: &mut Vec<Timed>, time: u32, actions: &[Action]) -> Result<(), NoMemory>
    ensures { let added = map (λ a. record { time = time; action = a }) actions.now in
        OnOk result (lines.new.items ≡ lines.old.items ++ added) }
{
    for action in actions {
        lines.push(Timed {
            time,
            action: *action,
        })?;
    }
    Ok(())
}

/// The actions over the events with their times, and where the groups then stand.
fn watched(alloc: Global, shape: &Shape, events: &[Event]) -> Result<(Vec<Timed>, Totals), NoMemory>
    ensures actions { IfOk result (λ w. w.0.items ≡ timed_actions shape.now events.now) }
    ensures totals { IfOk result (λ w. AreTotals w.1 shape.now (past_of shape.now events.now)) }
{
    let mut watch = Watch::new(alloc, shape)?;
    let mut lines = Vec::new(alloc);
    for event in events {
        let mut actions = Vec::new(alloc);
        let time = watch.step(event, &mut actions)?;
        add_timed(&mut lines, time, &actions)?;
    }
    Ok((lines, watch.totals()))
}

/// A line of a time, words, a group and its life.
#[tactic(auto, using(mls_text::proofs::Writing::pieces), unfolding(mls_model::specs::WatchText::life_line))]
fn life_line(time: u32, words: &[u8], group: u32, life: u32) -> Line
    requires { length words.now ≤ 100 }
    ensures { result ≡ life_line time words.now group life }
{
    let mut line = Line::new();
    line.number(time);
    line.text(words);
    line.number(group);
    line.text(b" ");
    line.number(life);
    line.text(b"\n");
    line
}

/// A line of a time, words and a number.
#[tactic(auto, using(mls_text::proofs::Writing::pieces), unfolding(mls_model::specs::WatchText::number_line))]
fn number_line(time: u32, words: &[u8], number: u32) -> Line
    requires { length words.now ≤ 100 }
    ensures { result ≡ number_line time words.now number }
{
    let mut line = Line::new();
    line.number(time);
    line.text(words);
    line.number(number);
    line.text(b"\n");
    line
}

/// The line of an action.
#[tactic(auto, unfolding(mls_model::specs::WatchText::action_line))]
fn action_line(timed: &Timed) -> Line
    ensures { result ≡ action_line timed.now.time timed.now.action }
{
    let time = timed.time;
    match timed.action {
        Action::Start { group, life } => life_line(time, b" start ", group, life),
        Action::Restart { group, life } => life_line(time, b" restart ", group, life),
        Action::GiveUp { group } => number_line(time, b" giveup ", group),
        Action::RestartRank { rank } => number_line(time, b" restart-rank ", rank),
    }
}

/// Writes the lines of actions.
#[tactic(auto, unfolding(mls_model::specs::WatchText::action_lines))]
fn put_actions<O: Sink>(out: &mut O, all: &[Timed]) -> Result<(), Failed>
    ensures { WritesTo O.told O.faults O.sure out.old out.new result (action_lines all.now) }
{
    for timed in all {
        action_line(timed).put(out)?;
    }
    Ok(())
}

/// The last line.
#[tactic(auto, using(mls_text::proofs::Writing::pieces), unfolding(mls_model::specs::WatchText::end_words, mls_model::specs::WatchText::pair_words, mls_model::specs::WatchText::line_end))]
fn end_line(totals: &Totals) -> Line
    ensures { let t = totals.now in result ≡ end_words t.running t.waiting t.finished t.given_up }
{
    let mut line = Line::new();
    line.text(b"end running ");
    line.number(totals.running);
    line.text(b" waiting ");
    line.number(totals.waiting);
    line.text(b" finished ");
    line.number(totals.finished);
    line.text(b" givenup ");
    line.number(totals.given_up);
    line.text(b"\n");
    line
}

/// Writes the title.
#[tactic(auto, unfolding(mls_model::specs::WatchText::watch_title))]
fn put_title<O: Sink>(out: &mut O) -> Result<(), Failed>
    ensures { WritesTo O.told O.faults O.sure out.old out.new result watch_title }
{
    put_bytes(out, b"melissa-watch 1\n")
}

/// Writes the text of actions and totals.
fn put_watch<O: Sink>(out: &mut O, all: &[Timed], totals: &Totals) -> Result<(), Failed>
    ensures { let t = totals.now in
        WritesTo O.told O.faults O.sure out.old out.new result
        (watch_title ++ (action_lines all.now ++ end_words t.running t.waiting t.finished t.given_up)) }
{
    put_title(out)?;
    put_actions(out, all)?;
    end_line(totals).put(out)
}

/// The watch text of a list of events before it is written: the actions with their times, and where the groups then
/// stand. Contracts see it as the text.
#[derive(Drop)]
pub struct WatchReport {
    lines: Vec<Timed>,
    totals: Totals,
}

impl Model for WatchReport {
    ghost use Rattle.std.specs.Prelude.{ℕ, ◌++◌, List};
    ghost use Rattle.mls_model.specs.WatchText.{watch_title, action_lines, end_words};

    ghost Value = { List ℕ };

    ghost view = { λ r. watch_title ++ (action_lines r.lines.items ++ end_words r.totals.running r.totals.waiting r.totals.finished r.totals.given_up) };
}

impl WatchReport {
    /// The report of the events for a study.
    pub fn new(alloc: Global, shape: &Shape, events: &[Event]) -> Result<WatchReport, NoMemory>
        ensures { IfOk result (λ report. report ≡ watch_text shape.now events.now) }
    {
        let (lines, totals) = watched(alloc, shape, events)?;
        Ok(WatchReport { lines, totals })
    }

    /// Writes the text. It takes no memory. After `Failed` a front of the text went out; that comes only where the sink
    /// takes fewer bytes for sure than the text has.
    pub fn write<O: Sink>(&self, out: &mut O) -> Result<(), Failed>
        ensures { WritesTo O.told O.faults O.sure out.old out.new result self.now }
    {
        put_watch(out, &self.lines, &self.totals)
    }
}

/// Writes the watch text of the events for a study.
///
/// Nothing is written before the actions of all events are known. After `WriteFault` a front of the text went out
/// and the sink's count of faults rose, which comes only where the sink takes fewer bytes for sure than the text
/// has; after `Memory` nothing went out.
pub fn write_watch<O: Sink>(
    alloc: Global,
    shape: &Shape,
    events: &[Event],
    out: &mut O,
) -> Result<(), OutFault>
    ensures { WritesOut result (watch_text shape.now events.now)
        (sink_seen O.told O.faults O.sure out.old) (sink_seen O.told O.faults O.sure out.new) }
{
    let report = WatchReport::new(alloc, shape, events)?;
    match report.write(out) {
        Ok(()) => Ok(()),
        Err(_) => Err(OutFault::WriteFault),
    }
}

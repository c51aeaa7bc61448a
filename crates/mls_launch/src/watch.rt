//! A watch over the groups and ranks of a study.

ghost use Rattle.std.specs.Prelude.{◌≡◌, ◌++◌, [], ◌∷◌, List, max, IfOk, OnOk, OnErr};
ghost use Rattle.mls_model.specs.declared.launcher.Event.{Event};
ghost use Rattle.mls_model.specs.Pasts.{came, now_of, time_of};
ghost use Rattle.mls_model.specs.Launcher.{actions_at, past_of};
ghost use Rattle.mls_launch.specs.Rows.{StandsFor, due, decided, settled};
ghost use Rattle.mls_launch.specs.Writing.{AreTotals};

use crate::changes::{carry_out_all, hear};
use crate::deciding::{answer_groups, count_staying, restart_ranks, start_groups};
use crate::group_state::GroupState;
use crate::totals::{Totals, totals_of};
use mls_base::faults::NoMemory;
use mls_base::shape::Shape;
use mls_model::launcher::{Action, Event};
use std::alloc::Global;
use std::marker::Model;

/// A watch over the groups and ranks of a study. It stands for the list of events that it was stepped by.
#[derive(Drop)]
pub struct Watch {
    shape: Shape,
    alloc: Global,
    time: u32,
    lasts: Vec<u32>,
    rows: Vec<GroupState>,
}

impl Model for Watch {
    ghost use Rattle.std.specs.Prelude.{◌≡◌, length};
    ghost use Rattle.mls_launch.specs.Rows.{Table};

    ghost Value = { Table };

    ghost view = { λ w. record { sizes = w.shape; time = w.time; lasts = w.lasts.items; rows = w.rows.items } };

    ghost invariant = { λ w. (length w.lasts.items ≡ w.shape.ranks) × (length w.rows.items ≡ w.shape.groups) };
}

impl Watch {
    /// A watch that heard nothing yet.
    #[tactic(auto, using(crate::proofs::Made::made))]
    pub fn new(alloc: Global, shape: &Shape) -> Result<Watch, NoMemory>
        ensures sizes { IfOk result (λ w. w.sizes ≡ shape.now) }
        ensures stands { IfOk result (λ w. StandsFor w []) }
    {
        let lasts = vec![in alloc; 0u32; shape.ranks() as usize]?;
        let rows = vec![in alloc; GroupState::Waiting; shape.groups() as usize]?;
        Ok(Watch {
            shape: *shape,
            alloc,
            time: 0,
            lasts,
            rows,
        })
    }

    /// What is done at a tick at this time.
    #[tactic(auto, unfolding(crate::specs::Rows::due))]
    fn decide_at_tick(&self, time: u32) -> Result<Vec<Action>, NoMemory>
        ensures { IfOk result (λ actions. actions.items ≡ due self.now.sizes time self.now.lasts self.now.rows) }
    {
        let silence = self.shape.silence();
        let lives = self.shape.lives();
        let mut actions = Vec::new(self.alloc);
        restart_ranks(&self.lasts, silence, time, &mut actions)?;
        answer_groups(&self.rows, silence, lives, time, &mut actions)?;
        let running = count_staying(&self.rows, silence, lives, time);
        start_groups(&self.rows, self.shape.slots(), running, &mut actions)?;
        Ok(actions)
    }

    /// What is done at an event.
    #[tactic(auto, unfolding(crate::specs::Rows::decided))]
    fn decide(&self, event: &Event, time: u32) -> Result<Vec<Action>, NoMemory>
        requires { time ≡ max self.now.time (now_of event.now) }
        ensures { IfOk result (λ actions. actions.items ≡ decided self.now event.now) }
    {
        match *event {
            Event::Tick { .. } => self.decide_at_tick(time),
            _ => Ok(Vec::new(self.alloc)),
        }
    }

    /// Takes note of an event and of what was done at it.
    #[tactic(auto, unfolding(crate::specs::Rows::settled))]
    fn settle(&mut self, event: &Event, actions: &[Action], time: u32)
        ensures { self.new ≡ settled self.old time event.now actions.now }
    {
        self.time = time;
        hear(&mut self.lasts, &mut self.rows, event, time);
        carry_out_all(&mut self.lasts, &mut self.rows, actions, time);
    }

    /// The time after an event. What is done at it is appended to the actions.
    ///
    /// After `NoMemory` the watch and the actions are as before. A tick takes time in proportion to the groups and
    /// ranks, every other event takes the same time whatever their number.
    pub fn step(&mut self, event: &Event, actions: &mut Vec<Action>) -> Result<u32, NoMemory>
        ensures stands { OnOk result
            ((events : List Event) → StandsFor self.old events → StandsFor self.new (events ++ event.now ∷ [])) }
        ensures actions { OnOk result ((events : List Event) → StandsFor self.old events →
            let s = self.old.sizes in
            actions.new.items ≡ actions.old.items ++ actions_at s (past_of s events) event.now) }
        ensures time { IfOk result (λ time. (events : List Event) → StandsFor self.old events →
            time ≡ time_of (came event.now ∷ past_of self.old.sizes events)) }
        ensures sizes { self.new.sizes ≡ self.old.sizes }
        ensures refused { OnErr result (self.new ≡ self.old) }
        ensures kept { OnErr result (actions.new.items ≡ actions.old.items) }
    {
        self.shape.valid();
        let time = self.time.max(now(event));
        let decided = self.decide(event, time)?;
        actions.extend_from_slice(&decided)?;
        self.settle(event, &decided, time);
        Ok(time)
    }

    /// How many groups are at each of their stages.
    #[tactic(auto, using(crate::proofs::Counted::totals_are))]
    pub fn totals(&self) -> Totals
        ensures { (events : List Event) → StandsFor self.now events →
            AreTotals result self.now.sizes (past_of self.now.sizes events) }
    {
        self.shape.valid();
        totals_of(&self.rows)
    }
}

// the time that an event has, in seconds
fn now(event: &Event) -> u32
    ensures { result ≡ now_of event.now }
{
    match *event {
        Event::Tick { now } => now,
        Event::Beat { now, .. } => now,
        Event::Done { now, .. } => now,
        Event::RankBeat { now, .. } => now,
    }
}

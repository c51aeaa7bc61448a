//! What a server's watch heard, and what its launcher does at it.

ghost use Rattle.std.specs.Prelude.{◌≡◌, [], ◌∷◌, ◌++◌, IfOk, OnOk, OnErr};
ghost use Rattle.mls_serve.specs.Watching.{actions_of};

use mls_base::faults::NoMemory;
use mls_base::shape::Shape;
use mls_launch::{Action, Event, Watch};
use std::alloc::Global;
use std::marker::Model;
use std::sync::Mutex;

/// What a server's watch heard, in order, and the launcher's actions at it. Its type keeps that the actions are those of
/// the events.
#[derive(Drop)]
pub struct Watched {
    watch: Watch,
    events: Vec<Event>,
    actions: Vec<Action>,
}

/// A server's watch under its lock.
pub type WatchCell = Mutex<Watched>;

impl Model for Watched {
    ghost use Rattle.mls_serve.specs.Watching.{Heard, IsHeard};

    ghost Value = { Heard };

    ghost view = { λ w. record { sizes = w.watch.sizes; events = w.events.items; actions = w.actions.items } };

    ghost invariant = { λ w. IsHeard w.watch w.events.items w.actions.items };
}

impl Watched {
    /// A watch that heard nothing yet.
    #[tactic(auto, using(crate::proofs::Acting::heard_none))]
    pub fn new(alloc: Global, shape: &Shape) -> Result<Watched, NoMemory>
        ensures sizes { IfOk result (λ w. w.sizes ≡ shape.now) }
        ensures events { IfOk result (λ w. w.events ≡ []) }
    {
        Ok(Watched {
            watch: Watch::new(alloc, shape)?,
            events: Vec::new(alloc),
            actions: Vec::new(alloc),
        })
    }

    /// The actions are the launcher's at the events.
    pub fn valid(&self)
        ensures { self.now.actions ≡ actions_of self.now.sizes self.now.events }
    {
        let _ = &self.watch;
    }

    /// Hears an event. After `NoMemory` it is as before.
    pub fn hear(&mut self, event: &Event) -> Result<(), NoMemory>
        ensures heard { OnOk result (self.new.events ≡ self.old.events ++ event.now ∷ []) }
        ensures sizes { self.new.sizes ≡ self.old.sizes }
        ensures refused { OnErr result (self.new ≡ self.old) }
    {
        self.events.reserve(1)?;
        self.watch.step(event, &mut self.actions)?;
        self.events.push_reserved(*event);
        Ok(())
    }

    /// The events that were heard.
    pub fn into_events(self) -> Vec<Event>
        ensures { result.items ≡ self.events }
    {
        let Watched { events, .. } = self;
        events
    }
}

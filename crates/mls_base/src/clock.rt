//! Clocks that give seconds since the start.

use std::marker::Model;
use std::time;
use std::time::Instant;

/// What gives the seconds since the start. It can't fail.
pub trait Clock {
    fn now(&mut self) -> u32;
}

/// A clock that gives these times in turn, then the last again, and 0 where there is none.
#[derive(Drop)]
pub struct FixedClock {
    times: Vec<u32>,
    next: usize,
}

/// A clock is the list of the times that are still to come, of which the last one stays.
impl Model for FixedClock {
    ghost use Rattle.std.specs.Prelude.{ℕ, List, drop};

    ghost Value = { List ℕ };

    ghost view = { λ clock. drop clock.next clock.times.items };
}

impl FixedClock {
    ghost use Rattle.std.specs.Prelude.{◌≡◌};

    /// A clock that gives these times.
    pub fn new(times: Vec<u32>) -> FixedClock
        ensures { result ≡ times.items }
    {
        FixedClock { times, next: 0 }
    }
}

impl Clock for FixedClock {
    ghost use Rattle.std.specs.Prelude.{◌≡◌, get_or};
    ghost use Rattle.mls_base.specs.Clocks.{after_first};

    fn now(&mut self) -> u32
        ensures first { result ≡ get_or self.old 0 0 }
        ensures rest { self.new ≡ after_first self.old }
    {
        let Some(time) = self.times.get(self.next) else {
            return 0;
        };
        let time = *time;
        if self.next + 1 < self.times.len() {
            self.next += 1;
        }
        time
    }
}

/// The system's clock, from the moment on at which this one was made.
#[derive(Drop)]
pub struct SystemClock<R: time::Clock + Drop> {
    rt: R,
    start: Option<Instant>,
    last: u32,
}

impl<R: time::Clock + Drop> SystemClock<R> {
    /// A clock that starts now.
    pub fn new(rt: R) -> SystemClock<R> {
        let start = Instant::now(&rt).ok();
        SystemClock { rt, start, last: 0 }
    }
}

impl<R: time::Clock + Drop> Clock for SystemClock<R> {
    /// Gives its last answer again where the system's clock fails, and 0 where there is none.
    fn now(&mut self) -> u32 {
        if let Some(start) = self.start {
            if let Ok(since) = start.elapsed(&self.rt) {
                self.last = since.as_secs().min(u32::MAX as u64) as u32;
            }
        }
        self.last
    }
}

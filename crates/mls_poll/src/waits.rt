//! How often polls are pending before they are ready.

/// How often each of the polls to come is pending before it is ready. 0 times where no number stands for it.
#[derive(Drop)]
pub struct Waits {
    /// How often the next poll is pending.
    ahead: u32,
    /// The numbers of the polls after it.
    later: Vec<u32>,
}

impl Waits {
    ghost use Rattle.std.specs.Prelude.{◌≡◌, ◌∷◌};
    ghost use Rattle.mls_poll.specs.Waiting.{is_waiting, AfterWait, AreWaits, GoesOn};

    /// The i-th ready poll is pending so often before.
    pub fn new(numbers: Vec<u32>) -> Waits
        ensures { AreWaits numbers.items result }
    {
        let mut waits = Waits {
            ahead: 0,
            later: numbers,
        };
        waits.go_on();
        waits
    }

    /// Goes on to the number of the next poll.
    fn go_on(&mut self)
        ensures { GoesOn self.old.later.items self.new.ahead self.new.later.items }
    {
        if self.later.is_empty() {
            self.ahead = 0;
        } else {
            self.ahead = self.later.remove(0);
        }
    }

    /// Counts a poll, and tells whether it is to be pending.
    pub fn is_to_wait(&mut self) -> bool
        ensures waits { result ≡ is_waiting self.old }
        ensures counted { AfterWait result self.old self.new }
    {
        if self.ahead > 0 {
            self.ahead -= 1;
            return true;
        }
        self.go_on();
        false
    }
}

//! Numbered calls, of which some are to fail.

/// How many calls were made, and the numbers of those that are to fail.
#[derive(Drop)]
pub struct Calls {
    made: u64,
    fails: Vec<u64>,
}

impl Calls {
    ghost use Rattle.std.specs.Prelude.{◌≡◌, false, IsTrue};
    ghost use Rattle.mls_base.specs.Calls.{next_fails, none_ahead, are_none, Counted};

    /// No call was made, and these are to fail.
    #[tactic(auto, using(crate::proofs::Sound::none_at_all))]
    pub fn new(fails: Vec<u64>) -> Calls
        ensures made { result.made ≡ 0 }
        ensures fails { result.fails ≡ fails }
        ensures ahead { none_ahead result ≡ are_none fails.items }
    {
        Calls { made: 0, fails }
    }

    /// Counts a call, and tells whether it is to fail.
    pub fn is_next_to_fail(&mut self) -> bool
        ensures fails { result ≡ next_fails self.old }
        ensures counted { Counted self.old self.new }
        ensures sound { IsTrue result → none_ahead self.old ≡ false }
        ensures ahead { IsTrue (none_ahead self.old) → IsTrue (none_ahead self.new) }
    {
        let fails = self.fails.contains(&self.made);
        self.made = self.made.saturating_add(1);
        fails
    }
}

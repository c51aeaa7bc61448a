//! What holds of polled links, for everything that they tell.

ghost use Rattle.std.specs.Prelude.{◌≡◌, ℕ, List};
ghost use Rattle.mls_wire.specs.Links.{Talk, reading, writing};
ghost use Rattle.mls_poll.specs.Reads.{whole_of};

/// All bytes of a link, from the first that was read to the end, are the same after a read and after a write.
pub fn whole_stays()
    ensures read { (n : ℕ) (talk : Talk) → whole_of (reading n talk) ≡ whole_of talk }
    ensures written { (bytes : List ℕ) (talk : Talk) → whole_of (writing bytes talk) ≡ whole_of talk }
{}

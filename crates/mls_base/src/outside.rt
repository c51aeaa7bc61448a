//! The objects of the outside: where text goes, files by name, and what keeps a checkpoint.
//!
//! Each has a count of its calls that failed, which never falls, and may tell what it holds. After a call it
//! tells exactly where it told before, but that after `Failed` it may cease to tell. A call on a sound object
//! doesn't fail, and what was sound is sound after each call.

ghost use Rattle.std.specs.Prelude.{◌≡◌, ℕ, ◌+◌, ◌<◌, ◌≤◌, Bool, false, List, length, take, vec_len, Option, Some, IfOk, OnOk, OnErr, IfErr, IfSome, MatchResult};
ghost use Rattle.std.specs.Option.{option_map};
ghost use Rattle.mls_base.specs.Told.{appended, replaced, MayCease, Rose, raised, Names, Saved, LoadRefused, LoadLeaves, CountsLoad, GetLeaves, SaveLeaves, CountsStore};
ghost use Rattle.mls_base.specs.Told.{StaysSound, SoundLoad, SoundStore};

use crate::faults::{Failed, LoadFault, StoreFault};
use std::alloc::Global;

/// Where text goes.
pub trait Sink {
    /// How many writes failed.
    ghost faults: { Self → ℕ };

    /// The bytes that were written, where the sink tells them.
    ghost told: { Self → Option (List ℕ) };

    /// How many more bytes the sink takes for sure. While it isn't 0 a write doesn't fail.
    ghost sure: { Self → ℕ };

    /// Appends the first bytes of `piece`, at least one, and gives their number. After `Failed` nothing was
    /// appended.
    fn write(&mut self, piece: &[u8]) -> Result<usize, Failed>
        requires { 0 < length piece.now }
        ensures some { IfOk result (λ n. 0 < n) }
        ensures within { IfOk result (λ n. n ≤ length piece.now) }
        ensures written { IfOk result (λ n. told self.new ≡ appended (told self.old) (take n piece.now)) }
        ensures sure { IfOk result (λ n. sure self.old ≤ sure self.new + n) }
        ensures unsure { OnErr result (sure self.old ≡ 0) }
        ensures faultless { OnOk result (faults self.new ≡ faults self.old) }
        ensures ceased { OnErr result (MayCease (told self.old) (told self.new)) }
        ensures rose { OnErr result (Rose (faults self.old) (faults self.new)) };
}

/// Files by name.
pub trait Files {
    /// How many loads failed.
    ghost load_faults: { Self → ℕ };

    /// How many saves failed.
    ghost save_faults: { Self → ℕ };

    /// The bytes that each name is held with, where the files tell them.
    ghost held: { Self → Option Names };

    /// Whether the files are sound: a save doesn't fail, and a load only where they tell and the name isn't held.
    ghost sound: { Self → Bool };

    /// The bytes of a name, at most `max` of them. A name that isn't held is a failure.
    fn load(&mut self, alloc: Global, name: &str, max: u64) -> Result<Vec<u8>, LoadFault>
        ensures loaded { IfOk result (λ bytes. IfSome (held self.old) (λ names. names name.now ≡ Some bytes.items)) }
        ensures within { IfOk result (λ bytes. vec_len bytes ≤ max) }
        ensures refused { IfErr result (λ fault. IfSome (held self.old) (λ names. LoadRefused fault max (names name.now))) }
        ensures held { MatchResult result (λ _. held self.new ≡ held self.old) (λ fault. LoadLeaves fault (held self.old) (held self.new)) }
        ensures sound { StaysSound (sound self.old) (sound self.new) }
        ensures surely { IfErr result (λ fault. SoundLoad fault (sound self.old) (held self.old) name.now) }
        ensures loads { CountsLoad result (load_faults self.old) (load_faults self.new) }
        ensures saves { save_faults self.new ≡ save_faults self.old };

    /// Sets the bytes of a name. After `Failed` the name may be held with any bytes or none, but other names
    /// are as before; after `Memory` all names are.
    fn save(&mut self, alloc: Global, name: &str, bytes: &[u8]) -> Result<(), StoreFault>
        ensures saved { OnOk result (Saved name.now bytes.now (held self.old) (held self.new)) }
        ensures held { IfErr result (λ fault. SaveLeaves fault name.now (held self.old) (held self.new)) }
        ensures sound { StaysSound (sound self.old) (sound self.new) }
        ensures surely { IfErr result (λ fault. SoundStore fault (sound self.old)) }
        ensures loads { load_faults self.new ≡ load_faults self.old }
        ensures saves { CountsStore result (save_faults self.old) (save_faults self.new) };
}

/// What keeps one checkpoint.
pub trait Keeper {
    /// How many puts and gets failed.
    ghost faults: { Self → ℕ };

    /// Nothing, or the bytes that are kept, where the keeper tells them.
    ghost held: { Self → Option (Option (List ℕ)) };

    /// Whether the keeper is sound: a put and a get don't fail.
    ghost sound: { Self → Bool };

    /// How many gets there were.
    ghost gets: { Self → ℕ };

    /// What the last get that answered `Ok` gave, where the keeper tells that.
    ghost last_get: { Self → Option (Option (List ℕ)) };

    /// Keeps these bytes from now on. After `Failed` what is kept is as before.
    fn put(&mut self, bytes: Vec<u8>) -> Result<(), Failed>
        ensures held { OnOk result (held self.new ≡ replaced (held self.old) (Some bytes.items)) }
        ensures ceased { OnErr result (MayCease (held self.old) (held self.new)) }
        ensures sound { StaysSound (sound self.old) (sound self.new) }
        ensures surely { OnErr result (sound self.old ≡ false) }
        ensures faultless { OnOk result (faults self.new ≡ faults self.old) }
        ensures rose { OnErr result (Rose (faults self.old) (faults self.new)) }
        ensures gets { gets self.new ≡ gets self.old }
        ensures last { last_get self.new ≡ last_get self.old };

    /// The bytes that are kept, or None where nothing is. What is kept is as before.
    fn get(&mut self, alloc: Global) -> Result<Option<Vec<u8>>, StoreFault>
        ensures given { IfOk result (λ given. IfSome (held self.old) (λ kept. kept ≡ option_map (λ bytes. bytes.items) given)) }
        ensures held { MatchResult result (λ _. held self.new ≡ held self.old) (λ fault. GetLeaves fault (held self.old) (held self.new)) }
        ensures sound { StaysSound (sound self.old) (sound self.new) }
        ensures surely { IfErr result (λ fault. SoundStore fault (sound self.old)) }
        ensures faults { CountsStore result (faults self.old) (faults self.new) }
        ensures gets { gets self.new ≡ raised (gets self.old) }
        ensures last { MatchResult result (λ given. last_get self.new ≡ replaced (last_get self.old) (option_map (λ bytes. bytes.items) given)) (λ _. last_get self.new ≡ last_get self.old) };
}

//! The objects of the outside that connections go through: a link, which is one connection, and a door, which
//! gives links and takes them back.
//!
//! Each has a count of its calls that failed, which never falls, and may tell what went over it. After a call it
//! tells exactly where it told before, but that after `Failed` it may cease to tell. What was sound is sound after
//! each call.

ghost use Rattle.std.specs.Prelude.{◌≡◌, ℕ, ◌+◌, ◌<◌, ◌≤◌, Bool, false, List, [], length, take, Option, IfOk, OnOk, OnErr, IfSome, MatchResult};
ghost use Rattle.mls_base.specs.Told.{MayCease, Rose, StaysSound, last_count};
ghost use Rattle.mls_wire.specs.Links.{Talk, Gives, IsFresh, after_read, after_write};
ghost use Rattle.mls_wire.specs.Doors.{Closed, Awaited, Tells, StaysAwaited, HandsOut, after_close, after_fault};

use mls_base::faults::{Failed, NoMemory};
use std::alloc::Global;

/// One connection: bytes that come and bytes that go.
pub trait Link {
    /// How many reads and writes failed.
    ghost faults: { Self → ℕ };

    /// What was read, what is left to read and what was written, where the link tells it.
    ghost told: { Self → Option Talk };

    /// Whether the link is sound: a read doesn't fail.
    ghost sound: { Self → Bool };

    /// How many more bytes the link takes for sure. While it isn't 0 a write doesn't fail.
    ghost sure: { Self → ℕ };

    /// Puts the next bytes that are left at the front of `into`, and gives their number. 0 is the end of input.
    /// After `Failed` nothing was read.
    fn read(&mut self, into: &mut [u8]) -> Result<usize, Failed>
        requires { 0 < length into.old }
        ensures within { IfOk result (λ n. n ≤ length into.old) }
        ensures given { IfOk result (λ n. IfSome (told self.old) (λ talk. Gives talk.left n into.old into.new)) }
        ensures moved { IfOk result (λ n. told self.new ≡ after_read n (told self.old)) }
        ensures sound { StaysSound (sound self.old) (sound self.new) }
        ensures surely { OnErr result (sound self.old ≡ false) }
        ensures sure { sure self.old ≤ sure self.new }
        ensures faultless { OnOk result (faults self.new ≡ faults self.old) }
        ensures ceased { OnErr result (MayCease (told self.old) (told self.new)) }
        ensures rose { OnErr result (Rose (faults self.old) (faults self.new)) };

    /// Writes the first bytes of `piece`, at least one, and gives their number. After `Failed` nothing was written.
    fn write(&mut self, piece: &[u8]) -> Result<usize, Failed>
        requires { 0 < length piece.now }
        ensures some { IfOk result (λ n. 0 < n) }
        ensures within { IfOk result (λ n. n ≤ length piece.now) }
        ensures written { IfOk result (λ n. told self.new ≡ after_write (take n piece.now) (told self.old)) }
        ensures sound { StaysSound (sound self.old) (sound self.new) }
        ensures sure { IfOk result (λ n. sure self.old ≤ sure self.new + n) }
        ensures unsure { OnErr result (sure self.old ≡ 0) }
        ensures faultless { OnOk result (faults self.new ≡ faults self.old) }
        ensures ceased { OnErr result (MayCease (told self.old) (told self.new)) }
        ensures rose { OnErr result (Rose (faults self.old) (faults self.new)) };
}

/// What gives links and takes them back.
pub trait Door {
    type L: Link + Drop;

    /// How many calls of listen, accept and connect failed.
    ghost faults: { Self → ℕ };

    /// How many links were accepted.
    ghost accepts: { Self → ℕ };

    /// How many of the links that were closed had a fault.
    ghost link_faults: { Self → ℕ };

    /// The links that were closed, in order, where the door tells them.
    ghost closed: { Self → Option (List Closed) };

    /// Whether the door is sound: listen doesn't fail.
    ghost sound: { Self → Bool };

    /// The links that the door hands out for sure, in order. While there is one accept and connect don't fail.
    ghost awaited: { Self → List Awaited };

    /// Waits for connections from now on.
    fn listen(&mut self, addr: &str) -> Result<(), Failed>
        ensures sound { StaysSound (sound self.old) (sound self.new) }
        ensures surely { OnErr result (sound self.old ≡ false) }
        ensures awaited { StaysAwaited (awaited self.old) (awaited self.new) }
        ensures accepts { accepts self.new ≡ accepts self.old }
        ensures link_faults { link_faults self.new ≡ link_faults self.old }
        ensures closed { OnOk result (closed self.new ≡ closed self.old) }
        ensures faultless { OnOk result (faults self.new ≡ faults self.old) }
        ensures ceased { OnErr result (MayCease (closed self.old) (closed self.new)) }
        ensures rose { OnErr result (Rose (faults self.old) (faults self.new)) };

    /// The next connection that comes. At 2^64 - 1 accepts it fails.
    fn accept(&mut self) -> Result<Self::L, Failed>
        ensures fresh { IfOk result (λ link. IsFresh (Self.L.faults link) (Self.L.told link)) }
        ensures tells { IfOk result (λ link. Tells (closed self.old) (Self.L.told link)) }
        ensures sound { StaysSound (sound self.old) (sound self.new) }
        ensures awaited { IfOk result (λ link. HandsOut (awaited self.old) (awaited self.new) (Self.L.sound link) (Self.L.sure link)) }
        ensures surely { OnErr result (accepts self.old < last_count → awaited self.old ≡ []) }
        ensures below { OnOk result (accepts self.old < last_count) }
        ensures accepts { MatchResult result (λ _. accepts self.new ≡ accepts self.old + 1) (λ _. accepts self.new ≡ accepts self.old) }
        ensures link_faults { link_faults self.new ≡ link_faults self.old }
        ensures closed { OnOk result (closed self.new ≡ closed self.old) }
        ensures faultless { OnOk result (faults self.new ≡ faults self.old) }
        ensures ceased { OnErr result (MayCease (closed self.old) (closed self.new)) }
        ensures rose { OnErr result (Rose (faults self.old) (faults self.new)) };

    /// A connection to an address.
    fn connect(&mut self, addr: &str) -> Result<Self::L, Failed>
        ensures fresh { IfOk result (λ link. IsFresh (Self.L.faults link) (Self.L.told link)) }
        ensures tells { IfOk result (λ link. Tells (closed self.old) (Self.L.told link)) }
        ensures sound { StaysSound (sound self.old) (sound self.new) }
        ensures awaited { IfOk result (λ link. HandsOut (awaited self.old) (awaited self.new) (Self.L.sound link) (Self.L.sure link)) }
        ensures surely { OnErr result (awaited self.old ≡ []) }
        ensures accepts { accepts self.new ≡ accepts self.old }
        ensures link_faults { link_faults self.new ≡ link_faults self.old }
        ensures closed { OnOk result (closed self.new ≡ closed self.old) }
        ensures faultless { OnOk result (faults self.new ≡ faults self.old) }
        ensures ceased { OnErr result (MayCease (closed self.old) (closed self.new)) }
        ensures rose { OnErr result (Rose (faults self.old) (faults self.new)) };

    /// Takes a link back. After `NoMemory` the link is gone and the door is as before.
    fn close(&mut self, alloc: Global, link: Self::L) -> Result<(), NoMemory>
        ensures closed { OnOk result (closed self.new ≡ after_close (closed self.old) (Self.L.told link) (Self.L.faults link)) }
        ensures kept { OnErr result (closed self.new ≡ closed self.old) }
        ensures counted { OnOk result (link_faults self.new ≡ after_fault (Self.L.faults link) (link_faults self.old)) }
        ensures uncounted { OnErr result (link_faults self.new ≡ link_faults self.old) }
        ensures sound { StaysSound (sound self.old) (sound self.new) }
        ensures awaited { StaysAwaited (awaited self.old) (awaited self.new) }
        ensures faults { faults self.new ≡ faults self.old }
        ensures accepts { accepts self.new ≡ accepts self.old };
}

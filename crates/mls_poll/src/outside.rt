//! The objects of the outside that polled connections go through: a link, which is one connection, and a door,
//! which gives links.
//!
//! Each has a count of its calls that failed, which never falls, and of its calls that were pending. A link may tell
//! what went over it. After a call it tells exactly where it told before, but that after `Failed` it may cease to
//! tell. A call that is pending has registered with the object's source or yielded.

ghost use Rattle.std.specs.Prelude.{◌≡◌, ℕ, ◌+◌, ◌<◌, ◌≤◌, Bool, false, length, take, Option, IfSome};
ghost use Rattle.futures.specs.Task.{Covers, Keeps};
ghost use Rattle.futures.specs.Poll.{OnPending};
ghost use Rattle.mls_base.specs.Told.{MayCease, StaysSound};
ghost use Rattle.mls_wire.specs.Links.{Talk, Gives, IsFresh, after_read, after_write};
ghost use Rattle.mls_poll.specs.Polls.{IfGiven, OnFailed, CountsFault, CountsWait, CountsAccept};

use futures::task::{Context, Poll};
use mls_base::faults::Failed;

/// One connection that is polled: bytes that come and bytes that go. Ready answers are those of a `Link`.
pub trait PollLink {
    /// How many reads and writes failed.
    ghost faults: { Self → ℕ };

    /// What was read, what is left to read and what was written, where the link tells it.
    ghost told: { Self → Option Talk };

    /// Whether the link is sound: a read doesn't fail.
    ghost sound: { Self → Bool };

    /// How many more bytes the link takes for sure. While it isn't 0 a write doesn't fail.
    ghost sure: { Self → ℕ };

    /// How many calls were pending.
    ghost waits: { Self → ℕ };

    /// The source that a pending read registers with.
    ghost readable: { Self → ℕ };

    /// The source that a pending write registers with.
    ghost writable: { Self → ℕ };

    /// Puts the next bytes that are left at the front of `into`, and gives their number. 0 is the end of input.
    /// After `Failed`, and while it is pending, nothing was read.
    fn poll_read(&mut self, cx: &mut Context<'_>, into: &mut [u8]) -> Poll<Result<usize, Failed>>
        requires { 0 < length into.old }
        ensures within { IfGiven result (λ n. n ≤ length into.old) }
        ensures given { IfGiven result (λ n. IfSome (told self.old) (λ talk. Gives talk.left n into.old into.new)) }
        ensures moved { IfGiven result (λ n. told self.new ≡ after_read n (told self.old)) }
        ensures ceased { OnFailed result (MayCease (told self.old) (told self.new)) }
        ensures surely { OnFailed result (sound self.old ≡ false) }
        ensures still { OnPending result (told self.new ≡ told self.old) }
        ensures faults { CountsFault result (faults self.old) (faults self.new) }
        ensures waits { CountsWait result (waits self.old) (waits self.new) }
        ensures sound { StaysSound (sound self.old) (sound self.new) }
        ensures sure { sure self.old ≤ sure self.new }
        ensures registered { OnPending result (Covers cx.new (λ source. source ≡ readable self.new)) }
        ensures kept { Keeps cx.old cx.new };

    /// Writes the first bytes of `piece`, at least one, and gives their number. After `Failed`, and while it is
    /// pending, nothing was written.
    fn poll_write(&mut self, cx: &mut Context<'_>, piece: &[u8]) -> Poll<Result<usize, Failed>>
        requires { 0 < length piece.now }
        ensures some { IfGiven result (λ n. 0 < n) }
        ensures within { IfGiven result (λ n. n ≤ length piece.now) }
        ensures written { IfGiven result (λ n. told self.new ≡ after_write (take n piece.now) (told self.old)) }
        ensures ceased { OnFailed result (MayCease (told self.old) (told self.new)) }
        ensures still { OnPending result (told self.new ≡ told self.old) }
        ensures faults { CountsFault result (faults self.old) (faults self.new) }
        ensures waits { CountsWait result (waits self.old) (waits self.new) }
        ensures sound { StaysSound (sound self.old) (sound self.new) }
        ensures sure { IfGiven result (λ n. sure self.old ≤ sure self.new + n) }
        ensures unsure { OnFailed result (sure self.old ≡ 0) }
        ensures sure_still { OnPending result (sure self.old ≤ sure self.new) }
        ensures registered { OnPending result (Covers cx.new (λ source. source ≡ writable self.new)) }
        ensures kept { Keeps cx.old cx.new };
}

/// What gives links, and is polled for them.
pub trait PollDoor {
    type L: PollLink + Drop;

    /// How many calls failed.
    ghost faults: { Self → ℕ };

    /// How many calls were pending.
    ghost waits: { Self → ℕ };

    /// How many links were handed out.
    ghost accepts: { Self → ℕ };

    /// The source that a pending call registers with.
    ghost acceptable: { Self → ℕ };

    /// The next connection that comes. After `Failed`, and while it is pending, none is handed out.
    fn poll_accept(&mut self, cx: &mut Context<'_>) -> Poll<Result<Self::L, Failed>>
        ensures fresh { IfGiven result (λ link. IsFresh (Self.L.faults link) (Self.L.told link)) }
        ensures accepts { CountsAccept result (accepts self.old) (accepts self.new) }
        ensures faults { CountsFault result (faults self.old) (faults self.new) }
        ensures waits { CountsWait result (waits self.old) (waits self.new) }
        ensures registered { OnPending result (Covers cx.new (λ source. source ≡ acceptable self.new)) }
        ensures kept { Keeps cx.old cx.new };
}

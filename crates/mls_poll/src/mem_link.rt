//! A polled link in memory. Its ready calls are numbered from 0, and the numbers in `fails` are those that are to
//! fail. No other call fails, but a write where no room is left. A read is pending as often as is told beforehand,
//! and yields each time. A write is never pending.

ghost use Rattle.std.specs.Prelude.{◌≤◌, vec_len, vec_capacity};

use crate::outside::PollLink;
use crate::waits::Waits;
use futures::task::{Context, Poll};
use mls_base::calls::Calls;
use mls_base::faults::{Failed, NoMemory, fail};
use std::alloc::Global;

/// A polled link in memory that gives some bytes, at most `cut` of them in a read, and has room for a number of
/// bytes. Ready reads and writes are numbered together.
#[derive(Drop)]
pub struct MemPollLink {
    bytes: Vec<u8>,
    at: usize,
    cut: u32,
    written: Vec<u8>,
    room: u64,
    calls: Calls,
    faults: u64,
    waits: Waits,
    /// How many reads were pending.
    pending: u64,
    ghost placed: { at ≤ vec_len bytes },
    ghost cuts: { 1 ≤ cut },
    ghost within: { vec_len written ≤ room },
    ghost reserved: { room ≤ vec_capacity written },
}

impl MemPollLink {
    ghost use Rattle.std.specs.Prelude.{◌≡◌, ◌<◌, ◌≤◌, ◌+◌, ◌-◌, ◌||◌, ◌==◌, [], false, length, take, min, vec_len, is_err, IfOk, OnOk, OnErr, IsTrue, if◌then◌else◌};
    ghost use Rattle.mls_base.specs.Told.{Rose, StaysSound};
    ghost use Rattle.mls_base.specs.Calls.{are_none, next_fails, none_ahead, Counted};
    ghost use Rattle.mls_wire.specs.Links.{Gives, reading, writing};
    ghost use Rattle.mls_poll.specs.Waiting.{AreWaits};
    ghost use Rattle.mls_poll.specs.MemPolls.{talk_of, sure_of, is_unused, SameWaits, SameSizes};

    /// A link of which nothing was read and to which nothing was written. Before its i-th ready read it is pending
    /// `waits[i]` times, and 0 times where there is no such number.
    pub fn new(
        alloc: Global,
        bytes: Vec<u8>,
        cut: u32,
        waits: Vec<u32>,
        room: u64,
        fails: Vec<u64>,
    ) -> Result<MemPollLink, NoMemory>
        requires { 1 ≤ cut }
        ensures told { IfOk result (λ link. talk_of link ≡ record { read = []; left = bytes.items; written = [] }) }
        ensures unused { IfOk result (λ link. IsTrue (is_unused link)) }
        ensures sound { IfOk result (λ link. ⟦<MemPollLink as PollLink>⟧.sound link ≡ are_none fails.items) }
        ensures sure { IfOk result (λ link. sure_of link ≡ (if are_none fails.items then room else 0)) }
        ensures cut { IfOk result (λ link. link.cut ≡ cut) }
        ensures room { IfOk result (λ link. link.room ≡ room) }
        ensures calls { IfOk result (λ link. (link.calls.made ≡ 0) × (link.calls.fails ≡ fails)) }
        ensures waits { IfOk result (λ link. AreWaits waits.items link.waits × (link.pending ≡ 0)) }
    {
        Ok(MemPollLink {
            bytes,
            at: 0,
            cut,
            written: Vec::with_capacity(alloc, room as usize)?,
            room,
            calls: Calls::new(fails),
            faults: 0,
            waits: Waits::new(waits),
            pending: 0,
        })
    }

    /// The bytes that were written.
    pub fn written(&self) -> &[u8]
        ensures { result.now ≡ (talk_of self.now).written }
    {
        self.written.as_slice()
    }

    /// How many calls failed.
    pub fn faults(&self) -> u64
        ensures { result ≡ ⟦<MemPollLink as PollLink>⟧.faults self.now }
    {
        self.faults
    }

    /// A ready read. It fails exactly where it is to fail, and gives as many bytes as `into` takes, are left, and
    /// the cut lets through.
    fn read(&mut self, into: &mut [u8]) -> Result<usize, Failed>
        requires { 0 < length into.old }
        ensures fails { is_err result ≡ next_fails self.old.calls }
        ensures many { IfOk result (λ n. n ≡ min (min (length into.old) self.old.cut) (length (talk_of self.old).left)) }
        ensures counted { Counted self.old.calls self.new.calls }
        ensures sizes { SameSizes self.old self.new }
        ensures waits { SameWaits self.old self.new }
        ensures within { IfOk result (λ n. n ≤ length into.old) }
        ensures given { IfOk result (λ n. Gives (talk_of self.old).left n into.old into.new) }
        ensures moved { IfOk result (λ n. talk_of self.new ≡ reading n (talk_of self.old)) }
        ensures sound { StaysSound (none_ahead self.old.calls) (none_ahead self.new.calls) }
        ensures surely { OnErr result (none_ahead self.old.calls ≡ false) }
        ensures sure { sure_of self.old ≤ sure_of self.new }
        ensures faultless { OnOk result (self.new.faults ≡ self.old.faults) }
        ensures ceased { OnErr result (talk_of self.new ≡ talk_of self.old) }
        ensures rose { OnErr result (Rose self.old.faults self.new.faults) }
    {
        if self.calls.is_next_to_fail() {
            return fail(&mut self.faults, Failed);
        }
        let left = self.bytes.len() - self.at;
        let n = into.len().min(self.cut as usize).min(left);
        into[..n].copy_from_slice(&self.bytes[self.at..self.at + n]);
        self.at += n;
        Ok(n)
    }

    /// A ready write. It fails exactly where it is to fail or no room is left, and writes all that fits.
    fn write(&mut self, piece: &[u8]) -> Result<usize, Failed>
        requires { 0 < length piece.now }
        ensures fails { is_err result ≡ (next_fails self.old.calls || (self.old.room - vec_len self.old.written == 0)) }
        ensures fits { IfOk result (λ n. n ≡ min (length piece.now) (self.old.room - vec_len self.old.written)) }
        ensures counted { Counted self.old.calls self.new.calls }
        ensures sizes { SameSizes self.old self.new }
        ensures waits { SameWaits self.old self.new }
        ensures some { IfOk result (λ n. 0 < n) }
        ensures within { IfOk result (λ n. n ≤ length piece.now) }
        ensures written { IfOk result (λ n. talk_of self.new ≡ writing (take n piece.now) (talk_of self.old)) }
        ensures sound { StaysSound (none_ahead self.old.calls) (none_ahead self.new.calls) }
        ensures sure { IfOk result (λ n. sure_of self.old ≤ sure_of self.new + n) }
        ensures unsure { OnErr result (sure_of self.old ≡ 0) }
        ensures faultless { OnOk result (self.new.faults ≡ self.old.faults) }
        ensures ceased { OnErr result (talk_of self.new ≡ talk_of self.old) }
        ensures rose { OnErr result (Rose self.old.faults self.new.faults) }
    {
        let room = self.room as usize - self.written.len();
        if self.calls.is_next_to_fail() || room == 0 {
            return fail(&mut self.faults, Failed);
        }
        let n = piece.len().min(room);
        self.written.extend_from_slice(piece.split_at(n).0).unwrap();
        Ok(n)
    }
}

impl PollLink for MemPollLink {
    ghost use Rattle.std.specs.Prelude.{◌≡◌, ◌<◌, ◌≤◌, ◌+◌, ◌-◌, ◌||◌, ◌==◌, ◌↔◌, false, Some, length, take, min, vec_len, is_err, IsTrue};
    ghost use Rattle.futures.specs.Task.{Covers, Keeps};
    ghost use Rattle.futures.specs.Poll.{IfReady, OnPending};
    ghost use Rattle.mls_base.specs.Told.{StaysSound};
    ghost use Rattle.mls_wire.specs.Links.{Gives, reading, writing};
    ghost use Rattle.futures.specs.declared.task.Poll.TheVariants.{Pending};
    ghost use Rattle.mls_base.specs.Calls.{next_fails, none_ahead, Counted};
    ghost use Rattle.mls_poll.specs.Polls.{IfGiven, OnFailed, CountsFault, CountsWait};
    ghost use Rattle.mls_poll.specs.Waiting.{is_waiting, AfterWait};
    ghost use Rattle.mls_poll.specs.MemPolls.{talk_of, sure_of, SameSizes, SameWaits};

    ghost faults = { λ link. link.faults };

    ghost told = { λ link. Some (talk_of link) };

    ghost sound = { λ link. none_ahead link.calls };

    ghost sure = { λ link. sure_of link };

    ghost waits = { λ link. link.pending };

    ghost readable = { λ _. 0 };

    ghost writable = { λ _. 0 };

    /// It is pending exactly where it is to wait. Else it fails exactly where it is to fail, and gives as many bytes
    /// as `into` takes, are left, and the cut lets through.
    fn poll_read(&mut self, cx: &mut Context<'_>, into: &mut [u8]) -> Poll<Result<usize, Failed>>
        requires { 0 < length into.old }
        ensures pends { IsTrue (is_waiting self.old.waits) ↔ (result ≡ Pending) }
        ensures waited { AfterWait (is_waiting self.old.waits) self.old.waits self.new.waits }
        ensures fails { IfReady result (λ answer. is_err answer ≡ next_fails self.old.calls) }
        ensures many { IfGiven result (λ n. n ≡ min (min (length into.old) self.old.cut) (length (talk_of self.old).left)) }
        ensures counted { IfReady result (λ _. Counted self.old.calls self.new.calls) }
        ensures uncounted { OnPending result (self.new.calls ≡ self.old.calls) }
        ensures sizes { SameSizes self.old self.new }
        ensures within { IfGiven result (λ n. n ≤ length into.old) }
        ensures given { IfGiven result (λ n. Gives (talk_of self.old).left n into.old into.new) }
        ensures moved { IfGiven result (λ n. talk_of self.new ≡ reading n (talk_of self.old)) }
        ensures ceased { OnFailed result (talk_of self.new ≡ talk_of self.old) }
        ensures surely { OnFailed result (none_ahead self.old.calls ≡ false) }
        ensures still { OnPending result (talk_of self.new ≡ talk_of self.old) }
        ensures faults { CountsFault result self.old.faults self.new.faults }
        ensures counts { CountsWait result self.old.pending self.new.pending }
        ensures sound { StaysSound (none_ahead self.old.calls) (none_ahead self.new.calls) }
        ensures sure { sure_of self.old ≤ sure_of self.new }
        ensures registered { OnPending result (Covers cx.new (λ source. source ≡ 0)) }
        ensures kept { Keeps cx.old cx.new }
    {
        if self.waits.is_to_wait() {
            self.pending = self.pending.saturating_add(1);
            return cx.yield_now();
        }
        Poll::Ready(self.read(into))
    }

    /// It fails exactly where it is to fail or no room is left, and writes all that fits.
    fn poll_write(&mut self, cx: &mut Context<'_>, piece: &[u8]) -> Poll<Result<usize, Failed>>
        requires { 0 < length piece.now }
        ensures ready { IfReady result (λ answer. is_err answer ≡ (next_fails self.old.calls || (self.old.room - vec_len self.old.written == 0))) }
        ensures never { OnPending result ⊥ }
        ensures fits { IfGiven result (λ n. n ≡ min (length piece.now) (self.old.room - vec_len self.old.written)) }
        ensures counted { Counted self.old.calls self.new.calls }
        ensures sizes { SameSizes self.old self.new }
        ensures waits { SameWaits self.old self.new }
        ensures some { IfGiven result (λ n. 0 < n) }
        ensures within { IfGiven result (λ n. n ≤ length piece.now) }
        ensures written { IfGiven result (λ n. talk_of self.new ≡ writing (take n piece.now) (talk_of self.old)) }
        ensures ceased { OnFailed result (talk_of self.new ≡ talk_of self.old) }
        ensures faults { CountsFault result self.old.faults self.new.faults }
        ensures sound { StaysSound (none_ahead self.old.calls) (none_ahead self.new.calls) }
        ensures sure { IfGiven result (λ n. sure_of self.old ≤ sure_of self.new + n) }
        ensures unsure { OnFailed result (sure_of self.old ≡ 0) }
        ensures kept { cx.new ≡ cx.old }
    {
        let _ = cx;
        Poll::Ready(self.write(piece))
    }
}

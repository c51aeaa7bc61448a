//! A link in memory. Its calls are numbered from 0, and the numbers in `fails` are those that are to fail. No other
//! call fails, but a write where no room is left.

ghost use Rattle.std.specs.Prelude.{◌≤◌, vec_len, vec_capacity};

use crate::outside::Link;
use mls_base::calls::Calls;
use mls_base::faults::{Failed, NoMemory, fail};
use std::alloc::Global;

/// A link in memory that gives some bytes, at most `cut` of them in a read, and has room for a number of bytes.
/// Reads and writes are numbered together.
#[derive(Drop)]
pub struct MemLink {
    bytes: Vec<u8>,
    at: usize,
    cut: u32,
    written: Vec<u8>,
    room: u64,
    calls: Calls,
    faults: u64,
    ghost placed: { at ≤ vec_len bytes },
    ghost cuts: { 1 ≤ cut },
    ghost within: { vec_len written ≤ room },
    ghost reserved: { room ≤ vec_capacity written },
}

impl MemLink {
    ghost use Rattle.std.specs.Prelude.{◌≡◌, ◌≤◌, [], Some, IfOk, IsTrue, if◌then◌else◌};
    ghost use Rattle.mls_base.specs.Calls.{are_none};
    ghost use Rattle.mls_wire.specs.MemLinks.{is_unused, talk_of, sure_of};

    /// A link of which nothing was read and to which nothing was written.
    pub fn new(
        alloc: Global,
        bytes: Vec<u8>,
        cut: u32,
        room: u64,
        fails: Vec<u64>,
    ) -> Result<MemLink, NoMemory>
        requires { 1 ≤ cut }
        ensures told { IfOk result (λ link. talk_of link ≡ record { read = []; left = bytes.items; written = [] }) }
        ensures unused { IfOk result (λ link. IsTrue (is_unused link)) }
        ensures sound { IfOk result (λ link. ⟦<MemLink as Link>⟧.sound link ≡ are_none fails.items) }
        ensures sure { IfOk result (λ link. sure_of link ≡ (if are_none fails.items then room else 0)) }
        ensures cut { IfOk result (λ link. link.cut ≡ cut) }
        ensures room { IfOk result (λ link. link.room ≡ room) }
        ensures calls { IfOk result (λ link. (link.calls.made ≡ 0) × (link.calls.fails ≡ fails)) }
    {
        Ok(MemLink {
            bytes,
            at: 0,
            cut,
            written: Vec::with_capacity(alloc, room as usize)?,
            room,
            calls: Calls::new(fails),
            faults: 0,
        })
    }

    /// What was written.
    pub fn written(&self) -> &[u8]
        ensures { result.now ≡ (talk_of self.now).written }
    {
        self.written.as_slice()
    }

    /// How many calls failed.
    pub(crate) fn faults(&self) -> u64
        ensures { result ≡ self.now.faults }
    {
        self.faults
    }
}

impl Link for MemLink {
    ghost use Rattle.std.specs.Prelude.{◌≡◌, ◌+◌, ◌-◌, ◌<◌, ◌≤◌, ◌||◌, ◌==◌, length, take, min, false, Some, is_err, vec_len, IfOk, IfSome, OnOk, OnErr};
    ghost use Rattle.mls_base.specs.Told.{MayCease, Rose, StaysSound};
    ghost use Rattle.mls_base.specs.Calls.{next_fails, none_ahead, Counted};
    ghost use Rattle.mls_wire.specs.Links.{Gives, reading, writing};
    ghost use Rattle.mls_wire.specs.MemLinks.{talk_of, sure_of};

    ghost faults = { λ l. l.faults };

    ghost told = { λ l. Some (talk_of l) };

    ghost sound = { λ l. none_ahead l.calls };

    ghost sure = { λ l. sure_of l };

    /// It fails exactly where it is to fail, and gives as many bytes as fit, are left, and the cut lets through.
    fn read(&mut self, into: &mut [u8]) -> Result<usize, Failed>
        requires { 0 < length into.old }
        ensures fails { is_err result ≡ next_fails self.old.calls }
        ensures many { IfOk result (λ n. n ≡ min (min (length into.old) self.old.cut) (length (talk_of self.old).left)) }
        ensures counted { Counted self.old.calls self.new.calls }
        ensures cut { self.new.cut ≡ self.old.cut }
        ensures room { self.new.room ≡ self.old.room }
        ensures within { IfOk result (λ n. n ≤ length into.old) }
        ensures given { IfOk result (λ n. Gives (talk_of self.old).left n into.old into.new) }
        ensures moved { IfOk result (λ n. talk_of self.new ≡ reading n (talk_of self.old)) }
        ensures sound { StaysSound (none_ahead self.old.calls) (none_ahead self.new.calls) }
        ensures surely { OnErr result (none_ahead self.old.calls ≡ false) }
        ensures sure { sure_of self.old ≤ sure_of self.new }
        ensures faultless { OnOk result (self.new.faults ≡ self.old.faults) }
        ensures ceased { OnErr result (talk_of self.new ≡ talk_of self.old) }
        ensures rose { OnErr result (Rose self.old.faults self.new.faults) }
    {
        if self.calls.is_next_to_fail() {
            return fail(&mut self.faults, Failed);
        }
        let left = self.bytes.len() - self.at;
        let n = into.len().min(self.cut as usize).min(left);
        into[..n].copy_from_slice(&self.bytes[self.at..self.at + n]);
        self.at += n;
        Ok(n)
    }

    /// It fails exactly where it is to fail or no room is left, and writes all that fits.
    fn write(&mut self, piece: &[u8]) -> Result<usize, Failed>
        requires { 0 < length piece.now }
        ensures fails { is_err result ≡ (next_fails self.old.calls || (self.old.room - vec_len self.old.written == 0)) }
        ensures fits { IfOk result (λ n. n ≡ min (length piece.now) (self.old.room - vec_len self.old.written)) }
        ensures counted { Counted self.old.calls self.new.calls }
        ensures cut { self.new.cut ≡ self.old.cut }
        ensures room { self.new.room ≡ self.old.room }
        ensures some { IfOk result (λ n. 0 < n) }
        ensures within { IfOk result (λ n. n ≤ length piece.now) }
        ensures written { IfOk result (λ n. talk_of self.new ≡ writing (take n piece.now) (talk_of self.old)) }
        ensures sound { StaysSound (none_ahead self.old.calls) (none_ahead self.new.calls) }
        ensures sure { IfOk result (λ n. sure_of self.old ≤ sure_of self.new + n) }
        ensures unsure { OnErr result (sure_of self.old ≡ 0) }
        ensures faultless { OnOk result (self.new.faults ≡ self.old.faults) }
        ensures ceased { OnErr result (talk_of self.new ≡ talk_of self.old) }
        ensures rose { OnErr result (Rose self.old.faults self.new.faults) }
    {
        let room = self.room as usize - self.written.len();
        if self.calls.is_next_to_fail() || room == 0 {
            return fail(&mut self.faults, Failed);
        }
        let n = piece.len().min(room);
        self.written.extend_from_slice(piece.split_at(n).0).unwrap();
        Ok(n)
    }
}

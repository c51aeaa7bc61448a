//! A disk in memory, for tests. It remembers what a crash might have left at each moment.

ghost use Rattle.std.specs.Prelude.{◌≡◌, ℕ, ◌+◌, ◌*◌, ◌<◌, ◌≤◌, [], ◌∷◌, ◌++◌, List, length, true, false, vec_len, OnOk, OnErr, IfOk};
ghost use Rattle.mls_slot.specs.Disks.{IsLeft, IsAtRest, Torn, Gave, over};
ghost use Rattle.mls_slot.specs.Traces.{Remembers, TornBy};
ghost use Rattle.mls_base.specs.Told.{Rose};

use crate::disk::Disk;
use mls_base::calls::Calls;
use mls_base::faults::{Failed, NoMemory};
use std::alloc::{AllocError, Global};

/// An area: what a read gives, what it gave after the last sync, and the writes since, each its place and length.
#[derive(Drop)]
pub struct Area {
    bytes: Vec<u8>,
    synced: Vec<u8>,
    ranges: Vec<(usize, usize)>,
}

impl Area {
    /// An area with these bytes, all of them on the disk.
    fn at_rest(alloc: Global, bytes: Vec<u8>) -> Result<Area, AllocError>
        ensures bytes { IfOk result (λ area. area.bytes.items ≡ bytes.items) }
        ensures synced { IfOk result (λ area. area.synced.items ≡ bytes.items) }
        ensures ranges { IfOk result (λ area. area.ranges.items ≡ []) }
    {
        let synced = bytes.to_vec(alloc)?;
        Ok(Area {
            bytes,
            synced,
            ranges: Vec::new(alloc),
        })
    }

    /// An area without a byte.
    fn empty(alloc: Global) -> Area
        ensures bytes { result.bytes.items ≡ [] }
        ensures synced { result.synced.items ≡ [] }
        ensures ranges { result.ranges.items ≡ [] }
    {
        Area {
            bytes: Vec::new(alloc),
            synced: Vec::new(alloc),
            ranges: Vec::new(alloc),
        }
    }

    fn copy(&self, alloc: Global) -> Result<Area, AllocError>
        ensures bytes { IfOk result (λ copy. copy.bytes.items ≡ self.now.bytes.items) }
        ensures synced { IfOk result (λ copy. copy.synced.items ≡ self.now.synced.items) }
        ensures ranges { IfOk result (λ copy. copy.ranges.items ≡ self.now.ranges.items) }
    {
        let bytes = self.bytes.to_vec(alloc)?;
        let synced = self.synced.to_vec(alloc)?;
        let ranges = self.ranges.to_vec(alloc)?;
        Ok(Area {
            bytes,
            synced,
            ranges,
        })
    }

    /// What the area is after a crash, and what is left of `pick`: each digit to the base 4 says what became of a
    /// write since the last sync.
    fn image(&self, alloc: Global, pick: u64) -> Result<(Vec<u8>, u64), AllocError>
        ensures { IfOk result (λ pair. TornBy self.now.ranges.items self.now.synced.items pair.0.items) }
    {
        let mut image = self.synced.to_vec(alloc)?;
        let mut rest = pick;
        for range in self.ranges.iter() {
            let range = *range;
            image = torn(alloc, &image, range, &self.bytes, rest % 4)?;
            rest /= 4;
        }
        Ok((image, rest))
    }

    /// Writes over what is there, and past the end. A place behind the end is refused as want of memory is.
    fn write(&mut self, alloc: Global, at: usize, bytes: &[u8]) -> Result<(), NoMemory>
        ensures within { OnOk result (at ≤ length self.old.bytes.items) }
        ensures bytes { OnOk result (self.new.bytes.items ≡ over self.old.bytes.items at bytes.now) }
        ensures synced { OnOk result (self.new.synced.items ≡ self.old.synced.items) }
        ensures ranges { OnOk result (self.new.ranges.items ≡ self.old.ranges.items ++ (at, length bytes.now) ∷ []) }
    {
        if at > self.bytes.len() {
            return Err(NoMemory);
        }
        let next = overwritten(alloc, &self.bytes, at, bytes)?;
        self.ranges.push((at, bytes.len()))?;
        self.bytes = next;
        Ok(())
    }

    fn sync(&mut self, alloc: Global) -> Result<(), NoMemory>
        ensures bytes { OnOk result (self.new.bytes.items ≡ self.old.bytes.items) }
        ensures synced { OnOk result (self.new.synced.items ≡ self.old.bytes.items) }
        ensures ranges { OnOk result (self.new.ranges.items ≡ []) }
    {
        self.synced = self.bytes.to_vec(alloc)?;
        self.ranges.clear();
        Ok(())
    }
}

/// The old bytes with others at a place, over what is there and past the end.
fn overwritten(alloc: Global, old: &[u8], at: usize, bytes: &[u8]) -> Result<Vec<u8>, AllocError>
    requires { at ≤ length old.now }
    ensures { IfOk result (λ v. v.items ≡ over old.now at bytes.now) }
{
    let mut next = old[..at].to_vec(alloc)?;
    next.extend_from_slice(bytes)?;
    if bytes.len() < old.len() - at {
        next.extend_from_slice(&old[at + bytes.len()..])?;
    }
    Ok(next)
}

/// Puts the bytes from a place on at the front, as many as fit or are there, and gives their number.
fn given(bytes: &[u8], at: usize, into: &mut [u8]) -> usize
    ensures { Gave bytes.now at into.old into.new result }
{
    let from = at.min(bytes.len());
    let n = into.len().min(bytes.len() - from);
    into[..n].copy_from_slice(&bytes[from..from + n]);
    n
}

/// The bytes after a write that a crash tore: 0 nothing of it, 1 all of it, 2 its first half, 3 a 1 in each place.
fn torn(
    alloc: Global,
    old: &[u8],
    range: (usize, usize),
    seen: &[u8],
    digit: u64,
) -> Result<Vec<u8>, AllocError>
    ensures { IfOk result (λ v. Torn range.0 range.1 old.now v.items) }
{
    let (at, n) = range;
    if at > old.len() {
        return old.to_vec(alloc);
    }
    let part = part_of(alloc, n, after(seen, at), digit)?;
    let new = overwritten(alloc, old, at, &part)?;
    Ok(new)
}

/// The bytes from a place on.
fn after(seen: &[u8], at: usize) -> &[u8] {
    if at > seen.len() {
        return seen;
    }
    seen.split_at(at).1
}

/// What a crash put into a range of n bytes, from its front on.
fn part_of(alloc: Global, n: usize, seen: &[u8], digit: u64) -> Result<Vec<u8>, AllocError>
    ensures { IfOk result (λ v. vec_len v ≤ n) }
{
    let half = if digit == 2 { n / 2 } else { n };
    if digit == 0 {
        return Ok(Vec::new(alloc));
    }
    if digit == 3 {
        return vec![in alloc; 1u8; n];
    }
    if seen.len() < half {
        return Ok(Vec::new(alloc));
    }
    seen.split_at(half).0.to_vec(alloc)
}

/// Both areas at a past moment.
#[derive(Drop)]
pub struct Past {
    zero: Area,
    one: Area,
}

/// Keeps both areas as they stand, as a past moment.
fn remember(alloc: Global, zero: &Area, one: &Area, past: &mut Vec<Past>) -> Result<(), NoMemory>
    ensures { OnOk result (Remembers zero.now one.now past.old.items past.new.items) }
{
    let zero = zero.copy(alloc)?;
    let one = one.copy(alloc)?;
    past.push(Past { zero, one })?;
    Ok(())
}

/// A disk in memory. Its calls are numbered from 0, and the numbers in `fails` are those that are to fail.
#[derive(Drop)]
pub struct MemDisk {
    alloc: Global,
    zero: Area,
    one: Area,
    past: Vec<Past>,
    calls: Calls,
    faults: u64,
    tells: bool,
}

impl MemDisk {
    ghost use Rattle.mls_slot.specs.Memory.{mem_view};
    ghost use Rattle.mls_slot.specs.Disks.{Wrote, Synced};

    /// Both areas are empty.
    pub fn new(alloc: Global, fails: Vec<u64>) -> MemDisk
        ensures tells { ⟦<MemDisk as Disk>⟧.tells result ≡ true }
        ensures seen { (area : ℕ) → (⟦<MemDisk as Disk>⟧.view result).seen area ≡ [] }
        ensures rest { IsAtRest (⟦<MemDisk as Disk>⟧.view result) }
        ensures faults { ⟦<MemDisk as Disk>⟧.faults result ≡ 0 }
    {
        MemDisk {
            alloc,
            zero: Area::empty(alloc),
            one: Area::empty(alloc),
            past: Vec::new(alloc),
            calls: Calls::new(fails),
            faults: 0,
            tells: true,
        }
    }

    /// The same disk, of whose further calls, numbered from 0, these are to fail.
    pub fn with_fails(self, fails: Vec<u64>) -> MemDisk
        ensures zero { result.zero ≡ self.zero }
        ensures one { result.one ≡ self.one }
        ensures past { result.past ≡ self.past }
        ensures tells { result.tells ≡ self.tells }
        ensures faults { result.faults ≡ self.faults }
        ensures calls { result.calls.fails ≡ fails }
    {
        let mut disk = self;
        disk.calls = Calls::new(fails);
        disk
    }

    /// What a crash may leave: `pick` chooses what became of each write since the last sync.
    pub fn image(&self, alloc: Global, pick: u64) -> Result<MemDisk, NoMemory>
        ensures left { IfOk result (λ image. IsLeft (⟦<MemDisk as Disk>⟧.view self.now) ((⟦<MemDisk as Disk>⟧.view image).seen)) }
        ensures rest { IfOk result (λ image. IsAtRest (⟦<MemDisk as Disk>⟧.view image)) }
        ensures tells { IfOk result (λ image. ⟦<MemDisk as Disk>⟧.tells image ≡ true) }
        ensures faults { IfOk result (λ image. ⟦<MemDisk as Disk>⟧.faults image ≡ 0) }
    {
        let (zero, rest) = self.zero.image(alloc, pick)?;
        let (one, _) = self.one.image(alloc, rest)?;
        Ok(MemDisk {
            alloc,
            zero: Area::at_rest(alloc, zero)?,
            one: Area::at_rest(alloc, one)?,
            past: Vec::new(alloc),
            calls: Calls::new(Vec::new(alloc)),
            faults: 0,
            tells: true,
        })
    }

    /// Counts a failed call.
    fn fault(&mut self) -> Failed
        ensures zero { self.new.zero ≡ self.old.zero }
        ensures one { self.new.one ≡ self.old.one }
        ensures past { self.new.past ≡ self.old.past }
        ensures tells { self.new.tells ≡ self.old.tells }
        ensures rose { Rose self.old.faults self.new.faults }
    {
        self.faults = self.faults.saturating_add(1);
        Failed
    }

    /// Counts a failed call, after which the disk doesn't tell any more.
    fn silent_fault(&mut self) -> Failed
        ensures tells { self.new.tells ≡ false }
        ensures rose { Rose self.old.faults self.new.faults }
    {
        self.tells = false;
        self.fault()
    }

    /// Writes, as a new moment.
    fn write(&mut self, area: u32, at: usize, bytes: &[u8]) -> Result<(), NoMemory>
        requires { area < 2 }
        ensures wrote { OnOk result (Wrote area at bytes.now (mem_view self.old) (mem_view self.new)) }
        ensures tells { self.new.tells ≡ self.old.tells }
        ensures faults { self.new.faults ≡ self.old.faults }
    {
        remember(self.alloc, &self.zero, &self.one, &mut self.past)?;
        if area == 0 {
            self.zero.write(self.alloc, at, bytes)?;
            return Ok(());
        }
        self.one.write(self.alloc, at, bytes)?;
        Ok(())
    }

    /// Syncs, as a new moment.
    fn settle(&mut self, area: u32) -> Result<(), NoMemory>
        requires { area < 2 }
        ensures synced { OnOk result (Synced area (mem_view self.old) (mem_view self.new)) }
        ensures tells { self.new.tells ≡ self.old.tells }
        ensures faults { self.new.faults ≡ self.old.faults }
    {
        remember(self.alloc, &self.zero, &self.one, &mut self.past)?;
        if area == 0 {
            self.zero.sync(self.alloc)?;
            return Ok(());
        }
        self.one.sync(self.alloc)?;
        Ok(())
    }
}

impl Disk for MemDisk {
    ghost use Rattle.mls_slot.specs.Memory.{mem_view};
    ghost use Rattle.mls_slot.specs.Traces.{only_both, read_left};
    ghost use Rattle.std.proofs.Common.{inl};

    ghost faults = { λ d. d.faults };

    ghost tells = { λ d. d.tells };

    ghost view = { mem_view };

    ghost counts_now = { λ d t image tells le now. inl now };

    ghost only_now = { λ d image tells left. only_both d.zero d.one d.past.items image left };

    ghost seen_left = { λ d tells area below. read_left d.zero d.one area };

    fn len(&mut self, area: u32) -> Result<u64, Failed> {
        if self.calls.is_next_to_fail() {
            return Err(self.fault());
        }
        if area == 0 {
            return Ok(self.zero.bytes.len() as u64);
        }
        Ok(self.one.bytes.len() as u64)
    }

    fn read(&mut self, area: u32, at: u64, into: &mut [u8]) -> Result<usize, Failed> {
        if self.calls.is_next_to_fail() {
            return Err(self.fault());
        }
        if area == 0 {
            return Ok(given(&self.zero.bytes, at as usize, into));
        }
        Ok(given(&self.one.bytes, at as usize, into))
    }

    fn write_at(&mut self, area: u32, at: u64, bytes: &[u8]) -> Result<(), Failed> {
        let fails = self.calls.is_next_to_fail();
        match self.write(area, at as usize, bytes) {
            Ok(()) if !fails => Ok(()),
            Ok(()) => Err(self.fault()),
            Err(NoMemory) => Err(self.silent_fault()),
        }
    }

    fn sync(&mut self, area: u32) -> Result<(), Failed> {
        if self.calls.is_next_to_fail() {
            return Err(self.fault());
        }
        match self.settle(area) {
            Ok(()) => Ok(()),
            Err(NoMemory) => Err(self.silent_fault()),
        }
    }
}

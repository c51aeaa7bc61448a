//! The objects of the outside in memory. Their calls are numbered from 0, and the numbers in `fails` are those
//! that are to fail. No other call fails, but a write to a full sink and a load of a name that isn't held.

ghost use Rattle.std.specs.Prelude.{◌≤◌, vec_len, vec_capacity};

use crate::calls::Calls;
use crate::faults::{Failed, LoadFault, NoMemory, StoreFault, fail};
use crate::outside::{Files, Keeper, Sink};
use std::alloc::Global;
use std::collections::BTreeMap;

/// A sink in memory that has room for a number of bytes.
#[derive(Drop)]
pub struct MemSink {
    bytes: Vec<u8>,
    room: u64,
    calls: Calls,
    faults: u64,
    ghost within: { vec_len bytes ≤ room },
    ghost reserved: { room ≤ vec_capacity bytes },
}

impl MemSink {
    ghost use Rattle.std.specs.Prelude.{◌≡◌, [], Some, IfOk, if◌then◌else◌};
    ghost use Rattle.mls_base.specs.Calls.{are_none};

    /// An empty sink with room for `room` bytes. Where no write is to fail it takes them all for sure.
    pub fn new(alloc: Global, room: u64, fails: Vec<u64>) -> Result<MemSink, NoMemory>
        ensures told { IfOk result (λ sink. ⟦<MemSink as Sink>⟧.told sink ≡ Some []) }
        ensures faults { IfOk result (λ sink. ⟦<MemSink as Sink>⟧.faults sink ≡ 0) }
        ensures sure { IfOk result (λ sink. ⟦<MemSink as Sink>⟧.sure sink ≡ (if are_none fails.items then room else 0)) }
        ensures calls { IfOk result (λ sink. (sink.calls.made ≡ 0) × (sink.calls.fails ≡ fails)) }
        ensures room { IfOk result (λ sink. sink.room ≡ room) }
    {
        Ok(MemSink {
            bytes: Vec::with_capacity(alloc, room as usize)?,
            room,
            calls: Calls::new(fails),
            faults: 0,
        })
    }

    /// What was written.
    pub fn bytes(&self) -> &[u8]
        ensures { ⟦<MemSink as Sink>⟧.told self.now ≡ Some result.now }
    {
        self.bytes.as_slice()
    }
}

impl Sink for MemSink {
    ghost use Rattle.std.specs.Prelude.{◌≡◌, ◌+◌, ◌-◌, ◌<◌, ◌≤◌, ◌++◌, ◌==◌, ◌||◌, if◌then◌else◌, length, take, min, true, false, Some, is_err, IfOk, OnOk, OnErr};
    ghost use Rattle.mls_base.specs.Told.{appended, MayCease, Rose};
    ghost use Rattle.mls_base.specs.Calls.{next_fails, none_ahead, Counted};

    ghost faults = { λ s. s.faults };

    ghost told = { λ s. Some s.bytes.items };

    ghost sure = { λ s. if none_ahead s.calls then s.room - vec_len s.bytes else 0 };

    /// Appends what there is room for. Where there is none the call fails.
    fn write(&mut self, piece: &[u8]) -> Result<usize, Failed>
        requires { 0 < length piece.now }
        // It fails exactly where it is to fail or no room is left, and appends all that fits.
        ensures fails { is_err result ≡ (next_fails self.old.calls || (self.old.room - vec_len self.old.bytes == 0)) }
        ensures fits { IfOk result (λ n. n ≡ min (length piece.now) (self.old.room - vec_len self.old.bytes)) }
        ensures counted { Counted self.old.calls self.new.calls }
        ensures room { self.new.room ≡ self.old.room }
        ensures some { IfOk result (λ n. 0 < n) }
        ensures within { IfOk result (λ n. n ≤ length piece.now) }
        ensures written { IfOk result (λ n. Some self.new.bytes.items ≡ appended (Some self.old.bytes.items) (take n piece.now)) }
        ensures sure { IfOk result (λ n. ⟦<MemSink as Sink>⟧.sure self.old ≤ ⟦<MemSink as Sink>⟧.sure self.new + n) }
        ensures unsure { OnErr result (⟦<MemSink as Sink>⟧.sure self.old ≡ 0) }
        ensures faultless { OnOk result (self.new.faults ≡ self.old.faults) }
        ensures ceased { OnErr result (MayCease (Some self.old.bytes.items) (Some self.new.bytes.items)) }
        ensures rose { OnErr result (Rose self.old.faults self.new.faults) }
    {
        let room = self.room as usize - self.bytes.len();
        if self.calls.is_next_to_fail() || room == 0 {
            return fail(&mut self.faults, Failed);
        }
        let n = piece.len().min(room);
        self.bytes.extend_from_slice(piece.split_at(n).0).unwrap();
        Ok(n)
    }
}

/// Files in memory. Loads and saves are numbered together.
#[derive(Drop)]
pub struct MemFiles {
    alloc: Global,
    held: BTreeMap<String, Vec<u8>>,
    calls: Calls,
    load_faults: u64,
    save_faults: u64,
}

impl MemFiles {
    ghost use Rattle.std.specs.Prelude.{◌≡◌, ℕ, List, None, Some, OnOk, OnErr, IsSomeAnd};
    ghost use Rattle.std.specs.Option.{option_map};
    ghost use Rattle.mls_base.specs.Told.{Saved};
    ghost use Rattle.mls_base.specs.Memory.{names_of};
    ghost use Rattle.mls_base.specs.Calls.{are_none};

    /// No name is held. Where no call is to fail the files are sound.
    pub fn new(alloc: Global, fails: Vec<u64>) -> MemFiles
        ensures held { IsSomeAnd (⟦<MemFiles as Files>⟧.held result) (λ names. (name : List ℕ) → names name ≡ None) }
        ensures loads { ⟦<MemFiles as Files>⟧.load_faults result ≡ 0 }
        ensures saves { ⟦<MemFiles as Files>⟧.save_faults result ≡ 0 }
        ensures sound { ⟦<MemFiles as Files>⟧.sound result ≡ are_none fails.items }
        ensures calls { (result.calls.made ≡ 0) × (result.calls.fails ≡ fails) }
    {
        MemFiles {
            alloc,
            held: BTreeMap::new(alloc),
            calls: Calls::new(fails),
            load_faults: 0,
            save_faults: 0,
        }
    }

    /// Sets the bytes of a name. This is no numbered call.
    pub fn set(&mut self, name: &str, bytes: &[u8]) -> Result<(), NoMemory>
        ensures saved { OnOk result (Saved name.now bytes.now (Some (names_of self.old)) (Some (names_of self.new))) }
        ensures kept { OnErr result (names_of self.new ≡ names_of self.old) }
        ensures loads { self.new.load_faults ≡ self.old.load_faults }
        ensures saves { self.new.save_faults ≡ self.old.save_faults }
        ensures calls { self.new.calls ≡ self.old.calls }
    {
        let bytes = Vec::from_slice(self.alloc, bytes)?;
        let name = String::from_str(self.alloc, name)?;
        self.held.insert(name, bytes)?;
        Ok(())
    }

    /// The bytes of a name, if it is held.
    pub fn held(&self, name: &str) -> Option<&[u8]>
        ensures { IsSomeAnd (⟦<MemFiles as Files>⟧.held self.now) (λ names. names name.now ≡ option_map (λ bytes. bytes.now) result) }
    {
        self.held.get(name).map(|bytes| bytes.as_slice())
    }
}

impl Files for MemFiles {
    ghost use Rattle.std.specs.Prelude.{◌≡◌, ◌≤◌, false, Some, IfOk, IfSome, OnOk, OnErr, IfErr, MatchResult};
    ghost use Rattle.std.specs.Option.{option_map};
    ghost use Rattle.mls_base.specs.Memory.{names_of};
    ghost use Rattle.mls_base.specs.Told.{Saved, SaveLeaves, LoadRefused, CountsLoad, CountsStore};
    ghost use Rattle.mls_base.specs.Told.{StaysSound, SoundLoad, SoundStore};
    ghost use Rattle.mls_base.specs.Calls.{next_fails, none_ahead, Counted, LoadFails, FailsWhereDue};

    ghost load_faults = { λ f. f.load_faults };

    ghost save_faults = { λ f. f.save_faults };

    ghost held = { λ f. Some (names_of f) };

    ghost sound = { λ f. none_ahead f.calls };

    /// Fails exactly where the call is to fail or the name isn't held.
    fn load(&mut self, alloc: Global, name: &str, max: u64) -> Result<Vec<u8>, LoadFault>
        ensures due { IfOk result (λ _. next_fails self.old.calls ≡ false) }
        ensures undue { IfErr result (λ fault. LoadFails fault (next_fails self.old.calls) (names_of self.old name.now)) }
        ensures counted { Counted self.old.calls self.new.calls }
        ensures loaded { IfOk result (λ bytes. names_of self.old name.now ≡ Some bytes.items) }
        ensures within { IfOk result (λ bytes. vec_len bytes ≤ max) }
        ensures refused { IfErr result (λ fault. LoadRefused fault max (names_of self.old name.now)) }
        ensures held { names_of self.new ≡ names_of self.old }
        ensures sound { StaysSound (none_ahead self.old.calls) (none_ahead self.new.calls) }
        ensures surely { IfErr result (λ fault. SoundLoad fault (none_ahead self.old.calls) (Some (names_of self.old)) name.now) }
        ensures loads { CountsLoad result self.old.load_faults self.new.load_faults }
        ensures saves { self.new.save_faults ≡ self.old.save_faults }
    {
        if self.calls.is_next_to_fail() {
            return fail(&mut self.load_faults, LoadFault::Failed);
        }
        let Some(bytes) = self.held.get(name) else {
            return fail(&mut self.load_faults, LoadFault::Failed);
        };
        if bytes.len() as u64 > max {
            return Err(LoadFault::TooLong);
        }
        Ok(Vec::from_slice(alloc, bytes.as_slice())?)
    }

    /// Fails exactly where the call is to fail. A save that fails leaves its own name as before too.
    fn save(&mut self, _alloc: Global, name: &str, bytes: &[u8]) -> Result<(), StoreFault>
        ensures due { FailsWhereDue result (next_fails self.old.calls) }
        ensures counted { Counted self.old.calls self.new.calls }
        ensures saved { OnOk result (Saved name.now bytes.now (Some (names_of self.old)) (Some (names_of self.new))) }
        ensures kept { OnErr result (names_of self.new ≡ names_of self.old) }
        ensures held { IfErr result (λ fault. SaveLeaves fault name.now (Some (names_of self.old)) (Some (names_of self.new))) }
        ensures sound { StaysSound (none_ahead self.old.calls) (none_ahead self.new.calls) }
        ensures surely { IfErr result (λ fault. SoundStore fault (none_ahead self.old.calls)) }
        ensures loads { self.new.load_faults ≡ self.old.load_faults }
        ensures saves { CountsStore result self.old.save_faults self.new.save_faults }
    {
        if self.calls.is_next_to_fail() {
            return fail(&mut self.save_faults, StoreFault::Failed);
        }
        match self.set(name, bytes) {
            Ok(()) => Ok(()),
            Err(NoMemory) => Err(StoreFault::Memory),
        }
    }
}

/// A keeper in memory. Puts and gets are numbered together.
#[derive(Drop)]
pub struct MemKeeper {
    held: Option<Vec<u8>>,
    calls: Calls,
    faults: u64,
    gets: u64,
}

impl MemKeeper {
    ghost use Rattle.std.specs.Prelude.{◌≡◌, None, Some};
    ghost use Rattle.std.specs.Option.{option_map};
    ghost use Rattle.mls_base.specs.Calls.{are_none};

    /// Nothing is kept. A put takes the bytes that it is given, so the keeper itself takes no memory. Where no call
    /// is to fail the keeper is sound.
    pub fn new(_alloc: Global, fails: Vec<u64>) -> MemKeeper
        ensures held { ⟦<MemKeeper as Keeper>⟧.held result ≡ Some None }
        ensures faults { ⟦<MemKeeper as Keeper>⟧.faults result ≡ 0 }
        ensures gets { ⟦<MemKeeper as Keeper>⟧.gets result ≡ 0 }
        ensures sound { ⟦<MemKeeper as Keeper>⟧.sound result ≡ are_none fails.items }
        ensures calls { (result.calls.made ≡ 0) × (result.calls.fails ≡ fails) }
    {
        MemKeeper {
            held: None,
            calls: Calls::new(fails),
            faults: 0,
            gets: 0,
        }
    }

    /// The bytes that are kept, if any are.
    pub fn held(&self) -> Option<&[u8]>
        ensures { ⟦<MemKeeper as Keeper>⟧.held self.now ≡ Some (option_map (λ bytes. bytes.now) result) }
    {
        self.held.as_ref().map(|bytes| bytes.as_slice())
    }
}

impl Keeper for MemKeeper {
    ghost use Rattle.std.specs.Prelude.{◌≡◌, false, None, Some, is_err, IfOk, IfErr, IfSome, OnOk, OnErr, MatchResult};
    ghost use Rattle.std.specs.Option.{option_map};
    ghost use Rattle.mls_base.specs.Memory.{kept_of};
    ghost use Rattle.mls_base.specs.Told.{raised, Rose, StaysSound, SoundStore, CountsStore};
    ghost use Rattle.mls_base.specs.Calls.{next_fails, none_ahead, Counted, FailsWhereDue};

    ghost faults = { λ k. k.faults };

    ghost held = { λ k. Some (kept_of k) };

    ghost sound = { λ k. none_ahead k.calls };

    ghost gets = { λ k. k.gets };

    ghost last_get = { λ k. None };

    /// Fails exactly where the call is to fail.
    fn put(&mut self, bytes: Vec<u8>) -> Result<(), Failed>
        ensures due { is_err result ≡ next_fails self.old.calls }
        ensures counted { Counted self.old.calls self.new.calls }
        ensures held { OnOk result (kept_of self.new ≡ Some bytes.items) }
        ensures ceased { OnErr result (kept_of self.new ≡ kept_of self.old) }
        ensures sound { StaysSound (none_ahead self.old.calls) (none_ahead self.new.calls) }
        ensures surely { OnErr result (none_ahead self.old.calls ≡ false) }
        ensures faultless { OnOk result (self.new.faults ≡ self.old.faults) }
        ensures rose { OnErr result (Rose self.old.faults self.new.faults) }
        ensures gets { self.new.gets ≡ self.old.gets }
    {
        if self.calls.is_next_to_fail() {
            return fail(&mut self.faults, Failed);
        }
        self.held = Some(bytes);
        Ok(())
    }

    /// Fails exactly where the call is to fail.
    fn get(&mut self, alloc: Global) -> Result<Option<Vec<u8>>, StoreFault>
        ensures due { FailsWhereDue result (next_fails self.old.calls) }
        ensures counted { Counted self.old.calls self.new.calls }
        ensures given { IfOk result (λ given. kept_of self.old ≡ option_map (λ bytes. bytes.items) given) }
        ensures held { kept_of self.new ≡ kept_of self.old }
        ensures sound { StaysSound (none_ahead self.old.calls) (none_ahead self.new.calls) }
        ensures surely { IfErr result (λ fault. SoundStore fault (none_ahead self.old.calls)) }
        ensures faults { CountsStore result self.old.faults self.new.faults }
        ensures gets { self.new.gets ≡ raised self.old.gets }
    {
        self.gets = self.gets.saturating_add(1);
        if self.calls.is_next_to_fail() {
            return fail(&mut self.faults, StoreFault::Failed);
        }
        match &self.held {
            Some(bytes) => Ok(Some(Vec::from_slice(alloc, bytes.as_slice())?)),
            None => Ok(None),
        }
    }
}

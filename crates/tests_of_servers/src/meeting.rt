//! Saves at the ends of two lanes of which each waits for the other.

ghost use Rattle.std.specs.Prelude.{◌≡◌, vec_len, IfOk, IsTrue};
ghost use Rattle.std.specs.List.{list_all};
ghost use Rattle.mls_wire.specs.MemLinks.{is_unused};

use crate::common::{HELLO, HELLO_OF_RANK_1, link, serve};
use mls_base::faults::{Failed, StoreFault, fail};
use mls_base::gate::OpenGate;
use mls_base::memory::MemKeeper;
use mls_base::outside::Keeper;
use mls_result::Status;
use mls_wire::{MemDoor, MemLink};
use std::alloc::{AllocError, Global};
use std::sync::Arc;
use std::sync::atomic::{AtomicU64, Ordering};

// Two cells and two ranks, one step, two groups, one parameter.
const TWO_RANKS: &[u8] =
    b"cells = 2\nsteps = 1\ngroups = 2\nranks = 2\nstatistics = [\"power\"]\n[[parameters]]\nname = \"x\"\nlow = 0\nhigh = 9\n";

/// A keeper whose put sets a flag and then waits for another one, and fails where that isn't set in time.
#[derive(Drop)]
struct MeetingKeeper {
    kept: MemKeeper,
    own: Arc<AtomicU64>,
    other: Arc<AtomicU64>,
    faults: u64,
    gets: u64,
}

impl MeetingKeeper {
    /// Sets the keeper's flag, and tells whether the other one was seen set.
    fn meets(&self) -> bool {
        self.own.store(1, Ordering::SeqCst);
        for _ in 0..100_000_000_u32 {
            if self.other.load(Ordering::SeqCst) == 1 {
                return true;
            }
        }
        false
    }
}

impl Keeper for MeetingKeeper {
    ghost use Rattle.std.specs.Prelude.{None, false};

    ghost faults = { λ k. k.faults };

    ghost held = { λ k. None };

    ghost sound = { λ k. false };

    ghost gets = { λ k. k.gets };

    ghost last_get = { λ k. None };

    fn put(&mut self, bytes: Vec<u8>) -> Result<(), Failed> {
        if !self.meets() || self.kept.put(bytes).is_err() {
            return fail(&mut self.faults, Failed);
        }
        Ok(())
    }

    fn get(&mut self, alloc: Global) -> Result<Option<Vec<u8>>, StoreFault> {
        self.gets = self.gets.saturating_add(1);
        match self.kept.get(alloc) {
            Ok(given) => Ok(given),
            Err(StoreFault::Memory) => Err(StoreFault::Memory),
            Err(StoreFault::Failed) => fail(&mut self.faults, StoreFault::Failed),
        }
    }
}

/// A keeper with these flags.
fn keeper(
    alloc: Global,
    own: &Arc<AtomicU64>,
    other: &Arc<AtomicU64>,
) -> Result<MeetingKeeper, AllocError> {
    Ok(MeetingKeeper {
        kept: MemKeeper::new(alloc, Vec::new(alloc)),
        own: Arc::try_clone(own)?,
        other: Arc::try_clone(other)?,
        faults: 0,
        gets: 0,
    })
}

/// Keepers of which the first two wait for one another.
fn keepers(alloc: Global) -> Result<Vec<MeetingKeeper>, AllocError>
    ensures { IfOk result (λ keepers. vec_len keepers ≡ 64) }
{
    let first = Arc::new(alloc, AtomicU64::new(0))?;
    let second = Arc::new(alloc, AtomicU64::new(0))?;
    let mut keepers = Vec::new(alloc);
    keepers.push(keeper(alloc, &first, &second)?)?;
    keepers.push(keeper(alloc, &second, &first)?)?;
    for _ in 0..62_u32 {
        keepers.push(keeper(alloc, &first, &first)?)?;
    }
    Ok(keepers)
}

/// A connection to each of two ranks that greets and ends.
fn greetings(alloc: Global) -> Result<Vec<MemLink>, AllocError>
    ensures { IfOk result (λ links. IsTrue (list_all is_unused links.items)) }
{
    let mut links = Vec::new(alloc);
    links.push(link(alloc, &HELLO, &[], Vec::new(alloc))?)?;
    links.push(link(alloc, &HELLO_OF_RANK_1, &[], Vec::new(alloc))?)?;
    Ok(links)
}

#[test]
fn saves_of_two_lanes_meet(rt: HostRuntime) {
    let alloc = rt.alloc();
    let links = greetings(alloc).expect(&rt, "memory");
    let keepers = keepers(alloc).expect(&rt, "memory");
    let door = MemDoor::new(alloc, links, Vec::new(alloc));
    let left = serve(&rt, alloc, TWO_RANKS, "2", door, keepers, &OpenGate).expect(&rt, "memory");
    assert!(rt; matches!(left.status, Status::Done));
}

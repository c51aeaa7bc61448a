//! Saves of two ranks of which each waits for the other.

ghost use Rattle.std.specs.Prelude.{◌≡◌, vec_len, IfOk};

use crate::common::{TWO_RANKS, files_of, run};
use mls_base::faults::{Failed, StoreFault, fail};
use mls_base::gate::OpenGate;
use mls_base::memory::MemKeeper;
use mls_base::outside::Keeper;
use mls_result::Status;
use std::alloc::{AllocError, Global};
use std::sync::Arc;
use std::sync::atomic::{AtomicU64, Ordering};

// A control lane for each of two ranks, with a save.
const TAPE: &[u8] = &[
    77, 84, 65, 80, 0, 1, 0, 0, 0, 2, 1, 0, 0, 0, 0, 0, 5, 0, 0, 0, 1, 4, 1, 0, 1, 0, 0, 0, 5, 0,
    0, 0, 1, 4,
];

/// A keeper whose put sets a flag and then waits for another one, and fails where that isn't set in time.
#[derive(Drop)]
struct MeetingKeeper {
    kept: MemKeeper,
    own: Arc<AtomicU64>,
    other: Arc<AtomicU64>,
    faults: u64,
    gets: u64,
}

impl MeetingKeeper {
    /// Sets the keeper's flag, and tells whether the other one was seen set.
    fn meets(&self) -> bool {
        self.own.store(1, Ordering::SeqCst);
        for _ in 0..100_000_000_u32 {
            if self.other.load(Ordering::SeqCst) == 1 {
                return true;
            }
        }
        false
    }
}

impl Keeper for MeetingKeeper {
    ghost use Rattle.std.specs.Prelude.{None, false};

    ghost faults = { λ k. k.faults };

    ghost held = { λ k. None };

    ghost sound = { λ k. false };

    ghost gets = { λ k. k.gets };

    ghost last_get = { λ k. None };

    fn put(&mut self, bytes: Vec<u8>) -> Result<(), Failed> {
        if !self.meets() || self.kept.put(bytes).is_err() {
            return fail(&mut self.faults, Failed);
        }
        Ok(())
    }

    fn get(&mut self, alloc: Global) -> Result<Option<Vec<u8>>, StoreFault> {
        self.gets = self.gets.saturating_add(1);
        match self.kept.get(alloc) {
            Ok(given) => Ok(given),
            Err(StoreFault::Memory) => Err(StoreFault::Memory),
            Err(StoreFault::Failed) => fail(&mut self.faults, StoreFault::Failed),
        }
    }
}

/// A keeper with these flags.
fn keeper(
    alloc: Global,
    own: &Arc<AtomicU64>,
    other: &Arc<AtomicU64>,
) -> Result<MeetingKeeper, AllocError> {
    Ok(MeetingKeeper {
        kept: MemKeeper::new(alloc, Vec::new(alloc)),
        own: Arc::try_clone(own)?,
        other: Arc::try_clone(other)?,
        faults: 0,
        gets: 0,
    })
}

/// Keepers of which the first two wait for one another.
fn keepers(alloc: Global) -> Result<Vec<MeetingKeeper>, AllocError>
    ensures { IfOk result (λ keepers. vec_len keepers ≡ 64) }
{
    let first = Arc::new(alloc, AtomicU64::new(0))?;
    let second = Arc::new(alloc, AtomicU64::new(0))?;
    let mut keepers = Vec::new(alloc);
    keepers.push(keeper(alloc, &first, &second)?)?;
    keepers.push(keeper(alloc, &second, &first)?)?;
    for _ in 0..62_u32 {
        keepers.push(keeper(alloc, &first, &first)?)?;
    }
    Ok(keepers)
}

#[test]
fn saves_of_two_ranks_meet(rt: HostRuntime) {
    let alloc = rt.alloc();
    let files = files_of(alloc, TWO_RANKS, TAPE, Vec::new(alloc)).expect(&rt, "memory");
    let keepers = keepers(alloc).expect(&rt, "memory");
    let left = run(&rt, alloc, "2", files, keepers, &OpenGate).expect(&rt, "memory");
    assert!(rt; matches!(left.status, Status::Done));
    assert!(rt;
        left.files
            .held("schedule")
            .is_some_and(|bytes| bytes == b"0 0\n1 1\n".as_slice())
    );
}

//! What the tests share: studies, connections, and a server over files, a sink and a door in memory.

ghost use Rattle.std.specs.Prelude.{◌≡◌, vec_len, IfOk, IsTrue};
ghost use Rattle.std.specs.List.{list_all};
ghost use Rattle.mls_wire.specs.MemLinks.{is_unused};

use mls_base::clock::FixedClock;
use mls_base::gate::Gate;
use mls_base::memory::{MemFiles, MemKeeper, MemSink};
use mls_base::outside::Keeper;
use mls_live::melissad;
use mls_result::Status;
use mls_wire::{MemDoor, MemLink};
use std::alloc::{AllocError, Global};
use std::sync::Wait;
use std::thread::Threads;

/// The greeting of group 0, life 1, client 0, rank 0.
pub(crate) const HELLO: [u8; 19] = [0, 0, 0, 15, 6, 0, 1, 0, 0, 0, 0, 0, 0, 0, 1, 0, 0, 0, 0];

/// The same of rank 1.
pub(crate) const HELLO_OF_RANK_1: [u8; 19] = [
    0, 0, 0, 15, 6, 0, 1, 0, 0, 0, 0, 0, 0, 0, 1, 0, 0, 0, 1,
];

/// Group 0 with samples 7, 9, 9.
pub(crate) const PIECE: [u8; 35] = [
    0, 0, 0, 31, 1, 0, 0, 0, 1, 0, 0, 0, 0, 0, 0, 0, 0, 0, 0, 0, 3, 0, 0, 0, 0, 0, 0, 0, 1, 0, 7,
    0, 9, 0, 9,
];

/// What a server left: its status, what the sink holds, and the keepers.
#[derive(Drop)]
pub(crate) struct Left<K: Keeper + Drop> {
    pub(crate) status: Status,
    pub(crate) text: Vec<u8>,
    pub(crate) keepers: Vec<K>,
}

/// A keeper in memory for each rank there may be. The calls of the first with these numbers fail.
pub(crate) fn no_checkpoints(alloc: Global, fails: Vec<u64>) -> Result<Vec<MemKeeper>, AllocError>
    ensures { IfOk result (λ keepers. vec_len keepers ≡ 64) }
{
    let mut keepers = Vec::new(alloc);
    keepers.push(MemKeeper::new(alloc, fails))?;
    for _ in 0..63_u32 {
        keepers.push(MemKeeper::new(alloc, Vec::new(alloc)))?;
    }
    Ok(keepers)
}

/// A connection that sends these bytes one behind the other. The calls with these numbers fail.
pub(crate) fn link(
    alloc: Global,
    first: &[u8],
    second: &[u8],
    fails: Vec<u64>,
) -> Result<MemLink, AllocError>
    ensures { IfOk result (λ link. IsTrue (is_unused link)) }
{
    let mut bytes = Vec::from_slice(alloc, first)?;
    bytes.extend_from_slice(second)?;
    match MemLink::new(alloc, bytes, 7, 100, fails) {
        Ok(link) => Ok(link),
        Err(_) => Err(AllocError),
    }
}

/// A server of the study for so many connections, at a door with these links.
pub(crate) fn serve<R: Threads + Wait + Sync, K: Keeper + Drop + Send, G: Gate + Sync>(
    rt: &R,
    alloc: Global,
    study: &[u8],
    connections: &str,
    door: MemDoor,
    keepers: Vec<K>,
    gate: &G,
) -> Result<Left<K>, AllocError>
    requires { vec_len keepers ≡ 64 }
{
    let mut files = MemFiles::new(alloc, Vec::new(alloc));
    if files.set("study", study).is_err() {
        return Err(AllocError);
    }
    let mut words = Vec::new(alloc);
    for word in ["serve", "study", "door", connections] {
        words.push(String::from_str(alloc, word)?)?;
    }
    let Ok(mut sink) = MemSink::new(alloc, 10_000, Vec::new(alloc)) else {
        return Err(AllocError);
    };
    let (status, keepers, _) = melissad(
        rt,
        alloc,
        words.as_slice(),
        &mut files,
        &mut sink,
        keepers,
        door,
        FixedClock::new(Vec::new(alloc)),
        gate,
    );
    let text = Vec::from_slice(alloc, sink.bytes())?;
    Ok(Left {
        status,
        text,
        keepers,
    })
}

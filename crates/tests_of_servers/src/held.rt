//! A worker that is held before its first connection until another one has come to serve one.

ghost use Rattle.std.specs.Prelude.{IfOk, IsTrue};
ghost use Rattle.std.specs.List.{list_all};
ghost use Rattle.mls_wire.specs.MemLinks.{is_unused};

use crate::common::{HELLO, PIECE, link, no_checkpoints, serve};
use mls_base::gate::Gate;
use mls_result::Status;
use mls_wire::{MemDoor, MemLink};
use std::alloc::{AllocError, Global};
use std::sync::atomic::{AtomicU64, Ordering};

// One cell, one step, two groups, one parameter.
const STUDY: &[u8] =
    b"cells = 1\nsteps = 1\ngroups = 2\nstatistics = [\"power\"]\n[[parameters]]\nname = \"x\"\nlow = 0\nhigh = 9\n";

/// Holds the first worker that comes until another one has come.
#[derive(Drop)]
struct HoldingGate {
    came: AtomicU64,
    seen: AtomicU64,
}

impl Gate for HoldingGate {
    fn pass(&self, _worker: u32, _turn: u32) {
        if self.came.fetch_add(1, Ordering::SeqCst) > 0 {
            return;
        }
        for _ in 0..100_000_000_u32 {
            if self.came.load(Ordering::SeqCst) > 1 {
                self.seen.store(1, Ordering::SeqCst);
                return;
            }
        }
    }
}

/// Two connections that send the same piece.
fn twice(alloc: Global) -> Result<Vec<MemLink>, AllocError>
    ensures { IfOk result (λ links. IsTrue (list_all is_unused links.items)) }
{
    let mut links = Vec::new(alloc);
    links.push(link(alloc, &HELLO, &PIECE, Vec::new(alloc))?)?;
    links.push(link(alloc, &HELLO, &PIECE, Vec::new(alloc))?)?;
    Ok(links)
}

#[test]
fn other_workers_accept(rt: HostRuntime) {
    let alloc = rt.alloc();
    let links = twice(alloc).expect(&rt, "memory");
    let keepers = no_checkpoints(alloc, Vec::new(alloc)).expect(&rt, "memory");
    let gate = HoldingGate {
        came: AtomicU64::new(0),
        seen: AtomicU64::new(0),
    };
    let door = MemDoor::new(alloc, links, Vec::new(alloc));
    let left = serve(&rt, alloc, STUDY, "2", door, keepers, &gate).expect(&rt, "memory");
    assert!(rt; matches!(left.status, Status::Done) && gate.seen.load(Ordering::SeqCst) == 1);
}

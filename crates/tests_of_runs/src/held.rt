//! A worker that is held before its first offer until another one has gone on.

use crate::common::{TWO_RANKS, files_of, no_checkpoints, run};
use mls_base::gate::Gate;
use mls_result::Status;
use std::sync::atomic::{AtomicU64, Ordering};

// A client's lane of two pieces for each of two ranks.
const TAPE: &[u8] = &[
    77, 84, 65, 80, 0, 1, 0, 0, 0, 2, 0, 0, 0, 0, 0, 0, 70, 0, 0, 0, 31, 1, 0, 0, 0, 1, 0, 0, 0, 0,
    0, 0, 0, 0, 0, 0, 0, 3, 0, 0, 0, 0, 0, 0, 0, 1, 0, 1, 0, 3, 0, 3, 0, 0, 0, 31, 1, 0, 0, 0, 1,
    0, 0, 0, 1, 0, 0, 0, 0, 0, 0, 0, 3, 0, 0, 0, 0, 0, 0, 0, 1, 0, 5, 0, 1, 0, 1, 0, 0, 1, 0, 0, 0,
    70, 0, 0, 0, 31, 1, 0, 0, 0, 1, 0, 0, 0, 0, 0, 0, 0, 0, 0, 0, 0, 3, 0, 0, 0, 1, 0, 0, 0, 1, 0,
    1, 0, 3, 0, 3, 0, 0, 0, 31, 1, 0, 0, 0, 1, 0, 0, 0, 1, 0, 0, 0, 0, 0, 0, 0, 3, 0, 0, 0, 1, 0,
    0, 0, 1, 0, 5, 0, 1, 0, 1,
];

/// Holds worker 0 before its first offer until worker 1 has come to its second.
#[derive(Drop)]
struct HoldingGate {
    gone_on: AtomicU64,
    seen: AtomicU64,
}

impl Gate for HoldingGate {
    fn pass(&self, worker: u32, turn: u32) {
        if worker == 1 && turn == 1 {
            self.gone_on.store(1, Ordering::SeqCst);
        }
        if worker == 0 && turn == 0 {
            for _ in 0..100_000_000_u32 {
                if self.gone_on.load(Ordering::SeqCst) == 1 {
                    self.seen.store(1, Ordering::SeqCst);
                    return;
                }
            }
        }
    }
}

#[test]
fn other_workers_go_on(rt: HostRuntime) {
    let alloc = rt.alloc();
    let files = files_of(alloc, TWO_RANKS, TAPE, Vec::new(alloc)).expect(&rt, "memory");
    let keepers = no_checkpoints(alloc, Vec::new(alloc)).expect(&rt, "memory");
    let gate = HoldingGate {
        gone_on: AtomicU64::new(0),
        seen: AtomicU64::new(0),
    };
    let left = run(&rt, alloc, "2", files, keepers, &gate).expect(&rt, "memory");
    assert!(rt; matches!(left.status, Status::Done) && gate.seen.load(Ordering::SeqCst) == 1);
}

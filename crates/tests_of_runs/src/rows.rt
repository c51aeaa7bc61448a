//! Rows by hand: two clients, and calls that fail.

use crate::common::{files_of, no_checkpoints, run};
use mls_base::gate::OpenGate;
use mls_result::Status;
use std::alloc::Global;

// One cell, one step, two groups, one parameter.
const STUDY: &[u8] =
    b"cells = 1\nsteps = 1\ngroups = 2\nstatistics = [\"power\"]\n[[parameters]]\nname = \"x\"\nlow = 0\nhigh = 9\n";

// Group 0 with samples 1, 3, 3 and group 1 with samples 5, 1, 1, in the only lane.
const TWO_GROUPS: &[u8] = &[
    77, 84, 65, 80, 0, 1, 0, 0, 0, 1, 0, 0, 0, 0, 0, 0, 70, 0, 0, 0, 31, 1, 0, 0, 0, 1, 0, 0, 0, 0,
    0, 0, 0, 0, 0, 0, 0, 3, 0, 0, 0, 0, 0, 0, 0, 1, 0, 1, 0, 3, 0, 3, 0, 0, 0, 31, 1, 0, 0, 0, 1,
    0, 0, 0, 1, 0, 0, 0, 0, 0, 0, 0, 3, 0, 0, 0, 0, 0, 0, 0, 1, 0, 5, 0, 1, 0, 1,
];

const TWO_GROUPS_TEXT: &[u8] =
    b"melissa-result 1\nstudy cells 1 steps 1 groups 2 parameters 1 ranks 1 clients 1\nrank 0 accepted 2 kept 0 replay 0 stale 0 repeated 0 foreign 0 0 0 0 0 0\nlane 0 rank 0 client events 2 clean\nstep 0 cell 0 groups 2\npower 10 36 154 708\nvariance 44/12\nthird 144/64\nend\n";

// Group 0 with samples 1, 3, 3 twice in a client's lane; a save and a crash in a control lane.
const SAVE_CRASH: &[u8] = &[
    77, 84, 65, 80, 0, 1, 0, 0, 0, 2, 0, 0, 0, 0, 0, 0, 70, 0, 0, 0, 31, 1, 0, 0, 0, 1, 0, 0, 0, 0,
    0, 0, 0, 0, 0, 0, 0, 3, 0, 0, 0, 0, 0, 0, 0, 1, 0, 1, 0, 3, 0, 3, 0, 0, 0, 31, 1, 0, 0, 0, 1,
    0, 0, 0, 0, 0, 0, 0, 0, 0, 0, 0, 3, 0, 0, 0, 0, 0, 0, 0, 1, 0, 1, 0, 3, 0, 3, 1, 0, 0, 0, 0, 0,
    10, 0, 0, 0, 1, 4, 0, 0, 0, 1, 5,
];

// Two cells and two clients, a lane of each with its piece of group 0: samples 1, 3, 3 and 5, 1, 1.
const SHARED_STUDY: &[u8] =
    b"cells = 2\nsteps = 1\ngroups = 2\nclients = 2\nstatistics = [\"power\"]\n[[parameters]]\nname = \"x\"\nlow = 0\nhigh = 9\n";

const SHARED: &[u8] = &[
    77, 84, 65, 80, 0, 1, 0, 0, 0, 2, 0, 0, 0, 0, 0, 0, 35, 0, 0, 0, 31, 1, 0, 0, 0, 1, 0, 0, 0, 0,
    0, 0, 0, 0, 0, 0, 0, 3, 0, 0, 0, 0, 0, 0, 0, 1, 0, 1, 0, 3, 0, 3, 0, 0, 0, 0, 0, 0, 35, 0, 0,
    0, 31, 1, 0, 0, 0, 1, 0, 0, 0, 0, 0, 0, 0, 0, 0, 1, 0, 3, 0, 0, 0, 1, 0, 0, 0, 1, 0, 5, 0, 1,
    0, 1,
];

// The powers of the samples 1 and 3, and of 5 and 1, summed by hand.
const SHARED_TEXT: &[u8] =
    b"melissa-result 1\nstudy cells 2 steps 1 groups 2 parameters 1 ranks 1 clients 2\nrank 0 accepted 1 kept 1 replay 0 stale 0 repeated 0 foreign 0 0 0 0 0 0\nlane 0 rank 0 client events 1 clean\nlane 1 rank 0 client events 1 clean\nstep 0 cell 0 groups 1\npower 4 10 28 82\nvariance 4/2\nthird 0/8\nstep 0 cell 1 groups 1\npower 6 26 126 626\nvariance 16/2\nthird 0/8\nend\n";

/// No calls fail.
fn none(alloc: Global) -> Vec<u64> {
    Vec::new(alloc)
}

#[test]
fn two_clients_by_two_workers(rt: HostRuntime) {
    let alloc = rt.alloc();
    let files = files_of(alloc, SHARED_STUDY, SHARED, none(alloc)).expect(&rt, "memory");
    let keepers = no_checkpoints(alloc, none(alloc)).expect(&rt, "memory");
    let left = run(&rt, alloc, "2", files, keepers, &OpenGate).expect(&rt, "memory");
    assert!(rt; matches!(left.status, Status::Done) && left.text.as_slice() == SHARED_TEXT);
    let schedule = left.files.held("schedule").unwrap_or(&[]);
    assert!(rt; schedule == b"0 0\n0 1\n".as_slice() || schedule == b"0 1\n0 0\n".as_slice());
}

#[test]
fn failed_save_of_the_schedule_is_told(rt: HostRuntime) {
    let alloc = rt.alloc();
    let fails = vec![in alloc; 2].expect(&rt, "memory");
    let files = files_of(alloc, STUDY, TWO_GROUPS, fails).expect(&rt, "memory");
    let keepers = no_checkpoints(alloc, none(alloc)).expect(&rt, "memory");
    let left = run(&rt, alloc, "1", files, keepers, &OpenGate).expect(&rt, "memory");
    assert!(rt;
        matches!(left.status, Status::WriteFault) && left.text.as_slice() == TWO_GROUPS_TEXT
    );
    assert!(rt; left.files.held("schedule").is_none());
}

#[test]
fn failed_put_is_told(rt: HostRuntime) {
    let alloc = rt.alloc();
    let files = files_of(alloc, STUDY, SAVE_CRASH, none(alloc)).expect(&rt, "memory");
    let fails = vec![in alloc; 0].expect(&rt, "memory");
    let keepers = no_checkpoints(alloc, fails).expect(&rt, "memory");
    let left = run(&rt, alloc, "1", files, keepers, &OpenGate).expect(&rt, "memory");
    assert!(rt; matches!(left.status, Status::KeeperFault { rank: 0 }) && left.text.is_empty());
    assert!(rt; left.files.held("schedule").is_none());
}

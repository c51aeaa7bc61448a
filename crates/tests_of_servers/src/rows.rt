//! Rows by hand: one connection, hostile ones beside it, and calls that fail.

ghost use Rattle.std.specs.Prelude.{IfOk, IsTrue};
ghost use Rattle.std.specs.List.{list_all};
ghost use Rattle.mls_wire.specs.MemLinks.{is_unused};

use crate::common::{HELLO, Left, PIECE, link, no_checkpoints, serve};
use mls_base::gate::OpenGate;
use mls_base::memory::MemKeeper;
use mls_result::Status;
use mls_wire::{MemDoor, MemLink};
use std::alloc::{AllocError, Global};
use std::sync::Wait;
use std::thread::Threads;

// One cell, one step, two groups, one parameter; two slots.
const STUDY: &[u8] =
    b"cells = 1\nsteps = 1\ngroups = 2\nslots = 2\nstatistics = [\"power\", \"sobol\"]\n[[parameters]]\nname = \"x\"\nlow = 0\nhigh = 9\n";

// The same of one slot.
const ONE_SLOT_STUDY: &[u8] =
    b"cells = 1\nsteps = 1\ngroups = 2\nslots = 1\nstatistics = [\"power\", \"sobol\"]\n[[parameters]]\nname = \"x\"\nlow = 0\nhigh = 9\n";

// The powers of 7 and 9, and what a launcher with two slots does.
const TEXT: &[u8] =
    b"melissa-result 1\nstudy cells 1 steps 1 groups 2 parameters 1 ranks 1 clients 1\nrank 0 accepted 1 kept 0 replay 0 stale 0 repeated 0 foreign 0 0 0 0 0 0\nlane 1 rank 0 client events 1 clean\nstep 0 cell 0 groups 1\npower 16 130 1072 8962\nvariance 4/2\nthird 0/8\nsobol x - - 0 0 0 0 0\nend\nmelissa-watch 1\n0 start 0 1\n0 start 1 1\nend running 2 waiting 0 finished 0 givenup 0\n";

// The same powers, and what a launcher with one slot does.
const ONE_SLOT_TEXT: &[u8] =
    b"melissa-result 1\nstudy cells 1 steps 1 groups 2 parameters 1 ranks 1 clients 1\nrank 0 accepted 1 kept 0 replay 0 stale 0 repeated 0 foreign 0 0 0 0 0 0\nlane 1 rank 0 client events 1 clean\nstep 0 cell 0 groups 1\npower 16 130 1072 8962\nvariance 4/2\nthird 0/8\nsobol x - - 0 0 0 0 0\nend\nmelissa-watch 1\n0 start 0 1\nend running 1 waiting 1 finished 0 givenup 0\n";

// Nothing came.
const NONE_TEXT: &[u8] =
    b"melissa-result 1\nstudy cells 1 steps 1 groups 2 parameters 1 ranks 1 clients 1\nrank 0 accepted 0 kept 0 replay 0 stale 0 repeated 0 foreign 0 0 0 0 0 0\nstep 0 cell 0 groups 0\npower -\nvariance -\nthird -\nsobol x - - 0 0 0 0 0\nend\nmelissa-watch 1\n0 start 0 1\n0 start 1 1\nend running 2 waiting 0 finished 0 givenup 0\n";

/// The numbers of calls that fail: this one.
fn call(alloc: Global, number: u64) -> Result<Vec<u64>, AllocError> {
    let mut calls = Vec::new(alloc);
    calls.push(number)?;
    Ok(calls)
}

/// No calls fail.
fn none(alloc: Global) -> Vec<u64> {
    Vec::new(alloc)
}

/// A list of one link.
fn one(alloc: Global, link: MemLink) -> Result<Vec<MemLink>, AllocError>
    requires { IsTrue (is_unused link) }
    ensures { IfOk result (λ links. IsTrue (list_all is_unused links.items)) }
{
    let mut links = Vec::new(alloc);
    links.push(link)?;
    Ok(links)
}

/// One connection with the piece, for a study. Calls of the door, of the link and of the first keeper fail.
fn serve_one<R: Threads + Wait + Sync>(
    rt: &R,
    alloc: Global,
    study: &[u8],
    door: Vec<u64>,
    reads: Vec<u64>,
    puts: Vec<u64>,
) -> Result<Left<MemKeeper>, AllocError> {
    let links = one(alloc, link(alloc, &HELLO, &PIECE, reads)?)?;
    let keepers = no_checkpoints(alloc, puts)?;
    serve(
        rt,
        alloc,
        study,
        "1",
        MemDoor::new(alloc, links, door),
        keepers,
        &OpenGate,
    )
}

#[test]
fn connection_is_served(rt: HostRuntime) {
    let alloc = rt.alloc();
    let left = serve_one(&rt, alloc, STUDY, none(alloc), none(alloc), none(alloc)).expect(
        &rt, "memory",
    );
    assert!(rt; matches!(left.status, Status::Done) && left.text.as_slice() == TEXT);
    let kept = left.keepers.first().and_then(|keeper| keeper.held());
    assert!(rt; kept.is_some_and(|bytes| bytes.len() == 249));
}

#[test]
fn second_group_waits_for_a_slot(rt: HostRuntime) {
    let alloc = rt.alloc();
    let left = serve_one(
        &rt,
        alloc,
        ONE_SLOT_STUDY,
        none(alloc),
        none(alloc),
        none(alloc),
    )
    .expect(&rt, "memory");
    assert!(rt; matches!(left.status, Status::Done) && left.text.as_slice() == ONE_SLOT_TEXT);
}

#[test]
fn failed_calls_are_told(rt: HostRuntime) {
    let alloc = rt.alloc();
    for number in [0_u64, 1] {
        let fails = call(alloc, number).expect(&rt, "memory");
        let left = serve_one(&rt, alloc, STUDY, fails, none(alloc), none(alloc)).expect(
            &rt, "memory",
        );
        assert!(rt; matches!(left.status, Status::DoorFault) && left.text.is_empty());
    }
    let fails = call(alloc, 0).expect(&rt, "memory");
    let left = serve_one(&rt, alloc, STUDY, none(alloc), fails, none(alloc)).expect(&rt, "memory");
    assert!(rt; matches!(left.status, Status::Done) && left.text.as_slice() == NONE_TEXT);
    let fails = call(alloc, 1).expect(&rt, "memory");
    let left = serve_one(&rt, alloc, STUDY, none(alloc), none(alloc), fails).expect(&rt, "memory");
    assert!(rt; matches!(left.status, Status::KeeperFault { rank: 0 }) && left.text.is_empty());
}

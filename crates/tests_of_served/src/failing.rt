//! Calls of links and posts that fail.

use crate::serving::{Connection, WELCOME, after_hello, piece, serve};
use mls_base::faults::NoMemory;
use mls_book::BookFault;
use mls_model::lanes::LaneEnd;
use mls_serve::{LaneFault, Served};
use std::alloc::Global;

/// The connection with a Hello and a piece, read by 19 bytes. One call of its link fails.
fn with_failing_call(alloc: Global, number: u64) -> Result<Connection, NoMemory> {
    let bytes = after_hello(alloc, &piece(0, 0, 0, 0))?;
    let fails = vec![in alloc; number]?;
    serve(alloc, bytes.as_slice(), 19, fails, Vec::new(alloc))
}

#[test]
fn calls_of_a_link_fail(rt: HostRuntime) -> Result<(), NoMemory> {
    let alloc = rt.alloc();
    let early = Ok(Served::Early(LaneEnd::Fault { at: 0 }));
    assert!(rt; with_failing_call(alloc, 0)?.is(early, &[], &[]));
    assert!(rt; with_failing_call(alloc, 1)?.is(early, &[], &[]));
    let first = with_failing_call(alloc, 2)?;
    assert!(rt; first.is_lane(0, LaneEnd::Fault { at: 0 }, &[]));
    let second = with_failing_call(alloc, 3)?;
    assert!(rt; second.is_lane(0, LaneEnd::Fault { at: 0 }, &[]));
    let third = with_failing_call(alloc, 4)?;
    assert!(rt; third.is_lane(1, LaneEnd::Fault { at: 35 }, &piece(0, 0, 0, 0)));
    let later = with_failing_call(alloc, 5)?;
    assert!(rt; later.is_lane(1, LaneEnd::Clean, &piece(0, 0, 0, 0)));
    Ok(())
}

/// The connection with a Hello and a piece. One offer of its post fails.
fn with_failing_offer(alloc: Global, number: u64) -> Result<Connection, NoMemory> {
    let bytes = after_hello(alloc, &piece(0, 0, 0, 0))?;
    let fails = vec![in alloc; number]?;
    serve(alloc, bytes.as_slice(), 64, Vec::new(alloc), fails)
}

#[test]
fn offers_fail(rt: HostRuntime) -> Result<(), NoMemory> {
    let alloc = rt.alloc();
    let fault = Err(LaneFault {
        rank: 0,
        fault: BookFault::KeeperFault,
    });
    assert!(rt; with_failing_offer(alloc, 0)?.is(fault, WELCOME, &[]));
    assert!(rt; with_failing_offer(alloc, 1)?.is(fault, WELCOME, &piece(0, 0, 0, 0)));
    let later = with_failing_offer(alloc, 2)?;
    assert!(rt; later.is_lane(1, LaneEnd::Clean, &piece(0, 0, 0, 0)));
    Ok(())
}

//! The worked connections.

use crate::serving::{BEAT, HELLO, SAVE, WELCOME, after_hello, piece, serve};
use mls_base::faults::NoMemory;
use mls_model::lanes::LaneEnd;
use mls_serve::Served;
use std::alloc::Global;

#[test]
fn a_lane_is_served_for_every_cut(rt: HostRuntime) -> Result<(), NoMemory> {
    let alloc = rt.alloc();
    let piece = piece(0, 0, 0, 0);
    let bytes = after_hello(alloc, &piece)?;
    for cut in [1, 7, 64] {
        let connection = serve(
            alloc,
            bytes.as_slice(),
            cut,
            Vec::new(alloc),
            Vec::new(alloc),
        )?;
        assert!(rt; connection.is_lane(1, LaneEnd::Clean, &piece));
        assert_eq!(rt; connection.post.spelled().len(), 40);
    }
    Ok(())
}

/// Whether a connection that begins with these bytes is refused so, and nothing is posted.
fn is_refused(
    alloc: Global,
    bytes: &[u8],
    reason: u8,
    value: u32,
    written: &[u8],
) -> Result<bool, NoMemory> {
    let connection = serve(alloc, bytes, 64, Vec::new(alloc), Vec::new(alloc))?;
    Ok(connection.is(Ok(Served::Refused { reason, value }), written, &[]))
}

#[test]
fn first_frames_are_refused(rt: HostRuntime) -> Result<(), NoMemory> {
    let alloc = rt.alloc();
    let other_group = [0, 0, 0, 15, 6, 0, 1, 0, 0, 0, 7, 0, 0, 0, 1, 0, 0, 0, 0];
    let no_group = [0, 0, 0, 6, 8, 2, 0, 0, 0, 7];
    let no_hello = [0, 0, 0, 6, 8, 6, 0, 0, 0, 0];
    assert!(rt; is_refused(alloc, &other_group, 2, 7, &no_group)?);
    assert!(rt; is_refused(alloc, BEAT, 6, 0, &no_hello)?);
    assert!(rt; is_refused(alloc, WELCOME, 6, 0, &no_hello)?);
    assert!(rt; is_refused(alloc, SAVE, 6, 0, &no_hello)?);
    Ok(())
}

/// Whether a connection that gives these bytes alone ends so, and nothing is written or posted.
fn is_early(alloc: Global, bytes: &[u8], end: LaneEnd) -> Result<bool, NoMemory> {
    let connection = serve(alloc, bytes, 64, Vec::new(alloc), Vec::new(alloc))?;
    Ok(connection.is(Ok(Served::Early(end)), &[], &[]))
}

#[test]
fn connections_end_early(rt: HostRuntime) -> Result<(), NoMemory> {
    let alloc = rt.alloc();
    let front = HELLO.split_at(18).0;
    assert!(rt; is_early(alloc, &[], LaneEnd::Clean)?);
    assert!(rt; is_early(alloc, front, LaneEnd::Cut { at: 0 })?);
    assert!(rt; is_early(alloc, &[4, 0, 0, 0], LaneEnd::Cut { at: 0 })?);
    assert!(rt; is_early(alloc, &[4, 0, 0, 1], LaneEnd::BadLength { at: 0 })?);
    assert!(rt; is_early(alloc, &[0, 0, 0, 1, 9], LaneEnd::BadKind { at: 0 })?);
    Ok(())
}

//! Lanes that no client should have.

use crate::serving::{BEAT, HELLO, SAVE, WELCOME, after_hello, piece, serve};
use mls_base::faults::NoMemory;
use mls_model::lanes::LaneEnd;
use mls_serve::Served;
use std::alloc::Global;

/// Whether a lane with these bytes has so many events and ends so, and its first `offered` bytes are the frames that
/// were offered before the Save.
fn ends(
    alloc: Global,
    tail: &[u8],
    events: u32,
    offered: usize,
    end: LaneEnd,
) -> Result<bool, NoMemory> {
    let bytes = after_hello(alloc, tail)?;
    let connection = serve(
        alloc,
        bytes.as_slice(),
        64,
        Vec::new(alloc),
        Vec::new(alloc),
    )?;
    match tail.get(..offered) {
        Some(frames) => Ok(connection.is_lane(events, end, frames)),
        None => Ok(false),
    }
}

#[test]
fn bad_bytes_end_a_lane(rt: HostRuntime) -> Result<(), NoMemory> {
    let alloc = rt.alloc();
    let length = LaneEnd::BadLength { at: 0 };
    assert!(rt; ends(alloc, &[0, 0, 0, 0], 0, 0, length)?);
    assert!(rt; ends(alloc, &[4, 0, 0, 1], 0, 0, length)?);
    assert!(rt; ends(alloc, &[0, 0, 0, 1, 10], 0, 0, LaneEnd::BadKind { at: 0 })?);
    assert!(rt; ends(alloc, &[0, 0, 0, 26, 1], 0, 0, length)?);
    let rows = [
        0, 0, 0, 27, 1, 0, 0, 0, 0, 0, 0, 0, 0, 0, 0, 0, 0, 0, 0, 255, 255, 0, 0, 0, 0, 255, 255,
        255, 255,
    ];
    assert!(rt; ends(alloc, &rows, 0, 0, length)?);
    let none = [
        0, 0, 0, 25, 1, 0, 0, 0, 0, 0, 0, 0, 0, 0, 0, 0, 0, 0, 0, 0, 0, 0, 0, 0, 0, 0, 0, 0, 0,
    ];
    assert!(rt; ends(alloc, &none, 1, 29, LaneEnd::Clean)?);
    Ok(())
}

#[test]
fn long_lengths_with_nothing_behind_are_cut(rt: HostRuntime) -> Result<(), NoMemory> {
    let alloc = rt.alloc();
    let cut = LaneEnd::Cut { at: 0 };
    assert!(rt; ends(alloc, &[4, 0, 0, 0], 0, 0, cut)?);
    assert!(rt; ends(alloc, &[3, 255, 255, 255, 1], 0, 0, cut)?);
    Ok(())
}

/// How a good connection of 67 bytes is answered that is cut after so many: a Hello, a Beat and a piece.
fn is_cut(alloc: Global, bytes: &[u8], size: usize) -> Result<bool, NoMemory> {
    let Some(front) = bytes.get(..size) else {
        return Ok(false);
    };
    let connection = serve(alloc, front, 64, Vec::new(alloc), Vec::new(alloc))?;
    let frames = bytes.get(19..).unwrap_or(&[]);
    Ok(match size {
        0 => connection.is(Ok(Served::Early(LaneEnd::Clean)), &[], &[]),
        1..=18 => connection.is(Ok(Served::Early(LaneEnd::Cut { at: 0 })), &[], &[]),
        19 => connection.is_lane(0, LaneEnd::Clean, &[]),
        20..=31 => connection.is_lane(0, LaneEnd::Cut { at: 0 }, &[]),
        32 => connection.is_lane(1, LaneEnd::Clean, BEAT),
        33..=66 => connection.is_lane(1, LaneEnd::Cut { at: 13 }, BEAT),
        _ => connection.is_lane(2, LaneEnd::Clean, frames),
    })
}

#[test]
fn a_connection_is_cut_at_each_byte(rt: HostRuntime) -> Result<(), NoMemory> {
    let alloc = rt.alloc();
    let mut bytes = after_hello(alloc, BEAT)?;
    bytes.extend_from_slice(&piece(0, 0, 0, 0))?;
    for size in 0..=67_usize {
        assert!(rt; is_cut(alloc, bytes.as_slice(), size)?);
    }
    Ok(())
}

#[test]
fn frames_of_the_handshake_are_offered(rt: HostRuntime) -> Result<(), NoMemory> {
    let alloc = rt.alloc();
    assert!(rt; ends(alloc, HELLO, 1, 19, LaneEnd::Clean)?);
    assert!(rt; ends(alloc, WELCOME, 1, 9, LaneEnd::Clean)?);
    Ok(())
}

#[test]
fn foreign_frames_are_offered(rt: HostRuntime) -> Result<(), NoMemory> {
    let alloc = rt.alloc();
    let clean = LaneEnd::Clean;
    assert!(rt; ends(alloc, SAVE, 1, 5, clean)?);
    assert!(rt; ends(alloc, &[0, 0, 0, 1, 5], 1, 5, clean)?);
    assert!(rt; ends(alloc, &piece(2, 0, 0, 0), 1, 35, clean)?);
    assert!(rt; ends(alloc, &piece(0, 1, 0, 0), 1, 35, clean)?);
    assert!(rt; ends(alloc, &piece(0, 0, 1, 0), 1, 35, clean)?);
    assert!(rt; ends(alloc, &piece(0, 0, 0, 1), 1, 35, clean)?);
    Ok(())
}

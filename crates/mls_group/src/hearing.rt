//! The group's reading of the server's answer.

ghost use Rattle.std.specs.Prelude.{◌≡◌, ◌+◌, ◌≤◌, ◌++◌, length, vec_len, vec_capacity, IfOk, IfErr, OnErr};
ghost use Rattle.mls_base.specs.Told.{StaysSound};
ghost use Rattle.mls_wire.specs.Sessions.{reply_in};
ghost use Rattle.mls_group.specs.Faults.{CountsStop, SoundStop};
ghost use Rattle.mls_group.specs.Hearing.{Heard, StopHeard};

use crate::faults::Stop;
use mls_frame::{Seen, view};
use mls_wire::{Link, Reply, answer};
use std::alloc::Global;

/// How many bytes are read at once. An answer has nine or ten.
const CHUNK: usize = 64;

/// What the bytes that were read say, or None while they are too few to tell. Bytes that are no frame's front are
/// no answer.
fn reply_in(bytes: &[u8]) -> Option<Reply>
    ensures { result ≡ reply_in bytes.now }
{
    match view(bytes) {
        Seen::Whole { frame, .. } => Some(answer(&frame)),
        Seen::More => None,
        Seen::Bad(_) => Some(Reply::Other),
    }
}

/// Appends bytes for which there is room.
fn add(out: &mut Vec<u8>, bytes: &[u8])
    requires { vec_len out.old + length bytes.now ≤ vec_capacity out.old }
    ensures { out.new.items ≡ out.old.items ++ bytes.now }
{
    match out.extend_from_slice(bytes) {
        Ok(()) => {}
        Err(_) => unreachable!(),
    }
}

/// Reads up to what the server says first, or to the end of input: then it is None.
pub fn hear<L: Link>(alloc: Global, link: &mut L) -> Result<Option<Reply>, Stop>
    ensures heard { IfOk result (λ reply. Heard reply (L.told link.old) (L.told link.new)) }
    ensures nothing { IfErr result (λ stop. StopHeard stop (L.told link.old) (L.told link.new)) }
    ensures faults { CountsStop result (L.faults link.old) (L.faults link.new) }
    ensures sound { StaysSound (L.sound link.old) (L.sound link.new) }
    ensures surely { IfErr result (λ stop. SoundStop stop (L.sound link.old)) }
    ensures sure { L.sure link.old ≤ L.sure link.new }
{
    let mut bytes = Vec::new(alloc);
    let mut buffer = [0u8; CHUNK];
    let mut reply = None;
    while reply.is_none() {
        bytes.reserve(CHUNK)?;
        let n = link.read(&mut buffer)?;
        if n == 0 {
            return Ok(None);
        }
        add(&mut bytes, buffer.split_at(n).0);
        reply = reply_in(bytes.as_slice());
    }
    Ok(reply)
}

//! A group of the worked design, sent over links in memory.

ghost use Rattle.std.specs.Prelude.{IfOk, IsTrue};
ghost use Rattle.mls_wire.specs.MemLinks.{is_unused};

use mls_design::Design;
use mls_group::{GroupFault, PairFault, send_group, send_pair};
use mls_study::{Study, read_study};
use mls_wire::{MemDoor, MemLink, Pair};
use std::alloc::{AllocError, Global};

/// One cell, one step, two groups, one parameter.
pub(crate) const STUDY: &[u8] =
    b"cells = 1\nsteps = 1\ngroups = 2\nseed = 42\n[[parameters]]\nname = \"x\"\nlow = 0\nhigh = 4294967295\n";

/// A welcome as lane 1, and a refusal for reason 2 and value 7.
pub(crate) const WELCOME: &[u8] = &[0, 0, 0, 5, 7, 0, 0, 0, 1];

pub(crate) const REFUSE: &[u8] = &[0, 0, 0, 6, 8, 2, 0, 0, 0, 7];

/// Group 0, life 1: hello, beat, the piece with samples 670, 507, 507, and bye.
pub(crate) const SENT: &[u8] = &[
    0, 0, 0, 15, 6, 0, 1, 0, 0, 0, 0, 0, 0, 0, 1, 0, 0, 0, 0, 0, 0, 0, 9, 2, 0, 0, 0, 0, 0, 0, 0,
    1, 0, 0, 0, 31, 1, 0, 0, 0, 1, 0, 0, 0, 0, 0, 0, 0, 0, 0, 0, 0, 3, 0, 0, 0, 0, 0, 0, 0, 1, 2,
    158, 1, 251, 1, 251, 0, 0, 0, 9, 3, 0, 0, 0, 0, 0, 0, 0, 1,
];

/// A link that gives these bytes, and of whose calls these fail.
fn link_of(alloc: Global, answer: &[u8], fails: Vec<u64>) -> Result<MemLink, AllocError>
    ensures unused { IfOk result (λ link. IsTrue (is_unused link)) }
{
    let bytes = Vec::from_slice(alloc, answer)?;
    match MemLink::new(alloc, bytes, 7, 1000, fails) {
        Ok(link) => Ok(link),
        Err(_) => Err(AllocError),
    }
}

/// A door with one such link.
pub(crate) fn door_of(
    alloc: Global,
    answer: &[u8],
    fails: Vec<u64>,
) -> Result<MemDoor, AllocError> {
    let link = link_of(alloc, answer, fails)?;
    let mut links = Vec::new(alloc);
    links.push(link)?;
    Ok(MemDoor::new(alloc, links, Vec::new(alloc)))
}

/// What was written to the only closed link of a door, or None where there isn't exactly one.
pub(crate) fn written(door: &MemDoor) -> Option<&[u8]> {
    match door.closed() {
        [link] => Some(link.written()),
        _ => None,
    }
}

fn study(alloc: Global) -> Result<Study, AllocError> {
    read_study(alloc, STUDY).ok().ok_or(AllocError)
}

/// Sends group 0, life 1 through a door.
fn send(alloc: Global, door: &mut MemDoor) -> Result<Result<(), GroupFault>, AllocError> {
    let study = study(alloc)?;
    study.valid();
    let design = Design::new(alloc, &study).ok().ok_or(AllocError)?;
    Ok(send_group(alloc, &study, &design, 0, 1, "door", door))
}

#[test]
fn group_is_sent(rt: HostRuntime) {
    let alloc = rt.alloc();
    let mut door = door_of(alloc, WELCOME, Vec::new(alloc)).expect(&rt, "memory");
    let sent = send(alloc, &mut door).expect(&rt, "memory");
    assert!(rt; sent == Ok(()) && written(&door) == Some(SENT));
}

#[test]
fn group_is_refused(rt: HostRuntime) {
    let alloc = rt.alloc();
    let mut door = door_of(alloc, REFUSE, Vec::new(alloc)).expect(&rt, "memory");
    let sent = send(alloc, &mut door).expect(&rt, "memory");
    assert!(rt;
        sent == Err(GroupFault::Refused {
            reason: 2,
            value: 7
        })
    );
    assert!(rt; written(&door) == SENT.get(..19));
}

#[test]
fn failed_write_is_told(rt: HostRuntime) {
    let alloc = rt.alloc();
    let fails = vec![in alloc; 0].expect(&rt, "memory");
    let mut door = door_of(alloc, WELCOME, fails).expect(&rt, "memory");
    let sent = send(alloc, &mut door).expect(&rt, "memory");
    assert!(rt; sent == Err(GroupFault::LinkFault) && written(&door) == Some(&[]));
}

#[test]
fn pair_is_sent(rt: HostRuntime) {
    let alloc = rt.alloc();
    let study = study(alloc).expect(&rt, "memory");
    study.valid();
    let design = Design::new(alloc, &study).expect(&rt, "memory");
    let mut link = link_of(alloc, WELCOME, Vec::new(alloc)).expect(&rt, "memory");
    let pair = Pair { rank: 0, client: 0 };
    let sent = send_pair(alloc, &study, &design, 0, 1, &pair, true, &mut link);
    assert!(rt; sent == Ok(()) && link.written() == SENT);
    let again: Result<(), PairFault> = send_pair(
        alloc, &study, &design, 0, 1, &pair, true, &mut link,
    );
    assert!(rt; again == Err(PairFault::Peer));
}

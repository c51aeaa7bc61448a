//! The command `group` over files, a sink, keepers and a door in memory.

ghost use Rattle.std.specs.Prelude.{◌≡◌, vec_len, IfOk};

use crate::group::{REFUSE, SENT, STUDY, WELCOME, door_of, written};
use mls_base::clock::FixedClock;
use mls_base::gate::OpenGate;
use mls_base::memory::{MemFiles, MemKeeper, MemSink};
use mls_live::melissad;
use mls_result::Status;
use mls_wire::MemDoor;
use std::alloc::{AllocError, Global};
use std::sync::Wait;
use std::thread::Threads;

/// A keeper in memory for each rank there may be, none of which holds anything.
fn no_checkpoints(alloc: Global) -> Result<Vec<MemKeeper>, AllocError>
    ensures { IfOk result (λ keepers. vec_len keepers ≡ 64) }
{
    let mut keepers = Vec::new(alloc);
    for _ in 0..64_u32 {
        keepers.push(MemKeeper::new(alloc, Vec::new(alloc)))?;
    }
    Ok(keepers)
}

/// The words of the command for a group.
fn words(alloc: Global, group: &str) -> Result<Vec<String>, AllocError> {
    let mut words = Vec::new(alloc);
    for word in ["group", "study", group, "1", "door"] {
        words.push(String::from_str(alloc, word)?)?;
    }
    Ok(words)
}

/// The number of the command's status for a group, and the door after it.
fn run<R: Threads + Wait + Sync>(
    rt: &R,
    alloc: Global,
    group: &str,
    door: MemDoor,
) -> Result<(u8, MemDoor), AllocError> {
    let mut files = MemFiles::new(alloc, Vec::new(alloc));
    if files.set("study", STUDY).is_err() {
        return Err(AllocError);
    }
    let Ok(mut sink) = MemSink::new(alloc, 100, Vec::new(alloc)) else {
        return Err(AllocError);
    };
    let words = words(alloc, group)?;
    let keepers = no_checkpoints(alloc)?;
    let (status, _, door) = melissad(
        rt,
        alloc,
        words.as_slice(),
        &mut files,
        &mut sink,
        keepers,
        door,
        FixedClock::new(Vec::new(alloc)),
        &OpenGate,
    );
    Ok((status.number(), door))
}

/// The number of the status for a group whose link gives these bytes and has these calls fail, and what was written.
fn answer<R: Threads + Wait + Sync>(
    rt: &R,
    alloc: Global,
    group: &str,
    bytes: &[u8],
    fails: Vec<u64>,
) -> Result<(u8, Option<Vec<u8>>), AllocError> {
    let door = door_of(alloc, bytes, fails)?;
    let (number, door) = run(rt, alloc, group, door)?;
    match written(&door) {
        Some(bytes) => Ok((number, Some(Vec::from_slice(alloc, bytes)?))),
        None => Ok((number, None)),
    }
}

#[test]
fn command_sends_a_group(rt: HostRuntime) {
    let alloc = rt.alloc();
    let (number, sent) = answer(&rt, alloc, "0", WELCOME, Vec::new(alloc)).expect(&rt, "memory");
    assert!(rt; number == 0);
    assert!(rt; sent.is_some_and(|bytes| bytes.as_slice() == SENT));
}

#[test]
fn statuses_of_a_group(rt: HostRuntime) {
    let alloc = rt.alloc();
    let refused = answer(&rt, alloc, "0", REFUSE, Vec::new(alloc)).expect(&rt, "memory");
    let no_answer = answer(&rt, alloc, "0", &[], Vec::new(alloc)).expect(&rt, "memory");
    let no_group = answer(&rt, alloc, "2", WELCOME, Vec::new(alloc)).expect(&rt, "memory");
    let no_number = answer(&rt, alloc, "65535", WELCOME, Vec::new(alloc)).expect(&rt, "memory");
    let fails = vec![in alloc; 0].expect(&rt, "memory");
    let broken = answer(&rt, alloc, "0", WELCOME, fails).expect(&rt, "memory");
    let shut = MemDoor::new(alloc, Vec::new(alloc), Vec::new(alloc));
    let (unreached, _) = run(&rt, alloc, "0", shut).expect(&rt, "memory");
    assert!(rt; refused.0 == 15 && no_answer.0 == 16 && broken.0 == 14 && unreached == 11);
    assert!(rt; no_group.0 == 17 && no_group.1.is_none());
    assert!(rt; no_number.0 == 1 && no_number.1.is_none());
}

#[test]
fn statuses_of_connections_have_texts(rt: HostRuntime) {
    let alloc = rt.alloc();
    let refused = Status::Refused {
        reason: 2,
        value: 7,
    };
    let none = Status::NoGroup { group: 5 };
    let differ = Status::MarksDiffer {
        other: 3,
        plane: 1,
        group: 4,
        first_has: true,
    };
    let old = Status::OldRanks { ranks: 65 };
    let texts = format!(in alloc;
        "{refused}, {none}, {}, {}, {}, {}, {}, {differ}, {old}",
        Status::DoorFault,
        Status::LinkFault,
        Status::Peer,
        Status::TooLarge,
        Status::RunnerFault
    );
    let text =
        "refused by server: reason 2 value 7, no such group: 5, cannot listen or connect, connection failed, unexpected answer, trial too large, runner failed, marks differ: rank 0 and rank 3 at plane 1 group 4, cannot resume from 65 ranks";
    assert!(rt; texts.expect(&rt, "memory").as_str() == text);
}

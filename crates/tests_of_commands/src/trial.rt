//! The trial of one group, and its summary.

use crate::cli::no_checkpoints;
use mls_base::memory::MemSink;
use mls_design::make_tape;
use mls_study::{Study, read_study};
use mls_trial::{complete_schedules_are_legal, fold_trial};
use std::alloc::Global;
use std::test::*;

const ONE_GROUP: &[u8] =
    b"cells = 1\nsteps = 1\ngroups = 1\nseed = 42\n[[parameters]]\nname = \"x\"\nlow = 0\nhigh = 4294967295\n";

const SCHEDULE: &[u8] = b"0 0\n0 1\n0 1\n0 0\n0 1\n0 1\n0 2\n";

const SUMMARY: &[u8] =
    b"melissa-trial 1\nnumber 42\nlanes 3 events 7\nrank 0 accepted 1 kept 0 replay 1 stale 0 repeated 0 foreign 0 0 0 0 0 0\ngroups 1 1\nsum 1177 705949\nend\n";

fn study(alloc: Global) -> Result<Study, Fail> {
    Ok(read_study(alloc, ONE_GROUP).ok().ok_or("a study")?)
}

#[test]
fn small_trial(rt: HostRuntime) -> Result<(), Fail> {
    let alloc = rt.alloc();
    let study = study(alloc)?;
    let made = make_tape(alloc, &study, 42).ok().ok_or("a tape")?;
    assert_eq!(rt; made.tape.lane_count(), 3);
    assert_eq!(rt; made.tape.bytes().len(), 134);
    let lists = made.schedule.put(alloc).ok().ok_or("memory")?;
    assert!(rt; lists.as_slice() == SCHEDULE);
    Ok(())
}

#[test]
fn small_trial_summary(rt: HostRuntime) -> Result<(), Fail> {
    let alloc = rt.alloc();
    let study = study(alloc)?;
    let made = make_tape(alloc, &study, 42).ok().ok_or("a tape")?;
    let keepers = no_checkpoints(alloc).ok().ok_or("memory")?;
    let mut out = MemSink::new(alloc, 1000, Vec::new(alloc))
        .ok()
        .ok_or("memory")?;
    complete_schedules_are_legal();
    let (answer, _) = fold_trial(
        alloc,
        &study,
        42,
        &made.tape,
        &made.schedule,
        keepers,
        &mut out,
    );
    assert_eq!(rt; answer, Ok(()));
    assert!(rt; out.bytes() == SUMMARY);
    Ok(())
}

//! The command `group`.

ghost use Rattle.std.specs.Prelude.{◌≡◌, ◌<◌, true};
ghost use Rattle.mls_load.specs.Refusals.{seen};
ghost use Rattle.mls_served.specs.Doors.{door_seen};
ghost use Rattle.mls_live.specs.Group.{Sends, right_sending, sending_in, sent_status};
ghost use Rattle.mls_live.specs.Answers.{Carries, Reaches};

use mls_base::outside::Files;
use mls_design::Design;
use mls_group::{GroupFault, send_group};
use mls_load::load_study;
use mls_result::Status;
use mls_study::Study;
use mls_wire::Door;
use std::alloc::Global;

/// What is answered after a sending.
fn sent_status(answer: Result<(), GroupFault>) -> Status
    ensures { result ≡ sent_status answer }
{
    match answer {
        Ok(()) => Status::Done,
        Err(GroupFault::DoorFault) => Status::DoorFault,
        Err(GroupFault::LinkFault) => Status::LinkFault,
        Err(GroupFault::Refused { reason, value }) => Status::Refused { reason, value },
        Err(GroupFault::Peer) => Status::Peer,
        Err(GroupFault::Memory) => Status::Memory,
    }
}

/// Draws the design and sends a life of a group.
fn send<D: Door>(
    alloc: Global,
    study: &Study,
    group: u32,
    life: u32,
    addr: &str,
    door: &mut D,
) -> Result<(), GroupFault>
    requires { group < study.now.sizes.groups }
    ensures { Sends (record { study = study.now; group = group; life = life })
        (door_seen D.closed D.faults D.link_faults D.accepts D.sound D.awaited door.old)
        (door_seen D.closed D.faults D.link_faults D.accepts D.sound D.awaited door.new) result }
{
    let design = Design::new(alloc, study)?;
    send_group(alloc, study, &design, group, life, addr, door)
}

/// Sends a life of a group of the study, where it has the group.
fn send_of<D: Door>(
    alloc: Global,
    study: &Study,
    group: u32,
    life: u32,
    addr: &str,
    door: &mut D,
) -> Status
    ensures { Reaches (sending_in group life study.now)
        (door_seen D.closed D.faults D.link_faults D.accepts D.sound D.awaited door.old)
        (door_seen D.closed D.faults D.link_faults D.accepts D.sound D.awaited door.new) result }
{
    if group < study.shape().groups() {
        let answer = send(alloc, study, group, life, addr, door);
        return sent_status(answer);
    }
    Status::NoGroup { group }
}

/// Sends a life of a group of the study of a name.
pub(crate) fn run_group<F: Files, D: Door>(
    alloc: Global,
    study_name: &str,
    group: u32,
    life: u32,
    addr: &str,
    files: &mut F,
    door: &mut D,
) -> Status
    ensures carried { Carries (right_sending study_name.now group life)
        (seen F.held F.sound F.load_faults F.save_faults files.old)
        (seen F.held F.sound F.load_faults F.save_faults files.new)
        (door_seen D.closed D.faults D.link_faults D.accepts D.sound D.awaited door.old)
        (door_seen D.closed D.faults D.link_faults D.accepts D.sound D.awaited door.new) result }
    ensures no_usage { result ≡ Status.Usage → ⊥ }
{
    match load_study(alloc, files, study_name) {
        Ok(study) => return send_of(alloc, &study, group, life, addr, door),
        Err(refusal) => return refusal.into(),
    }
}

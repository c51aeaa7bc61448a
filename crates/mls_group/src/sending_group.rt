//! A group's sessions on all its connections.

ghost use Rattle.std.specs.Prelude.{◌≡◌, ◌<◌, None, Ok, List, ◌∷◌, length, IsTrue, OnOk, IfErr, MatchResult};
ghost use Rattle.mls_base.specs.Told.{StaysSound};
ghost use Rattle.mls_design.specs.Kept.{design_of};
ghost use Rattle.mls_wire.specs.declared.pairing.Pair.{Pair as Declared};
ghost use Rattle.mls_wire.specs.Sessions.{pairs_of};
ghost use Rattle.mls_group.specs.Groups.{Served, LastOne, ServedAll, TellsOn, LinkLeft, GroupLeft, CountsDoor, CountsLinks, AreEnough, IsInner, is_last};

use crate::faults::GroupFault;
use crate::sending_pair::send_pair;
use mls_base::faults::Failed;
use mls_design::Design;
use mls_study::Study;
use mls_wire::{Door, Pair, pairs};
use std::alloc::Global;

/// Connects, sends a pair's session and hands the link back.
fn send_link<D: Door>(
    alloc: Global,
    study: &Study,
    design: &Design,
    group: u32,
    life: u32,
    addr: &str,
    pair: &Pair,
    last: bool,
    door: &mut D,
) -> Result<(), GroupFault>
    requires made { design.now ≡ design_of study.now }
    requires group_in { group < study.now.sizes.groups }
    requires rank_in { pair.now.rank < study.now.sizes.ranks }
    requires client_in { pair.now.client < study.now.sizes.clients }
    ensures sent { let serves = LastOne (Served study.now group life pair.now last) in
        OnOk result (TellsOn serves (D.closed door.old) (D.closed door.new)) }
    ensures left { IfErr result (λ fault.
        LinkLeft fault study.now group life pair.now last (D.closed door.old) (D.closed door.new)) }
    ensures silent { D.closed door.old ≡ None → D.closed door.new ≡ None }
    ensures faults { CountsDoor result (D.faults door.old) (D.faults door.new) }
    ensures link_faults { CountsLinks result (D.link_faults door.old) (D.link_faults door.new) }
    ensures accepts { D.accepts door.new ≡ D.accepts door.old }
    ensures sound { StaysSound (D.sound door.old) (D.sound door.new) }
    ensures surely { (left : List Declared) → last ≡ is_last left →
        AreEnough study.now group life (pair.now ∷ left) (D.awaited door.old) →
        MatchResult result (λ _. AreEnough study.now group life left (D.awaited door.new)) IsInner }
{
    let mut link = match door.connect(addr) {
        Ok(link) => link,
        Err(Failed) => return Err(GroupFault::DoorFault),
    };
    let sent = send_pair(alloc, study, design, group, life, pair, last, &mut link);
    if door.close(alloc, link).is_err() {
        return Err(GroupFault::Memory);
    }
    match sent {
        Ok(()) => Ok(()),
        Err(fault) => Err(GroupFault::from(fault)),
    }
}

/// Sends a group's samples: for each pair of a rank and a client in order it connects, sends the session, and hands the
/// link back to the door, also after a fault. It stops at the first fault.
pub fn send_group<D: Door>(
    alloc: Global,
    study: &Study,
    design: &Design,
    group: u32,
    life: u32,
    addr: &str,
    door: &mut D,
) -> Result<(), GroupFault>
    requires made { design.now ≡ design_of study.now }
    requires group_in { group < study.now.sizes.groups }
    // The links that were closed are one for each pair, in order; the bytes read of each begin with a Welcome, and the
    // session and nothing else was written to it.
    ensures sent { let serves = ServedAll study.now group life (pairs_of study.now.sizes) in
        OnOk result (TellsOn serves (D.closed door.old) (D.closed door.new)) }
    // After a fault this holds of the links but the last, and each fault says what the last was used for.
    ensures left { IfErr result (λ fault.
        GroupLeft fault study.now group life (pairs_of study.now.sizes) (D.closed door.old) (D.closed door.new)) }
    ensures silent { D.closed door.old ≡ None → D.closed door.new ≡ None }
    // DoorFault comes only where the door's count rose, LinkFault where its number of link faults did.
    ensures faults { CountsDoor result (D.faults door.old) (D.faults door.new) }
    ensures link_faults { CountsLinks result (D.link_faults door.old) (D.link_faults door.new) }
    ensures accepts { D.accepts door.new ≡ D.accepts door.old }
    ensures sound { StaysSound (D.sound door.old) (D.sound door.new) }
    // Neither comes where links for all sessions are handed out for sure.
    ensures surely { AreEnough study.now group life (pairs_of study.now.sizes) (D.awaited door.old) →
        IfErr result (λ fault. IsInner fault) }
{
    let pairs = pairs(alloc, &study.shape())?;
    let mut rest = pairs.as_slice();
    while let Some((pair, left)) = rest.split_first() {
        send_link(
            alloc,
            study,
            design,
            group,
            life,
            addr,
            pair,
            left.is_empty(),
            door,
        )?;
        rest = left;
    }
    Ok(())
}

//! A group's session on one connection.

ghost use Rattle.std.specs.Prelude.{◌≡◌, ◌+◌, ◌<◌, ◌≤◌, ◌^◌, length, OnOk, OnErr, IfErr};
ghost use Rattle.mls_base.specs.Told.{StaysSound};
ghost use Rattle.mls_design.specs.Kept.{design_of};
ghost use Rattle.mls_wire.specs.Links.{SentFront, after_write};
ghost use Rattle.mls_wire.specs.Sessions.{hello_bytes, session};
ghost use Rattle.mls_group.specs.Faults.{CountsStop, SureStop, CountsPair, SurePair};
ghost use Rattle.mls_group.specs.Pairs.{PairSent, PairLeft};

use crate::faults::{PairFault, Stop};
use crate::hearing::hear;
use crate::texts::{send_frame, send_welcomed};
use mls_design::Design;
use mls_frame::Frame;
use mls_study::Study;
use mls_wire::{Link, Pair, Reply};
use std::alloc::Global;

/// Writes Hello.
#[tactic(auto, unfolding(mls_wire::specs::Sessions::hello_bytes))]
fn send_hello<L: Link>(
    alloc: Global,
    link: &mut L,
    group: u32,
    life: u32,
    pair: Pair,
) -> Result<(), Stop>
    requires rank_in { pair.rank < 2 ^ 16 }
    requires client_in { pair.client < 2 ^ 16 }
    ensures written { OnOk result (L.told link.new ≡ after_write (hello_bytes group life pair) (L.told link.old)) }
    ensures front { OnErr result (SentFront (L.told link.old) (L.told link.new) (hello_bytes group life pair)) }
    ensures faults { CountsStop result (L.faults link.old) (L.faults link.new) }
    ensures sound { StaysSound (L.sound link.old) (L.sound link.new) }
    ensures sure { OnOk result (L.sure link.old ≤ L.sure link.new + length (hello_bytes group life pair)) }
    ensures unsure { IfErr result (λ stop. SureStop stop (L.sure link.old) (length (hello_bytes group life pair))) }
{
    let hello = Frame::Hello {
        version: 1,
        group,
        life,
        client: pair.client as u16,
        rank: pair.rank as u16,
    };
    send_frame(alloc, link, &hello)
}

/// Sends a group's session on the connection of a pair: Hello, and after the server's Welcome Beat, the pieces of all
/// planes in rising order, and Bye where `last`. After `Refused` and `Peer` Hello alone went out, after `LinkFault` and
/// `Memory` a front of the session.
pub fn send_pair<L: Link>(
    alloc: Global,
    study: &Study,
    design: &Design,
    group: u32,
    life: u32,
    pair: &Pair,
    last: bool,
    link: &mut L,
) -> Result<(), PairFault>
    requires made { design.now ≡ design_of study.now }
    requires group_in { group < study.now.sizes.groups }
    requires rank_in { pair.now.rank < study.now.sizes.ranks }
    requires client_in { pair.now.client < study.now.sizes.clients }
    // The session was written whole, and the bytes that were read begin with a Welcome.
    ensures sent { let text = session study.now group life pair.now last in
        OnOk result (PairSent text (L.told link.old) (L.told link.new)) }
    // Refused comes exactly where they begin with this Refuse, Peer where they are no answer.
    ensures left { let text = session study.now group life pair.now last in
        let hello = hello_bytes group life pair.now in
        IfErr result (λ fault. PairLeft fault hello text (L.told link.old) (L.told link.new)) }
    // LinkFault comes only where the link's count rose.
    ensures faults { CountsPair result (L.faults link.old) (L.faults link.new) }
    ensures sound { StaysSound (L.sound link.old) (L.sound link.new) }
    ensures surely { let size = length (session study.now group life pair.now last) in
        IfErr result (λ fault. SurePair fault (L.sound link.old) (L.sure link.old) size) }
{
    study.valid();
    let pair = *pair;
    send_hello(alloc, link, group, life, pair)?;
    match hear(alloc, link)? {
        Some(Reply::Welcome { .. }) => {
            send_welcomed(alloc, link, study, design, group, life, pair, last)?;
            Ok(())
        }
        Some(Reply::Refused { reason, value }) => Err(PairFault::Refused { reason, value }),
        Some(Reply::Other) | None => Err(PairFault::Peer),
    }
}

//! What a group writes to a link.

ghost use Rattle.std.specs.Prelude.{◌≡◌, ◌+◌, ◌<◌, ◌≤◌, ◌++◌, length, OnOk, OnErr, IfErr};
ghost use Rattle.mls_base.specs.Told.{StaysSound};
ghost use Rattle.mls_model.specs.Frames.{spelling};
ghost use Rattle.mls_frame.specs.Owned.{owned_frame};
ghost use Rattle.mls_design.specs.Kept.{design_of};
ghost use Rattle.mls_wire.specs.Links.{SentFront, after_write};
ghost use Rattle.mls_wire.specs.Sessions.{piece_bytes, step_bytes, pieces_bytes, bye_bytes, welcomed_bytes};
ghost use Rattle.mls_group.specs.Faults.{CountsStop, SureStop};

use crate::faults::Stop;
use mls_base::faults::NoMemory;
use mls_design::{Design, make_piece};
use mls_frame::{Frame, put};
use mls_study::Study;
use mls_wire::{Link, Pair, send_all};
use std::alloc::Global;

/// Appends the piece of a step and field.
fn put_piece(
    alloc: Global,
    out: &mut Vec<u8>,
    study: &Study,
    design: &Design,
    group: u32,
    life: u32,
    pair: Pair,
    step: u32,
    field: u32,
) -> Result<(), NoMemory>
    requires made { design.now ≡ design_of study.now }
    requires group_in { group < study.now.sizes.groups }
    requires rank_in { pair.rank < study.now.sizes.ranks }
    requires client_in { pair.client < study.now.sizes.clients }
    requires step_in { step < study.now.sizes.steps }
    requires field_in { field < study.now.sizes.fields }
    ensures { OnOk result (out.new.items ≡ out.old.items ++ piece_bytes study.now group life pair step field) }
{
    let Pair { rank, client } = pair;
    let frame = make_piece(alloc, study, design, group, life, step, field, rank, client)?;
    put(&frame, out)
}

/// Appends the pieces of a step, field by field.
fn put_step(
    alloc: Global,
    out: &mut Vec<u8>,
    study: &Study,
    design: &Design,
    group: u32,
    life: u32,
    pair: Pair,
    step: u32,
) -> Result<(), NoMemory>
    requires made { design.now ≡ design_of study.now }
    requires group_in { group < study.now.sizes.groups }
    requires rank_in { pair.rank < study.now.sizes.ranks }
    requires client_in { pair.client < study.now.sizes.clients }
    requires step_in { step < study.now.sizes.steps }
    ensures { OnOk result (out.new.items ≡ out.old.items ++ step_bytes study.now group life pair step) }
{
    for field in 0..study.shape().fields() {
        put_piece(alloc, out, study, design, group, life, pair, step, field)?;
    }
    Ok(())
}

/// Writes a frame.
pub fn send_frame<L: Link>(alloc: Global, link: &mut L, frame: &Frame) -> Result<(), Stop>
    ensures written { OnOk result (L.told link.new ≡ after_write (spelling (owned_frame frame.now)) (L.told link.old)) }
    ensures front { OnErr result (SentFront (L.told link.old) (L.told link.new) (spelling (owned_frame frame.now))) }
    ensures faults { CountsStop result (L.faults link.old) (L.faults link.new) }
    ensures sound { StaysSound (L.sound link.old) (L.sound link.new) }
    ensures sure { OnOk result (L.sure link.old ≤ L.sure link.new + length (spelling (owned_frame frame.now))) }
    ensures unsure { IfErr result (λ stop. SureStop stop (L.sure link.old) (length (spelling (owned_frame frame.now)))) }
{
    let mut bytes = Vec::new(alloc);
    put(frame, &mut bytes)?;
    send_all(link, bytes.as_slice())?;
    Ok(())
}

/// Writes the pieces of a step.
fn send_step<L: Link>(
    alloc: Global,
    link: &mut L,
    study: &Study,
    design: &Design,
    group: u32,
    life: u32,
    pair: Pair,
    step: u32,
) -> Result<(), Stop>
    requires made { design.now ≡ design_of study.now }
    requires group_in { group < study.now.sizes.groups }
    requires rank_in { pair.rank < study.now.sizes.ranks }
    requires client_in { pair.client < study.now.sizes.clients }
    requires step_in { step < study.now.sizes.steps }
    ensures written { let text = step_bytes study.now group life pair step in
        OnOk result (L.told link.new ≡ after_write text (L.told link.old)) }
    ensures front { let text = step_bytes study.now group life pair step in
        OnErr result (SentFront (L.told link.old) (L.told link.new) text) }
    ensures faults { CountsStop result (L.faults link.old) (L.faults link.new) }
    ensures sound { StaysSound (L.sound link.old) (L.sound link.new) }
    ensures sure { let text = step_bytes study.now group life pair step in
        OnOk result (L.sure link.old ≤ L.sure link.new + length text) }
    ensures unsure { let text = step_bytes study.now group life pair step in
        IfErr result (λ stop. SureStop stop (L.sure link.old) (length text)) }
{
    let mut bytes = Vec::new(alloc);
    put_step(alloc, &mut bytes, study, design, group, life, pair, step)?;
    send_all(link, bytes.as_slice())?;
    Ok(())
}

/// Writes the pieces of all planes in rising order.
fn send_steps<L: Link>(
    alloc: Global,
    link: &mut L,
    study: &Study,
    design: &Design,
    group: u32,
    life: u32,
    pair: Pair,
) -> Result<(), Stop>
    requires made { design.now ≡ design_of study.now }
    requires group_in { group < study.now.sizes.groups }
    requires rank_in { pair.rank < study.now.sizes.ranks }
    requires client_in { pair.client < study.now.sizes.clients }
    ensures written { let text = pieces_bytes study.now group life pair in
        OnOk result (L.told link.new ≡ after_write text (L.told link.old)) }
    ensures front { let text = pieces_bytes study.now group life pair in
        OnErr result (SentFront (L.told link.old) (L.told link.new) text) }
    ensures faults { CountsStop result (L.faults link.old) (L.faults link.new) }
    ensures sound { StaysSound (L.sound link.old) (L.sound link.new) }
    ensures sure { let text = pieces_bytes study.now group life pair in
        OnOk result (L.sure link.old ≤ L.sure link.new + length text) }
    ensures unsure { let text = pieces_bytes study.now group life pair in
        IfErr result (λ stop. SureStop stop (L.sure link.old) (length text)) }
{
    for step in 0..study.shape().steps() {
        send_step(alloc, link, study, design, group, life, pair, step)?;
    }
    Ok(())
}

/// Writes what follows a Welcome: Beat, all pieces, and Bye on the last pair.
pub fn send_welcomed<L: Link>(
    alloc: Global,
    link: &mut L,
    study: &Study,
    design: &Design,
    group: u32,
    life: u32,
    pair: Pair,
    last: bool,
) -> Result<(), Stop>
    requires made { design.now ≡ design_of study.now }
    requires group_in { group < study.now.sizes.groups }
    requires rank_in { pair.rank < study.now.sizes.ranks }
    requires client_in { pair.client < study.now.sizes.clients }
    ensures written { let text = welcomed_bytes study.now group life pair last in
        OnOk result (L.told link.new ≡ after_write text (L.told link.old)) }
    ensures front { let text = welcomed_bytes study.now group life pair last in
        OnErr result (SentFront (L.told link.old) (L.told link.new) text) }
    ensures faults { CountsStop result (L.faults link.old) (L.faults link.new) }
    ensures sound { StaysSound (L.sound link.old) (L.sound link.new) }
    ensures sure { let text = welcomed_bytes study.now group life pair last in
        OnOk result (L.sure link.old ≤ L.sure link.new + length text) }
    ensures unsure { let text = welcomed_bytes study.now group life pair last in
        IfErr result (λ stop. SureStop stop (L.sure link.old) (length text)) }
{
    send_frame(alloc, link, &Frame::Beat { group, life })?;
    send_steps(alloc, link, study, design, group, life, pair)?;
    send_bye(alloc, link, group, life, last)
}

/// Writes Bye on the last pair, and else nothing.
fn send_bye<L: Link>(
    alloc: Global,
    link: &mut L,
    group: u32,
    life: u32,
    last: bool,
) -> Result<(), Stop>
    ensures written { OnOk result (L.told link.new ≡ after_write (bye_bytes group life last) (L.told link.old)) }
    ensures front { OnErr result (SentFront (L.told link.old) (L.told link.new) (bye_bytes group life last)) }
    ensures faults { CountsStop result (L.faults link.old) (L.faults link.new) }
    ensures sound { StaysSound (L.sound link.old) (L.sound link.new) }
    ensures sure { OnOk result (L.sure link.old ≤ L.sure link.new + length (bye_bytes group life last)) }
    ensures unsure { IfErr result (λ stop. SureStop stop (L.sure link.old) (length (bye_bytes group life last))) }
{
    if !last {
        return Ok(());
    }
    send_frame(alloc, link, &Frame::Bye { group, life })
}

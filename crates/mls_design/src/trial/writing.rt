//! The bytes of the whole tape.

ghost use Rattle.std.specs.Prelude.{◌≡◌, ℕ, ◌+◌, ◌*◌, ◌<◌, ◌≤◌, ◌++◌, ◌∷◌, [], cond, false, codes, length, map, OnOk, IfOk};
ghost use Rattle.std.specs.List.{flat_map};
ghost use Rattle.mls_model.specs.Numbers.{below};
ghost use Rattle.mls_model.specs.Frames.{u16, u32};
ghost use Rattle.mls_model.specs.Lanes.{samples_spelling, lane_spelling};
ghost use Rattle.mls_design.specs.Kept.{design_of};
ghost use Rattle.mls_design.specs.Trial.{routes, is_restarted, words_before, first_lanes, control_lanes, resent_lanes, spelled, version_of, trial_bytes};
ghost use Rattle.mls_design.specs.TrialSizes.{HasDrawn, IsPlan, is_too_large};
ghost use Rattle.mls_design.specs.TrialWriting.{lanes_bytes};

use crate::design::Design;
use crate::trial::lanes::{put_control, put_first, put_resent};
use crate::trial::plan::Plan;
use crate::trial::route::Route;
use crate::trial::sizes::{first_lane_size, resent_lane_size};
use crate::trial::words::behind_groups;
use mls_base::faults::NoMemory;
use mls_study::Study;
use rand_pcg::Lcg64Xsh32;
use std::alloc::Global;

/// The byte of a client lane and of a control lane.
const CLIENT: u8 = 0;

const CONTROL: u8 = 1;

/// Appends what stands before the lanes: the version is 1 under `u16`, and 2 with the samples byte under `i16`.
fn put_start(out: &mut Vec<u8>, signed: bool, lanes: u32) -> Result<(), NoMemory>
    ensures { OnOk result (out.new.items ≡ out.old.items ++ (codes "MTAP" ++ (u16 (version_of signed)
        ++ (samples_spelling signed (version_of signed) ++ u32 lanes)))) }
{
    if signed {
        out.extend_from_slice(b"MTAP\x00\x02\x01")?;
    } else {
        out.extend_from_slice(b"MTAP\x00\x01")?;
    }
    out.extend_from_slice(lanes.to_be_bytes().as_slice())?;
    Ok(())
}

/// Appends what stands before a lane's bytes: kind, rank and length.
fn put_head(out: &mut Vec<u8>, kind: u8, rank: u16, length: u32) -> Result<(), NoMemory>
    ensures { OnOk result (out.new.items ≡ out.old.items ++ (kind ∷ (u16 rank ++ u32 length))) }
{
    out.push(kind)?;
    out.extend_from_slice(rank.to_be_bytes().as_slice())?;
    out.extend_from_slice(length.to_be_bytes().as_slice())?;
    Ok(())
}

/// Appends the first lanes. A lane's length stands before its bytes, so its words are first drawn ahead.
fn put_first_lanes(
    alloc: Global,
    out: &mut Vec<u8>,
    ahead: &mut Lcg64Xsh32,
    words: &mut Lcg64Xsh32,
    study: &Study,
    design: &Design,
    number: u64,
    plan: Plan,
    restarted: &[bool],
    all: &[Route],
) -> Result<(), NoMemory>
    requires made { design.now ≡ design_of study.now }
    requires are_routes { all.now ≡ routes study.now.sizes }
    requires small { is_too_large study.now number ≡ false }
    requires beats { plan.beats ≤ 131070 }
    requires pieces { plan.pieces ≤ 2147483648 }
    requires planned { IsPlan study.now number plan }
    requires are_restarted { restarted.now ≡ map (is_restarted number) (below study.now.sizes.groups) }
    requires drawn_ahead { HasDrawn number study.now.sizes.groups ahead.old }
    requires drawn { HasDrawn number study.now.sizes.groups words.old }
    ensures { OnOk result ((out.new.items ≡ out.old.items ++ lanes_bytes (first_lanes study.now number))
        × HasDrawn number (words_before study.now number (routes study.now.sizes)) words.new) }
{
    study.valid();
    for k in 0..all.len() {
        let lane = first_lane_size(study, plan, ahead, all[k]);
        put_head(out, CLIENT, all[k].rank as u16, lane.bytes as u32)?;
        put_first(alloc, out, words, study, design, all[k], restarted)?;
    }
    Ok(())
}

/// Appends the control lanes.
fn put_control_lanes(out: &mut Vec<u8>, study: &Study) -> Result<(), NoMemory>
    ensures { OnOk result (out.new.items ≡ out.old.items ++ lanes_bytes (control_lanes study.now.sizes)) }
{
    study.valid();
    for rank in 0..study.shape().ranks() {
        put_head(out, CONTROL, rank as u16, 20)?;
        put_control(out)?;
    }
    Ok(())
}

/// Appends the resent lanes.
fn put_resent_lanes(
    alloc: Global,
    out: &mut Vec<u8>,
    study: &Study,
    design: &Design,
    number: u64,
    all: &[Route],
) -> Result<(), NoMemory>
    requires made { design.now ≡ design_of study.now }
    requires are_routes { all.now ≡ routes study.now.sizes }
    requires small { is_too_large study.now number ≡ false }
    ensures { OnOk result (out.new.items ≡ out.old.items ++ lanes_bytes (resent_lanes study.now)) }
{
    study.valid();
    for k in 0..all.len() {
        let lane = resent_lane_size(study, all[k]);
        put_head(out, CLIENT, all[k].rank as u16, lane.bytes as u32)?;
        put_resent(alloc, out, study, design, all[k])?;
    }
    Ok(())
}

/// The tape's bytes, with all their room taken at once, and the words that its lanes took drawn.
pub fn trial_bytes(
    alloc: Global,
    words: &mut Lcg64Xsh32,
    study: &Study,
    number: u64,
    plan: Plan,
    restarted: &[bool],
    all: &[Route],
    room: u64,
) -> Result<Vec<u8>, NoMemory>
    requires are_routes { all.now ≡ routes study.now.sizes }
    requires small { is_too_large study.now number ≡ false }
    requires beats { plan.beats ≤ 131070 }
    requires pieces { plan.pieces ≤ 2147483648 }
    requires planned { IsPlan study.now number plan }
    requires are_restarted { restarted.now ≡ map (is_restarted number) (below study.now.sizes.groups) }
    requires drawn { HasDrawn number study.now.sizes.groups words.old }
    ensures { IfOk result (λ bytes. (bytes.items ≡ trial_bytes study.now number)
        × HasDrawn number (words_before study.now number (routes study.now.sizes)) words.new) }
{
    study.valid();
    let shape = study.shape();
    let design = Design::new(alloc, study)?;
    let mut out = Vec::with_capacity(alloc, room as usize)?;
    put_start(
        &mut out,
        shape.signed(),
        2 * all.len() as u32 + shape.ranks(),
    )?;
    let mut ahead = behind_groups(number, shape.groups());
    put_first_lanes(
        alloc, &mut out, &mut ahead, words, study, &design, number, plan, restarted, all,
    )?;
    put_control_lanes(&mut out, study)?;
    put_resent_lanes(alloc, &mut out, study, &design, number, all)?;
    Ok(out)
}

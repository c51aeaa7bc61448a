//! The bytes of the lanes.

ghost use Rattle.std.specs.Prelude.{◌≡◌, ℕ, ◌+◌, ◌/◌, ◌<◌, ◌≤◌, ◌++◌, ◌∷◌, [], cond, length, map, replicate, OnOk};
ghost use Rattle.std.specs.List.{flat_map};
ghost use Rattle.mls_model.specs.Numbers.{below};
ghost use Rattle.mls_model.specs.Frames.{piece, u16, u32, save, crash};
ghost use Rattle.mls_model.specs.Lanes.{kind_code};
ghost use Rattle.mls_model.specs.Designs.{solved_piece};
ghost use Rattle.mls_frame.specs.Owned.{owned_frame};
ghost use Rattle.mls_design.specs.Kept.{design_of};
ghost use Rattle.mls_design.specs.Trial.{is_restarted, step_pieces, life_pieces, life_frames, group_frames, planned, resent_frames, frame_bytes};
ghost use Rattle.mls_design.specs.TrialSizes.{HasDrawn};
ghost use Rattle.mls_design.specs.TrialWriting.{Sends};

use crate::design::Design;
use crate::piece::make_piece;
use crate::trial::route::Route;
use crate::trial::words::{copies, next};
use mls_base::faults::NoMemory;
use mls_frame::{Frame, put};
use mls_study::Study;
use rand_pcg::Lcg64Xsh32;
use std::alloc::Global;

/// Appends a frame so many times.
fn put_copies(out: &mut Vec<u8>, frame: &Frame, count: u32) -> Result<(), NoMemory>
    ensures { OnOk result (out.new.items ≡ out.old.items ++ frame_bytes (replicate count (owned_frame frame.now))) }
{
    for _ in 0..count {
        put(frame, out)?;
    }
    Ok(())
}

/// Appends a piece so many times; it isn't made where that is never.
fn put_piece(
    alloc: Global,
    out: &mut Vec<u8>,
    study: &Study,
    design: &Design,
    route: Route,
    group: u32,
    life: u32,
    step: u32,
    field: u32,
    count: u32,
) -> Result<(), NoMemory>
    requires made { design.now ≡ design_of study.now }
    requires group_in { group < study.now.sizes.groups }
    requires step_in { step < study.now.sizes.steps }
    requires field_in { field < study.now.sizes.fields }
    requires rank_in { route.rank < study.now.sizes.ranks }
    requires client_in { route.client < study.now.sizes.clients }
    ensures { let made = piece (solved_piece study.now group life step field route.rank route.client) in
        OnOk result (out.new.items ≡ out.old.items ++ frame_bytes (replicate count made)) }
{
    if count == 0 {
        return Ok(());
    }
    let frame = make_piece(
        alloc,
        study,
        design,
        group,
        life,
        step,
        field,
        route.rank,
        route.client,
    )?;
    put_copies(out, &frame, count)
}

/// Draws the word of a planned piece, and appends the piece as often as the word says.
fn put_planned(
    alloc: Global,
    out: &mut Vec<u8>,
    words: &mut Lcg64Xsh32,
    study: &Study,
    design: &Design,
    route: Route,
    group: u32,
    life: u32,
    step: u32,
    field: u32,
) -> Result<(), NoMemory>
    requires made { design.now ≡ design_of study.now }
    requires group_in { group < study.now.sizes.groups }
    requires step_in { step < study.now.sizes.steps }
    requires field_in { field < study.now.sizes.fields }
    requires rank_in { route.rank < study.now.sizes.ranks }
    requires client_in { route.client < study.now.sizes.clients }
    ensures { let made = piece (solved_piece study.now group life step field route.rank route.client) in
        (number n : ℕ) → HasDrawn number n words.old →
        OnOk result (Sends number n (made ∷ []) out.old.items out.new.items words.new) }
{
    let count = copies(next(words));
    put_piece(
        alloc, out, study, design, route, group, life, step, field, count,
    )
}

/// Appends the planned pieces of a life's step, field by field.
fn put_step(
    alloc: Global,
    out: &mut Vec<u8>,
    words: &mut Lcg64Xsh32,
    study: &Study,
    design: &Design,
    route: Route,
    group: u32,
    life: u32,
    step: u32,
) -> Result<(), NoMemory>
    requires made { design.now ≡ design_of study.now }
    requires group_in { group < study.now.sizes.groups }
    requires step_in { step < study.now.sizes.steps }
    requires rank_in { route.rank < study.now.sizes.ranks }
    requires client_in { route.client < study.now.sizes.clients }
    ensures { (number n : ℕ) → HasDrawn number n words.old → OnOk result
        (Sends number n (step_pieces study.now route group life step) out.old.items out.new.items words.new) }
{
    for field in 0..study.shape().fields() {
        put_planned(
            alloc, out, words, study, design, route, group, life, step, field,
        )?;
    }
    Ok(())
}

/// Appends a life of a group: a beat, and the planned pieces of its first steps.
fn put_life(
    alloc: Global,
    out: &mut Vec<u8>,
    words: &mut Lcg64Xsh32,
    study: &Study,
    design: &Design,
    route: Route,
    group: u32,
    life: u32,
    steps: u32,
) -> Result<(), NoMemory>
    requires made { design.now ≡ design_of study.now }
    requires group_in { group < study.now.sizes.groups }
    requires steps_in { steps ≤ study.now.sizes.steps }
    requires rank_in { route.rank < study.now.sizes.ranks }
    requires client_in { route.client < study.now.sizes.clients }
    ensures { (number n : ℕ) → HasDrawn number n words.old → OnOk result
        (Sends number n (life_frames study.now route group life steps) out.old.items out.new.items words.new) }
{
    put(&Frame::Beat { group, life }, out)?;
    for step in 0..steps {
        put_step(alloc, out, words, study, design, route, group, life, step)?;
    }
    Ok(())
}

/// Appends what a group plans to send.
fn put_group(
    alloc: Global,
    out: &mut Vec<u8>,
    words: &mut Lcg64Xsh32,
    study: &Study,
    design: &Design,
    route: Route,
    group: u32,
    again: bool,
) -> Result<(), NoMemory>
    requires made { design.now ≡ design_of study.now }
    requires group_in { group < study.now.sizes.groups }
    requires rank_in { route.rank < study.now.sizes.ranks }
    requires client_in { route.client < study.now.sizes.clients }
    ensures { (number n : ℕ) → again ≡ is_restarted number group → HasDrawn number n words.old → OnOk result
        (Sends number n (group_frames study.now number route group) out.old.items out.new.items words.new) }
{
    let steps = study.shape().steps();
    if again {
        put_life(alloc, out, words, study, design, route, group, 1, steps / 2)?;
        return put_life(alloc, out, words, study, design, route, group, 2, steps);
    }
    put_life(alloc, out, words, study, design, route, group, 1, steps)
}

/// Appends the bytes of a first lane.
pub fn put_first(
    alloc: Global,
    out: &mut Vec<u8>,
    words: &mut Lcg64Xsh32,
    study: &Study,
    design: &Design,
    route: Route,
    restarted: &[bool],
) -> Result<(), NoMemory>
    requires made { design.now ≡ design_of study.now }
    requires groups { length restarted.now ≡ study.now.sizes.groups }
    requires rank_in { route.rank < study.now.sizes.ranks }
    requires client_in { route.client < study.now.sizes.clients }
    ensures { (number n : ℕ) → restarted.now ≡ map (is_restarted number) (below study.now.sizes.groups) →
        HasDrawn number n words.old →
        OnOk result (Sends number n (planned study.now number route) out.old.items out.new.items words.new) }
{
    for group in 0..study.shape().groups() {
        put_group(
            alloc,
            out,
            words,
            study,
            design,
            route,
            group,
            restarted[group as usize],
        )?;
    }
    Ok(())
}

/// Appends the pieces of a life's step, each once and field by field.
fn put_whole_step(
    alloc: Global,
    out: &mut Vec<u8>,
    study: &Study,
    design: &Design,
    route: Route,
    group: u32,
    step: u32,
) -> Result<(), NoMemory>
    requires made { design.now ≡ design_of study.now }
    requires group_in { group < study.now.sizes.groups }
    requires step_in { step < study.now.sizes.steps }
    requires rank_in { route.rank < study.now.sizes.ranks }
    requires client_in { route.client < study.now.sizes.clients }
    ensures { OnOk result
        (out.new.items ≡ out.old.items ++ frame_bytes (step_pieces study.now route group 3 step)) }
{
    for field in 0..study.shape().fields() {
        put_piece(alloc, out, study, design, route, group, 3, step, field, 1)?;
    }
    Ok(())
}

/// Appends the pieces of a group's life 3.
fn put_whole_group(
    alloc: Global,
    out: &mut Vec<u8>,
    study: &Study,
    design: &Design,
    route: Route,
    group: u32,
) -> Result<(), NoMemory>
    requires made { design.now ≡ design_of study.now }
    requires group_in { group < study.now.sizes.groups }
    requires rank_in { route.rank < study.now.sizes.ranks }
    requires client_in { route.client < study.now.sizes.clients }
    ensures { OnOk result (out.new.items
        ≡ out.old.items ++ frame_bytes (life_pieces study.now route group 3 study.now.sizes.steps)) }
{
    for step in 0..study.shape().steps() {
        put_whole_step(alloc, out, study, design, route, group, step)?;
    }
    Ok(())
}

/// Appends the bytes of a resent lane.
pub fn put_resent(
    alloc: Global,
    out: &mut Vec<u8>,
    study: &Study,
    design: &Design,
    route: Route,
) -> Result<(), NoMemory>
    requires made { design.now ≡ design_of study.now }
    requires rank_in { route.rank < study.now.sizes.ranks }
    requires client_in { route.client < study.now.sizes.clients }
    ensures { OnOk result (out.new.items ≡ out.old.items ++ frame_bytes (resent_frames study.now route)) }
{
    for group in 0..study.shape().groups() {
        put_whole_group(alloc, out, study, design, route, group)?;
    }
    Ok(())
}

/// Appends the bytes of a control lane.
pub fn put_control(out: &mut Vec<u8>) -> Result<(), NoMemory>
    ensures { OnOk result (out.new.items
        ≡ out.old.items ++ frame_bytes (save ∷ crash ∷ save ∷ crash ∷ [])) }
{
    put(&Frame::Save, out)?;
    put(&Frame::Crash, out)?;
    put(&Frame::Save, out)?;
    put(&Frame::Crash, out)
}

//! The pieces that a group sends.

ghost use Rattle.std.specs.Prelude.{◌≡◌, ℕ, ◌+◌, ◌%◌, ◌<◌, ◌≤◌, ◌++◌, length, map, IfOk, OnOk};
ghost use Rattle.std.specs.List.{flat_map};
ghost use Rattle.mls_model.specs.Numbers.{below};
ghost use Rattle.mls_model.specs.Blocks.{width};
ghost use Rattle.mls_model.specs.Frames.{piece};
ghost use Rattle.mls_model.specs.Designs.{response, solved_row, solved_piece};
ghost use Rattle.mls_frame.specs.Owned.{owned_frame};
ghost use Rattle.mls_design.specs.Kept.{design_of};

use crate::design::Design;
use crate::solver::response;
use mls_base::faults::NoMemory;
use mls_frame::{Frame, Piece, Samples};
use mls_model::blocks::Span;
use mls_study::Study;
use std::alloc::Global;

/// What the solver makes of a simulation's inputs at four shifts in a row. The weights go by the shift modulo 4, so it
/// is the same again at the four shifts after them.
#[derive(Clone, Copy, Debug)]
struct Cycle {
    first: u16,
    second: u16,
    third: u16,
    fourth: u16,
}

/// The responses from a shift on.
fn cycle_of(inputs: &[u16], shift: u32) -> Cycle
    requires some { 1 ≤ length inputs.now }
    requires few { length inputs.now ≤ 16 }
    requires shift { shift + 3 < 2097152 }
    requires fits { (shift : ℕ) → response shift inputs.now ≤ 65535 }
    ensures first { result.first ≡ response shift inputs.now }
    ensures second { result.second ≡ response (shift + 1) inputs.now }
    ensures third { result.third ≡ response (shift + 2) inputs.now }
    ensures fourth { result.fourth ≡ response (shift + 3) inputs.now }
{
    Cycle {
        first: response(inputs, shift) as u16,
        second: response(inputs, shift + 1) as u16,
        third: response(inputs, shift + 2) as u16,
        fourth: response(inputs, shift + 3) as u16,
    }
}

/// The response at a place behind the first.
fn response_at(cycle: Cycle, place: u32) -> u16
    ensures { (f : ℕ → ℕ) → cycle.first ≡ f 0 → cycle.second ≡ f 1 → cycle.third ≡ f 2 → cycle.fourth ≡ f 3 →
        result ≡ f (place % 4) }
{
    let turn = place % 4;
    if turn == 0 {
        return cycle.first;
    }
    if turn == 1 {
        return cycle.second;
    }
    if turn == 2 {
        return cycle.third;
    }
    cycle.fourth
}

/// Adds the samples of a simulation with these inputs over a run of cells.
fn add_row(
    samples: &mut Samples,
    inputs: &[u16],
    step: u32,
    field: u32,
    cells: Span,
) -> Result<(), NoMemory>
    requires some { 1 ≤ length inputs.now }
    requires few { length inputs.now ≤ 16 }
    requires step_in { step < 4096 }
    requires field_in { field < 4 }
    requires ordered { cells.first ≤ cells.end }
    requires cells_in { cells.end ≤ 1048576 }
    requires fits { (shift : ℕ) → response shift inputs.now ≤ 65535 }
    ensures { let row = map (λ x. response (cells.first + x + step + field) inputs.now) (below (width cells)) in
        OnOk result (samples.new ≡ samples.old ++ row) }
{
    let cycle = cycle_of(inputs, cells.first + step + field);
    for place in 0..cells.end - cells.first {
        samples.push(response_at(cycle, place))?;
    }
    Ok(())
}

/// The samples of a group's step and field over a run of cells, simulation by simulation.
fn group_rows(
    alloc: Global,
    study: &Study,
    design: &Design,
    group: u32,
    step: u32,
    field: u32,
    cells: Span,
) -> Result<Samples, NoMemory>
    requires made { design.now ≡ design_of study.now }
    requires group_in { group < study.now.sizes.groups }
    requires step_in { step < study.now.sizes.steps }
    requires field_in { field < study.now.sizes.fields }
    requires ordered { cells.first ≤ cells.end }
    requires cells_in { cells.end ≤ study.now.sizes.cells }
    ensures { IfOk result (λ samples. samples ≡
        flat_map (λ sim. solved_row study.now group sim step field cells.first (width cells))
        (below (2 + study.now.sizes.parameters))) }
{
    study.valid();
    let count = 2 + study.shape().parameters();
    let mut samples = Samples::new(alloc);
    for sim in 0..count {
        let inputs = design.inputs(group, sim);
        add_row(&mut samples, inputs.as_slice(), step, field, cells)?;
    }
    Ok(samples)
}

/// The piece of a group's step and field that a client sends to a rank.
pub fn make_piece(
    alloc: Global,
    study: &Study,
    design: &Design,
    group: u32,
    life: u32,
    step: u32,
    field: u32,
    rank: u32,
    client: u32,
) -> Result<Frame, NoMemory>
    requires made { design.now ≡ design_of study.now }
    requires group_in { group < study.now.sizes.groups }
    requires step_in { step < study.now.sizes.steps }
    requires field_in { field < study.now.sizes.fields }
    requires rank_in { rank < study.now.sizes.ranks }
    requires client_in { client < study.now.sizes.clients }
    ensures { let made = solved_piece study.now group life step field rank client in
        IfOk result (λ frame. owned_frame frame ≡ piece made) }
{
    study.valid();
    let shape = study.shape();
    let cells = shape.overlap(rank, client);
    let samples = group_rows(alloc, study, design, group, step, field, cells)?;
    Ok(Frame::Piece(Piece {
        life,
        group,
        step: shape.plane(step, field),
        client: client as u16,
        rows: 2 + shape.parameters() as u16,
        first: cells.first,
        count: cells.end - cells.first,
        samples,
    }))
}

//! The solver.

ghost use Rattle.std.specs.Prelude.{◌≡◌, ◌+◌, ◌*◌, ◌%◌, ◌<◌, ◌≤◌, length};
ghost use Rattle.mls_model.specs.Designs.{response, solve};
ghost use Rattle.mls_design.specs.Kept.{design_of};

use crate::design::Design;
use mls_study::Study;

/// An input with its weight from 1 to 4.
#[tactic(auto, using(crate::proofs::Bounds::weight_small))]
fn weighted(input: u16, place: u32, shift: u32) -> u32
    requires place { place < 16 }
    requires shift { shift < 2097152 }
    ensures value { result ≡ (1 + (place + shift) % 4) * input }
    ensures small { result ≤ 262140 }
{
    (1 + (place + shift) % 4) * input as u32
}

/// The first input times the last.
#[tactic(auto, using(crate::proofs::Bounds::product_small))]
fn product(first: u16, last: u16) -> u32
    ensures value { result ≡ first * last }
{
    first as u32 * last as u32
}

/// What the solver makes of a simulation's inputs; the shift says which input has which weight.
pub fn response(inputs: &[u16], shift: u32) -> u32
    requires some { 1 ≤ length inputs.now }
    requires few { length inputs.now ≤ 16 }
    requires shift { shift < 2097152 }
    ensures { result ≡ response shift inputs.now }
{
    let mut sum = 0;
    for place in 0..inputs.len() {
        sum += weighted(inputs[place], place as u32, shift);
    }
    sum + product(inputs[0], inputs[inputs.len() - 1]) / 16384
}

/// The sample of a simulation at a step, field and cell. It takes no memory.
pub fn solve(
    study: &Study,
    design: &Design,
    group: u32,
    sim: u32,
    step: u32,
    field: u32,
    cell: u32,
) -> u16
    requires made { design.now ≡ design_of study.now }
    requires group_in { group < study.now.sizes.groups }
    requires step_in { step < study.now.sizes.steps }
    requires field_in { field < study.now.sizes.fields }
    requires cell_in { cell < study.now.sizes.cells }
    ensures { result ≡ solve study.now group sim step field cell }
{
    study.valid();
    let inputs = design.inputs(group, sim);
    response(inputs.as_slice(), cell + step + field) as u16
}

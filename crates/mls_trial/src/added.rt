//! The sums of the summary: of the values A and B of all planes and cells, and of their squares.

ghost use Rattle.std.specs.Prelude.{◌≡◌, ◌<◌, pos};
ghost use Rattle.mls_model.specs.Studies.{planes};
ghost use Rattle.mls_model.specs.SumsText.{height};
ghost use Rattle.mls_field.specs.Kept.{HasValuePowers};
ghost use Rattle.mls_result.specs.Histories.{AreCores, kept_sums};
ghost use Rattle.mls_trial.specs.Added.{AreCellSums};
ghost use Rattle.mls_trial.specs.Kept.{first_of, second_of, kept_over_plane, kept_over_cells};

use crate::value_sums::ValueSums;
use mls_field::field::Field;
use mls_power::power::Powers;
use mls_rank::RankCore;
use mls_study::Study;

/// The power sums of the values of a plane and a cell, from the core of the rank whose block holds it.
fn cell_powers(study: &Study, cores: &[RankCore<Field>], plane: u32, cell: u32) -> Powers
    requires cores { AreCores study.now.sizes cores.now }
    requires plane_in { plane < planes study.now.sizes }
    requires cell_in { cell < study.now.sizes.cells }
    ensures { HasValuePowers (height study.now.sizes.signed) (kept_sums study.now.sizes cores.now plane cell) result }
{
    let shape = study.shape();
    let rank = shape.rank_of(cell);
    let place = cell - shape.block(rank).first;
    let core = &cores[rank as usize];
    core.folded().powers(plane, place)
}

/// The sums of a plane.
fn plane_sums(study: &Study, cores: &[RankCore<Field>], plane: u32, cells: u32) -> ValueSums
    requires cores { AreCores study.now.sizes cores.now }
    requires plane_in { plane < planes study.now.sizes }
    requires cells { cells ≡ study.now.sizes.cells }
    ensures first { result.first ≡ kept_over_plane study.now.sizes cores.now (first_of study.now.sizes) plane }
    ensures second { pos result.second ≡ kept_over_plane study.now.sizes cores.now (second_of study.now.sizes) plane }
    ensures within { AreCellSums cells result }
{
    let mut sums = ValueSums {
        first: 0,
        second: 0,
    };
    for cell in 0..cells {
        let powers = cell_powers(study, cores, plane, cell);
        sums.first += powers.p1 as i128;
        sums.second += powers.p2 as u128;
    }
    sums
}

/// The sums of all planes. A plane has less than 2^32 cells, and a cell sums of 64 bits, so they fit.
pub fn all_sums(study: &Study, cores: &[RankCore<Field>]) -> ValueSums
    requires cores { AreCores study.now.sizes cores.now }
    ensures first { result.first ≡ kept_over_cells study.now.sizes cores.now (first_of study.now.sizes) }
    ensures second { pos result.second ≡ kept_over_cells study.now.sizes cores.now (second_of study.now.sizes) }
{
    let shape = study.shape();
    let mut sums = ValueSums {
        first: 0,
        second: 0,
    };
    for plane in 0..shape.planes() {
        let of_plane = plane_sums(study, cores, plane, shape.cells());
        sums.first += of_plane.first;
        sums.second += of_plane.second;
    }
    sums
}

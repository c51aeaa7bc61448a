//! What is said of a cell, from the sums that a rank keeps of it.

ghost use Rattle.std.specs.Prelude.{◌≡◌, ◌<◌, ◌≤◌, ◌-◌, ◌++◌, ◌&&◌, [], cond, length, nat_lt};
ghost use Rattle.mls_model.specs.Studies.{plane_of, shows};
ghost use Rattle.mls_model.specs.Blocks.{block};
ghost use Rattle.mls_model.specs.ResultText.{power_line, variance_line, third_line, exceed_words};
ghost use Rattle.mls_model.specs.SumsText.{variance_top_of, third_top_of, sums_powers, sums_extrema, sums_indices, sums_statistics, sums_text};
ghost use Rattle.mls_rank.specs.Cores.{sizes_of, rank_of as core_rank};
ghost use Rattle.mls_result.specs.Histories.{core_sums};
ghost use Rattle.mls_result.specs.Places.{IsCellOf};
ghost use Rattle.mls_field.specs.Stands.{shape_of};
ghost use Rattle.mls_field.specs.Kept.{sums_at};
ghost use Rattle.mls_text.specs.Writing.{WritesTo};
ghost use Rattle.std.proofs.Props.{props};
ghost use Rattle.mls_model.specs.declared.studies.Statistic.TheVariants.{Power, Extrema, Exceed, Sobol};

use crate::exceed::exceed_line;
use crate::extrema::put_extrema_line;
use crate::head::put_step;
use crate::indices::put_sobol_lines;
use crate::lines::{Moments, power_lines};
use mls_base::faults::Failed;
use mls_base::outside::Sink;
use mls_field::field::Field;
use mls_rank::RankCore;
use mls_study::{Statistic, Study};
use mls_text::put_bytes;

/// Writes the power lines of a cell without samples.
#[tactic(auto, unfolding(mls_model::specs::ResultText::power_line, mls_model::specs::ResultText::variance_line, mls_model::specs::ResultText::third_line))]
fn put_no_powers<O: Sink>(out: &mut O) -> Result<(), Failed>
    ensures { WritesTo O.told O.faults O.sure out.old out.new result
        (power_line [] ++ (variance_line [] ++ third_line [])) }
{
    put_bytes(out, b"power -\nvariance -\nthird -\n")
}

/// The tops of a cell's variance and third central moment.
fn moments_of(field: &Field, step: u32, cell: u32) -> Moments
    requires cell { IsCellOf field.now step cell }
    ensures variance { result.variance ≡ variance_top_of (sums_at field.now step cell) }
    ensures third { result.third ≡ third_top_of (sums_at field.now step cell) }
{
    Moments {
        variance: field.variance_top(step, cell),
        third: field.third_top(step, cell),
    }
}

/// Writes the power sums, the variance and the third central moment of a cell's values. A step is the number of a
/// plane, and a cell is a place in the block.
pub fn put_power_lines<O: Sink>(
    out: &mut O,
    field: &Field,
    step: u32,
    cell: u32,
) -> Result<(), Failed>
    requires cell { IsCellOf field.now step cell }
    ensures { WritesTo O.told O.faults O.sure out.old out.new result
        (sums_powers (shape_of field.now).signed (sums_at field.now step cell)) }
{
    let rows = field.rows(step);
    if rows == 0 {
        return put_no_powers(out);
    }
    let powers = field.powers(step, cell);
    let moments = moments_of(field, step, cell);
    power_lines(&powers, &moments, 2 * rows).put(out)
}

/// A cell of a rank's fold, with the study that it is printed for. A place counts the cells of the rank's block.
#[derive(Drop)]
struct FoldedCell<'a> {
    study: &'a Study,
    field: &'a Field,
    plane: u32,
    place: u32,
    ghost sizes: { shape_of field.now ≡ study.now.sizes },
    ghost inside: { IsCellOf field.now plane place } by { Prim.hlevel props },
}

/// Writes the power lines of a cell where the study shows them.
fn put_power<O: Sink>(out: &mut O, cell: &FoldedCell<'_>) -> Result<(), Failed>
    ensures { let study = cell.now.study.now in
        let text = sums_powers study.sizes.signed (sums_at cell.now.field.now cell.now.plane cell.now.place) in
        WritesTo O.told O.faults O.sure out.old out.new result (cond (shows study Power) text []) }
{
    if cell.study.shows(Statistic::Power) {
        return put_power_lines(out, cell.field, cell.plane, cell.place);
    }
    Ok(())
}

/// Writes the extrema line of a cell where the study shows it.
fn put_extrema<O: Sink>(out: &mut O, cell: &FoldedCell<'_>) -> Result<(), Failed>
    ensures { let study = cell.now.study.now in
        let text = sums_extrema study.sizes.signed (sums_at cell.now.field.now cell.now.plane cell.now.place) in
        WritesTo O.told O.faults O.sure out.old out.new result (cond (shows study Extrema) text []) }
{
    if cell.study.shows(Statistic::Extrema) {
        let shape = cell.study.shape();
        return put_extrema_line(out, &shape, cell.field, cell.plane, cell.place);
    }
    Ok(())
}

/// Whether a cell has an exceed line.
fn has_exceed_line(study: &Study) -> bool
    ensures { result ≡ (shows study.now Exceed && nat_lt 0 (length study.now.sizes.thresholds)) }
{
    study.shows(Statistic::Exceed) && study.shape().thresholds() > 0
}

/// Writes the exceed line of a cell where the study shows it and has a threshold.
fn put_exceed<O: Sink>(out: &mut O, cell: &FoldedCell<'_>) -> Result<(), Failed>
    ensures { let study = cell.now.study.now in
        let has_line = shows study Exceed && nat_lt 0 (length study.sizes.thresholds) in
        let text = exceed_words (sums_at cell.now.field.now cell.now.plane cell.now.place).above in
        WritesTo O.told O.faults O.sure out.old out.new result (cond has_line text []) }
{
    if has_exceed_line(cell.study) {
        let thresholds = cell.study.shape().thresholds();
        return exceed_line(&cell.field.exceed(cell.plane, cell.place), thresholds).put(out);
    }
    Ok(())
}

/// Writes the Sobol lines of a cell where the study shows them.
fn put_indices<O: Sink>(out: &mut O, cell: &FoldedCell<'_>) -> Result<(), Failed>
    ensures { let study = cell.now.study.now in
        let text = sums_indices study (sums_at cell.now.field.now cell.now.plane cell.now.place) in
        WritesTo O.told O.faults O.sure out.old out.new result (cond (shows study Sobol) text []) }
{
    if cell.study.shows(Statistic::Sobol) {
        let parameters = cell.study.shape().parameters();
        let sums = cell.field.martinez(cell.plane, cell.place);
        return put_sobol_lines(out, cell.study, parameters, &sums);
    }
    Ok(())
}

/// Writes what is said of a cell's statistics.
fn put_statistics<O: Sink>(out: &mut O, cell: &FoldedCell<'_>) -> Result<(), Failed>
    ensures { let sums = sums_at cell.now.field.now cell.now.plane cell.now.place in
        WritesTo O.told O.faults O.sure out.old out.new result (sums_statistics cell.now.study.now sums) }
{
    put_power(out, cell)?;
    put_extrema(out, cell)?;
    put_exceed(out, cell)?;
    put_indices(out, cell)
}

/// Writes all that is said of a cell of a rank's block.
pub fn put_cell<O: Sink>(
    out: &mut O,
    study: &Study,
    core: &RankCore<Field>,
    step: u32,
    field: u32,
    cell: u32,
) -> Result<(), Failed>
    requires sizes { sizes_of core.now ≡ study.now.sizes }
    requires step_in { step < study.now.sizes.steps }
    requires field_in { field < study.now.sizes.fields }
    requires first { (block study.now.sizes (core_rank core.now)).first ≤ cell }
    requires end { cell < (block study.now.sizes (core_rank core.now)).end }
    ensures { let sums = core_sums core.now (plane_of study.now.sizes step field) cell in
        WritesTo O.told O.faults O.sure out.old out.new result (sums_text study.now step field cell sums) }
{
    let shape = core.shape();
    let plane = shape.plane(step, field);
    let place = cell - shape.block(core.rank()).first;
    let sums = core.folded();
    let folded = FoldedCell {
        study,
        field: sums,
        plane,
        place,
    };
    put_step(out, study, step, field, cell, sums.rows(plane))?;
    put_statistics(out, &folded)
}

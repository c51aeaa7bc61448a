//! The bins text of the ranks' cores.

ghost use Rattle.std.specs.Prelude.{◌≡◌, ℕ, ◌<◌, ◌≤◌, List, map};
ghost use Rattle.mls_model.specs.Blocks.{block};
ghost use Rattle.mls_model.specs.Histories.{LaneEvent};
ghost use Rattle.mls_model.specs.ResultText.{field_text, step_text, cells_text};
ghost use Rattle.mls_text.specs.Writing.{WritesTo};
ghost use Rattle.mls_hist.specs.BinsText.{bins_title, history_bins};
ghost use Rattle.mls_rank.specs.Cores.{sizes_of, rank_of as core_rank, counts_of};
ghost use Rattle.mls_result.specs.Histories.{AreCores, AllStand};
ghost use Rattle.mls_result.specs.Words.{end_words};
ghost use Rattle.mls_bins.specs.Folding.{core_said, kept_said, bins_states_text};

use crate::lines::{put_bins, put_quartiles};
use mls_base::faults::Failed;
use mls_base::outside::Sink;
use mls_hist::Hist;
use mls_hist::laws::tables_are_counted;
use mls_rank::{Counts, RankCore};
use mls_result::{put_step, put_study, write_ranks};
use mls_study::Study;
use mls_tape::LaneLine;
use mls_text::put_bytes;

/// Writes all that is said of a cell of a rank's block.
fn put_cell<O: Sink>(
    out: &mut O,
    study: &Study,
    core: &RankCore<Hist>,
    step: u32,
    field: u32,
    cell: u32,
) -> Result<(), Failed>
    requires sizes { sizes_of core.now ≡ study.now.sizes }
    requires step_in { step < study.now.sizes.steps }
    requires field_in { field < study.now.sizes.fields }
    requires first { (block study.now.sizes (core_rank core.now)).first ≤ cell }
    requires end { cell < (block study.now.sizes (core_rank core.now)).end }
    ensures { WritesTo O.told O.faults O.sure out.old out.new result (core_said study.now core.now step field cell) }
{
    let shape = core.shape();
    let plane = shape.plane(step, field);
    let place = cell - shape.block(core.rank()).first;
    let hist = core.folded();
    let groups = hist.rows(plane);
    let counts = hist.whole_counts(plane, place);
    put_step(out, study, step, field, cell, groups)?;
    put_bins(out, groups, &counts)?;
    put_quartiles(out, shape.signed(), groups, &counts)
}

/// Writes the cells of a step and a field.
#[tactic(auto, unfolding(mls_model::specs::ResultText::field_text))]
fn put_cells<O: Sink>(
    out: &mut O,
    study: &Study,
    cores: &[RankCore<Hist>],
    step: u32,
    field: u32,
    cells: u32,
) -> Result<(), Failed>
    requires cores { AreCores study.now.sizes cores.now }
    requires step_in { step < study.now.sizes.steps }
    requires field_in { field < study.now.sizes.fields }
    requires cells { cells ≡ study.now.sizes.cells }
    ensures { WritesTo O.told O.faults O.sure out.old out.new result
        (field_text study.now (kept_said study.now cores.now step field)) }
{
    let shape = study.shape();
    for cell in 0..cells {
        let rank = shape.rank_of(cell) as usize;
        put_cell(out, study, &cores[rank], step, field, cell)?;
    }
    Ok(())
}

/// Writes the cells of a step.
#[tactic(auto, unfolding(mls_model::specs::ResultText::step_text))]
fn put_fields<O: Sink>(
    out: &mut O,
    study: &Study,
    cores: &[RankCore<Hist>],
    step: u32,
    fields: u32,
) -> Result<(), Failed>
    requires cores { AreCores study.now.sizes cores.now }
    requires step_in { step < study.now.sizes.steps }
    requires fields { fields ≡ study.now.sizes.fields }
    ensures { WritesTo O.told O.faults O.sure out.old out.new result
        (step_text study.now (kept_said study.now cores.now step)) }
{
    let cells = study.shape().cells();
    for field in 0..fields {
        put_cells(out, study, cores, step, field, cells)?;
    }
    Ok(())
}

/// Writes the cells of all steps.
#[tactic(auto, unfolding(mls_model::specs::ResultText::cells_text))]
fn put_steps<O: Sink>(
    out: &mut O,
    study: &Study,
    cores: &[RankCore<Hist>],
    steps: u32,
) -> Result<(), Failed>
    requires cores { AreCores study.now.sizes cores.now }
    requires steps { steps ≡ study.now.sizes.steps }
    ensures { WritesTo O.told O.faults O.sure out.old out.new result
        (cells_text study.now (kept_said study.now cores.now)) }
{
    let fields = study.shape().fields();
    for step in 0..steps {
        put_fields(out, study, cores, step, fields)?;
    }
    Ok(())
}

/// Writes the first line.
#[tactic(auto, unfolding(mls_hist::specs::BinsText::bins_title))]
fn put_title<O: Sink>(out: &mut O) -> Result<(), Failed>
    ensures { WritesTo O.told O.faults O.sure out.old out.new result bins_title }
{
    put_bytes(out, b"melissa-bins 1\n")
}

/// Writes the last line.
#[tactic(auto, unfolding(mls_result::specs::Words::end_words))]
fn put_end<O: Sink>(out: &mut O) -> Result<(), Failed>
    ensures { WritesTo O.told O.faults O.sure out.old out.new result end_words }
{
    put_bytes(out, b"end\n")
}

/// Writes the bins text of what the cores keep.
fn put_text<O: Sink>(
    out: &mut O,
    study: &Study,
    cores: &[RankCore<Hist>],
    counts: &[Counts],
    lanes: &[LaneLine],
) -> Result<(), Failed>
    requires cores { AreCores study.now.sizes cores.now }
    requires counts { counts.now ≡ map counts_of cores.now }
    ensures { WritesTo O.told O.faults O.sure out.old out.new result
        (bins_states_text study.now cores.now lanes.now) }
{
    put_title(out)?;
    put_study(out, study)?;
    write_ranks(counts, lanes, out)?;
    put_steps(out, study, cores, study.shape().steps())?;
    put_end(out)
}

/// Writes the bins text of a study, from the ranks' cores, one for each rank in order, their counts of outcomes, and
/// the lines of its lanes. It takes no memory. After `Failed` a front of the text went out; that comes only where the
/// sink takes fewer bytes for sure than the text has.
pub fn write_bins<O: Sink>(
    study: &Study,
    cores: &[RankCore<Hist>],
    counts: &[Counts],
    lanes: &[LaneLine],
    out: &mut O,
) -> Result<(), Failed>
    requires cores { AreCores study.now.sizes cores.now }
    requires counts { counts.now ≡ map counts_of cores.now }
    ensures states { WritesTo O.told O.faults O.sure out.old out.new result
        (bins_states_text study.now cores.now lanes.now) }
    ensures histories { (histories : ℕ → List LaneEvent) → AllStand cores.now histories →
        WritesTo O.told O.faults O.sure out.old out.new result (history_bins study.now histories lanes.now) }
{
    study.valid();
    tables_are_counted();
    put_text(out, study, cores, counts, lanes)
}

//! The whole text.

ghost use Rattle.std.specs.Prelude.{◌≡◌, ℕ, ◌<◌, ◌≤◌, List};
ghost use Rattle.mls_model.specs.Histories.{LaneEvent};
ghost use Rattle.mls_model.specs.ResultText.{history_text, field_text, step_text, cells_text};
ghost use Rattle.mls_text.specs.Writing.{WritesTo};
ghost use Rattle.mls_result.specs.Histories.{kept_said, states_text, AreCores, AllStand};
ghost use Rattle.mls_result.specs.Words.{end_words};

use crate::cells::put_cell;
use crate::head::put_head;
use crate::ranks::{put_lanes, put_ranks};
use mls_base::faults::Failed;
use mls_base::outside::Sink;
use mls_field::field::Field;
use mls_rank::RankCore;
use mls_study::Study;
use mls_tape::LaneLine;
use mls_text::put_bytes;

/// Writes the cells of a step and a field.
#[tactic(auto, unfolding(mls_model::specs::ResultText::field_text))]
fn put_cells<O: Sink>(
    out: &mut O,
    study: &Study,
    cores: &[RankCore<Field>],
    step: u32,
    field: u32,
    cells: u32,
) -> Result<(), Failed>
    requires cores { AreCores study.now.sizes cores.now }
    requires step_in { step < study.now.sizes.steps }
    requires field_in { field < study.now.sizes.fields }
    requires cells { cells ≡ study.now.sizes.cells }
    ensures { WritesTo O.told O.faults O.sure out.old out.new result
        (field_text study.now (kept_said study.now cores.now step field)) }
{
    let shape = study.shape();
    for cell in 0..cells {
        let rank = shape.rank_of(cell) as usize;
        put_cell(out, study, &cores[rank], step, field, cell)?;
    }
    Ok(())
}

/// Writes the cells of a step.
#[tactic(auto, unfolding(mls_model::specs::ResultText::step_text))]
fn put_fields<O: Sink>(
    out: &mut O,
    study: &Study,
    cores: &[RankCore<Field>],
    step: u32,
    fields: u32,
) -> Result<(), Failed>
    requires cores { AreCores study.now.sizes cores.now }
    requires step_in { step < study.now.sizes.steps }
    requires fields { fields ≡ study.now.sizes.fields }
    ensures { WritesTo O.told O.faults O.sure out.old out.new result
        (step_text study.now (kept_said study.now cores.now step)) }
{
    let cells = study.shape().cells();
    for field in 0..fields {
        put_cells(out, study, cores, step, field, cells)?;
    }
    Ok(())
}

/// Writes the cells of all steps.
#[tactic(auto, unfolding(mls_model::specs::ResultText::cells_text))]
fn put_steps<O: Sink>(
    out: &mut O,
    study: &Study,
    cores: &[RankCore<Field>],
    steps: u32,
) -> Result<(), Failed>
    requires cores { AreCores study.now.sizes cores.now }
    requires steps { steps ≡ study.now.sizes.steps }
    ensures { WritesTo O.told O.faults O.sure out.old out.new result
        (cells_text study.now (kept_said study.now cores.now)) }
{
    let fields = study.shape().fields();
    for step in 0..steps {
        put_fields(out, study, cores, step, fields)?;
    }
    Ok(())
}

/// Writes the last line.
#[tactic(auto, unfolding(crate::specs::Words::end_words))]
fn put_end<O: Sink>(out: &mut O) -> Result<(), Failed>
    ensures { WritesTo O.told O.faults O.sure out.old out.new result end_words }
{
    put_bytes(out, b"end\n")
}

/// Writes the result text of what the cores keep.
fn put_result<O: Sink>(
    out: &mut O,
    study: &Study,
    cores: &[RankCore<Field>],
    lanes: &[LaneLine],
) -> Result<(), Failed>
    requires cores { AreCores study.now.sizes cores.now }
    ensures { WritesTo O.told O.faults O.sure out.old out.new result (states_text study.now cores.now lanes.now) }
{
    put_head(out, study)?;
    put_ranks(out, cores)?;
    put_lanes(out, lanes)?;
    put_steps(out, study, cores, study.shape().steps())?;
    put_end(out)
}

/// Writes the result text of a study, from the ranks' cores, one for each rank in order, and the lines of its lanes.
/// It takes no memory. After `Failed` a front of the text went out; that comes only where the sink takes fewer bytes
/// for sure than the text has.
pub fn write_result<O: Sink>(
    study: &Study,
    cores: &[RankCore<Field>],
    lanes: &[LaneLine],
    out: &mut O,
) -> Result<(), Failed>
    requires cores { AreCores study.now.sizes cores.now }
    ensures states { WritesTo O.told O.faults O.sure out.old out.new result
        (states_text study.now cores.now lanes.now) }
    ensures histories { (histories : ℕ → List LaneEvent) → AllStand cores.now histories →
        WritesTo O.told O.faults O.sure out.old out.new result (history_text study.now histories lanes.now) }
{
    study.valid();
    put_result(out, study, cores, lanes)
}

//! The whole summary.

ghost use Rattle.std.specs.Prelude.{◌≡◌, ℕ, List};
ghost use Rattle.mls_model.specs.ResultText.{histories_of};
ghost use Rattle.mls_text.specs.Writing.{WritesTo};
ghost use Rattle.mls_result.specs.Histories.{AreCores, AllStand};
ghost use Rattle.mls_design.specs.TrialText.{lanes_line, trial_summary};
ghost use Rattle.mls_trial.specs.Kept.{kept_groups, ends_line, kept_sum_line, trial_states_text};
ghost use Rattle.mls_trial.specs.Words.{end_words};

use crate::added::all_sums;
use crate::counted::{accepted_ends, tape_events};
use crate::lines::{groups_line, lanes_line, sum_line, title_line};
use mls_base::faults::Failed;
use mls_base::outside::Sink;
use mls_field::field::Field;
use mls_rank::RankCore;
use mls_result::{cores_keep_histories, write_core_ranks};
use mls_study::Study;
use mls_tape::Tape;
use mls_text::put_bytes;

/// Writes the numbers of the tape's lanes and events.
fn put_lanes<O: Sink>(out: &mut O, tape: &Tape) -> Result<(), Failed>
    ensures { WritesTo O.told O.faults O.sure out.old out.new result (lanes_line tape.now.lanes) }
{
    lanes_line(tape.lane_count(), tape_events(tape)).put(out)
}

/// Writes the least and the greatest number of groups that a rank accepted in a plane.
fn put_groups<O: Sink>(out: &mut O, study: &Study, cores: &[RankCore<Field>]) -> Result<(), Failed>
    requires cores { AreCores study.now.sizes cores.now }
    ensures { WritesTo O.told O.faults O.sure out.old out.new result (ends_line (kept_groups study.now.sizes cores.now)) }
{
    study.valid();
    let ends = accepted_ends(study, cores);
    groups_line(ends.least(), ends.greatest()).put(out)
}

/// Writes the sums of all values.
fn put_sums<O: Sink>(out: &mut O, study: &Study, cores: &[RankCore<Field>]) -> Result<(), Failed>
    requires cores { AreCores study.now.sizes cores.now }
    ensures { WritesTo O.told O.faults O.sure out.old out.new result (kept_sum_line study.now.sizes cores.now) }
{
    let sums = all_sums(study, cores);
    sum_line(sums.first, sums.second).put(out)
}

/// Writes the last line.
#[tactic(auto, unfolding(crate::specs::Words::end_words))]
fn put_end<O: Sink>(out: &mut O) -> Result<(), Failed>
    ensures { WritesTo O.told O.faults O.sure out.old out.new result end_words }
{
    put_bytes(out, b"end\n")
}

/// Writes the summary of what the cores keep.
fn put_summary<O: Sink>(
    out: &mut O,
    study: &Study,
    number: u64,
    tape: &Tape,
    cores: &[RankCore<Field>],
) -> Result<(), Failed>
    requires cores { AreCores study.now.sizes cores.now }
    ensures { WritesTo O.told O.faults O.sure out.old out.new result
        (trial_states_text study.now number tape.now.lanes cores.now) }
{
    title_line(number).put(out)?;
    put_lanes(out, tape)?;
    write_core_ranks(cores, out)?;
    put_groups(out, study, cores)?;
    put_sums(out, study, cores)?;
    put_end(out)
}

/// Writes the summary of a trial: its number, the lanes and events of its tape, and what the ranks' cores keep, one for
/// each rank in order. It takes no memory. After `Failed` a front of the summary went out; that comes only where the
/// sink takes fewer bytes for sure than it has.
pub fn write_trial<O: Sink>(
    study: &Study,
    number: u64,
    tape: &Tape,
    cores: &[RankCore<Field>],
    out: &mut O,
) -> Result<(), Failed>
    requires cores { AreCores study.now.sizes cores.now }
    ensures states { WritesTo O.told O.faults O.sure out.old out.new result
        (trial_states_text study.now number tape.now.lanes cores.now) }
    ensures histories { (orders : List (List ℕ)) → AllStand cores.now (histories_of tape.now.lanes orders) →
        WritesTo O.told O.faults O.sure out.old out.new result
        (trial_summary study.now number tape.now.lanes orders) }
{
    study.valid();
    cores_keep_histories();
    put_summary(out, study, number, tape, cores)
}

//! What is counted for the summary: the events of the lanes, and the groups that each rank accepted in each plane.

ghost use Rattle.std.specs.Prelude.{◌≡◌, ℕ, ◌++◌, List};
ghost use Rattle.mls_model.specs.Studies.{planes};
ghost use Rattle.mls_power.specs.ExtremaStanding.{ExtremaStandFor};
ghost use Rattle.mls_rank.specs.Cores.{sizes_of};
ghost use Rattle.mls_result.specs.Histories.{AreCores};
ghost use Rattle.mls_design.specs.Trial.{lane_events};
ghost use Rattle.mls_trial.specs.Kept.{core_groups, kept_groups};

use mls_field::field::Field;
use mls_power::extrema::Extrema;
use mls_rank::RankCore;
use mls_study::Study;
use mls_tape::Tape;

/// The number of all lanes' events.
pub fn tape_events(tape: &Tape) -> u64
    ensures { result ≡ lane_events tape.now.lanes }
{
    let mut events = 0u64;
    for lane in 0..tape.lane_count() {
        events += tape.events(lane) as u64;
    }
    events
}

/// Takes the number of groups that a rank accepted in each plane.
fn add_core(ends: &mut Extrema, core: &RankCore<Field>, count: u32)
    requires { count ≡ planes (sizes_of core.now) }
    ensures { (numbers : List ℕ) → ExtremaStandFor ends.old numbers →
        ExtremaStandFor ends.new (numbers ++ core_groups (sizes_of core.now) core.now) }
{
    let field = core.folded();
    for plane in 0..count {
        ends.add(field.rows(plane) as u16);
    }
}

/// The least and the greatest number of groups that a rank accepted in a plane. No rank accepts more than 65,535.
pub fn accepted_ends(study: &Study, cores: &[RankCore<Field>]) -> Extrema
    requires cores { AreCores study.now.sizes cores.now }
    ensures { ExtremaStandFor result (kept_groups study.now.sizes cores.now) }
{
    let count = study.shape().planes();
    let mut ends = Extrema::new();
    for core in cores {
        add_core(&mut ends, core, count);
    }
    ends
}

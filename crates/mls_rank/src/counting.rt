//! The counts of a rank's events.

ghost use Rattle.std.specs.Prelude.{◌≡◌, ◌<◌, ◌-◌, ◌^◌};
ghost use Rattle.mls_model.specs.Outcomes.{counted, total_count};
ghost use Rattle.mls_rank.specs.Counting.{no_counts, is_idle};

use mls_model::outcomes::{Counts, Outcome, Reason};

/// The counts before any event.
pub(crate) fn no_events() -> Counts
    ensures { result ≡ no_counts }
{
    Counts {
        accepted: 0,
        kept: 0,
        replay: 0,
        stale: 0,
        repeated: 0,
        f1: 0,
        f2: 0,
        f3: 0,
        f4: 0,
        f5: 0,
        f6: 0,
    }
}

/// Whether an outcome is counted by no count.
pub(crate) fn is_not_counted(outcome: Outcome) -> bool
    ensures { result ≡ is_idle outcome }
{
    match outcome {
        Outcome::Quiet | Outcome::Save | Outcome::Crash => true,
        _ => false,
    }
}

/// The counts with one more outcome. Quiet events, saves and crashes are not counted.
pub(crate) fn one_more(counts: Counts, outcome: Outcome) -> Counts
    requires { total_count counts < 2 ^ 64 - 1 }
    ensures { result ≡ counted counts outcome }
{
    let mut counts = counts;
    match outcome {
        Outcome::Accepted => counts.accepted += 1,
        Outcome::Kept => counts.kept += 1,
        Outcome::Replay => counts.replay += 1,
        Outcome::Stale => counts.stale += 1,
        Outcome::Repeated => counts.repeated += 1,
        Outcome::Foreign(Reason::LaneKind) => counts.f1 += 1,
        Outcome::Foreign(Reason::Rows) => counts.f2 += 1,
        Outcome::Foreign(Reason::Group) => counts.f3 += 1,
        Outcome::Foreign(Reason::Step) => counts.f4 += 1,
        Outcome::Foreign(Reason::Client) => counts.f5 += 1,
        Outcome::Foreign(Reason::Cells) => counts.f6 += 1,
        Outcome::Quiet | Outcome::Save | Outcome::Crash => {}
    }
    counts
}

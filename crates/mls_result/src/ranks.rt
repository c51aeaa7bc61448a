//! What is said of the ranks and of the lanes.

ghost use Rattle.std.specs.Prelude.{◌≡◌, ℕ, ◌<◌, ◌++◌, length, map};
ghost use Rattle.mls_model.specs.ResultText.{rank_lines, lane_lines};
ghost use Rattle.mls_model.specs.declared.outcomes.Counts.{Counts};
ghost use Rattle.mls_rank.specs.Cores.{counts_of};
ghost use Rattle.mls_text.specs.Writing.{WritesTo};

use crate::lines::{lane_line, rank_line};
use mls_base::faults::Failed;
use mls_base::outside::Sink;
use mls_field::field::Field;
use mls_model::outcomes::Counts;
use mls_rank::RankCore;
use mls_tape::LaneLine;

/// What has the counts of a rank.
pub(crate) trait HasCounts {
    /// The counts.
    ghost kept: { Self → Counts };

    /// How many pieces of the rank had each outcome.
    fn rank_counts(&self) -> Counts
        ensures { result ≡ kept self.now };
}

impl HasCounts for Counts {
    ghost kept = { λ counts. counts };

    fn rank_counts(&self) -> Counts {
        *self
    }
}

impl HasCounts for RankCore<Field> {
    ghost use Rattle.mls_rank.specs.Cores.{counts_of};

    ghost kept = { λ core. counts_of core };

    fn rank_counts(&self) -> Counts {
        self.counts()
    }
}

/// Writes the counts of each rank.
#[tactic(auto, unfolding(mls_model::specs::ResultText::rank_lines))]
pub(crate) fn put_ranks<O: Sink, C: HasCounts>(out: &mut O, ranks: &[C]) -> Result<(), Failed>
    ensures { WritesTo O.told O.faults O.sure out.old out.new result (rank_lines (map C.kept ranks.now)) }
{
    for rank in 0..ranks.len() {
        rank_line(rank as u64, &ranks[rank].rank_counts()).put(out)?;
    }
    Ok(())
}

/// Writes what is said of each lane.
#[tactic(auto, unfolding(mls_model::specs::ResultText::lane_lines))]
pub fn put_lanes<O: Sink>(out: &mut O, lanes: &[LaneLine]) -> Result<(), Failed>
    ensures { WritesTo O.told O.faults O.sure out.old out.new result (lane_lines lanes.now) }
{
    for lane in lanes {
        lane_line(lane).put(out)?;
    }
    Ok(())
}

/// Writes the rank lines of what these cores count, in rising rank. It takes no memory. After `Failed` a front of the
/// lines went out; that comes only where the sink takes fewer bytes for sure than they have.
pub fn write_core_ranks<O: Sink>(cores: &[RankCore<Field>], out: &mut O) -> Result<(), Failed>
    ensures { WritesTo O.told O.faults O.sure out.old out.new result (rank_lines (map counts_of cores.now)) }
{
    put_ranks(out, cores)
}

/// Writes the rank lines of these counts in rising rank, and then the lane lines of these lanes. It takes no memory.
/// After `Failed` a front of the lines went out; that comes only where the sink takes fewer bytes for sure than they
/// have.
pub fn write_ranks<O: Sink>(
    counts: &[Counts],
    lanes: &[LaneLine],
    out: &mut O,
) -> Result<(), Failed>
    ensures { WritesTo O.told O.faults O.sure out.old out.new result (rank_lines counts.now ++ lane_lines lanes.now) }
{
    put_ranks(out, counts)?;
    put_lanes(out, lanes)
}

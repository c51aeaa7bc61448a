//! The counts of cells, read from bytes.

ghost use Rattle.std.specs.Prelude.{◌≡◌, ℕ, ◌+◌, ◌*◌, ◌<◌, ◌≤◌, length, slice_index, sum, IfOk, OnOk, IfErr};
ghost use Rattle.std.specs.Int.{w32};
ghost use Rattle.mls_model.specs.Studies.{Sizes, planes};
ghost use Rattle.mls_model.specs.Blocks.{block, width};
ghost use Rattle.mls_ckpt.specs.declared.faults.CkptWhy.TheVariants.{Range};
ghost use Rattle.mls_ckpt.specs.declared.faults.RecoverFault.TheVariants.{Bad};
ghost use Rattle.mls_ckpt.specs.Reading.{number_at, fixed_at};
ghost use Rattle.mls_field.specs.Answered.{Reads, ReadsThese};
ghost use Rattle.mls_ckpt.specs.declared.faults.CkptWhy.TheVariants as why;
ghost use Rattle.mls_ckpt.specs.Places.{cursor_of};
ghost use Rattle.mls_hist.specs.HistPart.{mark, counts_at, plane_at, cells_at, part_at, hist_text};
ghost use Rattle.mls_hist.specs.Passing.{Passes};
ghost use Rattle.mls_hist.specs.Histograms.{cell_start};
ghost use Rattle.mls_hist.specs.Packed.{counts_from, packed_plane, packed_cells, Within};

use crate::cells::{BINS, MARK};
use mls_base::shape::Shape;
use mls_ckpt::{CkptWhy, RecoverFault, Take};

// A rule is broken, and this is the place that is named.
fn refused(at: u64) -> RecoverFault
    ensures { result ≡ Bad at Range }
{
    RecoverFault::Bad {
        at,
        why: CkptWhy::Range,
    }
}

// The next number, which is at most so much.
fn number_of(from: &mut Take<'_>, most: u32) -> Result<u32, RecoverFault>
    ensures exact { Reads (λ n. n) (number_at w32 most) from.old from.new result }
    ensures few { IfOk result (λ n. n ≤ most) }
{
    Ok(from.u32(most)?)
}

/// Reads the first number of the part, which is fixed.
#[tactic(auto, unfolding(mls_ckpt::specs::Reading::fixed_at))]
fn take_mark(from: &mut Take<'_>) -> Result<(), RecoverFault>
    ensures { Passes (cursor_of from.new) result (fixed_at why.Range w32 mark (cursor_of from.old)) }
{
    let at = from.at();
    let read = number_of(from, u32::MAX)?;
    if read != MARK {
        return Err(refused(at));
    }
    Ok(())
}

/// Reads the counts of a cell of so many rows into a list from `start` on.
#[tactic(auto, unfolding(crate::specs::HistPart::counts_at))]
fn take_counts(
    bins: &mut [u32],
    start: usize,
    n: u32,
    from: &mut Take<'_>,
) -> Result<(), RecoverFault>
    requires few { n ≤ 65535 }
    requires bins { start + 64 ≤ length bins.old }
    ensures exact { ReadsThese (counts_from bins.new start) (counts_at n) from.old from.new result }
    ensures whole { OnOk result (sum (counts_from bins.new start) ≡ 2 * n) }
    ensures others { Within start 64 bins.old bins.new }
{
    let at = from.at();
    let mut room = 2 * n;
    for bin in 0..BINS {
        let count = number_of(from, room)?;
        bins[start + bin] = count;
        room -= count;
    }
    if room > 0 {
        return Err(refused(at + 4 * 63));
    }
    Ok(())
}

/// Reads the cells of a plane of so many rows.
#[tactic(auto, unfolding(crate::specs::HistPart::plane_at))]
fn take_plane(
    bins: &mut [u32],
    plane: usize,
    places: usize,
    n: u32,
    from: &mut Take<'_>,
) -> Result<(), RecoverFault>
    requires few { n ≤ 65535 }
    requires bins { (plane * places + places) * 64 ≤ length bins.old }
    ensures exact { (s : Sizes) (rank : ℕ) → width (block s rank) ≡ places →
        ReadsThese (packed_plane places bins.new plane places) (plane_at s rank n) from.old from.new result }
    ensures whole { OnOk result ((place : ℕ) → place < places →
        sum (counts_from bins.new (cell_start places plane place)) ≡ 2 * n) }
    ensures before { (j : ℕ) → j < plane * places * 64 → slice_index bins.new j ≡ slice_index bins.old j }
{
    for place in 0..places {
        take_counts(bins, (plane * places + place) * BINS, n, from)?;
    }
    Ok(())
}

/// Reads the cells of all planes, each of so many rows.
#[tactic(auto, unfolding(crate::specs::HistPart::cells_at))]
pub(crate) fn take_planes(
    bins: &mut [u32],
    counts: &[u32],
    places: usize,
    from: &mut Take<'_>,
) -> Result<(), RecoverFault>
    requires few { (plane : ℕ) → slice_index counts.now plane ≤ 65535 }
    requires bins { length bins.old ≡ length counts.now * places * 64 }
    ensures exact { (s : Sizes) (rank : ℕ) → planes s ≡ length counts.now → width (block s rank) ≡ places →
        ReadsThese (packed_cells places bins.new (planes s)) (cells_at s rank counts.now) from.old from.new result }
    ensures whole { OnOk result ((plane place : ℕ) → plane < length counts.now → place < places →
        sum (counts_from bins.new (cell_start places plane place)) ≡ 2 * slice_index counts.now plane) }
{
    for plane in 0..counts.len() {
        take_plane(bins, plane, places, counts[plane], from)?;
    }
    Ok(())
}

/// Reads the part of a checkpoint: the mark, and the cells of all planes, each of so many rows.
#[tactic(auto, unfolding(crate::specs::HistPart::part_at))]
pub(crate) fn take_part(
    bins: &mut [u32],
    counts: &[u32],
    places: usize,
    from: &mut Take<'_>,
) -> Result<(), RecoverFault>
    requires few { (plane : ℕ) → slice_index counts.now plane ≤ 65535 }
    requires bins { length bins.old ≡ length counts.now * places * 64 }
    ensures exact { (s : Sizes) (rank : ℕ) → planes s ≡ length counts.now → width (block s rank) ≡ places →
        Passes (cursor_of from.new) result (part_at s rank counts.now (cursor_of from.old)) }
    ensures whole { OnOk result ((plane place : ℕ) → plane < length counts.now → place < places →
        sum (counts_from bins.new (cell_start places plane place)) ≡ 2 * slice_index counts.now plane) }
    ensures spelled { (s : Sizes) (rank : ℕ) → planes s ≡ length counts.now → width (block s rank) ≡ places →
        OnOk result ((cursor_of from.old).left
        ≡ hist_text (packed_cells places bins.new (planes s)) (cursor_of from.new).left) }
{
    take_mark(from)?;
    take_planes(bins, counts, places, from)
}

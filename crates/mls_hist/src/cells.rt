//! The counts of one cell.

ghost use Rattle.std.specs.Prelude.{◌≡◌, ℕ, ◌+◌, ◌<◌, ◌≤◌, ◌↔◌, length, sum, slice_index, IsNone, IfSome, OnOk};
ghost use Rattle.mls_hist.specs.Quartiles.{first_bin, bracket_in};
ghost use Rattle.mls_hist.specs.HistPart.{counts_text};
ghost use Rattle.mls_field.specs.PutBytes.{Grown};

use mls_base::faults::NoMemory;
use mls_ckpt::Put;

/// How many bins a cell has.
pub const BINS: usize = 64;

/// How many shifted values a bin holds.
pub const BIN_WIDTH: u16 = 1024;

/// The first number of the part of a checkpoint.
pub(crate) const MARK: u32 = 0x4849_5354;

/// How many samples of a cell each bin holds.
pub type BinCounts = [u32; BINS];

/// The counts from a start on.
pub(crate) fn copied(bins: &[u32], start: usize) -> BinCounts
    requires { start + 64 ≤ length bins.now }
    ensures long { length result ≡ 64 }
    ensures same { (bin : ℕ) → bin < 64 → slice_index result bin ≡ slice_index bins.now (start + bin) }
{
    let mut counts = [0; BINS];
    for bin in 0..BINS {
        counts[bin] = bins[start + bin];
    }
    counts
}

/// The first bin with so many samples in it and in those before it.
#[tactic(auto, unfolding(crate::specs::Quartiles::first_bin))]
fn bin_of_number(counts: &BinCounts, number: u32) -> u32
    requires { sum counts.now ≤ 131070 }
    ensures value { result ≡ first_bin counts.now number }
    ensures within { result < 64 }
{
    let mut before = 0;
    for bin in 0..63 {
        before += counts[bin];
        if before >= number {
            return bin as u32;
        }
    }
    63
}

/// The bin that holds quartile j of so many samples with these counts: of N sorted samples the one numbered N · j / 4,
/// rounded up, from 1. None exactly where there is no sample.
#[tactic(auto, unfolding(crate::specs::Quartiles::bracket_in))]
pub fn bracket_of(counts: &BinCounts, samples: u32, j: u32) -> Option<u32>
    requires few { samples ≤ 131070 }
    requires samples { sum counts.now ≡ samples }
    requires quartile { j ≤ 3 }
    ensures value { result ≡ bracket_in counts.now j }
    ensures none { IsNone result ↔ (samples ≡ 0) }
    ensures within { IfSome result (λ bin. bin < 64) }
{
    if samples == 0 {
        return None;
    }
    Some(bin_of_number(counts, (samples * j).div_ceil(4)))
}

/// Appends the counts of a cell.
pub(crate) fn put_counts(out: &mut Put, counts: &BinCounts) -> Result<(), NoMemory>
    ensures { OnOk result (Grown out.old out.new (counts_text counts.now)) }
{
    for bin in 0..BINS {
        out.put_u32(counts[bin])?;
    }
    Ok(())
}

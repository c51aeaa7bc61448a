//! Samples that are put where they wait, and added to the counts of their bins.

ghost use Rattle.std.specs.Prelude.{◌≡◌, ℕ, ◌+◌, ◌*◌, ◌^◌, ◌<◌, ◌≤◌, length, slice_index};
ghost use Rattle.mls_model.specs.Samples.{shifted};
ghost use Rattle.mls_hist.specs.Bins.{count_in};
ghost use Rattle.mls_hist.specs.Histograms.{cell_start};
ghost use Rattle.mls_hist.specs.Packed.{Within};
ghost use Rattle.mls_hist.specs.Waiting.{column};

use crate::cells::{BIN_WIDTH, BINS};
use mls_base::rows::Rows;

/// How many samples of a cell may wait: those of eight rows.
pub(crate) const WAITING: usize = 16;

/// The shifted value of a sample.
fn shifted_value(signed: bool, sample: u16) -> u16
    ensures { result ≡ shifted signed sample }
{
    let shift = if signed { 32768 } else { 0 };
    sample.wrapping_add(shift)
}

// Puts the shifted values of a row of a block into a list from `at` on.
fn gather_row<R: Rows>(samples: &mut [u16], at: usize, signed: bool, rows: &R, row: u32)
    requires row { row < R.row_count rows.now }
    requires size { at + R.place_count rows.now ≤ length samples.old }
    ensures small { ((i : ℕ) → slice_index samples.old i ≤ 65535) → (i : ℕ) → slice_index samples.new i ≤ 65535 }
    ensures values { (i : ℕ) → i < R.place_count rows.now →
        slice_index samples.new (at + i) ≡ shifted signed (R.sample rows.now row i) }
    ensures others { Within at (R.place_count rows.now) samples.old samples.new }
{
    for place in 0..rows.cells() {
        samples[at + place as usize] = shifted_value(signed, rows.at(row, place));
    }
}

/// Puts the shifted values of A and B of a block into a list from `start` on, those of A before those of B.
pub(crate) fn gather<R: Rows>(samples: &mut [u16], start: usize, signed: bool, rows: &R)
    requires rows { 2 ≤ R.row_count rows.now }
    requires size { start + 2 * R.place_count rows.now ≤ length samples.old }
    ensures small { ((i : ℕ) → slice_index samples.old i ≤ 65535) → (i : ℕ) → slice_index samples.new i ≤ 65535 }
    ensures a { (i : ℕ) → i < R.place_count rows.now →
        slice_index samples.new (start + i) ≡ shifted signed (R.sample rows.now 0 i) }
    ensures b { (i : ℕ) → i < R.place_count rows.now →
        slice_index samples.new (start + R.place_count rows.now + i) ≡ shifted signed (R.sample rows.now 1 i) }
    ensures others { Within start (2 * R.place_count rows.now) samples.old samples.new }
{
    gather_row(samples, start, signed, rows, 0);
    gather_row(samples, start + rows.cells() as usize, signed, rows, 1);
}

/// Adds so many samples, each so many places behind the one before it, to the counts from `start` on.
pub(crate) fn add_samples(
    bins: &mut [u32],
    start: usize,
    samples: &[u16],
    at: usize,
    places: usize,
    count: usize,
)
    requires bins { start + 64 ≤ length bins.old }
    requires samples { (k : ℕ) → k < count → at + k * places < length samples.now }
    requires few { count ≤ 16 }
    requires room { (bin : ℕ) → bin < 64 → slice_index bins.old (start + bin) < 2 ^ 31 }
    ensures counts { (bin : ℕ) → bin < 64 → slice_index bins.new (start + bin)
        ≡ slice_index bins.old (start + bin) + count_in bin (column places samples.now at count) }
    ensures others { Within start 64 bins.old bins.new }
{
    for k in 0..count {
        let bin = (samples[at + k * places] / BIN_WIDTH) as usize;
        bins[start + bin] += 1;
    }
}

/// Adds the sixteen samples of each place of a plane to the counts of its cells, which begin with cell `first`.
pub(crate) fn add_plane(
    bins: &mut [u32],
    first: usize,
    samples: &[u16],
    start: usize,
    places: usize,
)
    requires bins { (first + places) * 64 ≤ length bins.old }
    requires samples { start + 16 * places ≤ length samples.now }
    requires room { (place bin : ℕ) → place < places → bin < 64 →
        slice_index bins.old ((first + place) * 64 + bin) < 2 ^ 31 }
    ensures counts { (place bin : ℕ) → place < places → bin < 64 → slice_index bins.new ((first + place) * 64 + bin)
        ≡ slice_index bins.old ((first + place) * 64 + bin) + count_in bin (column places samples.now (start + place) 16) }
    ensures others { Within (first * 64) (places * 64) bins.old bins.new }
{
    for place in 0..places {
        let cell = first + place;
        add_samples(bins, cell * BINS, samples, start + place, places, WAITING);
    }
}

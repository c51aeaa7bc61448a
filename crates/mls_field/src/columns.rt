//! Adding eight rows that wait to the columns of sums of a plane's cells.

ghost use Rattle.std.specs.Prelude.{◌≡◌, ℕ, ◌+◌, ◌-◌, ◌*◌, ◌^◌, ◌<◌, ◌≤◌, List, length, slice_index};
ghost use Rattle.mls_field.specs.ColumnSums.{sums_size};
ghost use Rattle.mls_field.specs.EightRows.{sums_steps, ends_steps, numbers_steps, HasRoomForEight};
ghost use Rattle.mls_field.specs.Walk.{Walk};

use mls_base::shape::Shape;
use mls_cov::columns::{add_outputs, add_products};
use mls_power::columns::{add_powers, count_above, take_greatest, take_least};

// How many places are walked at a time, so that their sums and the samples that wait for them lie in cache for all columns.
const CHUNK: usize = 1024;

/// Adds eight rows to all columns at so many places from `from` on. The columns stand in a list from row `row` on, where each row has a number for each place.
fn add_to_columns(
    words: &mut [u64],
    row: usize,
    places: usize,
    from: usize,
    count: usize,
    parameters: u32,
    samples: &[u16],
    start: usize,
)
    requires few { parameters ≤ 16 }
    requires inside { from + count ≤ places }
    requires row { row + sums_size parameters < 2 ^ 63 }
    requires words { (row + sums_size parameters) * places ≤ length words.old }
    requires samples { start + (parameters + 2) * places * 8 ≤ length samples.now }
    requires room { HasRoomForEight parameters row places from (from + count) words.old }
    ensures { let step = sums_steps parameters places samples.now start in
        Walk row (sums_size parameters) places from (from + count) words.old words.new step }
{
    let stride = (parameters as usize + 2) * places;
    let a = start + from;
    let b = start + places + from;
    let at = row * places + from;
    add_outputs(words, at, places, count, samples, a, b, stride);
    for k in 0..parameters as usize {
        let at = (row + 4 + 4 * k) * places + from;
        let c = start + (k + 2) * places + from;
        add_products(words, at, places, count, samples, a, b, c, stride);
    }
    let at = (row + 4 + 4 * parameters as usize) * places + from;
    add_powers(words, at, places, count, samples, a, b, stride);
}

/// Adds eight rows to all columns at all places.
pub(crate) fn add_to_sums(
    words: &mut [u64],
    row: usize,
    places: usize,
    parameters: u32,
    samples: &[u16],
    start: usize,
)
    requires few { parameters ≤ 16 }
    requires row { row + sums_size parameters < 2 ^ 63 }
    requires words { (row + sums_size parameters) * places ≤ length words.old }
    requires samples { start + (parameters + 2) * places * 8 ≤ length samples.now }
    requires room { HasRoomForEight parameters row places 0 places words.old }
    ensures { let step = sums_steps parameters places samples.now start in
        Walk row (sums_size parameters) places 0 places words.old words.new step }
{
    let mut from = 0;
    while from < places {
        let count = CHUNK.min(places - from);
        add_to_columns(words, row, places, from, count, parameters, samples, start);
        from += count;
    }
}

/// Takes the least and the greatest of the samples A and B of eight rows into two columns.
pub(crate) fn add_to_ends(
    ends: &mut [u16],
    row: usize,
    places: usize,
    parameters: u32,
    samples: &[u16],
    start: usize,
)
    requires few { parameters ≤ 16 }
    requires row { row + 2 < 2 ^ 63 }
    requires ends { (row + 2) * places ≤ length ends.old }
    requires samples { start + (parameters + 2) * places * 8 ≤ length samples.now }
    ensures { Walk row 2 places 0 places ends.old ends.new (ends_steps parameters places samples.now start) }
{
    let stride = (parameters as usize + 2) * places;
    let at = row * places;
    let b = start + places;
    take_least(ends, at, places, samples, start, b, stride);
    take_greatest(ends, at + places, places, samples, start, b, stride);
}

/// Counts the samples A and B of eight rows above each threshold, in a column for each.
pub(crate) fn add_to_numbers(
    numbers: &mut [u32],
    row: usize,
    places: usize,
    shape: &Shape,
    samples: &[u16],
    start: usize,
)
    requires row { row + length shape.now.thresholds < 2 ^ 63 }
    requires numbers { (row + length shape.now.thresholds) * places ≤ length numbers.old }
    requires samples { start + (shape.now.parameters + 2) * places * 8 ≤ length samples.now }
    requires room { (c i : ℕ) → c < length shape.now.thresholds → i < places →
        slice_index numbers.old ((row + c) * places + i) ≤ 131070 }
    ensures { let thresholds = shape.now.thresholds in
        let step = numbers_steps shape.now.parameters thresholds places samples.now start in
        Walk row (length thresholds) places 0 places numbers.old numbers.new step }
{
    let stride = (shape.parameters() as usize + 2) * places;
    let b = start + places;
    for c in 0..shape.thresholds() {
        let at = (row + c as usize) * places;
        count_above(
            numbers,
            at,
            places,
            samples,
            start,
            b,
            stride,
            shape.threshold(c),
        );
    }
}

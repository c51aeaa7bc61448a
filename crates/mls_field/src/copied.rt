//! The numbers of up to 64 cells of a plane, copied from its columns into columns of 64 places, and the rows that wait for these cells.

ghost use Rattle.std.specs.Prelude.{◌≡◌, ℕ, ◌+◌, ◌*◌, ◌^◌, ◌<◌, ◌≤◌, List, length, slice_index, min, max};
ghost use Rattle.mls_power.specs.ColumnSteps.{cube_of, fourth_of, low_half as low_of, high_half as high_of, one_above};
ghost use Rattle.mls_field.specs.Copied.{copied, AreCopied, Added, Changed, FourGrown, FourStay, HaveRoom};
ghost use Rattle.mls_field.specs.ColumnSums.{sums_size, of_column, products_column, powers_column, column_at, sums_step, most_added};
ghost use Rattle.mls_field.specs.EightRows.{AddsRows};
ghost use Rattle.mls_field.specs.Gathered.{row_behind};
ghost use Rattle.mls_field.specs.Kinds.{SumsWithin};
ghost use Rattle.mls_field.specs.OneCell.{IsRowAt, Stepped, HasRoomFor};
ghost use Rattle.mls_field.specs.OutputSteps.{ends_step, numbers_step};

use crate::cells::MOST_SUMS;
use crate::put::CELL_BYTES;
use mls_base::shape::Shape;
use mls_power::above::one_if_above;
use mls_power::columns::{cube, fourth, high_half, low_half};
use mls_power::ends::EXTREMA_NUMBERS;
use mls_power::exceed::MOST_THRESHOLDS;

/// How many cells are copied at a time.
pub(crate) const BLOCK: usize = 64;

/// How many numbers of each kind they have at most.
pub(crate) const BLOCK_SUMS: usize = MOST_SUMS * BLOCK;

pub(crate) const BLOCK_ENDS: usize = EXTREMA_NUMBERS * BLOCK;

pub(crate) const BLOCK_NUMBERS: usize = MOST_THRESHOLDS * BLOCK;

// Copies so many sums of a column.
fn copy_sums_of(columns: &mut [u64], to: usize, words: &[u64], at: usize, count: usize)
    requires columns { to + count ≤ length columns.old }
    requires words { at + count ≤ length words.now }
    ensures there { (k : ℕ) → k < count → slice_index columns.new (to + k) ≡ slice_index words.now (at + k) }
    ensures before { (i : ℕ) → i < to → slice_index columns.new i ≡ slice_index columns.old i }
{
    for k in 0..count {
        columns[to + k] = words[at + k];
    }
}

/// Copies the sums of cells from their columns.
pub(crate) fn copy_sums(
    columns: &mut [u64; BLOCK_SUMS],
    words: &[u64],
    row: usize,
    size: usize,
    places: usize,
    from: usize,
    count: usize,
)
    requires size { size ≤ 72 }
    requires count { count ≤ 64 }
    requires inside { from + count ≤ places }
    requires row { row + size < 2 ^ 63 }
    requires words { (row + size) * places ≤ length words.now }
    ensures { AreCopied row size places from count words.now columns.new }
{
    for c in 0..size {
        copy_sums_of(columns, c * BLOCK, words, (row + c) * places + from, count);
    }
}

// Adds the samples of a row that begin at `x` to so many sums, one for each place.
fn add_samples(sums: &mut [u64], at: usize, count: usize, samples: &[u16], x: usize)
    requires sums { at + count ≤ length sums.old }
    requires samples { x + count ≤ length samples.now }
    requires room { (k : ℕ) → k < count → slice_index sums.old (at + k) + 8589934590 < 2 ^ 64 }
    ensures { Added at count sums.old sums.new (λ k. slice_index samples.now (x + k)) }
{
    for k in 0..count {
        sums[at + k] += samples[x + k] as u64;
    }
}

// Adds the products of those that begin at `x` and at `y`.
fn add_products(sums: &mut [u64], at: usize, count: usize, samples: &[u16], x: usize, y: usize)
    requires sums { at + count ≤ length sums.old }
    requires samples { x + count ≤ length samples.now }
    requires others { y + count ≤ length samples.now }
    requires room { (k : ℕ) → k < count → slice_index sums.old (at + k) + 8589934590 < 2 ^ 64 }
    ensures { Added at count sums.old sums.new (λ k. slice_index samples.now (x + k) * slice_index samples.now (y + k)) }
{
    for k in 0..count {
        sums[at + k] += samples[x + k] as u64 * samples[y + k] as u64;
    }
}

// Adds their cubes.
fn add_cubes(sums: &mut [u64], at: usize, count: usize, samples: &[u16], x: usize)
    requires sums { at + count ≤ length sums.old }
    requires samples { x + count ≤ length samples.now }
    requires room { (k : ℕ) → k < count → slice_index sums.old (at + k) + 281462092005375 < 2 ^ 64 }
    ensures { Added at count sums.old sums.new (λ k. cube_of (slice_index samples.now (x + k))) }
{
    for k in 0..count {
        sums[at + k] += cube(samples[x + k]);
    }
}

// Adds the low halves of the fourth powers of those that begin at `x` and at `y`.
fn add_low_fourths(sums: &mut [u64], at: usize, count: usize, samples: &[u16], x: usize, y: usize)
    requires sums { at + count ≤ length sums.old }
    requires samples { x + count ≤ length samples.now }
    requires others { y + count ≤ length samples.now }
    requires room { (k : ℕ) → k < count → slice_index sums.old (at + k) + 8589934590 < 2 ^ 64 }
    ensures { Added at count sums.old sums.new (λ k. low_of (fourth_of (slice_index samples.now (x + k))) +
        low_of (fourth_of (slice_index samples.now (y + k)))) }
{
    for k in 0..count {
        sums[at + k] += low_half(fourth(samples[x + k])) + low_half(fourth(samples[y + k]));
    }
}

// Adds the high halves.
fn add_high_fourths(sums: &mut [u64], at: usize, count: usize, samples: &[u16], x: usize, y: usize)
    requires sums { at + count ≤ length sums.old }
    requires samples { x + count ≤ length samples.now }
    requires others { y + count ≤ length samples.now }
    requires room { (k : ℕ) → k < count → slice_index sums.old (at + k) + 8589934590 < 2 ^ 64 }
    ensures { Added at count sums.old sums.new (λ k. high_of (fourth_of (slice_index samples.now (x + k))) +
        high_of (fourth_of (slice_index samples.now (y + k)))) }
{
    for k in 0..count {
        sums[at + k] += high_half(fourth(samples[x + k])) + high_half(fourth(samples[y + k]));
    }
}

// Adds a row to the sums of A, B, AA and BB at each place.
fn add_outputs(sums: &mut [u64; BLOCK_SUMS], count: usize, samples: &[u16], a: usize, b: usize)
    requires count { count ≤ 64 }
    requires samples_a { a + count ≤ length samples.now }
    requires samples_b { b + count ≤ length samples.now }
    requires room { HaveRoom 0 count sums.old (λ d. 8589934590) }
    ensures grew { (k : ℕ) (row : List ℕ) → k < count →
        slice_index row 0 ≡ slice_index samples.now (a + k) → slice_index row 1 ≡ slice_index samples.now (b + k) →
        FourGrown 0 k sums.old sums.new (λ d. of_column (products_column 0 d) row) }
    ensures rest { FourStay 0 sums.old sums.new }
{
    add_samples(sums, 0, count, samples, a);
    add_samples(sums, BLOCK, count, samples, b);
    add_products(sums, 2 * BLOCK, count, samples, a, a);
    add_products(sums, 3 * BLOCK, count, samples, b, b);
}

// Adds it to the sums of C, CC, AC and BC of a parameter.
fn add_parameter(
    sums: &mut [u64; BLOCK_SUMS],
    column: usize,
    count: usize,
    samples: &[u16],
    a: usize,
    b: usize,
    c: usize,
)
    requires column { column ≤ 64 }
    requires count { count ≤ 64 }
    requires samples_a { a + count ≤ length samples.now }
    requires samples_b { b + count ≤ length samples.now }
    requires samples_c { c + count ≤ length samples.now }
    requires room { HaveRoom column count sums.old (λ d. 8589934590) }
    ensures grew { (k j : ℕ) (row : List ℕ) → k < count →
        slice_index row 0 ≡ slice_index samples.now (a + k) → slice_index row 1 ≡ slice_index samples.now (b + k) →
        slice_index row (2 + j) ≡ slice_index samples.now (c + k) →
        FourGrown column k sums.old sums.new (λ d. of_column (products_column (1 + j) d) row) }
    ensures rest { FourStay column sums.old sums.new }
{
    let at = column * BLOCK;
    add_samples(sums, at, count, samples, c);
    add_products(sums, at + BLOCK, count, samples, c, c);
    add_products(sums, at + 2 * BLOCK, count, samples, a, c);
    add_products(sums, at + 3 * BLOCK, count, samples, b, c);
}

// Adds it to the sums of the cubes of A and of B, and of the halves of the fourth powers of both.
fn add_powers(
    sums: &mut [u64; BLOCK_SUMS],
    column: usize,
    count: usize,
    samples: &[u16],
    a: usize,
    b: usize,
)
    requires column { column ≤ 68 }
    requires count { count ≤ 64 }
    requires samples_a { a + count ≤ length samples.now }
    requires samples_b { b + count ≤ length samples.now }
    requires room { HaveRoom column count sums.old (λ d. most_added (powers_column d)) }
    ensures grew { (k : ℕ) (row : List ℕ) → k < count →
        slice_index row 0 ≡ slice_index samples.now (a + k) → slice_index row 1 ≡ slice_index samples.now (b + k) →
        FourGrown column k sums.old sums.new (λ d. of_column (powers_column d) row) }
    ensures rest { FourStay column sums.old sums.new }
{
    let at = column * BLOCK;
    add_cubes(sums, at, count, samples, a);
    add_cubes(sums, at + BLOCK, count, samples, b);
    add_low_fourths(sums, at + 2 * BLOCK, count, samples, a, b);
    add_high_fourths(sums, at + 3 * BLOCK, count, samples, a, b);
}

// Adds a row to the sums of cells. Its samples begin at `at`, and each kind has so many places.
fn add_row(
    sums: &mut [u64; BLOCK_SUMS],
    count: usize,
    parameters: u32,
    samples: &[u16],
    at: usize,
    places: usize,
)
    requires few { parameters ≤ 16 }
    requires count { count ≤ 64 }
    requires samples { (r : ℕ) → r < parameters + 2 → at + r * places + count ≤ length samples.now }
    requires room { (c k : ℕ) → c < sums_size parameters → k < count →
        slice_index sums.old (c * 64 + k) + most_added (column_at parameters c) < 2 ^ 64 }
    ensures { (k : ℕ) (row : List ℕ) → k < count → IsRowAt (parameters + 2) places (at + k) samples.now row →
        let size = sums_size parameters in
        Stepped (sums_step parameters) size row (copied size sums.old k) (copied size sums.new k) }
{
    let a = at;
    let b = at + places;
    add_outputs(sums, count, samples, a, b);
    for k in 0..parameters as usize {
        let c = at + (k + 2) * places;
        add_parameter(sums, 4 + 4 * k, count, samples, a, b, c);
    }
    add_powers(sums, 4 + 4 * parameters as usize, count, samples, a, b);
}

/// Adds the rows that wait for cells, from a place on, to their sums.
pub(crate) fn add_waiting_to_sums(
    sums: &mut [u64; BLOCK_SUMS],
    count: usize,
    parameters: u32,
    samples: &[u16],
    start: usize,
    places: usize,
    from: usize,
    waiting: u32,
)
    requires few { parameters ≤ 16 }
    requires count { count ≤ 64 }
    requires waiting { waiting ≤ 7 }
    requires inside { from + count ≤ places }
    requires samples { start + (parameters + 2) * places * 8 ≤ length samples.now }
    requires room { (k : ℕ) → k < count →
        HasRoomFor (SumsWithin parameters) waiting (copied (sums_size parameters) sums.old k) }
    ensures { (k : ℕ) → k < count →
        let size = sums_size parameters in
        let row = row_behind (parameters + 2) places samples.now start (from + k) in
        AddsRows (sums_step parameters) size row waiting (copied size sums.old k) (copied size sums.new k) }
{
    let stride = (parameters as usize + 2) * places;
    for g in 0..waiting {
        let at = g as usize * stride + start + from;
        add_row(sums, count, parameters, samples, at, places);
    }
}

// Takes the least of each number and two samples.
fn take_least(ends: &mut [u16], count: usize, samples: &[u16], x: usize, y: usize)
    requires ends { count ≤ length ends.old }
    requires samples { x + count ≤ length samples.now }
    requires others { y + count ≤ length samples.now }
    ensures { Changed 0 count ends.old ends.new
        (λ k n. min (min n (slice_index samples.now (x + k))) (slice_index samples.now (y + k))) }
{
    for k in 0..count {
        ends[k] = ends[k].min(samples[x + k]).min(samples[y + k]);
    }
}

// Takes the greatest, in the second column.
fn take_greatest(ends: &mut [u16], count: usize, samples: &[u16], x: usize, y: usize)
    requires ends { 64 + count ≤ length ends.old }
    requires samples { x + count ≤ length samples.now }
    requires others { y + count ≤ length samples.now }
    ensures { Changed 64 count ends.old ends.new
        (λ k n. max (max n (slice_index samples.now (x + k))) (slice_index samples.now (y + k))) }
{
    for k in 0..count {
        ends[BLOCK + k] = ends[BLOCK + k].max(samples[x + k]).max(samples[y + k]);
    }
}

// Counts two samples where they are above a threshold.
fn count_above(
    numbers: &mut [u32],
    at: usize,
    count: usize,
    samples: &[u16],
    x: usize,
    y: usize,
    threshold: u16,
)
    requires numbers { at + count ≤ length numbers.old }
    requires samples { x + count ≤ length samples.now }
    requires others { y + count ≤ length samples.now }
    requires room { (k : ℕ) → k < count → slice_index numbers.old (at + k) ≤ 131068 }
    ensures { Changed at count numbers.old numbers.new (λ k n. n +
        one_above threshold (slice_index samples.now (x + k)) + one_above threshold (slice_index samples.now (y + k))) }
{
    for k in 0..count {
        numbers[at + k] += one_if_above(samples[x + k], threshold)
            + one_if_above(samples[y + k], threshold);
    }
}

// Copies so many numbers of a column of least or greatest samples.
fn copy_ends_of(columns: &mut [u16], to: usize, ends: &[u16], at: usize, count: usize)
    requires columns { to + count ≤ length columns.old }
    requires ends { at + count ≤ length ends.now }
    ensures there { (k : ℕ) → k < count → slice_index columns.new (to + k) ≡ slice_index ends.now (at + k) }
    ensures before { (i : ℕ) → i < to → slice_index columns.new i ≡ slice_index columns.old i }
{
    for k in 0..count {
        columns[to + k] = ends[at + k];
    }
}

/// Copies the least and the greatest samples of cells from their columns.
pub(crate) fn copy_ends(
    columns: &mut [u16; BLOCK_ENDS],
    ends: &[u16],
    row: usize,
    places: usize,
    from: usize,
    count: usize,
)
    requires count { count ≤ 64 }
    requires inside { from + count ≤ places }
    requires row { row + 2 < 2 ^ 63 }
    requires ends { (row + 2) * places ≤ length ends.now }
    ensures { AreCopied row 2 places from count ends.now columns.new }
{
    for c in 0..EXTREMA_NUMBERS {
        copy_ends_of(columns, c * BLOCK, ends, (row + c) * places + from, count);
    }
}

// Copies so many numbers of a column above a threshold.
fn copy_numbers_of(columns: &mut [u32], to: usize, numbers: &[u32], at: usize, count: usize)
    requires columns { to + count ≤ length columns.old }
    requires numbers { at + count ≤ length numbers.now }
    ensures there { (k : ℕ) → k < count → slice_index columns.new (to + k) ≡ slice_index numbers.now (at + k) }
    ensures before { (i : ℕ) → i < to → slice_index columns.new i ≡ slice_index columns.old i }
{
    for k in 0..count {
        columns[to + k] = numbers[at + k];
    }
}

/// Copies the numbers above thresholds of cells from their columns.
pub(crate) fn copy_numbers(
    columns: &mut [u32; BLOCK_NUMBERS],
    numbers: &[u32],
    row: usize,
    size: usize,
    places: usize,
    from: usize,
    count: usize,
)
    requires size { size ≤ 8 }
    requires count { count ≤ 64 }
    requires inside { from + count ≤ places }
    requires row { row + size < 2 ^ 63 }
    requires numbers { (row + size) * places ≤ length numbers.now }
    ensures { AreCopied row size places from count numbers.now columns.new }
{
    for c in 0..size {
        copy_numbers_of(
            columns,
            c * BLOCK,
            numbers,
            (row + c) * places + from,
            count,
        );
    }
}

/// Adds the rows that wait for cells, from a place on, to their least and greatest samples.
pub(crate) fn add_waiting_to_ends(
    ends: &mut [u16; BLOCK_ENDS],
    count: usize,
    parameters: u32,
    samples: &[u16],
    start: usize,
    places: usize,
    from: usize,
    waiting: u32,
)
    requires few { parameters ≤ 16 }
    requires count { count ≤ 64 }
    requires waiting { waiting ≤ 7 }
    requires inside { from + count ≤ places }
    requires samples { start + (parameters + 2) * places * 8 ≤ length samples.now }
    ensures { (k : ℕ) → k < count →
        let row = row_behind (parameters + 2) places samples.now start (from + k) in
        AddsRows ends_step 2 row waiting (copied 2 ends.old k) (copied 2 ends.new k) }
{
    let stride = (parameters as usize + 2) * places;
    for g in 0..waiting {
        let at = g as usize * stride + start + from;
        take_least(ends, count, samples, at, at + places);
        take_greatest(ends, count, samples, at, at + places);
    }
}

// Counts the samples A and B of a row above each threshold.
fn add_row_to_numbers(
    numbers: &mut [u32; BLOCK_NUMBERS],
    count: usize,
    shape: &Shape,
    samples: &[u16],
    a: usize,
    b: usize,
)
    requires count { count ≤ 64 }
    requires samples { a + count ≤ length samples.now }
    requires others { b + count ≤ length samples.now }
    requires room { (c k : ℕ) → c < length shape.now.thresholds → k < count →
        slice_index numbers.old (c * 64 + k) ≤ 131068 }
    ensures { let size = length shape.now.thresholds in
        (k : ℕ) (row : List ℕ) → k < count →
        slice_index row 0 ≡ slice_index samples.now (a + k) → slice_index row 1 ≡ slice_index samples.now (b + k) →
        Stepped (numbers_step shape.now.thresholds) size row (copied size numbers.old k) (copied size numbers.new k) }
{
    for c in 0..shape.thresholds() {
        count_above(
            numbers,
            c as usize * BLOCK,
            count,
            samples,
            a,
            b,
            shape.threshold(c),
        );
    }
}

/// Adds the rows that wait for cells, from a place on, to their numbers above thresholds.
pub(crate) fn add_waiting_to_numbers(
    numbers: &mut [u32; BLOCK_NUMBERS],
    count: usize,
    shape: &Shape,
    samples: &[u16],
    start: usize,
    places: usize,
    from: usize,
    waiting: u32,
)
    requires count { count ≤ 64 }
    requires waiting { waiting ≤ 7 }
    requires inside { from + count ≤ places }
    requires samples { start + (shape.now.parameters + 2) * places * 8 ≤ length samples.now }
    requires room { (c k : ℕ) → c < length shape.now.thresholds → k < count →
        slice_index numbers.old (c * 64 + k) + 2 * waiting ≤ 131070 }
    ensures { (k : ℕ) → k < count →
        let size = length shape.now.thresholds in
        let row = row_behind (shape.now.parameters + 2) places samples.now start (from + k) in
        AddsRows (numbers_step shape.now.thresholds) size row waiting (copied size numbers.old k) (copied size numbers.new k) }
{
    let stride = (shape.parameters() as usize + 2) * places;
    for g in 0..waiting {
        let at = g as usize * stride + start + from;
        add_row_to_numbers(numbers, count, shape, samples, at, at + places);
    }
}

/// The numbers of up to 64 cells, and room for the bytes that spell one of them.
#[derive(Drop)]
pub(crate) struct Copies {
    pub(crate) sums: [u64; BLOCK_SUMS],
    pub(crate) ends: [u16; BLOCK_ENDS],
    pub(crate) numbers: [u32; BLOCK_NUMBERS],
    pub(crate) bytes: [u8; CELL_BYTES],
}

impl Copies {
    /// No numbers yet.
    pub(crate) fn new() -> Copies {
        Copies {
            sums: [0; BLOCK_SUMS],
            ends: [0; BLOCK_ENDS],
            numbers: [0; BLOCK_NUMBERS],
            bytes: [0; CELL_BYTES],
        }
    }
}

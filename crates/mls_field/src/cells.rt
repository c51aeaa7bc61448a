//! The numbers of a single cell: read from their columns, and with the rows that wait for them.

ghost use Rattle.std.specs.Prelude.{◌≡◌, ℕ, ◌+◌, ◌*◌, ◌^◌, ◌<◌, ◌≤◌, List, length, slice_index};
ghost use Rattle.mls_power.specs.Standing.{count_of, first_of as power_first, second_of as power_second};
ghost use Rattle.mls_power.specs.Standing.{third_of as power_third, fourth_of as power_fourth};
ghost use Rattle.mls_field.specs.EightRows.{AddsRows};
ghost use Rattle.mls_field.specs.ColumnSums.{sums_size, of_column, products_column, powers_column, column_at, sums_step, most_added};
ghost use Rattle.mls_field.specs.Gathered.{row_behind};
ghost use Rattle.mls_field.specs.Kinds.{SumsWithin, first_of, second_of, third_of, fourth_of};
ghost use Rattle.mls_field.specs.OneCell.{IsRowAt, SameFront, Stepped, HasRoomFor};
ghost use Rattle.mls_field.specs.OutputSteps.{ends_step, numbers_step};

use mls_base::shape::Shape;
use mls_power::above::one_if_above;
use mls_power::columns::{cube, fourth, high_half, low_half};
use mls_power::ends::EXTREMA_NUMBERS;
use mls_power::exceed::MOST_THRESHOLDS;
use mls_power::power::Power;

/// The most sums of a cell.
pub(crate) const MOST_SUMS: usize = 72;

// What a row adds to the sums of A, B, AA and BB.
fn outputs_added(a: u16, b: u16) -> [u64; 4]
    ensures value { (row : List ℕ) → slice_index row 0 ≡ a → slice_index row 1 ≡ b →
        (d : ℕ) → d < 4 → slice_index result d ≡ of_column (products_column 0 d) row }
    ensures small { (d : ℕ) → d < 4 → slice_index result d ≤ 8589934590 }
{
    let (a, b) = (a as u64, b as u64);
    [a, b, a * a, b * b]
}

// What it adds to the sums of C, CC, AC and BC of a parameter.
fn products_added(a: u16, b: u16, c: u16) -> [u64; 4]
    ensures value { (k : ℕ) (row : List ℕ) →
        slice_index row 0 ≡ a → slice_index row 1 ≡ b → slice_index row (2 + k) ≡ c →
        (d : ℕ) → d < 4 → slice_index result d ≡ of_column (products_column (1 + k) d) row }
    ensures small { (d : ℕ) → d < 4 → slice_index result d ≤ 8589934590 }
{
    let (a, b, c) = (a as u64, b as u64, c as u64);
    [c, c * c, a * c, b * c]
}

// What it adds to the sums of the cubes of A and of B, and of the halves of the fourth powers of both.
fn powers_added(a: u16, b: u16) -> [u64; 4]
    ensures value { (row : List ℕ) → slice_index row 0 ≡ a → slice_index row 1 ≡ b →
        (d : ℕ) → d < 4 → slice_index result d ≡ of_column (powers_column d) row }
    ensures small { (d : ℕ) → d < 4 → slice_index result d ≤ most_added (powers_column d) }
{
    let (fourth_a, fourth_b) = (fourth(a), fourth(b));
    [
        cube(a),
        cube(b),
        low_half(fourth_a) + low_half(fourth_b),
        high_half(fourth_a) + high_half(fourth_b),
    ]
}

// Adds four numbers to four sums from a place on.
fn add_four(sums: &mut [u64], at: usize, more: &[u64; 4])
    requires size { at + 4 ≤ length sums.old }
    requires room { (d : ℕ) → d < 4 → slice_index sums.old (at + d) + slice_index more.now d < 2 ^ 64 }
    ensures grew { (d : ℕ) → d < 4 →
        slice_index sums.new (at + d) ≡ slice_index sums.old (at + d) + slice_index more.now d }
    ensures before { (i : ℕ) → i < at → slice_index sums.new i ≡ slice_index sums.old i }
    ensures behind { (i : ℕ) → at + 4 ≤ i → slice_index sums.new i ≡ slice_index sums.old i }
{
    for d in 0..4 {
        sums[at + d] += more[d];
    }
}

// Adds a row to the sums of a cell.
fn add_row(sums: &mut [u64], parameters: u32, samples: &[u16], at: usize, places: usize)
    requires few { parameters ≤ 16 }
    requires size { sums_size parameters ≤ length sums.old }
    requires samples { (r : ℕ) → r < parameters + 2 → at + r * places < length samples.now }
    requires room { (c : ℕ) → c < sums_size parameters →
        slice_index sums.old c + most_added (column_at parameters c) < 2 ^ 64 }
    ensures { (row : List ℕ) → IsRowAt (parameters + 2) places at samples.now row →
        Stepped (sums_step parameters) (sums_size parameters) row sums.old sums.new }
{
    let a = samples[at];
    let b = samples[at + places];
    add_four(sums, 0, &outputs_added(a, b));
    for k in 0..parameters as usize {
        let c = samples[at + (k + 2) * places];
        add_four(sums, 4 + 4 * k, &products_added(a, b, c));
    }
    add_four(sums, 4 + 4 * parameters as usize, &powers_added(a, b));
}

/// Adds the rows that wait for a cell to its sums.
pub(crate) fn add_rows_to_sums(
    sums: &mut [u64],
    parameters: u32,
    samples: &[u16],
    start: usize,
    places: usize,
    place: usize,
    waiting: u32,
)
    requires few { parameters ≤ 16 }
    requires size { sums_size parameters ≤ length sums.old }
    requires waiting { waiting ≤ 7 }
    requires place { place < places }
    requires samples { start + (parameters + 2) * places * 8 ≤ length samples.now }
    requires room { HasRoomFor (SumsWithin parameters) waiting sums.old }
    ensures range { (count : ℕ) → SumsWithin parameters count sums.old →
        SumsWithin parameters (count + waiting) sums.new }
    ensures whole { let row = row_behind (parameters + 2) places samples.now start place in
        AddsRows (sums_step parameters) (sums_size parameters) row waiting sums.old sums.new }
{
    let stride = (parameters as usize + 2) * places;
    for g in 0..waiting {
        add_row(
            sums,
            parameters,
            samples,
            g as usize * stride + start + place,
            places,
        );
    }
}

/// Adds the rows that wait for a cell to its least and greatest samples.
pub(crate) fn add_rows_to_ends(
    ends: &mut [u16],
    parameters: u32,
    samples: &[u16],
    start: usize,
    places: usize,
    place: usize,
    waiting: u32,
)
    requires few { parameters ≤ 16 }
    requires size { length ends.old ≡ 2 }
    requires waiting { waiting ≤ 7 }
    requires place { place < places }
    requires samples { start + (parameters + 2) * places * 8 ≤ length samples.now }
    ensures whole { let row = row_behind (parameters + 2) places samples.now start place in
        AddsRows ends_step 2 row waiting ends.old ends.new }
{
    let stride = (parameters as usize + 2) * places;
    for g in 0..waiting {
        let at = g as usize * stride + start + place;
        add_pair_to_ends(ends, samples[at], samples[at + places]);
    }
}

fn add_pair_to_ends(ends: &mut [u16], a: u16, b: u16)
    requires { length ends.old ≡ 2 }
    ensures { (row : List ℕ) → slice_index row 0 ≡ a → slice_index row 1 ≡ b →
        Stepped ends_step 2 row ends.old ends.new }
{
    ends[0] = ends[0].min(a).min(b);
    ends[1] = ends[1].max(a).max(b);
}

fn add_pair_to_numbers(numbers: &mut [u32], shape: &Shape, a: u16, b: u16)
    requires size { length shape.now.thresholds ≤ length numbers.old }
    requires room { (c : ℕ) → c < length shape.now.thresholds → slice_index numbers.old c ≤ 131068 }
    ensures { let thresholds = shape.now.thresholds in
        (row : List ℕ) → slice_index row 0 ≡ a → slice_index row 1 ≡ b →
        Stepped (numbers_step thresholds) (length thresholds) row numbers.old numbers.new }
{
    for c in 0..shape.thresholds() {
        let threshold = shape.threshold(c);
        let more = one_if_above(a, threshold) + one_if_above(b, threshold);
        numbers[c as usize] += more;
    }
}

/// Adds the rows that wait for a cell to its numbers above thresholds.
pub(crate) fn add_rows_to_numbers(
    numbers: &mut [u32],
    shape: &Shape,
    samples: &[u16],
    start: usize,
    places: usize,
    place: usize,
    waiting: u32,
)
    requires size { length shape.now.thresholds ≤ length numbers.old }
    requires waiting { waiting ≤ 7 }
    requires place { place < places }
    requires samples { start + (shape.now.parameters + 2) * places * 8 ≤ length samples.now }
    requires room { (c : ℕ) → c < length shape.now.thresholds → slice_index numbers.old c + 2 * waiting ≤ 131070 }
    ensures whole { let thresholds = shape.now.thresholds in
        let row = row_behind (shape.now.parameters + 2) places samples.now start place in
        AddsRows (numbers_step thresholds) (length thresholds) row waiting numbers.old numbers.new }
{
    let stride = (shape.parameters() as usize + 2) * places;
    for g in 0..waiting {
        let at = g as usize * stride + start + place;
        add_pair_to_numbers(numbers, shape, samples[at], samples[at + places]);
    }
}

/// The sums of a cell as they stand in their columns, in the front of an array.
pub(crate) fn read_sums(
    words: &[u64],
    row: usize,
    size: usize,
    places: usize,
    place: usize,
) -> [u64; MOST_SUMS]
    requires size { size ≤ 72 }
    requires place { place < places }
    requires row { row + size < 2 ^ 63 }
    requires words { (row + size) * places ≤ length words.now }
    ensures { (c : ℕ) → c < size → slice_index result c ≡ slice_index words.now ((row + c) * places + place) }
{
    let mut sums = [0; MOST_SUMS];
    for c in 0..size {
        sums[c] = words[(row + c) * places + place];
    }
    sums
}

/// The least and the greatest sample of a cell as they stand in their columns.
pub(crate) fn read_ends(
    ends: &[u16],
    row: usize,
    places: usize,
    place: usize,
) -> [u16; EXTREMA_NUMBERS]
    requires place { place < places }
    requires row { row + 2 < 2 ^ 63 }
    requires ends { (row + 2) * places ≤ length ends.now }
    ensures least { slice_index result 0 ≡ slice_index ends.now (row * places + place) }
    ensures greatest { slice_index result 1 ≡ slice_index ends.now ((row + 1) * places + place) }
{
    [ends[row * places + place], ends[(row + 1) * places + place]]
}

/// The numbers of a cell above thresholds as they stand in their columns, in the front of an array.
pub(crate) fn read_numbers(
    numbers: &[u32],
    row: usize,
    size: usize,
    places: usize,
    place: usize,
) -> [u32; MOST_THRESHOLDS]
    requires size { size ≤ 8 }
    requires place { place < places }
    requires row { row + size < 2 ^ 63 }
    requires numbers { (row + size) * places ≤ length numbers.now }
    ensures { (c : ℕ) → c < size → slice_index result c ≡ slice_index numbers.now ((row + c) * places + place) }
{
    let mut read = [0; MOST_THRESHOLDS];
    for c in 0..size {
        read[c] = numbers[(row + c) * places + place];
    }
    read
}

/// The power sums of A and B that the sums of so many rows hold.
pub(crate) fn power_of(sums: &[u64], parameters: u32, rows: u32) -> Power
    requires few { rows ≤ 65535 }
    requires parameters { parameters ≤ 16 }
    requires size { sums_size parameters ≤ length sums.now }
    requires range { SumsWithin parameters rows sums.now }
    ensures count { count_of result ≡ 2 * rows }
    ensures first { power_first result ≡ first_of sums.now }
    ensures second { power_second result ≡ second_of sums.now }
    ensures third { power_third result ≡ third_of parameters sums.now }
    ensures fourth { power_fourth result ≡ fourth_of parameters sums.now }
{
    let at = 4 + 4 * parameters as usize;
    let third = sums[at] as u128 + sums[at + 1] as u128;
    let fourth = sums[at + 2] as u128 + 4294967296 * sums[at + 3] as u128;
    Power::from_sums(
        2 * rows,
        sums[0] + sums[1],
        sums[2] + sums[3],
        third,
        fourth,
    )
}

//! Adding the samples of eight rows to columns of numbers, one number for each place. The loops over places are made of a few steps that each add to several.

ghost use Rattle.std.specs.Prelude.{◌≡◌, ℕ, ◌+◌, ◌*◌, ◌^◌, ◌/◌, ◌%◌, ◌<◌, ◌≤◌, length, slice_index};
ghost use Rattle.mls_power.specs.Columns.{after, Walked};
ghost use Rattle.mls_power.specs.CountsAdded.{AreCountsAdded};
ghost use Rattle.mls_power.specs.PowersAdded.{most_cubes, ArePowersAdded};
ghost use Rattle.mls_power.specs.ColumnSteps.{more_least, more_greatest, more_above};

use crate::above::one_if_above;

/// How many rows are added together.
pub const GROUPS: usize = 8;

/// The third power of a sample.
pub fn cube(x: u16) -> u64
    ensures value { result ≡ x * x * x }
    ensures small { result ≤ 281462092005375 }
{
    let square = x as u64 * x as u64;
    square * x as u64
}

/// The fourth power.
pub fn fourth(x: u16) -> u64
    ensures { result ≡ x * x * (x * x) }
{
    let square = x as u64 * x as u64;
    square * square
}

/// The low 32 bits of a number.
pub fn low_half(x: u64) -> u64
    ensures value { result ≡ x % 2 ^ 32 }
    ensures small { result < 2 ^ 32 }
{
    x & 0xffff_ffff
}

/// The high 32 bits.
pub fn high_half(x: u64) -> u64
    ensures value { result ≡ x / 2 ^ 32 }
    ensures small { result < 2 ^ 32 }
{
    x >> 32
}

/// Adds the powers of the samples that begin at `a` and at `b` in each row to four columns: the cubes of the first samples, those of the second,
/// and of the fourth powers of both the low halves and the high halves.
#[tactic(auto, using(crate::proofs::AfterRows::after_none, crate::proofs::AfterRows::after_more))]
pub fn add_powers(
    words: &mut [u64],
    at: usize,
    apart: usize,
    count: usize,
    samples: &[u16],
    a: usize,
    b: usize,
    stride: usize,
)
    requires apart { count ≤ apart }
    requires words { at + 3 * apart + count ≤ length words.old }
    requires samples_a { stride * 7 + (a + count) ≤ length samples.now }
    requires samples_b { stride * 7 + (b + count) ≤ length samples.now }
    requires room_first { (k : ℕ) → k < count → slice_index words.old (at + k) ≤ most_cubes }
    requires room_second { (k : ℕ) → k < count → slice_index words.old (at + apart + k) ≤ most_cubes }
    requires room_third { (k : ℕ) → k < count → slice_index words.old (at + 2 * apart + k) < 2 ^ 63 }
    requires room_fourth { (k : ℕ) → k < count → slice_index words.old (at + 3 * apart + k) < 2 ^ 63 }
    ensures { ArePowersAdded at apart count words.old words.new samples.now stride a b }
{
    for j in 0..count {
        let mut cubes_a = words[at + j];
        let mut cubes_b = words[at + apart + j];
        let mut low = words[at + 2 * apart + j];
        let mut high = words[at + 3 * apart + j];
        for g in 0..GROUPS {
            let of_a = samples[stride * g + (a + j)];
            let of_b = samples[stride * g + (b + j)];
            cubes_a += cube(of_a);
            cubes_b += cube(of_b);
            low += low_half(fourth(of_a)) + low_half(fourth(of_b));
            high += high_half(fourth(of_a)) + high_half(fourth(of_b));
        }
        words[at + j] = cubes_a;
        words[at + apart + j] = cubes_b;
        words[at + 2 * apart + j] = low;
        words[at + 3 * apart + j] = high;
    }
}

/// Takes the least of each number and the samples that begin at `x` and at `y` in each row.
#[tactic(auto, using(crate::proofs::AfterRows::after_none, crate::proofs::AfterRows::after_more))]
pub fn take_least(
    ends: &mut [u16],
    at: usize,
    count: usize,
    samples: &[u16],
    x: usize,
    y: usize,
    stride: usize,
)
    requires ends { at + count ≤ length ends.old }
    requires samples_a { stride * 7 + (x + count) ≤ length samples.now }
    requires samples_b { stride * 7 + (y + count) ≤ length samples.now }
    ensures { Walked at count 8 ends.old ends.new (more_least samples.now stride x y) }
{
    for j in 0..count {
        let mut least = ends[at + j];
        for g in 0..GROUPS {
            let a = samples[stride * g + (x + j)];
            let b = samples[stride * g + (y + j)];
            least = least.min(a).min(b);
        }
        ends[at + j] = least;
    }
}

/// Takes the greatest of each number and these samples.
#[tactic(auto, using(crate::proofs::AfterRows::after_none, crate::proofs::AfterRows::after_more))]
pub fn take_greatest(
    ends: &mut [u16],
    at: usize,
    count: usize,
    samples: &[u16],
    x: usize,
    y: usize,
    stride: usize,
)
    requires ends { at + count ≤ length ends.old }
    requires samples_a { stride * 7 + (x + count) ≤ length samples.now }
    requires samples_b { stride * 7 + (y + count) ≤ length samples.now }
    ensures { Walked at count 8 ends.old ends.new (more_greatest samples.now stride x y) }
{
    for j in 0..count {
        let mut greatest = ends[at + j];
        for g in 0..GROUPS {
            let a = samples[stride * g + (x + j)];
            let b = samples[stride * g + (y + j)];
            greatest = greatest.max(a).max(b);
        }
        ends[at + j] = greatest;
    }
}

// How many places are counted at a time, in numbers of 16 bits, so that a vectorized step counts at eight places and not at four.
const PIECE: usize = 256;

// Counts the samples of eight rows that are above a threshold, at so many places from `from` on.
#[tactic(auto, using(crate::proofs::AfterRows::after_none, crate::proofs::AfterRows::after_more))]
fn count_piece(
    counts: &mut [u16],
    from: usize,
    count: usize,
    samples: &[u16],
    x: usize,
    y: usize,
    stride: usize,
    threshold: u16,
)
    requires counts { count ≤ length counts.old }
    requires samples_a { stride * 7 + (x + (from + count)) ≤ length samples.now }
    requires samples_b { stride * 7 + (y + (from + count)) ≤ length samples.now }
    ensures length { length counts.new ≡ length counts.old }
    ensures counts { (k : ℕ) → k < count →
        slice_index counts.new k ≡ after (more_above samples.now stride threshold x y (from + k)) 8 0 }
{
    for j in 0..count {
        let mut number = 0;
        for g in 0..GROUPS {
            let a = one_if_above(samples[stride * g + (x + (from + j))], threshold) as u16;
            let b = one_if_above(samples[stride * g + (y + (from + j))], threshold) as u16;
            number += a + b;
        }
        counts[j] = number;
    }
}

// Adds counts to as many numbers of a column, from `at` on.
fn add_counts(numbers: &mut [u32], at: usize, count: usize, counts: &[u16])
    requires numbers { at + count ≤ length numbers.old }
    requires counts { count ≤ length counts.now }
    requires room { (k : ℕ) → k < count → slice_index numbers.old (at + k) ≤ 131070 }
    ensures { AreCountsAdded at count counts.now numbers.old numbers.new }
{
    for j in 0..count {
        numbers[at + j] += counts[j] as u32;
    }
}

/// Counts these samples where they are above a threshold.
pub fn count_above(
    numbers: &mut [u32],
    at: usize,
    count: usize,
    samples: &[u16],
    x: usize,
    y: usize,
    stride: usize,
    threshold: u16,
)
    requires numbers { at + count ≤ length numbers.old }
    requires samples_a { stride * 7 + (x + count) ≤ length samples.now }
    requires samples_b { stride * 7 + (y + count) ≤ length samples.now }
    requires room { (k : ℕ) → k < count → slice_index numbers.old (at + k) ≤ 131070 }
    ensures { Walked at count 8 numbers.old numbers.new (more_above samples.now stride threshold x y) }
{
    let mut counts = [0; PIECE];
    let mut from = 0;
    while from < count {
        let size = PIECE.min(count - from);
        count_piece(&mut counts, from, size, samples, x, y, stride, threshold);
        add_counts(numbers, at + from, size, &counts);
        from += size;
    }
}

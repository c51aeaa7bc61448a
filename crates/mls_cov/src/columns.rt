//! Adding the samples and products of eight rows to columns of sums, one sum for each place. The loops over places are made of a few steps that each add to several.

ghost use Rattle.std.specs.Prelude.{◌≡◌, ℕ, ◌+◌, ◌*◌, ◌^◌, ◌<◌, ◌≤◌, length, slice_index};
ghost use Rattle.mls_cov.specs.SumsAdded.{AreOutputsAdded, AreProductsAdded};

use crate::sums::product;
use mls_power::columns::GROUPS;

/// Adds the samples that begin at `a` and at `b` in each row to four columns: those of the first samples, of the second, and of the squares of both.
#[tactic(auto, using(mls_power::proofs::AfterRows::after_none, mls_power::proofs::AfterRows::after_more))]
pub fn add_outputs(
    words: &mut [u64],
    at: usize,
    apart: usize,
    count: usize,
    samples: &[u16],
    a: usize,
    b: usize,
    stride: usize,
)
    requires apart { count ≤ apart }
    requires words { at + 3 * apart + count ≤ length words.old }
    requires samples_a { stride * 7 + (a + count) ≤ length samples.now }
    requires samples_b { stride * 7 + (b + count) ≤ length samples.now }
    requires room_first { (k : ℕ) → k < count → slice_index words.old (at + k) < 2 ^ 63 }
    requires room_second { (k : ℕ) → k < count → slice_index words.old (at + apart + k) < 2 ^ 63 }
    requires room_third { (k : ℕ) → k < count → slice_index words.old (at + 2 * apart + k) < 2 ^ 63 }
    requires room_fourth { (k : ℕ) → k < count → slice_index words.old (at + 3 * apart + k) < 2 ^ 63 }
    ensures { AreOutputsAdded at apart count words.old words.new samples.now stride a b }
{
    for j in 0..count {
        let mut sum_a = words[at + j];
        let mut sum_b = words[at + apart + j];
        let mut squares_a = words[at + 2 * apart + j];
        let mut squares_b = words[at + 3 * apart + j];
        for g in 0..GROUPS {
            let of_a = samples[stride * g + (a + j)];
            let of_b = samples[stride * g + (b + j)];
            sum_a += of_a as u64;
            sum_b += of_b as u64;
            squares_a += product(of_a, of_a);
            squares_b += product(of_b, of_b);
        }
        words[at + j] = sum_a;
        words[at + apart + j] = sum_b;
        words[at + 2 * apart + j] = squares_a;
        words[at + 3 * apart + j] = squares_b;
    }
}

/// Adds the samples that begin at `c` in each row to four columns: those of the samples, of their squares, and of their products with the samples at `a` and at `b`.
// A caller that adds for one parameter after the other would else test once for all of them whether columns overlap, and a step would add to one sum.
#[inline(never)]
#[tactic(auto, using(mls_power::proofs::AfterRows::after_none, mls_power::proofs::AfterRows::after_more))]
pub fn add_products(
    words: &mut [u64],
    at: usize,
    apart: usize,
    count: usize,
    samples: &[u16],
    a: usize,
    b: usize,
    c: usize,
    stride: usize,
)
    requires apart { count ≤ apart }
    requires words { at + 3 * apart + count ≤ length words.old }
    requires samples_a { stride * 7 + (a + count) ≤ length samples.now }
    requires samples_b { stride * 7 + (b + count) ≤ length samples.now }
    requires samples_c { stride * 7 + (c + count) ≤ length samples.now }
    requires room_first { (k : ℕ) → k < count → slice_index words.old (at + k) < 2 ^ 63 }
    requires room_second { (k : ℕ) → k < count → slice_index words.old (at + apart + k) < 2 ^ 63 }
    requires room_third { (k : ℕ) → k < count → slice_index words.old (at + 2 * apart + k) < 2 ^ 63 }
    requires room_fourth { (k : ℕ) → k < count → slice_index words.old (at + 3 * apart + k) < 2 ^ 63 }
    ensures { AreProductsAdded at apart count words.old words.new samples.now stride a b c }
{
    for j in 0..count {
        let mut sum = words[at + j];
        let mut squares = words[at + apart + j];
        let mut with_a = words[at + 2 * apart + j];
        let mut with_b = words[at + 3 * apart + j];
        for g in 0..GROUPS {
            let of_c = samples[stride * g + (c + j)];
            sum += of_c as u64;
            squares += product(of_c, of_c);
            with_a += product(samples[stride * g + (a + j)], of_c);
            with_b += product(samples[stride * g + (b + j)], of_c);
        }
        words[at + j] = sum;
        words[at + apart + j] = squares;
        words[at + 2 * apart + j] = with_a;
        words[at + 3 * apart + j] = with_b;
    }
}

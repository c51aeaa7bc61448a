//! The words of trial.

ghost use Rattle.std.specs.Prelude.{◌≡◌, ℕ, ◌+◌, ◌*◌, ◌^◌, ◌≤◌, map, IfOk};
ghost use Rattle.mls_model.specs.Numbers.{below};
ghost use Rattle.mls_model.specs.Designs.{word};
ghost use Rattle.mls_design.specs.Trial.{is_restarted, copies};
ghost use Rattle.mls_design.specs.TrialSizes.{HasDrawn, copies_from};

use crate::words::STREAM;
use mls_base::faults::NoMemory;
use rand_core::utils::NextWord;
use rand_pcg::Lcg64Xsh32;
use std::alloc::Global;

/// Draws the next word of a number.
pub fn next(words: &mut Lcg64Xsh32) -> u32
    ensures { (number n : ℕ) → HasDrawn number n words.old →
        (result ≡ word number n) × HasDrawn number (n + 1) words.new }
{
    words.next_word()
}

/// Draws the groups' words: which groups are restarted.
pub fn restarts(alloc: Global, words: &mut Lcg64Xsh32, groups: u32) -> Result<Vec<bool>, NoMemory>
    ensures { (number : ℕ) → HasDrawn number 0 words.old →
        IfOk result (λ all. (all.items ≡ map (is_restarted number) (below groups)) × HasDrawn number groups words.new) }
{
    let mut all = Vec::with_capacity(alloc, groups as usize)?;
    for _group in 0..groups {
        all.push(next(words) % 8 == 0)?;
    }
    Ok(all)
}

/// How often a planned piece with this word is written.
pub fn copies(word: u32) -> u32
    ensures value { result ≡ copies word }
    ensures few { result ≤ 2 }
{
    match word % 16 {
        0 => 0,
        1 => 2,
        _ => 1,
    }
}

/// Draws the words of so many planned pieces: how often they are written in all.
pub fn copies_drawn(words: &mut Lcg64Xsh32, count: u64) -> u64
    requires { count ≤ 2 ^ 32 }
    ensures value { (number n : ℕ) → HasDrawn number n words.old →
        (result ≡ copies_from number n count) × HasDrawn number (n + count) words.new }
    ensures few { result ≤ 2 * count }
{
    let mut sum = 0u64;
    for _n in 0..count {
        sum += copies(next(words)) as u64;
    }
    sum
}

/// The words of a number behind those of its groups.
pub fn behind_groups(number: u64, groups: u32) -> Lcg64Xsh32
    ensures { HasDrawn number groups result }
{
    let mut words = Lcg64Xsh32::new(number, STREAM);
    let _written = copies_drawn(&mut words, groups as u64);
    words
}

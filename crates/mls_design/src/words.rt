//! The words of a design.

ghost use Rattle.std.specs.Prelude.{◌≡◌, ◌<◌, ◌^◌, map, IfOk};
ghost use Rattle.mls_model.specs.Numbers.{below};
ghost use Rattle.mls_design.specs.Kept.{pair_of};

use mls_base::faults::NoMemory;
use rand_core::utils::NextWord;
use rand_pcg::Lcg64Xsh32;
use std::alloc::Global;

/// The stream of the generator.
pub const STREAM: u64 = 54;

/// The words of a parameter in the two simulations of a group that share none.
#[derive(Clone, Copy, Debug)]
pub struct Pair {
    pub a: u32,
    pub b: u32,
}

/// Draws pairs of words, A's before B's.
pub fn drawn_pairs(alloc: Global, seed: u64, count: usize) -> Result<Vec<Pair>, NoMemory>
    ensures { IfOk result (λ pairs. pairs.items ≡ map (pair_of seed) (below count)) }
{
    let mut pairs = Vec::with_capacity(alloc, count)?;
    let mut generator = Lcg64Xsh32::new(seed, STREAM);
    for _n in 0..count {
        let a = generator.next_word();
        let b = generator.next_word();
        pairs.push(Pair { a, b })?;
    }
    Ok(pairs)
}

//! The sums of a list of rows in packed storage.

ghost use Rattle.std.specs.Prelude.{◌≡◌, ℕ, ◌+◌, ◌*◌, ◌^◌, ◌<◌, ◌≤◌, List, [], ◌∷◌, ◌++◌, length, slice_index};
ghost use Rattle.mls_cov.specs.Sums.{HoldsSums};
ghost use Rattle.mls_cov.specs.Rules.{KeepsRules, HasRoom};
ghost use Rattle.mls_cov.specs.Steps.{AreSmall, HasSpace, Grew};

/// The number of sums of the most parameters.
pub const SUM_COUNT: usize = 68;

/// The number of sums that are kept for rows of so many parameters.
pub fn sum_count(parameters: u32) -> usize
    requires { parameters ≤ 16 }
    ensures { result ≡ 4 + 4 * parameters }
{
    4 + 4 * parameters as usize
}

pub(crate) fn product(x: u16, y: u16) -> u64
    ensures value { result ≡ x * y }
    ensures small { result < 2 ^ 32 }
{
    x as u64 * y as u64
}

// Adds a sample of C^k to the four sums from a place on, with the samples of A and B beside it.
fn add_column(sums: &mut [u64], at: usize, a: u16, b: u16, c: u16)
    requires size { at + 4 ≤ length sums.old }
    requires space { AreSmall at sums.old }
    ensures grew { Grew at sums.old sums.new c (c * c) (a * c) (b * c) }
    ensures before { (i : ℕ) → i < at → slice_index sums.new i ≡ slice_index sums.old i }
    ensures beyond { (i : ℕ) → at + 4 ≤ i → slice_index sums.new i ≡ slice_index sums.old i }
{
    sums[at] += c as u64;
    sums[at + 1] += product(c, c);
    sums[at + 2] += product(a, c);
    sums[at + 3] += product(b, c);
}

// Adds the samples of A and B to the first four sums.
fn add_outputs(sums: &mut [u64], a: u16, b: u16)
    requires size { 4 ≤ length sums.old }
    requires space { AreSmall 0 sums.old }
    ensures grew { Grew 0 sums.old sums.new a b (a * a) (b * b) }
    ensures beyond { (i : ℕ) → 4 ≤ i → slice_index sums.new i ≡ slice_index sums.old i }
{
    sums[0] += a as u64;
    sums[1] += b as u64;
    sums[2] += product(a, a);
    sums[3] += product(b, b);
}

// Adds each sample and each product of a row to its sum.
fn add_samples(sums: &mut [u64], parameters: usize, samples: &[u16], at: usize, stride: usize)
    requires few { parameters ≤ 16 }
    requires row { at + stride * (parameters + 1) < length samples.now }
    requires size { 4 + 4 * parameters ≤ length sums.old }
    requires space { HasSpace parameters sums.old }
    ensures outputs { let a = slice_index samples.now at in let b = slice_index samples.now (at + stride) in
        Grew 0 sums.old sums.new a b (a * a) (b * b) }
    ensures columns { (k : ℕ) → k < parameters → let a = slice_index samples.now at in
        let b = slice_index samples.now (at + stride) in
        let c = slice_index samples.now (at + stride * (2 + k)) in
        Grew (4 + 4 * k) sums.old sums.new c (c * c) (a * c) (b * c) }
    ensures beyond { (i : ℕ) → 4 + 4 * parameters ≤ i → slice_index sums.new i ≡ slice_index sums.old i }
{
    let a = samples[at];
    let b = samples[at + stride];
    add_outputs(sums, a, b);
    for k in 0..parameters {
        add_column(sums, 4 + 4 * k, a, b, samples[at + stride * (2 + k)]);
    }
}

/// Adds a row of samples to the sums that stand in the front of a list: the sums of A, of B, of their squares, and for each parameter k those of C^k, of its squares, of its products with A and of those with B. The row's samples stand in a list from a place on, each so many places after the one before.
pub fn add_row_at(sums: &mut [u64], parameters: u32, samples: &[u16], at: usize, stride: usize)
    requires few { parameters ≤ 16 }
    requires row { at + stride * (parameters + 1) < length samples.now }
    requires size { 4 + 4 * parameters ≤ length sums.old }
    requires room { HasRoom parameters sums.old }
    ensures rules { (n : ℕ) → KeepsRules n parameters sums.old → KeepsRules (n + 1) parameters sums.new }
    ensures adds { (row : List ℕ) → length row ≡ parameters + 2 →
        ((j : ℕ) → j < parameters + 2 → slice_index row j ≡ slice_index samples.now (at + stride * j)) →
        (rows : List (List ℕ)) → HoldsSums parameters sums.old rows →
        HoldsSums parameters sums.new (rows ++ row ∷ []) }
    ensures beyond { (i : ℕ) → 4 + 4 * parameters ≤ i → slice_index sums.new i ≡ slice_index sums.old i }
{
    add_samples(sums, parameters as usize, samples, at, stride);
}

/// Adds a row of samples, which stand side by side, to the sums that stand in the front of a list.
pub fn add_row(sums: &mut [u64], parameters: u32, row: &[u16])
    requires few { parameters ≤ 16 }
    requires row { length row.now ≡ parameters + 2 }
    requires size { 4 + 4 * parameters ≤ length sums.old }
    requires room { HasRoom parameters sums.old }
    ensures rules { (n : ℕ) → KeepsRules n parameters sums.old → KeepsRules (n + 1) parameters sums.new }
    ensures adds { (rows : List (List ℕ)) → HoldsSums parameters sums.old rows →
        HoldsSums parameters sums.new (rows ++ row.now ∷ []) }
    ensures beyond { (i : ℕ) → 4 + 4 * parameters ≤ i → slice_index sums.new i ≡ slice_index sums.old i }
{
    add_row_at(sums, parameters, row, 0, 1);
}

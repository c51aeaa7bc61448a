//! The numbers of a cell as a checkpoint spells them, read one after the other.

ghost use Rattle.std.specs.Prelude.{◌≡◌, ℕ, ◌+◌, ◌*◌, ◌<◌, ◌≤◌, nat_le, length, slice_index, take, IfOk, OnOk, IsTrue};
ghost use Rattle.std.specs.Int.{w16, w32, w64, w128};
ghost use Rattle.mls_ckpt.specs.declared.faults.CkptWhy.TheVariants.{Range};
ghost use Rattle.mls_ckpt.specs.declared.faults.RecoverFault.TheVariants.{Bad};
ghost use Rattle.mls_ckpt.specs.Reading.{number_at};
ghost use Rattle.mls_ckpt.specs.CellParts.{ArePowers, are_extrema, are_products, powers_at, extrema_at, above_at, totals_at, column_at, columns_at, cell_at};
ghost use Rattle.mls_power.specs.Extremes.{least_in, greatest_in};
ghost use Rattle.mls_cov.specs.Rules.{AreSums, AreProducts, KeepsColumn};
ghost use Rattle.mls_field.specs.Answered.{Reads, ReadsThese};
ghost use Rattle.mls_field.specs.PackedCells.{CellWithin};
ghost use Rattle.mls_field.specs.Taken.{powers_of, totals_of, cell_taken, AreOutputs, IsColumnOf, HoldOutputs, HalvesWithin, AreHalves, columns_in};
ghost use Rattle.mls_field.specs.Kinds.{ExtremaWithin, NumbersWithin, third_of, fourth_of};

use crate::cells::MOST_SUMS;
use mls_base::shape::Shape;
use mls_ckpt::{CkptWhy, RecoverFault, Take};
use mls_power::ends::EXTREMA_NUMBERS;
use mls_power::exceed::MOST_THRESHOLDS;

// A rule is broken, and this is the place that is named.
fn refused(at: u64) -> RecoverFault
    ensures { result ≡ Bad at Range }
{
    RecoverFault::Bad {
        at,
        why: CkptWhy::Range,
    }
}

fn u16_of(from: &mut Take<'_>, most: u16) -> Result<u16, RecoverFault>
    ensures exact { Reads (λ n. n) (number_at w16 most) from.old from.new result }
    ensures few { IfOk result (λ n. n ≤ most) }
{
    Ok(from.u16(most)?)
}

fn u32_of(from: &mut Take<'_>, most: u32) -> Result<u32, RecoverFault>
    ensures exact { Reads (λ n. n) (number_at w32 most) from.old from.new result }
    ensures few { IfOk result (λ n. n ≤ most) }
{
    Ok(from.u32(most)?)
}

fn u64_of(from: &mut Take<'_>, most: u64) -> Result<u64, RecoverFault>
    ensures exact { Reads (λ n. n) (number_at w64 most) from.old from.new result }
    ensures few { IfOk result (λ n. n ≤ most) }
{
    Ok(from.u64(most)?)
}

fn u128_of(from: &mut Take<'_>, most: u128) -> Result<u128, RecoverFault>
    ensures exact { Reads (λ n. n) (number_at w128 most) from.old from.new result }
    ensures few { IfOk result (λ n. n ≤ most) }
{
    Ok(from.u128(most)?)
}

// The sums of the powers of A and B.
#[derive(Clone, Copy)]
struct PowerSums {
    p1: u64,
    p2: u64,
    p3: u128,
    p4: u128,
}

// The sums of A and of B, and of their squares.
#[derive(Clone, Copy)]
struct OutputSums {
    a: u64,
    b: u64,
    aa: u64,
    bb: u64,
}

/// The numbers of a cell: the sums in the front of their array, the least and the greatest sample, and the numbers
/// above thresholds in the front of theirs.
#[derive(Drop)]
pub(crate) struct Cell {
    pub(crate) sums: [u64; MOST_SUMS],
    pub(crate) ends: [u16; EXTREMA_NUMBERS],
    pub(crate) numbers: [u32; MOST_THRESHOLDS],
}

#[tactic(auto, unfolding(mls_ckpt::specs::CellParts::powers_at))]
fn take_powers(from: &mut Take<'_>, n: u32) -> Result<PowerSums, RecoverFault>
    requires { n ≤ 65535 }
    ensures exact { Reads powers_of (powers_at n) from.old from.new result }
    ensures rules { IfOk result (λ p. ArePowers n p.p1 p.p2 p.p3 p.p4) }
{
    let samples = 2 * n as u64;
    let p1 = u64_of(from, 65535 * samples)?;
    let at = from.at();
    let p2 = u64_of(from, 65535 * p1)?;
    if p1 as u128 * p1 as u128 > samples as u128 * p2 as u128 {
        return Err(refused(at));
    }
    let p3 = u128_of(from, 65535 * p2 as u128)?;
    let p4 = u128_of(from, 65535 * p3)?;
    Ok(PowerSums { p1, p2, p3, p4 })
}

fn are_ends(n: u32, least: u16, greatest: u16) -> bool
    ensures value { result ≡ are_extrema n least greatest }
{
    if n == 0 {
        least == 65535 && greatest == 0
    } else {
        least <= greatest
    }
}

#[tactic(auto, unfolding(mls_ckpt::specs::CellParts::extrema_at))]
fn take_ends(from: &mut Take<'_>, n: u32) -> Result<[u16; EXTREMA_NUMBERS], RecoverFault>
    ensures exact { Reads (λ ends. (least_in ends, greatest_in ends)) (extrema_at n) from.old from.new result }
    ensures rules { IfOk result (λ ends. ExtremaWithin n ends) }
{
    let at = from.at();
    let least = u16_of(from, 65535)?;
    let greatest = u16_of(from, 65535)?;
    if !are_ends(n, least, greatest) {
        return Err(refused(at));
    }
    Ok([least, greatest])
}

// The numbers above so many thresholds, each at most the one before it.
#[tactic(auto, unfolding(mls_ckpt::specs::CellParts::above_at))]
fn take_numbers(
    from: &mut Take<'_>,
    n: u32,
    thresholds: usize,
) -> Result<[u32; MOST_THRESHOLDS], RecoverFault>
    requires few { n ≤ 65535 }
    requires thresholds { thresholds ≤ 8 }
    ensures exact { Reads (take thresholds) (above_at n thresholds) from.old from.new result }
    ensures rules { IfOk result (λ numbers. NumbersWithin n numbers) }
{
    let mut numbers = [0; MOST_THRESHOLDS];
    let mut most = 2 * n;
    for i in 0..thresholds {
        let number = u32_of(from, most)?;
        numbers[i] = number;
        most = number;
    }
    Ok(numbers)
}

// The sums of A and B, which make the first two power sums.
#[tactic(auto, unfolding(mls_ckpt::specs::CellParts::totals_at))]
fn take_outputs(from: &mut Take<'_>, n: u32, powers: &PowerSums) -> Result<OutputSums, RecoverFault>
    requires { n ≤ 65535 }
    ensures exact { Reads totals_of (totals_at n (powers_of powers.now)) from.old from.new result }
    ensures rules { IfOk result (λ t. AreOutputs n powers.now.p1 powers.now.p2 t) }
{
    let rows = n as u64;
    let at_a = from.at();
    let a = u64_of(from, 65535 * rows)?;
    let b = u64_of(from, 65535 * rows)?;
    if powers.p1 != a + b {
        return Err(refused(at_a));
    }
    let at_aa = from.at();
    let aa = u64_of(from, 65535 * a)?;
    if !is_spread(n, a, aa) {
        return Err(refused(at_aa));
    }
    let at_bb = from.at();
    let bb = u64_of(from, 65535 * b)?;
    if !is_spread(n, b, bb) {
        return Err(refused(at_bb));
    }
    if powers.p2 != aa + bb {
        return Err(refused(at_aa));
    }
    Ok(OutputSums { a, b, aa, bb })
}

// Whether the square of a sum of so many samples is at most as many times the sum of their squares.
fn is_spread(n: u32, x: u64, xx: u64) -> bool
    ensures { result ≡ nat_le (x * x) (n * xx) }
{
    x as u128 * x as u128 <= n as u128 * xx as u128
}

// Whether a sum can be that of products of so many samples whose sums and sums of squares are these.
fn have_products(n: u32, x: u64, xx: u64, y: u64, yy: u64, xy: u64) -> bool
    requires few { n ≤ 65535 }
    requires left { AreSums n x xx }
    requires right { AreSums n y yy }
    ensures value { result ≡ are_products n x xx y yy xy }
    ensures rules { IsTrue result → AreProducts n x xx y yy xy }
{
    mls_cov::ranges::are_products(n, x, xx, y, yy, xy)
}

// The four sums of a parameter.
#[tactic(auto, unfolding(mls_ckpt::specs::CellParts::column_at))]
fn take_column(from: &mut Take<'_>, n: u32, outputs: &OutputSums) -> Result<[u64; 4], RecoverFault>
    requires few { n ≤ 65535 }
    requires a { AreSums n outputs.now.a outputs.now.aa }
    requires b { AreSums n outputs.now.b outputs.now.bb }
    ensures exact { Reads (λ column. column) (column_at n (totals_of outputs.now)) from.old from.new result }
    ensures rules { IfOk result (λ column. IsColumnOf n outputs.now column) }
    ensures long { IfOk result (λ column. length column ≡ 4) }
{
    let x = u64_of(from, 65535 * n as u64)?;
    let at_xx = from.at();
    let xx = u64_of(from, 65535 * x)?;
    if !is_spread(n, x, xx) {
        return Err(refused(at_xx));
    }
    let at_ax = from.at();
    let ax = u64_of(from, u64::MAX)?;
    if !have_products(n, outputs.a, outputs.aa, x, xx, ax) {
        return Err(refused(at_ax));
    }
    let at_bx = from.at();
    let bx = u64_of(from, u64::MAX)?;
    if !have_products(n, outputs.b, outputs.bb, x, xx, bx) {
        return Err(refused(at_bx));
    }
    Ok([x, xx, ax, bx])
}

// Puts four sums at the places of a parameter.
fn set_column(sums: &mut [u64; MOST_SUMS], k: usize, column: &[u64; 4])
    requires { k ≤ 16 }
    ensures first { slice_index sums.new (4 + 4 * k) ≡ slice_index column.now 0 }
    ensures second { slice_index sums.new (4 + 4 * k + 1) ≡ slice_index column.now 1 }
    ensures with_a { slice_index sums.new (4 + 4 * k + 2) ≡ slice_index column.now 2 }
    ensures with_b { slice_index sums.new (4 + 4 * k + 3) ≡ slice_index column.now 3 }
    ensures before { (i : ℕ) → i < 4 + 4 * k → slice_index sums.new i ≡ slice_index sums.old i }
    ensures beyond { (i : ℕ) → 8 + 4 * k ≤ i → slice_index sums.new i ≡ slice_index sums.old i }
{
    let at = 4 + 4 * k;
    sums[at] = column[0];
    sums[at + 1] = column[1];
    sums[at + 2] = column[2];
    sums[at + 3] = column[3];
}

// The four sums of each parameter, at their places.
#[tactic(auto, unfolding(mls_ckpt::specs::CellParts::columns_at))]
fn take_columns(
    from: &mut Take<'_>,
    n: u32,
    parameters: usize,
    outputs: &OutputSums,
    sums: &mut [u64; MOST_SUMS],
) -> Result<(), RecoverFault>
    requires few { n ≤ 65535 }
    requires parameters { parameters ≤ 16 }
    requires a { AreSums n outputs.now.a outputs.now.aa }
    requires b { AreSums n outputs.now.b outputs.now.bb }
    requires there { HoldOutputs outputs.now sums.old }
    ensures exact { ReadsThese (columns_in sums.new parameters) (columns_at n (totals_of outputs.now) parameters)
        from.old from.new result }
    ensures rules { OnOk result ((k : ℕ) → k < parameters → KeepsColumn n k sums.new) }
    ensures outputs { HoldOutputs outputs.now sums.new }
    ensures beyond { (i : ℕ) → 4 + 4 * parameters ≤ i → slice_index sums.new i ≡ slice_index sums.old i }
{
    for k in 0..parameters {
        let column = take_column(from, n, outputs)?;
        set_column(sums, k, &column);
    }
    Ok(())
}

// The sums of third and of fourth powers of so many rows, in two halves each.
fn halves(powers: &PowerSums, n: u32) -> [u64; 4]
    requires few { n ≤ 65535 }
    requires rules { ArePowers n powers.now.p1 powers.now.p2 powers.now.p3 powers.now.p4 }
    ensures { AreHalves n powers.now.p3 powers.now.p4 result }
{
    let half = powers.p3 / 2;
    let high = powers.p4 / 4294967296;
    let low = powers.p4 % 4294967296;
    [
        half as u64,
        (powers.p3 - half) as u64,
        low as u64,
        high as u64,
    ]
}

// The sums of A and B at their places, and the sums of third and fourth powers at theirs, cut in halves.
fn packed(powers: &PowerSums, outputs: &OutputSums, n: u32, parameters: usize) -> [u64; MOST_SUMS]
    requires few { n ≤ 65535 }
    requires parameters { parameters ≤ 16 }
    requires rules { ArePowers n powers.now.p1 powers.now.p2 powers.now.p3 powers.now.p4 }
    ensures outputs { HoldOutputs outputs.now result }
    ensures third { third_of parameters result ≡ powers.now.p3 }
    ensures fourth { fourth_of parameters result ≡ powers.now.p4 }
    ensures within { HalvesWithin parameters n result }
{
    let mut sums = [0; MOST_SUMS];
    sums[0] = outputs.a;
    sums[1] = outputs.b;
    sums[2] = outputs.aa;
    sums[3] = outputs.bb;
    set_column(&mut sums, parameters, &halves(powers, n));
    sums
}

/// The numbers of a cell of so many rows.
#[tactic(auto, unfolding(mls_ckpt::specs::CellParts::cell_at))]
pub(crate) fn take_cell(from: &mut Take<'_>, shape: &Shape, n: u32) -> Result<Cell, RecoverFault>
    requires { n ≤ 65535 }
    ensures exact { let s = shape.now in
        Reads (cell_taken s.parameters (length s.thresholds) n) (cell_at s n) from.old from.new result }
    ensures within { IfOk result (λ cell. CellWithin shape.now.parameters n cell.sums cell.ends cell.numbers) }
{
    let parameters = shape.parameters() as usize;
    let powers = take_powers(from, n)?;
    let ends = take_ends(from, n)?;
    let numbers = take_numbers(from, n, shape.thresholds() as usize)?;
    let outputs = take_outputs(from, n, &powers)?;
    let mut sums = packed(&powers, &outputs, n, parameters);
    take_columns(from, n, parameters, &outputs, &mut sums)?;
    Ok(Cell {
        sums,
        ends,
        numbers,
    })
}

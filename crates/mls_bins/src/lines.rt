//! What is said of a cell's counts: the bins line and the quartiles line.

ghost use Rattle.std.specs.Prelude.{◌≡◌, ◌+◌, ◌*◌, ◌<◌, ◌≤◌, ◌++◌, length, sum, IfSome};
ghost use Rattle.mls_text.specs.Writing.{WritesTo};
ghost use Rattle.mls_hist.specs.Quartiles.{bracket_in};
ghost use Rattle.mls_hist.specs.BinsText.{bin_words, count_words, bins_line, bracket_words, quartiles_line};
ghost use Rattle.mls_bins.specs.Words.{line_end, bins_start, no_bins, bin_said, part_words, bins_said, quartiles_start, no_quartiles, ends_said, quartiles_said};

use mls_base::faults::Failed;
use mls_base::outside::Sink;
use mls_base::samples::unshifted;
use mls_hist::{BIN_WIDTH, BINS, BinCounts, bracket_of};
use mls_text::{Line, put_bytes};

/// How many bins are written in one piece.
const PART: usize = 16;

/// Takes a bin and how many samples it holds behind a line.
#[tactic(auto, using(mls_text::proofs::Writing::pieces), unfolding(crate::specs::Words::bin_said))]
fn add_count(line: &mut Line, bin: u32, count: u32)
    requires { length line.old ≤ 362 }
    ensures text { line.new ≡ line.old ++ bin_said bin count }
    ensures size { length line.new ≤ length line.old + 22 }
{
    line.text(b" ");
    line.number(bin);
    line.text(b":");
    line.number(count);
}

/// Takes a bin and how many samples it holds behind a line, where it holds one.
fn add_bin(line: &mut Line, bin: u32, count: u32)
    requires { length line.old ≤ 362 }
    ensures text { line.new ≡ line.old ++ bin_words bin count }
    ensures size { length line.new ≤ length line.old + 22 }
{
    if count > 0 {
        add_count(line, bin, count);
    }
}

/// Sixteen bins from one on.
fn bins_from(counts: &BinCounts, first: usize) -> Line
    requires { first + 16 ≤ 64 }
    ensures { result ≡ part_words counts.now first }
{
    let mut line = Line::new();
    for k in 0..PART {
        let bin = first + k;
        add_bin(&mut line, bin as u32, counts[bin]);
    }
    line
}

/// Writes each bin that holds a sample, rising.
#[tactic(auto, unfolding(mls_hist::specs::BinsText::count_words))]
fn put_counts<O: Sink>(out: &mut O, counts: &BinCounts) -> Result<(), Failed>
    ensures { WritesTo O.told O.faults O.sure out.old out.new result (count_words counts.now) }
{
    for part in 0..BINS / PART {
        bins_from(counts, PART * part).put(out)?;
    }
    Ok(())
}

/// Writes the first word of a bins line.
#[tactic(auto, unfolding(crate::specs::Words::bins_start))]
fn put_bins_start<O: Sink>(out: &mut O) -> Result<(), Failed>
    ensures { WritesTo O.told O.faults O.sure out.old out.new result bins_start }
{
    put_bytes(out, b"bins")
}

/// Writes the end of a line.
#[tactic(auto, unfolding(crate::specs::Words::line_end))]
fn put_line_end<O: Sink>(out: &mut O) -> Result<(), Failed>
    ensures { WritesTo O.told O.faults O.sure out.old out.new result line_end }
{
    put_bytes(out, b"\n")
}

/// Writes the bins line of no groups.
#[tactic(auto, unfolding(crate::specs::Words::no_bins))]
fn put_no_bins<O: Sink>(out: &mut O) -> Result<(), Failed>
    ensures { WritesTo O.told O.faults O.sure out.old out.new result no_bins }
{
    put_bytes(out, b"bins -\n")
}

/// Writes the bins line of some groups.
fn put_some_bins<O: Sink>(out: &mut O, counts: &BinCounts) -> Result<(), Failed>
    ensures { WritesTo O.told O.faults O.sure out.old out.new result (bins_said counts.now) }
{
    put_bins_start(out)?;
    put_counts(out, counts)?;
    put_line_end(out)
}

/// Writes the bins line of a cell of so many groups with these counts.
pub fn put_bins<O: Sink>(out: &mut O, groups: u32, counts: &BinCounts) -> Result<(), Failed>
    ensures { WritesTo O.told O.faults O.sure out.old out.new result (bins_line groups counts.now) }
{
    if groups == 0 {
        return put_no_bins(out);
    }
    put_some_bins(out, counts)
}

/// Takes a least and a greatest value behind a line.
#[tactic(auto, using(mls_text::proofs::Writing::pieces), unfolding(crate::specs::Words::ends_said))]
fn add_ends(line: &mut Line, least: i32, greatest: i32)
    requires { length line.old ≤ 100 }
    ensures text { line.new ≡ line.old ++ ends_said least greatest }
    ensures size { length line.new ≤ length line.old + 25 }
{
    line.text(b" ");
    line.number(least);
    line.text(b"..");
    line.number(greatest);
}

/// Takes the least and the greatest value of a bin behind a line, where there is one.
fn add_bracket(line: &mut Line, signed: bool, bracket: Option<u32>)
    requires line { length line.old ≤ 100 }
    requires bin { IfSome bracket (λ bin. bin < 64) }
    ensures text { line.new ≡ line.old ++ bracket_words signed bracket }
    ensures size { length line.new ≤ length line.old + 25 }
{
    if let Some(bin) = bracket {
        let least = BIN_WIDTH * bin as u16;
        let greatest = least + (BIN_WIDTH - 1);
        add_ends(line, unshifted(signed, least), unshifted(signed, greatest));
    }
}

/// The first word of a quartiles line.
#[tactic(auto, unfolding(crate::specs::Words::quartiles_start))]
fn quartiles_start() -> Line
    ensures text { result ≡ quartiles_start }
    ensures size { length result ≤ 9 }
{
    let mut line = Line::new();
    line.text(b"quartiles");
    line
}

/// The quartiles line of so many samples with these counts.
fn quartiles_of(signed: bool, counts: &BinCounts, samples: u32) -> Line
    requires few { samples ≤ 131070 }
    requires samples { sum counts.now ≡ samples }
    ensures { result ≡ quartiles_said signed (bracket_in counts.now) }
{
    let mut line = quartiles_start();
    add_bracket(&mut line, signed, bracket_of(counts, samples, 1));
    add_bracket(&mut line, signed, bracket_of(counts, samples, 2));
    add_bracket(&mut line, signed, bracket_of(counts, samples, 3));
    line.text(b"\n");
    line
}

/// Writes the quartiles line of no groups.
#[tactic(auto, unfolding(crate::specs::Words::no_quartiles))]
fn put_no_quartiles<O: Sink>(out: &mut O) -> Result<(), Failed>
    ensures { WritesTo O.told O.faults O.sure out.old out.new result no_quartiles }
{
    put_bytes(out, b"quartiles -\n")
}

/// Writes the quartiles line of a cell of so many groups with these counts.
pub fn put_quartiles<O: Sink>(
    out: &mut O,
    signed: bool,
    groups: u32,
    counts: &BinCounts,
) -> Result<(), Failed>
    requires few { groups ≤ 65535 }
    requires samples { sum counts.now ≡ 2 * groups }
    ensures { WritesTo O.told O.faults O.sure out.old out.new result
        (quartiles_line signed groups (bracket_in counts.now)) }
{
    if groups == 0 {
        return put_no_quartiles(out);
    }
    quartiles_of(signed, counts, 2 * groups).put(out)
}

//! The lines of the result text, one function a line.

ghost use Rattle.std.specs.Prelude.{◌≡◌, ◌+◌, ◌≤◌, ◌++◌, length, pos, decimal};
ghost use Rattle.mls_model.specs.ResultText.{rank_line, lane_line, kind_word, end_words};
ghost use Rattle.mls_result.specs.Words.{counts_start, study_start, study_numbers, step_start, cell_words, power_words, variance_words, third_words, extrema_words};

use mls_base::shape::Shape;
use mls_model::lanes::{LaneEnd, LaneKind, LaneLine};
use mls_model::outcomes::Counts;
use mls_power::power::Powers;
use mls_text::Line;

/// The tops of the variance and of the third central moment of a cell's values.
#[derive(Clone, Copy, Debug)]
pub struct Moments {
    pub variance: i128,
    pub third: i128,
}

/// The number of a rank and the counts of what was not foreign to it.
fn counts_start(rank: u64, counts: &Counts) -> Line
    ensures text { result ≡ counts_start rank counts.now }
    ensures size { length result ≤ 175 }
{
    let mut line = Line::new();
    line.text(b"rank ");
    line.number(rank);
    line.text(b" accepted ");
    line.number(counts.accepted);
    line.text(b" kept ");
    line.number(counts.kept);
    line.text(b" replay ");
    line.number(counts.replay);
    line.text(b" stale ");
    line.number(counts.stale);
    line.text(b" repeated ");
    line.number(counts.repeated);
    line.text(b" foreign ");
    line
}

/// The counts of a rank.
pub fn rank_line(rank: u64, counts: &Counts) -> Line
    ensures { result ≡ rank_line rank counts.now }
{
    let mut line = counts_start(rank, counts);
    line.number(counts.f1);
    line.text(b" ");
    line.number(counts.f2);
    line.text(b" ");
    line.number(counts.f3);
    line.text(b" ");
    line.number(counts.f4);
    line.text(b" ");
    line.number(counts.f5);
    line.text(b" ");
    line.number(counts.f6);
    line.text(b"\n");
    line
}

fn kind_bytes(kind: LaneKind) -> &'static [u8]
    ensures word { result.now ≡ kind_word kind }
    ensures short { length result.now ≤ 7 }
{
    match kind {
        LaneKind::Client => b"client".as_slice(),
        LaneKind::Control => b"control".as_slice(),
    }
}

/// Takes words and a place behind a line.
fn add_place(line: &mut Line, words: &[u8], at: u64)
    requires line { length line.old ≤ 100 }
    requires words { length words.now ≤ 20 }
    ensures text { line.new ≡ line.old ++ (words.now ++ decimal at) }
    ensures size { length line.new ≤ length line.old + 40 }
{
    line.text(words);
    line.number(at);
}

/// Takes how a lane ended behind a line.
fn add_end(line: &mut Line, end: LaneEnd)
    requires { length line.old ≤ 100 }
    ensures text { line.new ≡ line.old ++ end_words end }
    ensures size { length line.new ≤ length line.old + 40 }
{
    match end {
        LaneEnd::Clean => line.text(b"clean"),
        LaneEnd::Cut { at } => add_place(line, b"cut at ", at),
        LaneEnd::BadKind { at } => add_place(line, b"bad-kind at ", at),
        LaneEnd::BadLength { at } => add_place(line, b"bad-length at ", at),
        LaneEnd::Fault { at } => add_place(line, b"fault at ", at),
        LaneEnd::Full { at } => add_place(line, b"full at ", at),
    }
}

/// What is said of a lane.
#[tactic(auto, using(mls_text::proofs::Writing::pieces), unfolding(mls_model::specs::ResultText::lane_line))]
pub fn lane_line(lane: &LaneLine) -> Line
    ensures { result ≡ lane_line lane.now }
{
    let mut line = Line::new();
    line.text(b"lane ");
    line.number(lane.lane);
    line.text(b" rank ");
    line.number(lane.rank);
    line.text(b" ");
    line.text(kind_bytes(lane.kind));
    line.text(b" events ");
    line.number(lane.events);
    line.text(b" ");
    add_end(&mut line, lane.end);
    line.text(b"\n");
    line
}

/// The numbers of a study line.
fn study_numbers(
    cells: u32,
    steps: u32,
    groups: u32,
    parameters: u32,
    ranks: u32,
    clients: u32,
) -> Line
    ensures text { result ≡ study_numbers cells steps groups parameters ranks clients }
    ensures size { length result ≤ 120 }
{
    let mut line = Line::new();
    line.text(b"study cells ");
    line.number(cells);
    line.text(b" steps ");
    line.number(steps);
    line.text(b" groups ");
    line.number(groups);
    line.text(b" parameters ");
    line.number(parameters);
    line.text(b" ranks ");
    line.number(ranks);
    line.text(b" clients ");
    line.number(clients);
    line
}

/// The study line up to the fields.
pub fn study_start(shape: &Shape) -> Line
    ensures text { result ≡ study_start shape.now }
    ensures size { length result ≤ 120 }
{
    study_numbers(
        shape.cells(),
        shape.steps(),
        shape.groups(),
        shape.parameters(),
        shape.ranks(),
        shape.clients(),
    )
}

/// The start of a step line.
#[tactic(auto, using(mls_text::proofs::Writing::pieces), unfolding(crate::specs::Words::step_start))]
pub fn step_start(step: u32) -> Line
    ensures { result ≡ step_start step }
{
    let mut line = Line::new();
    line.text(b"step ");
    line.number(step);
    line
}

/// The rest of a step line.
#[tactic(auto, using(mls_text::proofs::Writing::pieces), unfolding(crate::specs::Words::cell_words))]
pub fn cell_words(cell: u32, groups: u32) -> Line
    ensures { result ≡ cell_words cell groups }
{
    let mut line = Line::new();
    line.text(b" cell ");
    line.number(cell);
    line.text(b" groups ");
    line.number(groups);
    line.text(b"\n");
    line
}

/// Takes the line of power sums of values behind those so far.
fn add_powers(line: &mut Line, powers: &Powers)
    requires { length line.old ≤ 200 }
    ensures text { line.new ≡ line.old ++ power_words powers.now.p1 (pos powers.now.p2) powers.now.p3 powers.now.p4 }
    ensures size { length line.new ≤ length line.old + 130 }
{
    line.text(b"power ");
    line.number(powers.p1);
    line.text(b" ");
    line.number(powers.p2);
    line.text(b" ");
    line.number(powers.p3);
    line.text(b" ");
    line.number(powers.p4);
    line.text(b"\n");
}

/// Takes the line of a variance over N values: its top over N · (N − 1).
#[tactic(auto, using(mls_text::proofs::Writing::pieces), unfolding(crate::specs::Words::variance_words))]
fn add_variance(line: &mut Line, moments: &Moments, n: u32)
    requires some { 1 ≤ n }
    requires line { length line.old ≤ 300 }
    ensures text { line.new ≡ line.old ++ variance_words moments.now.variance n }
    ensures size { length line.new ≤ length line.old + 71 }
{
    let n = n as u64;
    line.text(b"variance ");
    line.number(moments.variance);
    line.text(b"/");
    line.number(n * (n - 1));
    line.text(b"\n");
}

/// Takes the line of a third central moment over N values: its top over N³.
#[tactic(auto, using(mls_text::proofs::Writing::pieces), unfolding(crate::specs::Words::third_words))]
fn add_third(line: &mut Line, moments: &Moments, n: u32)
    requires few { n ≤ 131070 }
    requires line { length line.old ≤ 300 }
    ensures { line.new ≡ line.old ++ third_words moments.now.third n }
{
    let n = n as u64;
    line.text(b"third ");
    line.number(moments.third);
    line.text(b"/");
    line.number(n * (n * n));
    line.text(b"\n");
}

/// The power sums, the variance and the third central moment of N values, a line each.
#[tactic(auto, using(mls_text::proofs::Writing::pieces))]
pub fn power_lines(powers: &Powers, moments: &Moments, n: u32) -> Line
    requires some { 1 ≤ n }
    requires few { n ≤ 131070 }
    ensures { let p = powers.now in
        let sums = power_words p.p1 (pos p.p2) p.p3 p.p4 in
        result ≡ sums ++ (variance_words moments.now.variance n ++ third_words moments.now.third n) }
{
    let mut line = Line::new();
    add_powers(&mut line, powers);
    add_variance(&mut line, moments, n);
    add_third(&mut line, moments, n);
    line
}

/// A least and a greatest value.
#[tactic(auto, using(mls_text::proofs::Writing::pieces), unfolding(crate::specs::Words::extrema_words))]
pub fn extrema_line(least: i32, greatest: i32) -> Line
    ensures { result ≡ extrema_words least greatest }
{
    let mut line = Line::new();
    line.text(b"extrema ");
    line.number(least);
    line.text(b" ");
    line.number(greatest);
    line.text(b"\n");
    line
}

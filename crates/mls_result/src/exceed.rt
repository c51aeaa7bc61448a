//! The exceed line of a cell.

ghost use Rattle.std.specs.Prelude.{◌≡◌, ℕ, ◌+◌, ◌≤◌, ◌++◌, List, length, slice_index};
ghost use Rattle.mls_model.specs.ResultText.{exceed_words};
ghost use Rattle.mls_power.specs.ExceedStanding.{numbers_of};
ghost use Rattle.mls_result.specs.Words.{exceed_start, number_words};

use mls_power::exceed::Exceed;
use mls_text::Line;

/// The first word of an exceed line.
#[tactic(auto, unfolding(crate::specs::Words::exceed_start))]
fn exceed_start() -> Line
    ensures text { result ≡ exceed_start }
    ensures size { length result ≤ 6 }
{
    let mut line = Line::new();
    line.text(b"exceed");
    line
}

/// Takes a number with the blank before it behind a line.
#[tactic(auto, using(mls_text::proofs::Writing::pieces), unfolding(crate::specs::Words::number_words))]
fn add_number(line: &mut Line, n: u32)
    requires { length line.old ≤ 373 }
    ensures text { line.new ≡ line.old ++ number_words n }
    ensures size { length line.new ≤ length line.old + 11 }
{
    line.text(b" ");
    line.number(n);
}

/// How many values are above each of so many thresholds.
pub fn exceed_line(exceed: &Exceed, thresholds: u32) -> Line
    requires { thresholds ≤ 8 }
    ensures { (numbers : List ℕ) → length numbers ≡ thresholds →
        ((i : ℕ) → slice_index (numbers_of exceed.now) i ≡ slice_index numbers i) →
        result ≡ exceed_words numbers }
{
    let mut line = exceed_start();
    for i in 0..thresholds {
        add_number(&mut line, exceed.above(i));
    }
    line.text(b"\n");
    line
}

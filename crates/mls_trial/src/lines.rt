//! The lines of the summary, one function a line.

ghost use Rattle.std.specs.Prelude.{◌≡◌, pos};
ghost use Rattle.mls_design.specs.TrialText.{trial_title, groups_text};
ghost use Rattle.mls_trial.specs.Words.{lanes_words, sum_words};

use mls_text::Line;

/// The title and the number.
#[tactic(auto, using(mls_text::proofs::Writing::pieces), unfolding(mls_design::specs::TrialText::trial_title))]
pub fn title_line(number: u64) -> Line
    ensures { result ≡ trial_title number }
{
    let mut line = Line::new();
    line.text(b"melissa-trial 1\nnumber ");
    line.number(number);
    line.text(b"\n");
    line
}

/// The numbers of lanes and of their events.
#[tactic(auto, using(mls_text::proofs::Writing::pieces), unfolding(crate::specs::Words::lanes_words))]
pub fn lanes_line(lanes: u32, events: u64) -> Line
    ensures { result ≡ lanes_words lanes events }
{
    let mut line = Line::new();
    line.text(b"lanes ");
    line.number(lanes);
    line.text(b" events ");
    line.number(events);
    line.text(b"\n");
    line
}

/// The least and the greatest number of accepted groups.
#[tactic(auto, using(mls_text::proofs::Writing::pieces), unfolding(mls_design::specs::TrialText::groups_text))]
pub fn groups_line(fewest: u16, most: u16) -> Line
    ensures { result ≡ groups_text fewest most }
{
    let mut line = Line::new();
    line.text(b"groups ");
    line.number(fewest);
    line.text(b" ");
    line.number(most);
    line.text(b"\n");
    line
}

/// The sums of the values and of their squares.
#[tactic(auto, using(mls_text::proofs::Writing::pieces), unfolding(crate::specs::Words::sum_words))]
pub fn sum_line(first: i128, second: u128) -> Line
    ensures { result ≡ sum_words first (pos second) }
{
    let mut line = Line::new();
    line.text(b"sum ");
    line.number(first);
    line.text(b" ");
    line.number(second);
    line.text(b"\n");
    line
}

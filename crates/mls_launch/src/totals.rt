//! How many groups are at each of their stages.

ghost use Rattle.std.specs.Prelude.{◌≡◌, ◌≤◌, length, count_by};
ghost use Rattle.mls_launch.specs.Rows.{is_running, is_waiting, is_done, is_left};

use crate::group_state::GroupState;

/// How many groups are at each of their stages.
#[derive(Clone, Copy, Debug, PartialEq, Eq)]
pub struct Totals {
    pub running: u32,
    pub waiting: u32,
    pub finished: u32,
    pub given_up: u32,
}

pub fn count_running(rows: &[GroupState]) -> usize
    ensures { result ≡ count_by is_running rows.now }
{
    rows.iter().filter(|row| row.is_running()).count()
}

pub fn count_waiting(rows: &[GroupState]) -> usize
    ensures { result ≡ count_by is_waiting rows.now }
{
    rows.iter().filter(|row| row.is_waiting()).count()
}

pub fn count_finished(rows: &[GroupState]) -> usize
    ensures { result ≡ count_by is_done rows.now }
{
    rows.iter().filter(|row| row.is_finished()).count()
}

pub fn count_given_up(rows: &[GroupState]) -> usize
    ensures { result ≡ count_by is_left rows.now }
{
    rows.iter().filter(|row| row.is_given_up()).count()
}

/// The numbers of groups with each kind of row.
#[tactic(auto, using(crate::proofs::Counts::counts))]
pub fn totals_of(rows: &[GroupState]) -> Totals
    requires { length rows.now ≤ 65535 }
    ensures running { result.running ≡ count_by is_running rows.now }
    ensures waiting { result.waiting ≡ count_by is_waiting rows.now }
    ensures finished { result.finished ≡ count_by is_done rows.now }
    ensures given_up { result.given_up ≡ count_by is_left rows.now }
{
    Totals {
        running: count_running(rows) as u32,
        waiting: count_waiting(rows) as u32,
        finished: count_finished(rows) as u32,
        given_up: count_given_up(rows) as u32,
    }
}

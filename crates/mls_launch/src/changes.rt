//! How the rows of groups and ranks change.

ghost use Rattle.std.specs.Prelude.{◌≡◌, slice_set};
ghost use Rattle.mls_launch.specs.Rows.{lasts_with, rows_with, lasts_after, rows_after, lasts_heard, rows_heard, row_at};

use crate::group_state::GroupState;
use mls_model::launcher::{Action, Event};

fn set_last(lasts: &mut [u32], rank: u32, time: u32)
    ensures { lasts.new ≡ slice_set lasts.old rank time }
{
    if (rank as usize) < lasts.len() {
        lasts[rank as usize] = time;
    }
}

fn set_row(rows: &mut [GroupState], group: u32, row: GroupState)
    ensures { rows.new ≡ slice_set rows.old group row }
{
    if (group as usize) < rows.len() {
        rows[group as usize] = row;
    }
}

fn row_at(rows: &[GroupState], group: u32) -> GroupState
    ensures { result ≡ row_at rows.now group }
{
    if (group as usize) < rows.len() {
        rows[group as usize]
    } else {
        GroupState::Waiting
    }
}

/// Takes note of what was heard.
pub fn hear(lasts: &mut [u32], rows: &mut [GroupState], event: &Event, time: u32)
    ensures lasts { lasts.new ≡ lasts_heard time lasts.old event.now }
    ensures rows { rows.new ≡ rows_heard time rows.old event.now }
{
    match *event {
        Event::Tick { .. } => {}
        Event::Beat { group, life, .. } => {
            let row = row_at(rows, group);
            set_row(rows, group, row.after_beat(life, time));
        }
        Event::Done { group, life, .. } => {
            let row = row_at(rows, group);
            set_row(rows, group, row.after_done(life));
        }
        Event::RankBeat { rank, .. } => set_last(lasts, rank, time),
    }
}

/// Takes note of an action.
fn carry_out(lasts: &mut [u32], rows: &mut [GroupState], action: Action, time: u32)
    ensures lasts { lasts.new ≡ lasts_with time lasts.old action }
    ensures rows { rows.new ≡ rows_with time rows.old action }
{
    match action {
        Action::Start { group, life } => set_row(
            rows,
            group,
            GroupState::Running { life, last: time },
        ),
        Action::Restart { group, life } => set_row(
            rows,
            group,
            GroupState::Running { life, last: time },
        ),
        Action::GiveUp { group } => set_row(rows, group, GroupState::GivenUp),
        Action::RestartRank { rank } => set_last(lasts, rank, time),
    }
}

/// Takes note of actions, in order.
pub fn carry_out_all(lasts: &mut [u32], rows: &mut [GroupState], actions: &[Action], time: u32)
    ensures lasts { lasts.new ≡ lasts_after time lasts.old actions.now }
    ensures rows { rows.new ≡ rows_after time rows.old actions.now }
{
    for action in actions {
        carry_out(lasts, rows, *action, time);
    }
}

//! What a watch does at a tick, by its rows, which stay as they are.

ghost use Rattle.std.specs.Prelude.{◌≡◌, ◌+◌, ◌-◌, ◌++◌, ◌<◌, ◌≤◌, length, OnOk};
ghost use Rattle.mls_launch.specs.Rows.{ranks_due, groups_due, staying, starts_due, stays_on};

use crate::group_state::GroupState;
use mls_base::faults::NoMemory;
use mls_model::launcher::Action;

/// Restarts the silent ranks.
#[tactic(auto, using(crate::proofs::Chosen::due_steps))]
pub fn restart_ranks(
    lasts: &[u32],
    silence: u32,
    time: u32,
    actions: &mut Vec<Action>,
) -> Result<(), NoMemory>
    requires { length lasts.now ≤ 64 }
    ensures { let due = ranks_due silence time lasts.now (length lasts.now) in
        OnOk result (actions.new.items ≡ actions.old.items ++ due) }
{
    for (rank, last) in lasts.iter().enumerate() {
        if time.saturating_sub(*last) > silence {
            actions.push(Action::RestartRank { rank: rank as u32 })?;
        }
    }
    Ok(())
}

/// Answers the silent groups.
#[tactic(auto, using(crate::proofs::Chosen::due_steps))]
pub fn answer_groups(
    rows: &[GroupState],
    silence: u32,
    lives: u32,
    time: u32,
    actions: &mut Vec<Action>,
) -> Result<(), NoMemory>
    requires groups { length rows.now ≤ 65535 }
    requires lives { lives ≤ 255 }
    ensures { let due = groups_due silence lives time rows.now (length rows.now) in
        OnOk result (actions.new.items ≡ actions.old.items ++ due) }
{
    for (group, row) in rows.iter().enumerate() {
        if row.is_due(silence, time) {
            actions.push(row.answer(group as u32, lives))?;
        }
    }
    Ok(())
}

/// How many groups run on when the silent ones have been answered.
#[tactic(auto, using(crate::proofs::Chosen::due_steps))]
pub fn count_staying(rows: &[GroupState], silence: u32, lives: u32, time: u32) -> u32
    requires { length rows.now ≤ 65535 }
    ensures value { result ≡ staying silence lives time rows.now (length rows.now) }
    ensures within { result ≤ 65535 }
{
    let mut count = 0u32;
    for row in rows {
        if row.stays_on(silence, lives, time) {
            count += 1;
        }
    }
    count
}

/// Starts waiting groups, while fewer than `slots` groups run.
#[tactic(auto, using(crate::proofs::Chosen::due_steps))]
pub fn start_groups(
    rows: &[GroupState],
    slots: u32,
    mut running: u32,
    actions: &mut Vec<Action>,
) -> Result<(), NoMemory>
    requires groups { length rows.now ≤ 65535 }
    requires running { running ≤ 65535 }
    ensures { let due = starts_due (slots - running) rows.now (length rows.now) in
        OnOk result (actions.new.items ≡ actions.old.items ++ due) }
{
    for (group, row) in rows.iter().enumerate() {
        if running < slots && row.is_waiting() {
            actions.push(Action::Start {
                group: group as u32,
                life: 1,
            })?;
            running += 1;
        }
    }
    Ok(())
}

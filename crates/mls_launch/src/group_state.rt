//! What a watch keeps of each group, and what it does by it.

ghost use Rattle.std.specs.Prelude.{◌≡◌, ◌≤◌};
ghost use Rattle.mls_launch.specs.Rows.{row_beat, row_done, is_due, answer_for, stays_on, is_running, is_waiting, is_done, is_left};

use mls_model::launcher::Action;

/// Where a group stands.
#[derive(Clone, Copy)]
pub enum GroupState {
    Waiting,
    Running { life: u32, last: u32 },
    Finished,
    GivenUp,
}

impl GroupState {
    /// The row after a sign of life.
    pub fn after_beat(self, life: u32, time: u32) -> GroupState
        ensures { result ≡ row_beat life time self }
    {
        match self {
            GroupState::Running { life: alive, .. } if life == alive => GroupState::Running {
                life: alive,
                last: time,
            },
            row => row,
        }
    }

    /// The row after the end of a life.
    pub fn after_done(self, life: u32) -> GroupState
        ensures { result ≡ row_done life self }
    {
        match self {
            GroupState::Running { life: alive, .. } if life == alive => GroupState::Finished,
            GroupState::Waiting => GroupState::Finished,
            row => row,
        }
    }

    /// Whether the group runs and was silent for too long.
    pub fn is_due(self, silence: u32, time: u32) -> bool
        ensures { result ≡ is_due silence time self }
    {
        match self {
            GroupState::Running { last, .. } => time.saturating_sub(last) > silence,
            _ => false,
        }
    }

    /// What is done about a silent group.
    pub fn answer(self, group: u32, lives: u32) -> Action
        requires { lives ≤ 255 }
        ensures { result ≡ answer_for lives group self }
    {
        match self {
            GroupState::Running { life, .. } if life < lives => Action::Restart {
                group,
                life: life + 1,
            },
            _ => Action::GiveUp { group },
        }
    }

    /// Whether the group runs and runs on when it is answered.
    pub fn stays_on(self, silence: u32, lives: u32, time: u32) -> bool
        ensures { result ≡ stays_on silence lives time self }
    {
        match self {
            GroupState::Running { life, last } => time.saturating_sub(last) <= silence
                || life < lives,
            _ => false,
        }
    }

    pub fn is_waiting(self) -> bool
        ensures { result ≡ is_waiting self }
    {
        matches!(self, GroupState::Waiting)
    }

    pub fn is_running(self) -> bool
        ensures { result ≡ is_running self }
    {
        matches!(self, GroupState::Running { .. })
    }

    pub fn is_finished(self) -> bool
        ensures { result ≡ is_done self }
    {
        matches!(self, GroupState::Finished)
    }

    pub fn is_given_up(self) -> bool
        ensures { result ≡ is_left self }
    {
        matches!(self, GroupState::GivenUp)
    }
}

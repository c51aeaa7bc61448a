//! What a launcher hears, and what it answers.

/// What a launcher hears. Each has the time `now` in seconds since the launcher's start.
#[derive(Clone, Copy, Debug, PartialEq, Eq)]
pub enum Event {
    /// Time passed.
    Tick { now: u32 },
    /// A group's life gave a sign of life.
    Beat { group: u32, life: u32, now: u32 },
    /// A group's life ended well.
    Done { group: u32, life: u32, now: u32 },
    /// A rank gave a sign of life.
    RankBeat { rank: u32, now: u32 },
}

/// What a launcher answers.
#[derive(Clone, Copy, Debug, PartialEq, Eq)]
pub enum Action {
    /// Start a group for the first time; its life is 1.
    Start { group: u32, life: u32 },
    /// Start a silent group again, as its next life.
    Restart { group: u32, life: u32 },
    /// Leave a silent group that had its last life.
    GiveUp { group: u32 },
    /// Start a silent rank again.
    RestartRank { rank: u32 },
}

/// An action with its time.
#[derive(Clone, Copy, Debug, PartialEq, Eq)]
pub struct Timed {
    /// In seconds since the launcher's start.
    pub time: u32,
    pub action: Action,
}

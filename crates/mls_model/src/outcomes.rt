//! What becomes of an event at its rank, and the counts of it.

/// Why an event is foreign to a rank, in the order in which the reasons are tried.
#[derive(Clone, Copy, Debug, PartialEq, Eq)]
pub enum Reason {
    /// A save or a crash on a client lane, or a piece on a control lane.
    LaneKind,
    /// The piece's rows are not p + 2.
    Rows,
    /// The piece's group is not below the study's groups.
    Group,
    /// The piece's step number is not below the study's planes.
    Step,
    /// The piece's client is not below the study's clients.
    Client,
    /// The piece's cells are not the overlap of its client's part and the rank's block.
    Cells,
}

/// What becomes of an event at its rank.
#[derive(Clone, Copy, Debug, PartialEq, Eq)]
pub enum Outcome {
    /// The piece completes its key.
    Accepted,
    /// The piece waits for others of its key.
    Kept,
    /// The piece's key was completed before.
    Replay,
    /// A piece of its key with a greater life came before.
    Stale,
    /// A piece of its key, life and client came before.
    Repeated,
    Foreign(Reason),
    Quiet,
    Save,
    Crash,
}

/// The numbers of a rank's events with each outcome; `f1` to `f6` count the six reasons in their order.
#[derive(Clone, Copy, Debug, PartialEq, Eq)]
pub struct Counts {
    pub accepted: u64,
    pub kept: u64,
    pub replay: u64,
    pub stale: u64,
    pub repeated: u64,
    pub f1: u64,
    pub f2: u64,
    pub f3: u64,
    pub f4: u64,
    pub f5: u64,
    pub f6: u64,
}
